//! What follows from the definitions alone, each the contract of a function that does nothing.

ghost use Rattle.std.specs.Prelude.{◌≡◌, ℕ, List, [], ◌∷◌, Option};
ghost use Rattle.std.specs.List.{All};
ghost use Rattle.ckc_base.specs.declared.arithmetic.Mode.{Mode};
ghost use Rattle.ckc_typed.specs.declared.typed.Typed.{Typed};
ghost use Rattle.ckc_source.specs.declared.stmt.Kept.{Kept};
ghost use Rattle.ckc_source.specs.declared.stmt.Spot.{Spot};
ghost use Rattle.ckc_source.specs.Code.{Code, Expr, Call, Return};
ghost use Rattle.ckc_source.specs.States.{State, Work, Rest, settled};
ghost use Rattle.ckc_source.specs.Steps.{source_step};
ghost use Rattle.ckc_build_elaborate.specs.Elaborated.{elaborated};
ghost use Rattle.ckc_blame_sound.specs.Calls.{store_in, arguments_of};
ghost use Rattle.ckc_blame_sound.specs.Sound.{Sound};
ghost use Rattle.ckc_blame_sound.specs.Moves.{IsSoundMove};
ghost use Rattle.ckc_blame_sound.specs.JudgedTexts.{IsJudged};
ghost use Rattle.ckc_blame_walk.specs.ckc_blame_nested.specs.Nested.{AreNested};
ghost use Rattle.ckc_blame_sound.specs.Values.{NamesIntegers};
ghost use Rattle.ckc_blame_control.specs.Ready.{Faces};
ghost use Rattle.ckc_blame_steps.specs.Unchecked.{MovesSoundly};
ghost use Rattle.ckc_blame_steps.specs.Arguments.{GiveWords, literals_before};
ghost use Rattle.ckc_blame_steps.specs.Callees.{HaveCallees, HaveFewVariables};
ghost use Rattle.ckc_blame_steps.specs.Results.{GivesWordIf, ObjectsKeepResults, ResultsAreKnown, ResultsLeadOn, returned_by};

/// The step of a call from a sound state enters a function soundly, or stops, or is stuck in code of
/// mode Unchecked, if each argument gives a word.
pub fn calls_keep_sound()
    ensures { (p : Typed) (s : State) (h : Sound p s) (j : IsJudged p) (spot : Spot)
        (target : Option Kept) (number : ℕ) (es : List Expr) (rest : Code) (next : List Work)
        (f : Faces h.setting (store_in p s.blocks s.frame) s.frame.entry
        (Call spot target number es) (Rest rest ∷ next)) → AreNested j.typed.tree.items
        → HaveFewVariables p → HaveCallees p
        → settled s.frame.work ≡ Rest (Call spot target number es rest) ∷ next
        → (m : Mode) → spot.mode ≡ m → All (NamesIntegers h.setting.frame) f.here.at.facts.list
        → GiveWords m h.setting (store_in p s.blocks s.frame) f.here.at
        (literals_before f.judged.after f.judged.literals) (arguments_of f.judged.before)
        (arguments_of f.judged.after) (record { value = 0; fresh = f.here.next })
        → MovesSoundly m p (source_step (elaborated p) s) }
{}

/// The bounds of each result that a program reads are known to the judgement.
pub fn results_are_known()
    ensures { (p : Typed) → IsJudged p → ResultsAreKnown p }
{}

/// The step of a return from a sound state leads to a sound state, or the run ends or stops, or is
/// stuck in code of mode Unchecked, if what is returned gives a word.
pub fn returns_keep_sound()
    ensures { (p : Typed) (s : State) (h : Sound p s) (spot : Spot) (e : Expr) (rest : Code)
        (next : List Work)
        (f : Faces h.setting (store_in p s.blocks s.frame) s.frame.entry (Return spot e)
        (Rest rest ∷ next)) → IsJudged p → HaveFewVariables p → HaveCallees p → ResultsLeadOn p
        → ObjectsKeepResults p
        → settled s.frame.work ≡ Rest (Return spot e rest) ∷ next → (m : Mode) → spot.mode ≡ m
        → All (NamesIntegers h.setting.frame) f.here.at.facts.list
        → GivesWordIf m h.setting (store_in p s.blocks s.frame) f.here.at f.judged.literals
        (returned_by f.judged.before) (returned_by f.judged.after)
        (record { value = 0; fresh = f.here.next })
        → MovesSoundly m p (source_step (elaborated p) s) }
{}

/// A function that falls off its end returns 0, and that keeps states sound.
pub fn ends_keep_sound()
    ensures { (p : Typed) (s : State) → Sound p s → IsJudged p → HaveFewVariables p
        → HaveCallees p → ResultsLeadOn p → ObjectsKeepResults p
        → settled s.frame.work ≡ [] → IsSoundMove p (source_step (elaborated p) s) }
{}
