//! What follows from the definitions alone, each the contract of a function that does nothing.

ghost use Rattle.std.specs.Prelude.{◌≡◌, ℕ, List, Option};
ghost use Rattle.ckc_base.specs.declared.arithmetic.Mode.{Mode};
ghost use Rattle.ckc_syntax.specs.declared.tree.Name.{Name};
ghost use Rattle.ckc_syntax.specs.declared.tree.Act.{out-Act};
ghost use Rattle.ckc_syntax_limits.specs.Small.{Small};
ghost use Rattle.ckc_typed.specs.declared.typed.Note.{Note};
ghost use Rattle.ckc_typed.specs.declared.typed.Typed.{Typed};
ghost use Rattle.ckc_blame_sound.specs.ckc_bounds_statements.specs.Paths.{Here};
ghost use Rattle.ckc_source.specs.declared.stmt.Kept.{Kept};
ghost use Rattle.ckc_source.specs.declared.stmt.Spot.{Spot};
ghost use Rattle.ckc_source.specs.Code.{Code, End, Expr, Function, Call, Return};
ghost use Rattle.ckc_source.specs.Eval.{Store};
ghost use Rattle.ckc_source.specs.Steps.{spot_in};
ghost use Rattle.ckc_blame_sound.specs.Calls.{arguments_of};
ghost use Rattle.ckc_blame_sound.specs.Safe.{AreSafe};
ghost use Rattle.ckc_blame_sound.specs.Settings.{Setting, IsFunction};
ghost use Rattle.ckc_blame_sound.specs.Steps.{IsStep};
ghost use Rattle.ckc_blame_sound.specs.Words.{HaveWords};
ghost use Rattle.ckc_blame_sound.specs.JudgedTexts.{IsJudged};
ghost use Rattle.ckc_blame_steps.specs.Before.{Premises, AreCoveredThere, IsCoveredIf};
ghost use Rattle.ckc_blame_steps.specs.Granted.{IsCoveredAct};
ghost use Rattle.ckc_blame_steps.specs.Results.{returned_by};
ghost use Rattle.ckc_blame_steps.specs.Unchecked.{StoresSafely};

/// The expressions of a step of a mode of a judged text that stores through no unchecked pointer are
/// covered once they are judged, if the names there are told and expressions without calls are spoken
/// of; so are the arguments of a call, and what is returned. The text is small, its literals are
/// words, and its checked expressions are safe.
pub fn steps_are_covered()
    ensures step { (m : Mode) (p : Typed) (s : Setting) (f : Function) (store : Store)
        (here there : Here) (step : Code → Code) (end : Spot) (j : IsJudged p) → Small j.named.tree
        → HaveWords p → AreSafe p → IsFunction p s f → (i : IsStep s here step there)
        → (spot_in end (step End)).mode ≡ m → StoresSafely m (step End)
        → Premises m p s store here i.before
        → IsCoveredAct m s store here.seen (out-Act Name Note i.after.body) }
    ensures arguments { (m : Mode) (p : Typed) (s : Setting) (f : Function) (store : Store)
        (here there : Here) (spot : Spot) (target : Option Kept) (number : ℕ) (es : List Expr)
        (j : IsJudged p) → Small j.named.tree → HaveWords p → AreSafe p
        → IsFunction p s f → (i : IsStep s here (Call spot target number es) there)
        → spot.mode ≡ m → Premises m p s store here i.before
        → AreCoveredThere m p s store here (arguments_of i.before) (arguments_of i.after)
        here.next }
    ensures returned { (m : Mode) (p : Typed) (s : Setting) (f : Function) (store : Store)
        (here there : Here) (spot : Spot) (e : Expr) (j : IsJudged p) → Small j.named.tree
        → HaveWords p → AreSafe p → IsFunction p s f
        → (i : IsStep s here (Return spot e) there) → spot.mode ≡ m
        → Premises m p s store here i.before
        → IsCoveredIf m p s store here (returned_by i.before) (returned_by i.after) here.next }
{}
