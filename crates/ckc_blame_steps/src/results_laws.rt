//! What follows from the definitions alone, each the contract of a function that does nothing.

ghost use Rattle.std.specs.Prelude.{ℕ, List};
ghost use Rattle.std.specs.List.{flat_map};
ghost use Rattle.ckc_base.specs.declared.arithmetic.Mode.{Mode};
ghost use Rattle.ckc_typed.specs.declared.environment.Globals.{Globals};
ghost use Rattle.ckc_typed.specs.declared.typed.Typed.{Typed};
ghost use Rattle.ckc_typed.specs.Statics.{strings_of_expr};
ghost use Rattle.ckc_typed.specs.Trees.{NotedExpr};
ghost use Rattle.ckc_blame_sound.specs.ckc_bounds_statements.specs.Paths.{Here};
ghost use Rattle.ckc_blame_sound.specs.ckc_bounds_stores.specs.declared.values.Numbered.{Numbered};
ghost use Rattle.ckc_source.specs.Eval.{Store};
ghost use Rattle.ckc_build_values.specs.Expressions.{expr_elaborated};
ghost use Rattle.ckc_blame_sound.specs.Points.{HoldsAt};
ghost use Rattle.ckc_blame_sound.specs.Settings.{Setting, AreStrings};
ghost use Rattle.ckc_blame_sound.specs.Typed.{Agrees};
ghost use Rattle.ckc_blame_sound.specs.JudgedTexts.{IsJudged};
ghost use Rattle.ckc_blame_given.specs.ckc_blame_pointers.specs.Covered.{DeclareLocals, IsSoundStore};
ghost use Rattle.ckc_blame_steps.specs.Arguments.{GivesWord, GiveWords};
ghost use Rattle.ckc_blame_steps.specs.Callees.{HaveCallees, HaveFewVariables};
ghost use Rattle.ckc_blame_steps.specs.Results.{ObjectsKeepResults, ResultsLeadOn};
ghost use Rattle.ckc_blame_steps.specs.Givable.{IsGivable, AreGivable};
ghost use Rattle.ckc_blame_steps.specs.Spared.{SpareResults};

/// Each function of a judged text that has a signature is the one with its number in the program,
/// and is called by its own head and with its own parameters.
pub fn callees_are_known()
    ensures { (p : Typed) → IsJudged p → HaveCallees p }
{}

/// The point after a call in a judged text holds once its result is kept, if the bounds of no
/// result name a local that the function declares.
pub fn points_after_results_hold()
    ensures { (p : Typed) → IsJudged p → HaveFewVariables p → SpareResults p → ResultsLeadOn p }
{}

/// A result of a call in a judged text that goes to a static object is stored there: blocks stay
/// sound, each range that was true is, and each checked pointer in memory may be read.
pub fn objects_keep_results()
    ensures { (p : Typed) → IsJudged p → HaveFewVariables p → ObjectsKeepResults p }
{}

/// An expression that is covered, whose string literals are static objects from a number on, gives
/// a word to what it is returned or passed as, or stops at a named check, or is stuck in code of mode
/// Unchecked, and the arguments of a call do if each is, with their numbers one after another.
pub fn covered_give_words()
    ensures one { (m : Mode) (globals : Globals) (s : Setting) (entry : List ℕ) (here : Here)
        (next : ℕ) (store : Store) → Agrees globals s → DeclareLocals s → IsSoundStore s store next
        → HoldsAt s store entry here → (e f : NotedExpr) (k : ℕ) (from : Numbered)
        → IsGivable m globals s store here e f from → AreStrings s k (strings_of_expr f)
        → GivesWord m s store here.at e (expr_elaborated s.text s.variables k f) from }
    ensures each { (m : Mode) (globals : Globals) (s : Setting) (entry : List ℕ) (here : Here)
        (next : ℕ) (store : Store) → Agrees globals s → DeclareLocals s → IsSoundStore s store next
        → HoldsAt s store entry here → (es fs : List NotedExpr) (k : ℕ) (from : Numbered)
        → AreGivable m globals s store here es fs from
        → AreStrings s k (flat_map strings_of_expr fs) → GiveWords m s store here.at k es fs from }
{}
