//! What follows from the definitions alone, each the contract of a function that does nothing.

ghost use Rattle.std.specs.Prelude.{◌<◌, ◌^◌, length};
ghost use Rattle.ckc_base.specs.declared.arithmetic.Mode.{Mode};
ghost use Rattle.ckc_typed.specs.declared.typed.Typed.{Typed};
ghost use Rattle.ckc_source.specs.Code.{Expr};
ghost use Rattle.ckc_source.specs.Eval.{evaluated};
ghost use Rattle.ckc_source.specs.States.{State};
ghost use Rattle.ckc_blame_sound.specs.Calls.{store_in};
ghost use Rattle.ckc_blame_sound.specs.Sound.{Sound};
ghost use Rattle.ckc_blame_sound.specs.Words.{HaveWords};
ghost use Rattle.ckc_blame_sound.specs.JudgedTexts.{IsJudged};
ghost use Rattle.ckc_blame_given.specs.ckc_blame_pointers.specs.Covered.{DeclareLocals};
ghost use Rattle.ckc_blame_given.specs.ckc_blame_pointers.specs.Owed.{Runs};
ghost use Rattle.ckc_blame_control.specs.Decided.{IsDecided};
ghost use Rattle.ckc_blame_steps.specs.Tests.{AreTestsCovered};

/// Wherever an expression is the condition of a statement at a point that holds, in a sound state, it leads to a side
/// of it that holds, or stops at a named check: in checked code always, and in unchecked code if it is not stuck.
pub fn conditions_are_decided()
    ensures { (p : Typed) (s : State) (h : Sound p s) (m : Mode) (e : Expr) → IsJudged p
        → HaveWords p → length h.setting.variables < 2 ^ 32 → DeclareLocals h.setting
        → AreTestsCovered h.setting → Runs m (evaluated (store_in p s.blocks s.frame) e)
        → IsDecided h.setting m (store_in p s.blocks s.frame) s.frame.entry e }
{}
