//! What follows from the definitions alone, each the contract of a function that does nothing.

ghost use Rattle.ckc_typed.specs.declared.typed.Typed.{Typed};
ghost use Rattle.ckc_source.specs.Code.{Function};
ghost use Rattle.ckc_blame_sound.specs.Settings.{Setting, IsFunction};
ghost use Rattle.ckc_blame_sound.specs.Limited.{AreSlotParts};
ghost use Rattle.ckc_blame_sound.specs.JudgedTexts.{IsJudged};
ghost use Rattle.ckc_blame_given.specs.ckc_blame_pointers.specs.Covered.{DeclareLocals};
ghost use Rattle.ckc_blame_steps.specs.Plans.{AllocateSoundly};

/// A `calloc` that is drawn at a step of a judged text, in a state at a point that holds, comes to
/// a null pointer or to a new block of as many elements as it counts, or stops at a named check, or
/// is stuck in code of mode Unchecked; the point holds after, and the word goes to a place of the
/// type that it converts to with the range that is judged.
pub fn allocations_draw()
    ensures { (p : Typed) → IsJudged p → AreSlotParts p
        → ((s : Setting) (f : Function) → IsFunction p s f → DeclareLocals s)
        → AllocateSoundly p }
{}
