//! What holds of the definitions.

ghost use Rattle.std.specs.Prelude.{◌≡◌, ◌≤◌, ◌↔◌, ◌⊎◌, ℕ, ℤ, List, slice_get, Some};
ghost use Rattle.ckc_base.specs.declared.places.Refusal.{Refusal};
ghost use Rattle.ckc_base.specs.Phases.{IsExact};
ghost use Rattle.ckc_asm.specs.Items.{Statement};
ghost use Rattle.ckc_asm.specs.Program.{AreStatements, IsWordOf, size_of};
ghost use Rattle.ckc_asm.specs.Phase.{assembling};
ghost use Rattle.ckc_asm.specs.Ranges.{IsInRange};

/// A text is assembly of one entry, code and list of initial bytes, or it has one first fault: never both, never
/// neither.
pub fn is_exact()
    ensures { IsExact assembling }
{}

/// The codes of the refusals: 201, and 801 to 805.
pub fn codes()
    ensures { (text : List ℕ) (r : Refusal) → assembling.Refuses text r →
        (r.code ≡ 201) ⊎ ((801 ≤ r.code) × (r.code ≤ 805)) }
{}

/// An item with a number has a word exactly when the number is in range, and is even if it is an offset of a branch
/// or of JAL.
pub fn words_by_range()
    ensures { (text : List ℕ) (statements : List Statement) (k : ℕ) (s : Statement) (z : ℤ) →
        AreStatements text statements → slice_get statements k ≡ Some s → size_of s ≡ 4 →
        ((word : ℕ) × IsWordOf s.item.form z word) ↔ IsInRange s.item.form z }
{}
