//! Laws of the formats.

ghost use Rattle.std.specs.Prelude.{◌≡◌, ℕ, List};
ghost use Rattle.ckc_image.specs.Image.{Format, ImageOf, FirstBad};

/// What was written reads back: an image has no bad part, and it has one format and one set of parts.
pub fn write_then_read()
    ensures good { (format : Format) (bytes code initial : List ℕ) (entry k : ℕ)
        → ImageOf format bytes entry code initial → ¬ FirstBad bytes k }
    ensures parts { (format format' : Format) (bytes code initial code' initial' : List ℕ)
        (entry entry' : ℕ)
        → ImageOf format bytes entry code initial → ImageOf format' bytes entry' code' initial'
        → (format ≡ format') × (entry ≡ entry') × (code ≡ code') × (initial ≡ initial') }
{}

/// What was read is written with the same bytes in the same format: a set of parts has one spelling in each.
pub fn read_then_write()
    ensures { (format : Format) (bytes bytes' code initial : List ℕ) (entry : ℕ)
        → ImageOf format bytes entry code initial → ImageOf format bytes' entry code initial
        → bytes ≡ bytes' }
{}

/// Bytes have at most one first bad part.
pub fn one_first_bad()
    ensures { (bytes : List ℕ) (k k' : ℕ) → FirstBad bytes k → FirstBad bytes k' → k ≡ k' }
{}
