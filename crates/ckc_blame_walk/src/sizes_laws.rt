//! What follows from the definitions alone, each the contract of a function that does nothing.

ghost use Rattle.std.specs.Prelude.{◌≡◌, true};
ghost use Rattle.ckc_syntax_limits.specs.Small.{Small};
ghost use Rattle.ckc_typed.specs.declared.typed.Typed.{Typed};
ghost use Rattle.ckc_typed_welltyped.specs.Productions.{given_tree};
ghost use Rattle.ckc_blame_sound.specs.Sized.{AllocateSizes};
ghost use Rattle.ckc_blame_sound.specs.JudgedTexts.{IsJudged};

/// The elements that a `calloc` of a judged text makes have a size, if the grammar gives its tree and the tree keeps
/// the limits of a text: each structure that a type names has a body.
pub fn allocations_have_sizes()
    ensures { (p : Typed) (j : IsJudged p) → given_tree j.named.tree ≡ true → Small j.named.tree
        → AllocateSizes p }
{}
