//! What holds of the definitions.

ghost use Rattle.std.specs.Prelude.{◌≡◌, Some};
ghost use Rattle.ckc_base.specs.declared.places.Refusal.{Refusal};
ghost use Rattle.ckc_base.specs.Phases.{IsExact};
ghost use Rattle.ckc_syntax.specs.declared.tree.NamedText.{NamedText};
ghost use Rattle.ckc_resolve.specs.Codes.{IsCode};
ghost use Rattle.ckc_resolve.specs.Trees.{Tree};
ghost use Rattle.ckc_resolve.specs.Phase.{naming, place_of_main};

/// A tree has one text of names or one first error: never two, never both, never neither.
pub fn is_exact()
    ensures exact { IsExact naming }
{}

/// Names are refused with the codes 301 to 304.
pub fn codes()
    ensures codes { (tree : Tree) (r : Refusal) → naming.Refuses tree r → IsCode r.code }
{}

/// A text whose names are right declares the function `main`, and its number is that of `main`.
pub fn declares_main()
    ensures declared { (t : Tree) (n : NamedText) → naming.Makes t n → place_of_main t
        ≡ Some n.main }
{}
