//! What follows from the definitions alone, each the contract of a function that does nothing.

ghost use Rattle.std.specs.Prelude.{◌≡◌, true, List};
ghost use Rattle.ckc_syntax.specs.Spelled.{Spelled};
ghost use Rattle.ckc_syntax.specs.Trees.{Tree};
ghost use Rattle.ckc_syntax.specs.declared.tree.NamedText.{NamedText};
ghost use Rattle.ckc_grammar.specs.Text.{DerivesTree};
ghost use Rattle.ckc_plain.specs.Phase.{resolving};
ghost use Rattle.ckc_typed.specs.declared.typed.Typed.{Typed};
ghost use Rattle.ckc_typed_welltyped.specs.Productions.{spoken_tree};
ghost use Rattle.ckc_typed_welltyped.specs.Texts.{TypedAs};
ghost use Rattle.ckc_blame_nested.specs.Nested.{AreNested};

/// In the tree that tokens derive no branch of an `if` and no body of a loop is a declaration, and no `break` and no
/// `continue` leaves what a `for` begins with or its step.
pub fn texts_are_nested()
    ensures nested { (xs : List Spelled) (whole : Tree) → DerivesTree xs whole
        → AreNested whole.items }
{}

/// So it is in the plain text that is made of such a tree, once its types are known, before its bounds are judged.
pub fn judged_texts_are_nested()
    ensures nested { (whole : Tree) (named : NamedText) (typed : Typed) →
        spoken_tree whole ≡ true → resolving.Makes whole named → TypedAs named typed
        → AreNested typed.tree.items }
{}
