//! What follows from the definitions alone, each the contract of a function that does nothing.

ghost use Rattle.std.specs.Prelude.{◌≡◌, true, All};
ghost use Rattle.ckc_syntax.specs.declared.tree.NamedText.{NamedText};
ghost use Rattle.ckc_resolve.specs.Trees.{Tree};
ghost use Rattle.ckc_resolve.specs.Phase.{naming};
ghost use Rattle.ckc_typed_welltyped.specs.Productions.{spoken_tree};
ghost use Rattle.ckc_typed_fit.specs.Bodies.{FunctionsHaveBodies, HasMain};
ghost use Rattle.ckc_typed_fit.specs.Locals.{item_locals};
ghost use Rattle.ckc_typed_fit.specs.Members.{item_members, AreDifferent};
ghost use Rattle.ckc_typed_fit.specs.Numbers.{static_numbers, CountsFrom, function_numbers, tag_numbers, CountsUp};
ghost use Rattle.ckc_typed_fit.specs.Visible.{NamesAreVisible, TagsHaveBodies};

/// The grammar gives a tree whose names are resolved exactly when it gives the tree of the spellings: each `calloc` stands
/// in the same place, and so do declarations, and the parts of bundles, of `for` and of structures.
pub fn names_keep_form()
    ensures form { (t : Tree) (n : NamedText) →
        naming.Makes t n → spoken_tree n.tree ≡ spoken_tree t }
{}

/// The objects of file scope have the numbers from 0 on, in the order of the text: so each is declared once, and no two
/// have one number.
pub fn statics_are_numbered()
    ensures counted { (t : Tree) (n : NamedText) →
        naming.Makes t n → CountsFrom 0 (static_numbers n.tree.items) }
{}

/// Functions and tags have the numbers from 0 on, in the order of their first declarations.
pub fn functions_and_tags_are_numbered()
    ensures functions { (t : Tree) (n : NamedText) →
        naming.Makes t n → CountsUp 0 (function_numbers n.tree.items) }
    ensures tags { (t : Tree) (n : NamedText) →
        naming.Makes t n → CountsUp 0 (tag_numbers n.tree.items) }
{}

/// The locals of each function and of each prototype have the numbers from 0 on, in the order of the text, parameters
/// first: so each is declared once.
pub fn locals_are_numbered()
    ensures counted { (t : Tree) (n : NamedText) →
        naming.Makes t n → All (λ i. CountsFrom 0 (item_locals i)) n.tree.items }
{}

/// The members of one structure have different numbers.
pub fn members_differ()
    ensures differ { (t : Tree) (n : NamedText) →
        naming.Makes t n → All (λ i. AreDifferent (item_members i)) n.tree.items }
{}

/// Each name is declared and visible where it stands (ISO C11, 6.2.1), and each tag that a type names has a body.
pub fn names_are_visible()
    ensures names { (t : Tree) (n : NamedText) → naming.Makes t n → NamesAreVisible n.tree.items }
    ensures tags { (t : Tree) (n : NamedText) → naming.Makes t n → TagsHaveBodies n.tree.items }
{}

/// Each function has one body, with the head of its prototypes.
pub fn functions_have_bodies()
    ensures bodies { (t : Tree) (n : NamedText) → naming.Makes t n
        → FunctionsHaveBodies n.tree.items }
{}

/// The function `main` has a body and the head `int main(void)` (ISO C11, 5.1.2.2.1).
pub fn has_main()
    ensures main { (t : Tree) (n : NamedText) → naming.Makes t n → HasMain n }
{}
