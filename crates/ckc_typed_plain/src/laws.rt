//! What follows from the definitions alone, each the contract of a function that does nothing.

ghost use Rattle.std.specs.Prelude.{◌≡◌, true, All};
ghost use Rattle.ckc_syntax.specs.declared.tree.NamedText.{NamedText};
ghost use Rattle.ckc_syntax.specs.Trees.{Tree};
ghost use Rattle.ckc_syntax_limits.specs.Small.{Small};
ghost use Rattle.ckc_plain.specs.Phase.{resolving};
ghost use Rattle.ckc_typed_welltyped.specs.Productions.{spoken_tree, given_tree};
ghost use Rattle.ckc_typed_fit.specs.Bodies.{FunctionsHaveBodies, HasMain};
ghost use Rattle.ckc_typed_fit.specs.Fit.{Fit};
ghost use Rattle.ckc_typed_fit.specs.Locals.{item_params, item_locals};
ghost use Rattle.ckc_typed_fit.specs.Members.{item_members, AreDifferent};
ghost use Rattle.ckc_typed_fit.specs.Visible.{NamesAreVisible, TagsHaveBodies};
ghost use Rattle.ckc_typed_fit.specs.Numbers.{static_numbers, CountsFrom, AreNumbered, function_numbers, tag_numbers, CountsUp};

/// The objects of file scope, functions, tags and members of a plain text are numbered as those of the text before.
pub fn plain_items_stay()
    ensures statics { (t : Tree) (n : NamedText) →
        resolving.Makes t n → CountsFrom 0 (static_numbers n.tree.items) }
    ensures functions { (t : Tree) (n : NamedText) →
        resolving.Makes t n → CountsUp 0 (function_numbers n.tree.items) }
    ensures tags { (t : Tree) (n : NamedText) →
        resolving.Makes t n → CountsUp 0 (tag_numbers n.tree.items) }
    ensures members { (t : Tree) (n : NamedText) →
        resolving.Makes t n → All (λ i. AreDifferent (item_members i)) n.tree.items }
    ensures bodies { (t : Tree) (n : NamedText) → resolving.Makes t n
        → FunctionsHaveBodies n.tree.items }
    ensures main { (t : Tree) (n : NamedText) → resolving.Makes t n → HasMain n }
{}

/// A plain text keeps the limits of a text.
pub fn plain_texts_are_within()
    ensures small { (t : Tree) (n : NamedText) → resolving.Makes t n → Small n.tree }
{}

/// A plain text that is made of a tree that the grammar gives has calls as whole right sides and call statements alone.
pub fn plain_texts_are_given()
    ensures given { (t : Tree) (n : NamedText) → spoken_tree t ≡ true → resolving.Makes t n
        → given_tree n.tree ≡ true }
{}

/// Each name in such a text is declared and visible where it stands, fresh locals too, and each tag that a type names has
/// a body.
pub fn plain_names_are_visible()
    ensures names { (t : Tree) (n : NamedText) → spoken_tree t ≡ true → resolving.Makes t n
        → NamesAreVisible n.tree.items }
    ensures tags { (t : Tree) (n : NamedText) → spoken_tree t ≡ true → resolving.Makes t n
        → TagsHaveBodies n.tree.items }
{}

/// The parameters of each function have the numbers 0, 1, 2 and so on, and all its locals, fresh ones too, those from 0
/// on, each once.
pub fn plain_locals_are_numbered()
    ensures params { (t : Tree) (n : NamedText) →
        resolving.Makes t n → All (λ i. CountsFrom 0 (item_params i)) n.tree.items }
    ensures locals { (t : Tree) (n : NamedText) →
        resolving.Makes t n → All (λ i. AreNumbered (item_locals i)) n.tree.items }
{}

/// A plain text that is made of a tree that the grammar gives is one that later phases may rely on.
pub fn plain_texts_fit()
    ensures fit { (t : Tree) (n : NamedText) → spoken_tree t ≡ true → resolving.Makes t n
        → Fit n }
{}
