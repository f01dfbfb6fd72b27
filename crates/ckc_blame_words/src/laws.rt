//! What follows from the definitions alone, each the contract of a function that does nothing.

ghost use Rattle.std.specs.Prelude.{◌≡◌, ℕ, List, true};
ghost use Rattle.ckc_base.specs.Phases.{◌>=>◌};
ghost use Rattle.ckc_syntax.specs.Spelled.{Tokens};
ghost use Rattle.ckc_syntax.specs.Trees.{Tree, NamedTree};
ghost use Rattle.ckc_syntax.specs.declared.tree.NamedText.{NamedText};
ghost use Rattle.ckc_lexer.specs.Phase.{lexing};
ghost use Rattle.ckc_parser.specs.Phase.{parsing};
ghost use Rattle.ckc_resolve.specs.Phase.{naming};
ghost use Rattle.ckc_plain.specs.Phase.{resolving};
ghost use Rattle.ckc_plain.specs.ckc_plain_bodies.specs.Statements.{plain};
ghost use Rattle.ckc_scopes.specs.Phase.{scoping};
ghost use Rattle.ckc_blame_sound.specs.ckc_bounds.specs.Phase.{bounding};
ghost use Rattle.ckc_typed.specs.declared.typed.Typed.{Typed};
ghost use Rattle.ckc_typed_welltyped.specs.Texts.{TypedAs};
ghost use Rattle.ckc_blame_sound.specs.Words.{HaveWords};
ghost use Rattle.ckc_blame_words.specs.Literals.{TokensHoldWords, tree_has_words};

/// The tokens of a text hold words: the lexer refuses a larger number, and a character is a byte.
pub fn tokens_hold_words()
    ensures { (text : List ℕ) (tokens : Tokens) → lexing.Makes text tokens
        → TokensHoldWords tokens.list }
{}

/// In the tree that such tokens derive each literal number is a word, and each string is made of
/// bytes.
pub fn trees_have_words()
    ensures { (tokens : Tokens) (whole : Tree) → TokensHoldWords tokens.list
        → parsing.Makes tokens whole → tree_has_words whole ≡ true }
{}

/// A tree with its names has only words as literals exactly when the tree of the spellings has.
pub fn names_keep_words()
    ensures { (whole : Tree) (named : NamedText) → naming.Makes whole named
        → tree_has_words named.tree ≡ tree_has_words whole }
{}

/// So has a tree without effects in its expressions if the tree before has: all that is new in it are 0 and 1.
pub fn plain_trees_keep_words()
    ensures { (tree : NamedTree) → tree_has_words tree ≡ true → tree_has_words (plain tree) ≡ true }
{}

/// So has a typed text, exactly when the text before it had types has.
pub fn types_keep_words()
    ensures { (named : NamedText) (typed : Typed) → TypedAs named typed
        → tree_has_words typed.tree ≡ tree_has_words named.tree }
{}

/// So has a text whose bounds are judged, exactly when the typed text has.
pub fn judging_keeps_words()
    ensures { (typed p : Typed) → bounding.Makes typed p
        → tree_has_words p.tree ≡ tree_has_words typed.tree }
{}

/// The literals of every text that the phases accept are words.
pub fn literals_are_words()
    ensures tree { (p : Typed) → tree_has_words p.tree ≡ true → HaveWords p }
    ensures text { (text : List ℕ) (tokens : Tokens) (whole : Tree) (named : NamedText)
        (typed p : Typed) → lexing.Makes text tokens → parsing.Makes tokens whole
        → resolving.Makes whole named → TypedAs named typed → (scoping >=> bounding).Makes typed p
        → HaveWords p }
{}
