//! What follows from the definitions alone, each the contract of a function that does nothing.

ghost use Rattle.std.specs.Prelude.{◌≡◌, ℕ, true, List};
ghost use Rattle.ckc_base.specs.Lists.{AreBytes};
ghost use Rattle.ckc_base.specs.Phases.{◌>=>◌};
ghost use Rattle.ckc_syntax.specs.Spelled.{Tokens};
ghost use Rattle.ckc_syntax.specs.declared.tree.NamedText.{NamedText};
ghost use Rattle.ckc_parser.specs.Phase.{SpelledTree, parsing};
ghost use Rattle.ckc_plain.specs.Phase.{resolving};
ghost use Rattle.ckc_scopes.specs.Phase.{scoping};
ghost use Rattle.ckc_blame_sound.specs.ckc_bounds.specs.Phase.{bounding};
ghost use Rattle.ckc_typed_welltyped.specs.Texts.{TypedAs};
ghost use Rattle.ckc_syntax_limits.specs.Small.{Small};
ghost use Rattle.ckc_typed.specs.declared.typed.Typed.{Typed};
ghost use Rattle.ckc_typed_welltyped.specs.Productions.{given_tree};
ghost use Rattle.ckc_source.specs.Blocks.{Block};
ghost use Rattle.ckc_source.specs.Code.{Function};
ghost use Rattle.ckc_source.specs.LaidOut.{IsLaidOut};
ghost use Rattle.ckc_source.specs.Source.{first_state};
ghost use Rattle.ckc_source.specs.States.{entered};
ghost use Rattle.ckc_build_elaborate.specs.Elaborated.{elaborated};
ghost use Rattle.ckc_build_elaborate.specs.Shapes.{shapes_elaborated};
ghost use Rattle.ckc_blame_sound.specs.Settings.{Setting, IsFunction};
ghost use Rattle.ckc_blame_sound.specs.Slots.{AreFilled};
ghost use Rattle.ckc_blame_sound.specs.Calls.{Stands};
ghost use Rattle.ckc_blame_sound.specs.Sound.{Sound};
ghost use Rattle.ckc_blame_sound.specs.Cells.{AreSound};
ghost use Rattle.ckc_blame_sound.specs.Limited.{AreSlotParts, store_with};
ghost use Rattle.ckc_blame_sound.specs.JudgedTexts.{IsJudged};
ghost use Rattle.ckc_blame_nested.specs.Nested.{AreNested};
ghost use Rattle.ckc_blame_walk.specs.Entries.{IsCodeJudged, MayEnter};
ghost use Rattle.ckc_blame_walk.specs.Ready.{first_blocks, next_behind, HaveSizes, NameMembers, HasObjects, HasFunctions};

use ckc_blame_nested::judged_texts_are_nested;
use ckc_typed_plain::{plain_texts_are_given, plain_texts_are_within};
use ckc_typed_wellformed::trees_are_given;

/// A function that is entered with values that it may be entered with stands at its first point, if its code is
/// judged from there.
pub fn functions_are_entered()
    ensures { (p : Typed) (blocks : List Block) (s : Setting) (f : Function) (values : List ℕ)
        (i : IsFunction p s f) → IsCodeJudged s i.head f.body
        → MayEnter p blocks s f i.head values → Stands p blocks (entered f values) s }
{}

/// The static objects and string literals of a judged text lie as they must, null-terminated ones end with zero, and
/// each checked pointer in them is null, so that it may be read.
pub fn objects_are_sound()
    ensures sound { (q p : Typed) → HasObjects q p → AreSound p (first_blocks p) (next_behind p) }
    ensures filled { (q p : Typed) (locals : List ℕ) → HasObjects q p
        → AreFilled p (store_with (shapes_elaborated p.layout) (first_blocks p) locals) }
{}

/// The elements of the static objects of a judged text have sizes, if the grammar gives its tree and the tree keeps
/// the limits of a text: each structure that a type names has a body.
pub fn objects_have_sizes()
    ensures { (p : Typed) (j : IsJudged p) → given_tree j.named.tree ≡ true → Small j.named.tree
        → HaveSizes p }
{}

/// The bounds of members name members of the same structure. So a slot of an element in a judged text is a pointer of
/// the element, and the member that its count names is a part of the element too.
pub fn slots_are_parts()
    ensures named { (p : Typed) → IsJudged p → NameMembers p.layout }
    ensures parts { (p : Typed) → IsJudged p → AreSlotParts p }
{}

/// The first state of the program of a judged text is sound, with any input of bytes: `main` stands at its first
/// point.
pub fn first_state_is_sound()
    ensures ready { (q p : Typed) (input : List ℕ) → HasObjects q p → HasFunctions p
        → AreBytes input → Sound p (first_state (elaborated p) input) }
    ensures judged { (p : Typed) (input : List ℕ) (j : IsJudged p)
        → given_tree j.named.tree ≡ true → Small j.named.tree → AreNested j.typed.tree.items
        → IsLaidOut (elaborated p) → AreBytes input → Sound p (first_state (elaborated p) input) }
{}

/// So it is if the phases make the text of tokens: the grammar gives its tree, and the plain tree has calls apart from
/// other expressions and keeps the limits of a text.
pub fn phases_begin_soundly()
    ensures { (tokens : Tokens) (whole : SpelledTree) (named : NamedText) (typed p : Typed)
        (input : List ℕ) → parsing.Makes tokens whole → resolving.Makes whole named
        → TypedAs named typed → (scoping >=> bounding).Makes typed p → IsLaidOut (elaborated p)
        → AreBytes input → Sound p (first_state (elaborated p) input) }
{
    trees_are_given();
    plain_texts_are_given();
    plain_texts_are_within();
    judged_texts_are_nested();
    first_state_is_sound();
}
