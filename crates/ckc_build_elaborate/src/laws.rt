//! What follows from the definitions, each the contract of a function that does nothing.

ghost use Rattle.std.specs.Prelude.{◌≡◌, ◌<◌, length, map};
ghost use Rattle.ckc_syntax.specs.declared.tree.Name.{Name};
ghost use Rattle.ckc_syntax.specs.declared.tree.NamedText.{NamedText};
ghost use Rattle.ckc_typed.specs.declared.typed.Typed.{Typed};
ghost use Rattle.ckc_typing.specs.Objects.{LieApart, HaveRoom};
ghost use Rattle.ckc_typing.specs.Phase.{typing};
ghost use Rattle.ckc_source.specs.LaidOut.{HoldBytes, IsLaidOut};
ghost use Rattle.ckc_source.specs.Blocks.{block_of};
ghost use Rattle.ckc_build_elaborate.specs.Names.{number_of};
ghost use Rattle.ckc_build_elaborate.specs.Elaborated.{elaborated};
ghost use Rattle.ckc_typed.specs.Trees.{NotedItem};
ghost use Rattle.ckc_typed.specs.Statics.{strings_of_item};
ghost use Rattle.ckc_build_elaborate.specs.Functions.{literals_of_item};
ghost use Rattle.ckc_build_elaborate.specs.Bodies.{IsDefined};

/// The types phase keeps which functions are defined, and the number of `main`.
pub fn functions_are_kept()
    ensures kept { (t : NamedText) (p : Typed) (n : Name) → typing.Makes t p →
        IsDefined n t.tree.items → IsDefined n p.tree.items }
    ensures main { (t : NamedText) (p : Typed) → typing.Makes t p → p.main ≡ t.main }
{}

/// A function that is defined has a number of the program's functions, `main` too.
pub fn functions_are_there()
    ensures there { (p : Typed) (n : Name) → IsDefined n p.tree.items →
        number_of n p.tree.items < length (elaborated p).functions }
{}

/// The objects of a program are laid out, if the static objects of the typed text lie apart and have room for the
/// bytes that they begin with, as the types phase makes them, and the objects hold bytes.
pub fn objects_are_laid_out()
    ensures laid_out { (p : Typed) → LieApart p.layout p.statics → HaveRoom p.layout p.statics →
        HoldBytes (map block_of (elaborated p).objects) → IsLaidOut (elaborated p) }
{}

/// As many string literals are counted in an item as make blocks.
pub fn literals_are_counted()
    ensures counted { (i : NotedItem) → literals_of_item i ≡ length (strings_of_item i) }
{}
