//! What follows from the definitions alone.

ghost use Rattle.std.specs.Prelude.{◌≡◌, ℕ, slice_get, Some};
ghost use Rattle.ckc_base.specs.Phases.{IsExact};
ghost use Rattle.ckc_base.specs.declared.places.Refusal.{Refusal};
ghost use Rattle.ckc_syntax.specs.declared.tree.Name.TheVariants as name;
ghost use Rattle.ckc_syntax.specs.declared.tree.NamedText.{NamedText};
ghost use Rattle.ckc_typed.specs.declared.typed.Typed.{Typed};
ghost use Rattle.ckc_typed.specs.Trees.{NotedDecl};
ghost use Rattle.ckc_typed.specs.Statics.{object_of};
ghost use Rattle.ckc_typing.specs.Objects.{LieApart, HaveRoom, AreNumbered, objects_declared};
ghost use Rattle.ckc_typing.specs.Phase.{typing, IsTypeCode};

/// A text has one typed text or one first error: never two, never both, never neither.
pub fn is_exact()
    ensures exact { IsExact typing }
{}

/// Each refusal is E401 to E407 or E206.
pub fn codes()
    ensures codes { (t : NamedText) (r : Refusal) → typing.Refuses t r → IsTypeCode r.code }
{}

/// The static objects of a typed text lie apart: each begins at a multiple of 8, the first at 0x02000008, each at least
/// 8 bytes past the end of every one before it, and none ends past 0x02400000.
pub fn statics_lie_apart()
    ensures apart { (t : NamedText) (p : Typed) → typing.Makes t p → LieApart p.layout p.statics }
{}

/// The static objects of a typed text have room for the bytes that they begin with.
pub fn statics_have_room()
    ensures room { (t : NamedText) (p : Typed) → typing.Makes t p → HaveRoom p.layout p.statics }
{}

/// Static object k is the one that is declared as k-th, and is named k, if the objects are numbered in the order of
/// the text.
pub fn statics_are_named()
    ensures named { (t : NamedText) (p : Typed) → typing.Makes t p
        → AreNumbered 0 (objects_declared p.tree.items) → (k : ℕ) (d : NotedDecl)
        → slice_get (objects_declared p.tree.items) k ≡ Some d → (d.name ≡ name.Static k)
        × ((at : ℕ) × (slice_get p.statics k ≡ Some (record (object_of p.layout d) { at = at }))) }
{}
