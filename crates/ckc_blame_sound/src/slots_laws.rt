//! What follows from the definitions alone, each the contract of a function that does nothing.

ghost use Rattle.std.specs.Prelude.{◌≡◌, ◌≢◌, ◌⊎◌, ℕ, ◌+◌, ◌<◌, ◌≤◌, ◌^◌, ◌==◌, Bool, true, false, List, [], ◌∷◌, ◌++◌, slice_get, ℤ, pos, Option, Some, Ok, IsSome, IsOk};
ghost use Rattle.ckc_base.specs.declared.arithmetic.Width.{Width};
ghost use Rattle.ckc_base.specs.declared.arithmetic.Width.TheVariants.{Word};
ghost use Rattle.ckc_base.specs.declared.places.Pos.{Pos};
ghost use Rattle.ckc_base.specs.Memory.{kept_part, next_place};
ghost use Rattle.ckc_types.specs.declared.types.Structs.{Structs};
ghost use Rattle.ckc_typed.specs.declared.typed.StaticObject.{StaticObject};
ghost use Rattle.ckc_typed.specs.declared.typed.Typed.{Typed};
ghost use Rattle.ckc_typed.specs.Constants.{size_of};
ghost use Rattle.ckc_source.specs.declared.expr.Access.{Access};
ghost use Rattle.ckc_source.specs.declared.expr.Pointee.{Pointee};
ghost use Rattle.ckc_source.specs.declared.expr.Through.TheVariants as through;
ghost use Rattle.ckc_source.specs.declared.outcome.Place.{Place};
ghost use Rattle.ckc_source.specs.declared.outcome.Place.TheVariants as place;
ghost use Rattle.ckc_source.specs.declared.outcome.Range.{Range};
ghost use Rattle.ckc_source.specs.declared.outcome.Range.TheVariants.{Within};
ghost use Rattle.ckc_source.specs.declared.outcome.Value.{Value};
ghost use Rattle.ckc_source.specs.declared.program.Shape.{Shape};
ghost use Rattle.ckc_source.specs.Blocks.{Block, loaded, stored, lies_in, fresh};
ghost use Rattle.ckc_source.specs.Eval.{Store, element, place_in, counted, reads};
ghost use Rattle.ckc_source.specs.Words.{elements_behind};
ghost use Rattle.ckc_source.specs.Runs.{is_true};
ghost use Rattle.ckc_source.specs.States.{State};
ghost use Rattle.ckc_source.specs.Steps.{Write, all_written, aims_at, allowed, terminator_at};
ghost use Rattle.ckc_build_values.specs.Names.{address_of};
ghost use Rattle.ckc_build_elaborate.specs.Shapes.{shapes_elaborated};
ghost use Rattle.ckc_blame_sound.specs.Sound.{Sound};
ghost use Rattle.ckc_blame_sound.specs.Slots.{Slot, IsFilled, AreFilled};
ghost use Rattle.ckc_blame_sound.specs.Cells.{AreDisjoint, IsPart, IsCell, HaveOwnNames, IsReached, AreSound, IsMade};
ghost use Rattle.ckc_blame_sound.specs.Limited.{AreSlotParts, AreSparedOrFilled, store_with};
ghost use Rattle.ckc_blame_sound.specs.Writes.{IsCellWrite, AreCellWrites, AreElsewhere};

/// The blocks of a sound state are sound.
pub fn states_have_sound_blocks()
    ensures { (p : Typed) (s : State) → Sound p s → AreSound p s.blocks s.next }
{}

/// The element that an access goes to through a checked pointer with a range is one that the range reaches.
pub fn bounds_reach()
    ensures array { (to : Pointee) (access : Access) (v : Value) (i low high a : ℕ) →
        v.range ≡ Within low high → access.size ≡ to.size → access.through ≡ through.Array
        → element access v i ≡ Ok a → IsReached to v.number low high a }
    ensures terminated { (to : Pointee) (access : Access) (v : Value) (i low high a : ℕ) →
        v.range ≡ Within low high → access.size ≡ to.size → access.through ≡ through.Terminated
        → to.terminated ≡ true → element access v i ≡ Ok a → IsReached to v.number low high a }
    ensures itself { (to : Pointee) (n low high : ℕ) → low ≤ n → n < high
        → IsReached to n low high n }
{}

/// An access to an element that a pointer reaches within a true range, or to a member of it, is one of an element of a
/// block, and only at the end of the range may it be the last one of a null-terminated block.
pub fn accesses_lie_in_blocks()
    ensures cell { (p : Typed) (blocks : List Block) (next : ℕ) (to : Pointee)
        (n low high a offset : ℕ) (width : Width) → AreSound p blocks next → HaveOwnNames p.layout
        → to.size ≡ size_of p.layout to.element
        → is_true (shapes_elaborated p.layout) blocks to n low high ≡ true
        → IsReached to n low high a → IsPart p.layout to.element offset width
        → IsCell p.layout blocks (a + offset) width (a == high) }
    ensures there { (p : Typed) (blocks : List Block) (next a : ℕ) (width : Width) (z : Bool) →
        AreSound p blocks next → IsCell p.layout blocks a width z
        → lies_in width a blocks ≡ true }
    ensures load { (p : Typed) (blocks : List Block) (next a : ℕ) (width : Width) (z : Bool) →
        AreSound p blocks next → IsCell p.layout blocks a width z
        → IsSome (loaded width a blocks) }
    ensures store { (p : Typed) (blocks : List Block) (next a n : ℕ) (width : Width) (z : Bool) →
        AreSound p blocks next → IsCell p.layout blocks a width z
        → IsSome (stored width a n blocks) }
    ensures exact { (p : Typed) (blocks : List Block) (next a offset : ℕ) (width : Width)
        (z : Bool) → AreSound p blocks next → IsCell p.layout blocks (a + offset) width z
        → place_in a offset ≡ a + offset }
{}

/// A static object that is not null-terminated, or a member of it, is an element of the block of the object.
pub fn objects_lie_in_blocks()
    ensures { (p : Typed) (blocks : List Block) (next k offset : ℕ) (width : Width)
        (o : StaticObject) → AreSound p blocks next → slice_get p.statics k ≡ Some o
        → o.terminated ≡ false → 0 < o.count → IsPart p.layout o.element offset width
        → IsCell p.layout blocks (address_of p k + offset) width false }
{}

/// A target in memory at an integer or a pointer of an element is not stuck, and what is written to it after the test for
/// the terminator is only zero if only zero may be written.
pub fn targets_are_written()
    ensures there { (p : Typed) (next : ℕ) (store : Store) (width : Width) (access : Access)
        (range : Range) (a : ℕ) (z : Bool) → AreSound p store.blocks next
        → IsCell p.layout store.blocks (a + access.offset) width z
        → aims_at store width access range a ≡ Ok (place.Memory (place_in a access.offset) width
        (terminator_at access.through range a access.at)) }
    ensures ranged { (p : Typed) (blocks : List Block) (next : ℕ) (width : Width) (access : Access)
        (low high a n : ℕ) (w : Place) → AreSound p blocks next
        → IsCell p.layout blocks (a + access.offset) width (a == high)
        → (access.through ≡ through.Terminated) ⊎ (a < high) → n < 2 ^ 32
        → allowed (place.Memory (place_in a access.offset) width
        (terminator_at access.through (Within low high) a access.at)) n ≡ Ok w
        → IsCellWrite p.layout blocks w n }
    ensures named { (p : Typed) (blocks : List Block) (next : ℕ) (width : Width) (access : Access)
        (range : Range) (a n : ℕ) (w : Place) → AreSound p blocks next
        → IsCell p.layout blocks (a + access.offset) width false → n < 2 ^ 32
        → allowed (place.Memory (place_in a access.offset) width
        (terminator_at access.through range a access.at)) n ≡ Ok w
        → IsCellWrite p.layout blocks w n }
{}

/// A store changes the bytes of its access alone; one to an integer or a pointer of an element keeps the blocks as they
/// lie, and null-terminated ones ended, and every other integer and pointer of an element reads as before.
pub fn stores_keep_blocks()
    ensures itself { (blocks after : List Block) (a n : ℕ) (width : Width) →
        stored width a n blocks ≡ Some after → n < 2 ^ 32
        → loaded width a after ≡ Some (kept_part width n) }
    ensures others { (blocks after : List Block) (a n c : ℕ) (width other : Width) →
        stored width a n blocks ≡ Some after → AreDisjoint a width c other
        → loaded other c after ≡ loaded other c blocks }
    ensures sound { (p : Typed) (blocks after : List Block) (next a n : ℕ) (width : Width)
        (z : Bool) → AreSound p blocks next → IsCell p.layout blocks a width z
        → (z ≡ true → kept_part width n ≡ 0) → stored width a n blocks ≡ Some after
        → AreSound p after next }
    ensures apart { (p : Typed) (blocks : List Block) (next a c : ℕ) (width other : Width)
        (z y : Bool) → AreSound p blocks next → IsCell p.layout blocks a width z
        → IsCell p.layout blocks c other y
        → ((a ≡ c) × (width ≡ other)) ⊎ AreDisjoint a width c other }
    ensures cells { (structs : Structs) (blocks after : List Block) (a n c : ℕ)
        (width other : Width) (y : Bool) → stored width a n blocks ≡ Some after
        → IsCell structs blocks c other y → IsCell structs after c other y }
    ensures ranges { (blocks after : List Block) (shapes : List Shape) (to : Pointee)
        (a n i low high : ℕ) (width : Width) → stored width a n blocks ≡ Some after
        → is_true shapes after to i low high ≡ is_true shapes blocks to i low high }
{}

/// Writes to integers and pointers of elements, one after another as in a bundle, keep the blocks as they lie, and change
/// exactly the numbers of these: each has what was written last to it, and every other one reads as before.
pub fn writes_keep_blocks()
    ensures sound { (p : Typed) (next : ℕ) (ws : List Write) (s t : State) →
        AreSound p s.blocks next → AreCellWrites p.layout s.blocks ws
        → all_written ws s ≡ Ok t → AreSound p t.blocks next }
    ensures last { (p : Typed) (next : ℕ) (front back : List Write) (a n : ℕ) (width : Width)
        (zero_alone : Option Pos) (s t : State) → AreSound p s.blocks next
        → AreCellWrites p.layout s.blocks (front ++ (place.Memory a width zero_alone, n) ∷ back)
        → AreElsewhere a back
        → all_written (front ++ (place.Memory a width zero_alone, n) ∷ back) s ≡ Ok t
        → loaded width a t.blocks ≡ Some (kept_part width n) }
    ensures others { (p : Typed) (next : ℕ) (ws : List Write) (s t : State) (c : ℕ)
        (other : Width) (y : Bool) → AreSound p s.blocks next
        → AreCellWrites p.layout s.blocks ws → all_written ws s ≡ Ok t
        → IsCell p.layout s.blocks c other y → AreElsewhere c ws
        → loaded other c t.blocks ≡ loaded other c s.blocks }
    ensures blocks { (p : Typed) (next : ℕ) (ws : List Write) (s t : State) (k : ℕ) (b : Block) →
        AreSound p s.blocks next → AreCellWrites p.layout s.blocks ws
        → all_written ws s ≡ Ok t → slice_get t.blocks k ≡ Some b
        → (c : Block) × (slice_get s.blocks k ≡ Some c) × (b ≡ record c { bytes = b.bytes }) }
    ensures ranges { (p : Typed) (next : ℕ) (ws : List Write) (s t : State)
        (shapes : List Shape) (to : Pointee) (i low high : ℕ) → AreSound p s.blocks next
        → AreCellWrites p.layout s.blocks ws → all_written ws s ≡ Ok t
        → is_true shapes t.blocks to i low high ≡ is_true shapes s.blocks to i low high }
{}

/// Each checked pointer in memory may be read within its bounds after writes to integers and pointers of elements, if
/// each that they write to, or to a member that its bounds read, may be read so after them; and when a new block is
/// made.
pub fn pointers_stay_true()
    ensures writes { (p : Typed) (next : ℕ) (ws : List Write) (s t : State) (shapes : List Shape)
        (locals after : List ℕ) → AreSlotParts p → AreSound p s.blocks next
        → AreCellWrites p.layout s.blocks ws → all_written ws s ≡ Ok t
        → AreSparedOrFilled p s.blocks ws (store_with shapes t.blocks after)
        → AreFilled p (store_with shapes s.blocks locals)
        → AreFilled p (store_with shapes t.blocks after) }
    ensures slot { (store : Store) (slot : Slot) (at n : ℕ) (m : ℤ) →
        loaded Word (place_in at slot.offset) store.blocks ≡ Some n
        → counted store at slot.count ≡ Ok m
        → IsOk (reads store.shapes store.blocks slot.to n (pos n)
        (elements_behind n slot.to.size m))
        → IsFilled store at slot }
    ensures block { (p : Typed) (blocks : List Block) (next count : ℕ) (to : Pointee)
        (shapes : List Shape) (locals after : List ℕ) → AreSlotParts p → AreSound p blocks next
        → IsMade p next to count → AreFilled p (store_with shapes blocks locals)
        → AreFilled p (store_with shapes (blocks ++ fresh to next count ∷ []) after) }
{}

/// A new block lies after the others, each of which is as it was: what was read is read, each integer and pointer of an
/// element is one, and each range that was true is true.
pub fn blocks_are_made()
    ensures sound { (p : Typed) (blocks : List Block) (next count : ℕ) (to : Pointee) →
        AreSound p blocks next → IsMade p next to count
        → AreSound p (blocks ++ fresh to next count ∷ []) (next_place next count to.size) }
    ensures reads { (blocks more : List Block) (a n : ℕ) (width : Width) →
        loaded width a blocks ≡ Some n → loaded width a (blocks ++ more) ≡ Some n }
    ensures cells { (structs : Structs) (blocks more : List Block) (a : ℕ) (width : Width)
        (z : Bool) → IsCell structs blocks a width z → IsCell structs (blocks ++ more) a width z }
    ensures ranges { (shapes : List Shape) (blocks more : List Block) (to : Pointee)
        (n low high : ℕ) → is_true shapes blocks to n low high ≡ true
        → is_true shapes (blocks ++ more) to n low high ≡ true }
{}
