//! What follows from the definitions alone, each the contract of a function that does nothing.

ghost use Rattle.std.specs.Prelude.{◌≡◌, ◌≢◌, ◌⊎◌, ℕ, ◌+◌, ◌*◌, Bool, true, List, [], ◌∷◌, ◌++◌, ◌<◌, length, slice_get, slice_index, ℤ, pos, Option, None, Some, Ok, IsOk};
ghost use Rattle.std.specs.List.{All, Contains};
ghost use Rattle.ckc_base.specs.declared.arithmetic.Width.TheVariants.{Word};
ghost use Rattle.ckc_types.specs.declared.types.CType.{CType};
ghost use Rattle.ckc_types.specs.declared.types.MemberBounds.{MemberBounds};
ghost use Rattle.ckc_types.specs.declared.types.MemberShape.{MemberShape};
ghost use Rattle.ckc_types.specs.Layout.{members_of};
ghost use Rattle.ckc_types.specs.declared.types.Structs.{Structs};
ghost use Rattle.ckc_linear.specs.declared.forms.Base.TheVariants as base;
ghost use Rattle.ckc_linear.specs.declared.forms.Form.{Form};
ghost use Rattle.ckc_typed.specs.declared.typed.Range.{Range};
ghost use Rattle.ckc_typed.specs.declared.typed.Typed.{Typed};
ghost use Rattle.ckc_typed.specs.Trees.{NotedExpr, NotedInit};
ghost use Rattle.ckc_typed.specs.Types.{is_scalar};
ghost use Rattle.ckc_bounds.specs.ckc_bounds_points.specs.declared.frame.Bounds.TheVariants as bounds;
ghost use Rattle.ckc_bounds.specs.ckc_bounds_points.specs.declared.frame.Bounds.{Bounds};
ghost use Rattle.ckc_bounds.specs.ckc_bounds_points.specs.declared.frame.HeadBounds.{HeadBounds};
ghost use Rattle.ckc_bounds.specs.ckc_bounds_points.specs.declared.frame.Local.{Local};
ghost use Rattle.ckc_bounds.specs.ckc_bounds_points.specs.Flow.{State, assigned, in_bounds};
ghost use Rattle.ckc_bounds.specs.ckc_bounds_points.specs.Frames.{local_at};
ghost use Rattle.ckc_bounds.specs.ckc_bounds_points.specs.Shown.{Known};
ghost use Rattle.ckc_bounds.specs.ckc_bounds_ranges.specs.declared.replacements.BaseBy.{BaseBy};
ghost use Rattle.ckc_bounds.specs.ckc_bounds_ranges.specs.declared.replacements.VariableBy.{VariableBy};
ghost use Rattle.ckc_bounds.specs.ckc_bounds_ranges.specs.Members.{is_covered, is_touched};
ghost use Rattle.ckc_bounds.specs.ckc_bounds_ranges.specs.Replaced.{replaced};
ghost use Rattle.ckc_bounds.specs.ckc_bounds_views.specs.declared.variables.Member.{Member};
ghost use Rattle.ckc_bounds.specs.ckc_bounds_views.specs.Views.{view};
ghost use Rattle.ckc_bounds.specs.ckc_bounds_views.specs.Judged.{extended_by, head_fault, is_owed};
ghost use Rattle.ckc_bounds.specs.ckc_bounds_views.specs.Parts.{View};
ghost use Rattle.ckc_bounds.specs.ckc_bounds_views.specs.Ranges.{range_of_result};
ghost use Rattle.ckc_bounds.specs.ckc_bounds_stores.specs.Values.{Value, holds};
ghost use Rattle.ckc_bounds.specs.ckc_bounds_stores.specs.Targets.{local_of, memory_bounds, bounds_by_member};
ghost use Rattle.ckc_bounds.specs.ckc_bounds_stores.specs.Stores.{Placed, members_assigned, stored_placed, returned};
ghost use Rattle.ckc_source.specs.declared.expr.Count.{Count};
ghost use Rattle.ckc_source.specs.declared.program.Shape.{Shape};
ghost use Rattle.ckc_source.specs.Blocks.{Block};
ghost use Rattle.ckc_source.specs.Eval.{Store, reads, reads_limited};
ghost use Rattle.ckc_source.specs.States as states;
ghost use Rattle.ckc_source.specs.Steps.{Write, all_written};
ghost use Rattle.ckc_source.specs.Words.{elements_behind};
ghost use Rattle.ckc_build_values.specs.Kinds.{size_behind};
ghost use Rattle.ckc_build_values.specs.Members.{count_by};
ghost use Rattle.ckc_blame_sound.specs.Points.{AreBounded, IsBounded};
ghost use Rattle.ckc_blame_sound.specs.Settings.{Setting};
ghost use Rattle.ckc_blame_sound.specs.Slots.{AreFilled};
ghost use Rattle.ckc_blame_sound.specs.Sound.{IsPlaced};
ghost use Rattle.ckc_blame_sound.specs.Values.{AreTrue, NamesIntegers};
ghost use Rattle.ckc_blame_sound.specs.Valuations.{Valuation, form_address, AreFacts, IsValuationOf};
ghost use Rattle.ckc_blame_sound.specs.Arguments.{AreArguments};
ghost use Rattle.ckc_blame_sound.specs.Cells.{AreSound, HaveOwnNames};
ghost use Rattle.ckc_blame_sound.specs.Limited.{AreSlotParts, store_with};
ghost use Rattle.ckc_blame_sound.specs.Writes.{AreCellWrites};
ghost use Rattle.ckc_blame_sound.specs.Agreeing.{IsReplaced};
ghost use Rattle.ckc_blame_sound.specs.Containment.{Memory, IsReadBetween, IsReadWithin, IsJudged, IsRanged};
ghost use Rattle.ckc_blame_sound.specs.Ends.{HaveEnds};
ghost use Rattle.ckc_blame_sound.specs.Memory.{AreMembersGiven, AreOwn, IsCountedBy};
ghost use Rattle.ckc_blame_sound.specs.Elements.{AreTargetsWritten, AreWrittenOnce, IsElementWritten, IsStructure, NameIntegerMembers};
ghost use Rattle.ckc_blame_sound.specs.Passed.{AreNewArguments, AreParameters, IsResult, result_between};
ghost use Rattle.ckc_blame_sound.specs.GivenValues.{memory_of, AreAssigned, IsBegun, IsFrom, IsUnnamed, OthersStay, StayTrue};

/// Facts that name the number zero and integer locals alone are true of each valuation that gives locals their values,
/// whatever it gives to fresh variables.
pub fn valuations_agree()
    ensures { (s : Setting) (locals : List ℕ) (v : Valuation) (facts : Known) →
        IsValuationOf s locals v → All (NamesIntegers s.frame) facts.list
        → AreTrue s.frame locals facts → AreFacts v facts }
{}

/// A form with its base and its variable replaced stands before for the address that it stands for itself after, if
/// what replaces them stands for as much.
pub fn limits_move()
    ensures { (bases : List BaseBy) (variables : List VariableBy) (size : ℕ)
        (before after : Valuation) (f g : Form) → before.number 0 ≡ pos 0
        → IsReplaced bases variables size before after f → replaced bases variables f ≡ Some g
        → form_address before size g ≡ form_address after size f }
{}

/// Bounds that contain a pointer once what they name is replaced may be read within after that, if what replaces it
/// stands for as much wherever the facts of the judgement are true. What more is known in the judgement is true of a
/// pointer that is not null.
pub fn contained_is_true()
    ensures bounds { (m : Memory) (before after : Valuation) (n : ℕ) (value : Value)
        (bases : List BaseBy) (variables : List VariableBy) (low high : Form) →
        before.number 0 ≡ pos 0 → IsJudged m before n value
        → (AreFacts before value.facts → IsReplaced bases variables m.to.size before after low
        × IsReplaced bases variables m.to.size before after high)
        → holds value (bounds.Known low high) bases variables ≡ true
        → IsReadBetween m after n low high }
    ensures facts { (p : Typed) (m : Memory) (v : Valuation) (n : ℕ) (r before : Range)
        (allocated : Bool) (facts : Known) → All (IsPlaced p) m.blocks
        → IsRanged m v n r before allocated → n ≢ 0 → AreFacts v facts
        → AreFacts v (extended_by r before allocated facts) }
{}

/// Each local pointer in scope may be read within its bounds, and one element further if it is widened, after assignments
/// to locals that are judged as one, which a single assignment is too.
pub fn assignments_keep_bounds()
    ensures { (s : Setting) (before after : Store) (v : Valuation) (seen : List ℕ)
        (at there : State) (ps : List Placed) (result : Bounds) → at.reached ≡ true
        → HaveEnds s → IsValuationOf s before.locals v → AreFacts v at.facts
        → All (IsPlaced s.text) after.blocks → StayTrue before after
        → AreAssigned s before after v at ps → AreBounded s before [] seen
        → AreBounded s before at.widened seen
        → stored_placed s.frame result seen ps at ≡ Ok there
        → AreBounded s after [] seen × AreBounded s after there.widened seen }
{}

/// The same after a declaration, of the local that it declares too.
pub fn declarations_keep_bounds()
    ensures { (s : Setting) (before after : Store) (v : Valuation) (seen : List ℕ) (at : State)
        (k fresh : ℕ) (l : Local) (i : NotedInit) (form : Option Form) → at.reached ≡ true
        → HaveEnds s → IsValuationOf s before.locals v → AreFacts v at.facts
        → All (IsPlaced s.text) after.blocks → StayTrue before after
        → local_at s.frame k ≡ Some l → OthersStay before.locals after.locals k
        → IsBegun s after v at k l i fresh (slice_index after.locals k) → IsUnnamed s seen k
        → AreBounded s before [] seen → AreBounded s before at.widened seen
        → AreBounded s after [] (seen ++ k ∷ [])
        × AreBounded s after (assigned s.frame k form at).widened (seen ++ k ∷ []) }
{}

/// At the begin of a call each parameter may be read within its bounds, if the arguments are contained in them, and each
/// interface that is given an unchecked pointer may.
pub fn calls_begin_bounded()
    ensures { (s called : Setting) (store : Store) (v : Valuation) (at : State) (es : List View)
        (fresh : ℕ) (h : HeadBounds) (entry locals : List ℕ) → called.text ≡ s.text
        → HaveEnds called → AreParameters called h.params → length es ≡ length h.params
        → IsValuationOf s store.locals v → AreFacts v at.facts
        → All (IsPlaced called.text) store.blocks
        → ((facts : Known) → AreFacts v facts
        → AreArguments called.text.layout v facts h.params entry 0 0 es)
        → AreNewArguments called store v h.params entry at 0 0 fresh es
        → ((k : ℕ) → k < length h.params → slice_index locals k ≡ slice_index entry k)
        → ((k : ℕ) (e : View) → slice_get es k ≡ Some e → is_owed (slice_get h.interfaces k) e ≡ true
        → IsBounded called (record store { locals = locals }) [] k (local_at called.frame k))
        → head_fault (Some h) es fresh at ≡ None → (k : ℕ) → k < length h.params
        → IsBounded called (record store { locals = locals }) [] k (local_at called.frame k) }
{}

/// A result that is contained in its bounds at the `return` may be read within them with the values that the parameters
/// were entered with, and so within the range of the call with the values of the locals where it was made.
pub fn results_are_bounded()
    ensures returned { (s : Setting) (store : Store) (v w : Valuation) (at : State)
        (e : NotedExpr) (fresh n : ℕ) (entry : List ℕ) (low high : Form) →
        IsValuationOf s store.locals v → IsValuationOf s entry w
        → w.address (Some (base.Value 0)) ≡ pos n → s.head.bounds ≡ bounds.Known low high
        → IsResult s (size_behind s.text.layout s.head.result) s.head.params low high
        → ((k : ℕ) → in_bounds k s.head.bounds ≡ true
        → slice_index store.locals k ≡ slice_index entry k)
        → AreFacts v at.facts → All (IsPlaced s.text) store.blocks
        → IsFrom s.frame (memory_of s store s.head.result) v s.head.result e
        (record { value = 0; fresh = fresh }) at n → returned s.frame s.head e fresh at ≡ true
        → IsReadBetween (memory_of s store s.head.result) w n low high }
    ensures read { (s : Setting) (store : Store) (w : Valuation) (entry : List ℕ) (n : ℕ)
        (low high : Form) → IsValuationOf s entry w → w.address (Some (base.Value 0)) ≡ pos n
        → IsResult s (size_behind s.text.layout s.head.result) s.head.params low high
        → IsReadBetween (memory_of s store s.head.result) w n low high
        → IsOk (reads_limited (record store { locals = entry }) (result_between s low high) n) }
    ensures called { (s called : Setting) (locals entry : List ℕ) (m : Memory) (v w : Valuation)
        (facts : Known) (h : HeadBounds) (es : List View) (first own n : ℕ) (low high : Form) →
        called.text ≡ s.text → AreParameters called h.params → length es ≡ length h.params
        → IsValuationOf s locals v → IsValuationOf called entry w
        → AreArguments called.text.layout v facts h.params entry 0 first es
        → v.address (Some (base.Value own)) ≡ pos n → w.address (Some (base.Value 0)) ≡ pos n
        → IsResult called m.to.size h.params low high → h.bounds ≡ bounds.Known low high
        → IsReadBetween m w n low high
        → IsReadWithin m v n (range_of_result (Some h) es own first facts) }
{}

/// A pointer in memory may be read within its bounds after an assignment to it, alone or in a bundle. Of a member those
/// bounds end as many elements after it as a program counts.
pub fn memory_is_bounded()
    ensures target { (s : Setting) (store : Store) (before after : Valuation) (seen : List ℕ)
        (at there : State) (ps : List Placed) (result : Bounds) (p : Placed) (n : ℕ)
        (low high : Form) → before.number 0 ≡ pos 0 → after.number 0 ≡ pos 0
        → after.address (Some (base.Value 0)) ≡ pos n → AreFacts before at.facts
        → All (IsPlaced s.text) store.blocks
        → IsFrom s.frame (memory_of s store p.target.note.ctype) before p.target.note.ctype
        p.right p.from at n → AreMembersGiven s before after ps → AreOwn low high
        → Contains ps p → local_of p.target ≡ None
        → memory_bounds s.frame p.target ≡ bounds.Known low high
        → stored_placed s.frame result seen ps at ≡ Ok there
        → IsReadBetween (memory_of s store p.target.note.ctype) after n low high }
    ensures counted { (structs : Structs) (tag n : ℕ) (t : CType) (m : Memory) (v : Valuation)
        (b : MemberBounds) (count : Count) (z : ℤ) (low high : Form) → v.number 0 ≡ pos 0
        → v.address (Some (base.Value 0)) ≡ pos n → bounds_by_member t b ≡ bounds.Known low high
        → count_by structs tag t b ≡ Some count → IsCountedBy v b count z
        → IsReadBetween m v n low high
        → IsOk (reads m.shapes m.blocks m.to n (pos n) (elements_behind n m.to.size z)) }
{}

/// Each member that an assignment to a member touches is assigned too, and so is the one that its bounds name, or else it
/// is that member itself, and gets null.
pub fn members_are_covered()
    ensures { (s : Setting) (seen : List ℕ) (at there : State) (ps : List Placed)
        (result : Bounds) (p : Placed) (m : Member) (shape : MemberShape) → Contains ps p
        → local_of p.target ≡ None → (view s.frame p.target).member ≡ Some m
        → stored_placed s.frame result seen ps at ≡ Ok there
        → Contains (members_of s.frame.structs m.tag) shape → is_touched m.number shape ≡ true
        → (is_covered (members_assigned s.frame ps) shape shape.bounds ≡ true)
        ⊎ ((shape.name ≡ m.number) × ((view s.frame p.right).null ≡ true)) }
{}

/// Each checked pointer in memory may be read within its bounds after assignments to members of one element that are
/// judged as one, in a bundle or alone, if none is assigned twice. Locals may be assigned too.
pub fn members_stay_filled()
    ensures { (s : Setting) (next : ℕ) (ws : List Write) (before after : states.State)
        (number i tag : ℕ) (b : Block) (shapes : List Shape) (old locals : List ℕ)
        (v w : Valuation) (at there : State) (ps : List Placed) (seen : List ℕ)
        (result : Bounds) → s.frame.structs ≡ s.text.layout → HaveOwnNames s.text.layout
        → NameIntegerMembers s.text.layout → AreSlotParts s.text → AreSound s.text before.blocks next
        → AreCellWrites s.text.layout before.blocks ws → all_written ws before ≡ Ok after
        → IsStructure before.blocks number i tag b → v.number 0 ≡ pos 0 → w.number 0 ≡ pos 0
        → AreFacts v at.facts → stored_placed s.frame result seen ps at ≡ Ok there
        → AreTargetsWritten s (store_with shapes after.blocks locals) v w at tag
        (b.base + i * b.size) ps ws → AreWrittenOnce ws
        → AreFilled s.text (store_with shapes before.blocks old)
        → AreFilled s.text (store_with shapes after.blocks locals) }
{}

/// The same after an assignment alone to an element that is no structure: an integer or a pointer of an array, or a
/// static one.
pub fn elements_stay_filled()
    ensures { (s : Setting) (next : ℕ) (to : Write) (before after : states.State)
        (number i : ℕ) (b : Block) (shapes : List Shape) (old locals : List ℕ) (v : Valuation)
        (at there : State) (p : Placed) (seen : List ℕ) (result : Bounds) → AreSlotParts s.text
        → AreSound s.text before.blocks next → AreCellWrites s.text.layout before.blocks (to ∷ [])
        → all_written (to ∷ []) before ≡ Ok after → slice_get before.blocks number ≡ Some b
        → i < b.count → is_scalar b.element ≡ true → v.number 0 ≡ pos 0 → AreFacts v at.facts
        → stored_placed s.frame result seen (p ∷ []) at ≡ Ok there
        → IsElementWritten s (store_with shapes after.blocks locals) v at number b.element
        (b.base + i * b.size) p to → AreFilled s.text (store_with shapes before.blocks old)
        → AreFilled s.text (store_with shapes after.blocks locals) }
{}
