//! What follows from the definitions alone, each the contract of a function that does nothing.

ghost use Rattle.std.specs.Prelude.{◌≡◌, ℕ, ◌<◌, true, [], length, slice_get, Some, Ok};
ghost use Rattle.ckc_linear.specs.declared.forms.Form.{Form};
ghost use Rattle.ckc_types.specs.declared.types.CType.{CType};
ghost use Rattle.ckc_types.specs.declared.types.MemberBounds.{MemberBounds};
ghost use Rattle.ckc_types.specs.declared.types.Structs.{Structs};
ghost use Rattle.ckc_typed.specs.declared.typed.Typed.{Typed};
ghost use Rattle.ckc_typed.specs.Trees.{NotedExpr};
ghost use Rattle.ckc_blame_sound.specs.ckc_bounds_points.specs.declared.frame.Bounds.TheVariants as bounds;
ghost use Rattle.ckc_blame_sound.specs.ckc_bounds_points.specs.Frames.{local_at};
ghost use Rattle.ckc_blame_sound.specs.ckc_bounds_stores.specs.Targets.{bounds_by_member, memory_bounds};
ghost use Rattle.ckc_source.specs.Code.{Function};
ghost use Rattle.ckc_source.specs.Eval.{Store};
ghost use Rattle.ckc_source.specs.Steps.{reads_interfaces};
ghost use Rattle.ckc_source.specs.declared.expr.Count.{Count};
ghost use Rattle.ckc_build_values.specs.Kinds.{size_behind};
ghost use Rattle.ckc_build_values.specs.Members.{count_by};
ghost use Rattle.ckc_blame_sound.specs.Settings.{Setting, IsFunction};
ghost use Rattle.ckc_blame_sound.specs.Points.{IsBounded};
ghost use Rattle.ckc_blame_sound.specs.Elements.{NameIntegerMembers};
ghost use Rattle.ckc_blame_sound.specs.Ends.{HaveEnds};
ghost use Rattle.ckc_blame_sound.specs.Memory.{AreOwn};
ghost use Rattle.ckc_blame_sound.specs.Passed.{AreParameters, IsResult, result_between};
ghost use Rattle.ckc_blame_sound.specs.JudgedTexts.{IsJudged};

/// The bounds of each local of a judged text lie from local pointers to elements of the same size and static arrays, as
/// far as integer locals say, which a program reads in their types. No integer has bounds.
pub fn locals_have_ends()
    ensures { (p : Typed) (s : Setting) (f : Function) → IsJudged p → IsFunction p s f
        → HaveEnds s }
{}

/// The bounds of each result lie from such places or from the result itself, as far as such integers say, and name
/// parameters alone.
pub fn results_have_ends()
    ensures { (p : Typed) (s : Setting) (f : Function) (low high : Form) → IsJudged p
        → IsFunction p s f → s.head.bounds ≡ bounds.Known low high
        → IsResult s (size_behind s.text.layout s.head.result) s.head.params low high }
{}

/// The bounds of a pointer in memory lie from its own value, whatever declares them.
pub fn memory_bounds_are_own()
    ensures { (p : Typed) (s : Setting) (f : Function) (e : NotedExpr) (low high : Form) →
        IsFunction p s f → memory_bounds s.frame e ≡ bounds.Known low high → AreOwn low high }
{}

/// A function whose parameters may be read within their bounds reads its interfaces; if it does, each of them may be.
pub fn interfaces_are_bounded()
    ensures reads { (p : Typed) (s : Setting) (f : Function) (store : Store) → IsJudged p
        → IsFunction p s f → length s.variables < 1024
        → ((k : ℕ) → k < length s.head.params → IsBounded s store [] k (local_at s.frame k))
        → reads_interfaces store f.interfaces ≡ Ok tt }
    ensures bounded { (p : Typed) (s : Setting) (f : Function) (store : Store) (k : ℕ) → IsJudged p
        → IsFunction p s f → length s.variables < 1024
        → reads_interfaces store f.interfaces ≡ Ok tt → slice_get s.head.interfaces k ≡ Some true
        → IsBounded s store [] k (local_at s.frame k) }
{}

/// The parameters that the head of a function tells are its first locals, as its body sees them, and their bounds name
/// parameters alone.
pub fn parameters_are_locals()
    ensures { (p : Typed) (s : Setting) (f : Function) → IsJudged p → IsFunction p s f
        → length s.variables < 1024 → AreParameters s s.head.params }
{}

/// If the bounds that a head tells of a result are known, a program reads a result between the same two ends.
pub fn results_are_told()
    ensures { (p : Typed) (s : Setting) (f : Function) (low high : Form) → IsFunction p s f
        → s.head.bounds ≡ bounds.Known low high → f.result ≡ Some (result_between s low high) }
{}

/// The judgement knows the bounds of each member of which a program counts the elements.
pub fn counted_members_have_bounds()
    ensures { (structs : Structs) (tag : ℕ) (t : CType) (b : MemberBounds) (count : Count) →
        count_by structs tag t b ≡ Some count
        → (low : Form) × (high : Form) × (bounds_by_member t b ≡ bounds.Known low high) }
{}

/// The bounds of a member of a judged text count by a constant or by an integer member of the same structure.
pub fn members_count_integers()
    ensures { (p : Typed) → IsJudged p → NameIntegerMembers p.layout }
{}
