//! What follows from the definitions alone, each the contract of a function that does nothing.

ghost use Rattle.std.specs.Prelude.{◌≡◌, ℕ, ℤ, pos, ◌<◌, true, List, length, slice_set, Option, None, Some, IfSome};
ghost use Rattle.ckc_types.specs.declared.types.CType.{CType};
ghost use Rattle.ckc_linear.specs.declared.facts.Fact.{Fact};
ghost use Rattle.ckc_linear.specs.declared.forms.Form.{Form};
ghost use Rattle.ckc_linear.specs.Facts.{Satisfies};
ghost use Rattle.ckc_typed.specs.Types.{is_integer};
ghost use Rattle.ckc_bounds.specs.ckc_bounds_points.specs.declared.frame.Local.{Local};
ghost use Rattle.ckc_bounds.specs.ckc_bounds_points.specs.declared.frame.Frame.{Frame};
ghost use Rattle.ckc_bounds.specs.ckc_bounds_points.specs.Shown.{Known, is_shown};
ghost use Rattle.ckc_bounds.specs.ckc_bounds_points.specs.Frames.{local_at};
ghost use Rattle.ckc_bounds.specs.ckc_bounds_points.specs.Flow.{State, assigned, less, joined, entry};
ghost use Rattle.ckc_bounds.specs.ckc_bounds_points.specs.Forms.{in_type};
ghost use Rattle.ckc_bounds.specs.ckc_bounds_statements.specs.Paths.{Here};
ghost use Rattle.ckc_source.specs.Eval.{Store};
ghost use Rattle.ckc_blame_sound.specs.Settings.{Setting};
ghost use Rattle.ckc_blame_sound.specs.Values.{value, value_in, AreTrue, number_of, IsWordOf, HoldWords, IsNumberOf};
ghost use Rattle.ckc_blame_sound.specs.Variables.{AreTrueBy};
ghost use Rattle.ckc_blame_sound.specs.Points.{HoldsAt, IsKnown, GoesTo};

/// What facts show is true wherever they are, and a form in an integer type stands for a number of that type: by the values
/// of the locals, and by any numbers of variables.
pub fn shown_is_true()
    ensures shown { (frame : Frame) (locals : List ℕ) (facts : Known) (f : Fact) →
        AreTrue frame locals facts → is_shown facts f ≡ true → Satisfies (value frame locals) f }
    ensures in_type { (frame : Frame) (locals : List ℕ) (facts : Known) (t : CType)
        (form : Option Form) (f : Form) → AreTrue frame locals facts → in_type facts t form ≡ Some f
        → (form ≡ Some f) × IsNumberOf t (number_of (value frame locals) f) }
    ensures shown_by { (numbers : ℕ → ℤ) (facts : Known) (f : Fact) →
        AreTrueBy numbers facts → is_shown facts f ≡ true → Satisfies numbers f }
    ensures in_type_by { (numbers : ℕ → ℤ) (facts : Known) (t : CType) (form : Option Form)
        (f : Form) → numbers 0 ≡ pos 0 → AreTrueBy numbers facts → in_type facts t form ≡ Some f
        → (form ≡ Some f) × IsNumberOf t (number_of numbers f) }
{}

/// What holds at a point holds at each point that control goes to from there.
pub fn points_keep()
    ensures { (s : Setting) (store : Store) (entry : List ℕ) (here there : Here) →
        GoesTo s.frame here there → HoldsAt s store entry here → HoldsAt s store entry there }
{}

/// Facts are true after the assignment of a word to a local, if its form stands for what the word does.
pub fn assignments_hold()
    ensures { (frame : Frame) (locals : List ℕ) (k n : ℕ) (l : Local) (form : Option Form)
        (at : State) → at.reached ≡ true → local_at frame k ≡ Some l → k < length locals
        → IsWordOf l.ctype n
        → (is_integer l.ctype ≡ true
        → IfSome form (λ f. value_in (Some l) n ≡ number_of (value frame locals) f))
        → AreTrue frame locals at.facts
        → AreTrue frame (slice_set locals k n) (assigned frame k form at).facts }
{}

/// What is known where two branches join is known at the end of each that can be reached.
pub fn branches_join()
    ensures first { (frame : Frame) (at other : State) → at.reached ≡ true
        → IsKnown frame at (joined at other) }
    ensures second { (frame : Frame) (at other : State) → other.reached ≡ true
        → IsKnown frame other (joined at other) }
{}

/// What is known at the head of a loop is known before the loop.
pub fn loops_turn()
    ensures { (frame : Frame) (ks : List ℕ) (at : State) → at.reached ≡ true
        → IsKnown frame at (less frame ks at) }
{}

/// At the begin of a function the facts are true of whatever words its locals hold.
pub fn functions_begin()
    ensures { (frame : Frame) (locals : List ℕ) → HoldWords frame locals
        → AreTrue frame locals (entry frame).facts }
{}
