//! What follows from the definitions alone, each the contract of a function that does nothing. Nothing is asked of the mode
//! of the code that ran before: the laws hold after unchecked steps too.

ghost use Rattle.std.specs.Prelude.{◌≡◌, ℕ, ◌==◌, ◌<◌, ◌^◌, true, not, if◌then◌else◌, Bool, List, [], ◌∷◌, length, ℤ, Option, Some, Ok};
ghost use Rattle.ckc_base.specs.declared.arithmetic.Mode.{Mode};
ghost use Rattle.ckc_base.specs.declared.arithmetic.Width.{Width};
ghost use Rattle.ckc_types.specs.declared.types.CType.{CType};
ghost use Rattle.ckc_linear.specs.declared.forms.Form.{Form};
ghost use Rattle.ckc_typed.specs.declared.environment.Globals.{Globals};
ghost use Rattle.ckc_typed.specs.Trees.{NotedExpr};
ghost use Rattle.ckc_bounds.specs.ckc_bounds_points.specs.declared.frame.Frame.{Frame};
ghost use Rattle.ckc_bounds.specs.ckc_bounds_points.specs.declared.frame.Local.{Local};
ghost use Rattle.ckc_bounds.specs.ckc_bounds_points.specs.Shown.{Known};
ghost use Rattle.ckc_bounds.specs.ckc_bounds_points.specs.Frames.{local_at};
ghost use Rattle.ckc_bounds.specs.ckc_bounds_points.specs.Flow.{State};
ghost use Rattle.ckc_bounds.specs.ckc_bounds_points.specs.Forms.{in_type};
ghost use Rattle.ckc_bounds.specs.ckc_bounds_views.specs.Views.{view};
ghost use Rattle.ckc_bounds.specs.ckc_bounds_statements.specs.Paths.{Here, side_of};
ghost use Rattle.ckc_source.specs.declared.outcome.Value.{Value};
ghost use Rattle.ckc_source.specs.declared.program.Shape.{Shape};
ghost use Rattle.ckc_source.specs.declared.stmt.Spot.{Spot};
ghost use Rattle.ckc_source.specs.Code as code;
ghost use Rattle.ckc_source.specs.Code.{Expr, Variable, Assign};
ghost use Rattle.ckc_source.specs.States as states;
ghost use Rattle.ckc_source.specs.Steps.{store_of, bundled};
ghost use Rattle.ckc_source.specs.Eval.{Store, evaluated};
ghost use Rattle.ckc_build_values.specs.Expressions.{expr_elaborated};
ghost use Rattle.ckc_blame_sound.specs.Settings.{Setting};
ghost use Rattle.ckc_blame_sound.specs.Values.{AreTrue, HoldWords, IsNumberOf, number_of};
ghost use Rattle.ckc_blame_sound.specs.Variables.{AreTrueBy, HaveValues, IsKnownVariable};
ghost use Rattle.ckc_blame_sound.specs.Steps.{IsStep, IsCondition};
ghost use Rattle.ckc_blame_sound.specs.Typed.{IsTyped, IsTypedIf, IsTypedStmt, Agrees};
ghost use Rattle.ckc_blame_sound.specs.Exact.{IsExact, IsExactBy};

/// If the facts of a point are true, the form that an expression has there stands for exactly the integer that the
/// expression comes to, if it comes to a value: by the values of the locals, and by any numbers of variables that give the
/// locals theirs. The form names no other variable. What is received in an integer type is a number of it.
pub fn forms_are_exact()
    ensures own { (globals : Globals) (s : Setting) (e : NotedExpr) (literals : ℕ) (facts : Known)
        (f : Form) (store : Store) (v : Value) → Agrees globals s → IsTyped globals s e
        → HoldWords s.frame store.locals → AreTrue s.frame store.locals facts
        → (view s.frame e).form facts ≡ Some f
        → evaluated store (expr_elaborated s.text s.variables literals e) ≡ Ok v
        → IsExact s.frame store.locals e.note.ctype f v.number }
    ensures under { (globals : Globals) (s : Setting) (e : NotedExpr) (literals : ℕ) (facts : Known)
        (f : Form) (store : Store) (v : Value) (numbers : ℕ → ℤ) → Agrees globals s
        → IsTyped globals s e → HoldWords s.frame store.locals
        → HaveValues s.frame store.locals numbers → AreTrueBy numbers facts
        → (view s.frame e).form facts ≡ Some f
        → evaluated store (expr_elaborated s.text s.variables literals e) ≡ Ok v
        → IsExactBy numbers e.note.ctype f v.number }
    ensures received { (globals : Globals) (s : Setting) (e : NotedExpr) (literals : ℕ)
        (facts : Known) (t : CType) (f : Form) (store : Store) (v : Value) (numbers : ℕ → ℤ)
        → Agrees globals s → IsTyped globals s e → HoldWords s.frame store.locals
        → HaveValues s.frame store.locals numbers → AreTrueBy numbers facts
        → in_type facts t ((view s.frame e).form facts) ≡ Some f
        → evaluated store (expr_elaborated s.text s.variables literals e) ≡ Ok v
        → IsExactBy numbers e.note.ctype f v.number × IsNumberOf t (number_of numbers f) }
    ensures named { (frame : Frame) (e : NotedExpr) (facts : Known) (f : Form)
        → (view frame e).form facts ≡ Some f → IsKnownVariable frame f.var }
{}

/// What a condition says on a side of it is true if it comes to that side.
pub fn conditions_tell()
    ensures { (globals : Globals) (s : Setting) (e : NotedExpr) (literals : ℕ) (at : State)
        (side : Bool) (store : Store) (v : Value) → Agrees globals s → IsTyped globals s e
        → HoldWords s.frame store.locals → AreTrue s.frame store.locals at.facts
        → evaluated store (expr_elaborated s.text s.variables literals e) ≡ Ok v
        → (v.number == 0) ≡ not side
        → AreTrue s.frame store.locals (side_of s.frame side e at).facts }
{}

/// What judging makes of a typed expression is typed, and has its type.
pub fn judging_keeps_types()
    ensures { (globals : Globals) (s : Setting) (e f : NotedExpr) (fresh : ℕ) (at : State) →
        IsTyped globals s e → (view s.frame e).judged fresh at ≡ Ok f
        → IsTyped globals s f × (f.note.ctype ≡ e.note.ctype) }
{}

/// The facts of the next point are true after a condition, on the side that it comes to, and in the state after an
/// assignment to a local, a declaration being one.
pub fn facts_hold()
    ensures condition { (globals : Globals) (s : Setting) (mode : Mode) (here yes no : Here) (e : Expr)
        (store : Store) (v : Value) → Agrees globals s → (c : IsCondition s mode here e yes no)
        → IsTypedIf globals s c.before → HoldWords s.frame store.locals
        → AreTrue s.frame store.locals here.at.facts → evaluated store e ≡ Ok v
        → AreTrue s.frame store.locals (if v.number == 0 then no else yes).at.facts }
    ensures assignment { (globals : Globals) (s : Setting) (here there : Here) (spot : Spot)
        (k : ℕ) (width : Width) (e : Expr) (l : Local) (shapes : List Shape)
        (before after : states.State) → Agrees globals s
        → (c : IsStep s here (Assign spot (Variable k width) (code.Value e)) there)
        → IsTypedStmt globals s c.before → here.at.reached ≡ true
        → HoldWords s.frame before.frame.locals
        → AreTrue s.frame before.frame.locals here.at.facts → local_at s.frame k ≡ Some l
        → k < length before.frame.locals
        → ((v : Value) → evaluated (store_of shapes before) e ≡ Ok v → v.number < 2 ^ 32)
        → bundled shapes before ((Variable k width, code.Value e) ∷ []) ≡ Ok after
        → AreTrue s.frame after.frame.locals there.at.facts }
{}
