//! What follows from the definitions alone, each the contract of a function that does nothing.

ghost use Rattle.std.specs.Prelude.{◌≡◌, ℕ, ◌+◌, ◌<◌, ◌≤◌, ◌^◌, List, length, Ok};
ghost use Rattle.ckc_base.specs.declared.arithmetic.Mode.{Mode};
ghost use Rattle.ckc_typed.specs.declared.environment.Globals.{Globals};
ghost use Rattle.ckc_typed.specs.Statics.{strings_of_expr};
ghost use Rattle.ckc_typed.specs.Trees.{NotedExpr};
ghost use Rattle.ckc_blame_sound.specs.ckc_bounds_points.specs.declared.frame.Frame.{Frame};
ghost use Rattle.ckc_blame_sound.specs.ckc_bounds_points.specs.Flow.{State};
ghost use Rattle.ckc_blame_sound.specs.ckc_bounds_views.specs.Views.{view};
ghost use Rattle.ckc_blame_sound.specs.ckc_bounds_statements.specs.Paths.{Here};
ghost use Rattle.ckc_source.specs.Eval.{Store, evaluated};
ghost use Rattle.ckc_build_values.specs.Expressions.{expr_elaborated};
ghost use Rattle.ckc_blame_sound.specs.Settings.{Setting, AreStrings};
ghost use Rattle.ckc_blame_sound.specs.Points.{HoldsAt};
ghost use Rattle.ckc_blame_sound.specs.Typed.{IsTyped, Agrees};
ghost use Rattle.ckc_blame_sound.specs.Bodies.{AreFresh};
ghost use Rattle.ckc_blame_pointers.specs.Covered.{DeclareLocals, IsSoundStore, IsCovered};
ghost use Rattle.ckc_blame_pointers.specs.Meant.{IsMeant};
ghost use Rattle.ckc_blame_pointers.specs.Owed.{Comes};

/// What becomes of a judged expression, in code of either mode, gives a value that is as it is judged to be, or stops at
/// a named check; in checked code it is not stuck. This is said of numbers, string literals, `sizeof`, `NULL`, locals in
/// scope, static integers and arrays, operators, `?:`, casts, bounds casts, static pointers, members, what is read
/// through pointers, and the addresses of static objects, elements and members.
pub fn expressions_come()
    ensures { (m : Mode) (globals : Globals) (s : Setting) (entry : List ℕ) (here : Here)
        (before after : NotedExpr) (fresh literals next : ℕ) (store : Store) → Agrees globals s
        → DeclareLocals s → IsSoundStore s store next
        → fresh + length ((view s.frame before).fresh here.at) < 2 ^ 32 → AreFresh s.frame fresh
        → IsTyped globals s before
        → (view s.frame before).judged fresh here.at ≡ Ok after → IsCovered m s store here.seen after
        → AreStrings s literals (strings_of_expr after) → HoldsAt s store entry here
        → Comes m (IsMeant s store entry here (view s.frame before))
        (evaluated store (expr_elaborated s.text s.variables literals after)) }
{}

/// An expression needs no more fresh variables at a point than it may need at most.
pub fn fresh_variables_are_few()
    ensures { (frame : Frame) (e : NotedExpr) (at : State) → (view frame e).most_fresh + 1 < 2 ^ 32
        → length ((view frame e).fresh at) ≤ (view frame e).most_fresh }
{}
