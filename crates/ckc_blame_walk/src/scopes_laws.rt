//! What follows from the definitions alone, each the contract of a function that does nothing.

ghost use Rattle.std.specs.Prelude.{◌≡◌, ℕ, ◌<◌, length, Some, Ok};
ghost use Rattle.std.specs.List.{Contains};
ghost use Rattle.ckc_base.specs.declared.arithmetic.Mode.{Mode};
ghost use Rattle.ckc_syntax.specs.declared.tree.Name.{Name};
ghost use Rattle.ckc_syntax.specs.declared.tree.Name.TheVariants as name;
ghost use Rattle.ckc_syntax.specs.declared.tree.Act.{Act-F, out-Act};
ghost use Rattle.ckc_typed.specs.declared.typed.Note.{Note};
ghost use Rattle.ckc_typed.specs.declared.typed.Typed.{Typed};
ghost use Rattle.ckc_typed.specs.Trees.{NotedDecl, NotedExpr};
ghost use Rattle.ckc_blame_sound.specs.ckc_bounds_points.specs.declared.frame.Local.{Local};
ghost use Rattle.ckc_blame_sound.specs.ckc_bounds_points.specs.Frames.{local_at};
ghost use Rattle.ckc_blame_sound.specs.ckc_bounds_points.specs.Flow.{State};
ghost use Rattle.ckc_blame_sound.specs.ckc_bounds_views.specs.Views.{view};
ghost use Rattle.ckc_blame_sound.specs.ckc_bounds_statements.specs.Paths.{Here};
ghost use Rattle.ckc_source.specs.Code.{Code, Expr, Function};
ghost use Rattle.ckc_blame_sound.specs.Settings.{Setting, IsFunction};
ghost use Rattle.ckc_blame_sound.specs.Steps.{IsStep, IsCondition};
ghost use Rattle.ckc_blame_sound.specs.Scopes.{NamesSeen};
ghost use Rattle.ckc_blame_sound.specs.Words.{exprs_in};
ghost use Rattle.ckc_blame_sound.specs.GivenValues.{IsUnnamed};

/// Each local that an expression of a step or a condition names, however deep, is in scope there, and so it is after
/// the expression is judged. Each local in scope is one of the frame, if its function has fewer than 1,024.
pub fn names_are_seen()
    ensures step { (s : Setting) (here there : Here) (step : Code → Code)
        (i : IsStep s here step there) (e : NotedExpr) → Contains (exprs_in i.before) e
        → NamesSeen here.seen e }
    ensures judged { (s : Setting) (here there : Here) (step : Code → Code)
        (i : IsStep s here step there) (e f : NotedExpr) (fresh : ℕ) (at : State) →
        Contains (exprs_in i.before) e → (view s.frame e).judged fresh at ≡ Ok f
        → NamesSeen here.seen f }
    ensures test { (s : Setting) (mode : Mode) (here yes no : Here) (x : Expr)
        (c : IsCondition s mode here x yes no) (e : NotedExpr) → c.before ≡ Some e
        → NamesSeen here.seen e }
    ensures test_judged { (s : Setting) (mode : Mode) (here yes no : Here) (x : Expr)
        (c : IsCondition s mode here x yes no) (e f : NotedExpr) (fresh : ℕ) (at : State) →
        c.before ≡ Some e → (view s.frame e).judged fresh at ≡ Ok f → NamesSeen here.seen f }
    ensures step_locals { (p : Typed) (s : Setting) (f : Function) (here there : Here)
        (step : Code → Code) (k : ℕ) → IsFunction p s f → length s.variables < 1024
        → IsStep s here step there → Contains here.seen k
        → (l : Local) × (local_at s.frame k ≡ Some l) }
    ensures test_locals { (p : Typed) (s : Setting) (f : Function) (mode : Mode)
        (here yes no : Here) (x : Expr) (k : ℕ) → IsFunction p s f → length s.variables < 1024
        → IsCondition s mode here x yes no → Contains here.seen k
        → (l : Local) × (local_at s.frame k ≡ Some l) }
{}

/// The local that a step declares is a variable of its function, was not in scope before it, and the bounds of no local
/// that was in scope name it.
pub fn declared_is_unnamed()
    ensures { (s : Setting) (here there : Here) (step : Code → Code)
        (i : IsStep s here step there) (d : NotedDecl) (k : ℕ) →
        out-Act Name Note i.before.body ≡ Act-F.Local d → d.name ≡ name.Local k
        → IsUnnamed s here.seen k × (Contains here.seen k → ⊥) × (k < length s.variables) }
{}
