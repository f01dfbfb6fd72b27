//! What follows from the definitions alone, each the contract of a function that does nothing.

ghost use Rattle.std.specs.Prelude.{◌≡◌, ℕ, ◌<◌, length, true, Some};
ghost use Rattle.std.specs.List.{Contains};
ghost use Rattle.ckc_base.specs.declared.arithmetic.Mode.{Mode};
ghost use Rattle.ckc_types.specs.declared.types.CType.{CType};
ghost use Rattle.ckc_syntax.specs.declared.tree.Name.TheVariants as name;
ghost use Rattle.ckc_typed.specs.declared.typed.Typed.{Typed};
ghost use Rattle.ckc_typed.specs.Environment.{type_of_name};
ghost use Rattle.ckc_typed.specs.Types.{is_scalar};
ghost use Rattle.ckc_blame_sound.specs.ckc_bounds_points.specs.declared.frame.Local.{Local};
ghost use Rattle.ckc_blame_sound.specs.ckc_bounds_points.specs.Frames.{local_at};
ghost use Rattle.ckc_blame_sound.specs.ckc_bounds_statements.specs.Paths.{Here};
ghost use Rattle.ckc_source.specs.Code.{Code, Expr, Function};
ghost use Rattle.ckc_blame_sound.specs.Settings.{Setting, IsFunction};
ghost use Rattle.ckc_blame_sound.specs.Steps.{IsStep, IsCondition};
ghost use Rattle.ckc_blame_sound.specs.JudgedTexts.{IsJudged, globals_in};
ghost use Rattle.ckc_blame_given.specs.ckc_blame_pointers.specs.Covered.{DeclareLocals, DeclareOnes, IsInScope};

/// The declared bounds of the locals of a judged text name locals and static arrays alone.
pub fn locals_declare()
    ensures { (p : Typed) (s : Setting) (f : Function) → IsJudged p → IsFunction p s f
        → DeclareLocals s }
{}

/// No `_Ptr` is declared with bounds in a judged text: each local that is one has the bounds of its
/// type, one element.
pub fn locals_declare_ones()
    ensures { (p : Typed) (s : Setting) (f : Function) → IsJudged p → IsFunction p s f
        → DeclareOnes s }
{}

/// Each local of a judged text that is a variable of its function is a scalar, and so is what is
/// named as one.
pub fn locals_are_scalars()
    ensures locals { (p : Typed) (s : Setting) (f : Function) → IsJudged p → IsFunction p s f
        → (k : ℕ) (l : Local) → k < length s.variables → local_at s.frame k ≡ Some l
        → is_scalar l.ctype ≡ true }
    ensures named { (p : Typed) (s : Setting) (f : Function) → IsJudged p → IsFunction p s f
        → (k : ℕ) (t : CType)
        → type_of_name (globals_in p) s.variables (name.Local k) ≡ Some t
        → is_scalar t ≡ true }
{}

/// Each local that is in scope at a step or a condition of a judged text is one of the frame and a
/// scalar, if its function has fewer than 1,024.
pub fn locals_are_in_scope()
    ensures step { (p : Typed) (s : Setting) (f : Function) → IsJudged p → IsFunction p s f
        → (here there : Here) (step : Code → Code) → length s.variables < 1024
        → IsStep s here step there → (k : ℕ) → Contains here.seen k
        → IsInScope s here.seen k }
    ensures test { (p : Typed) (s : Setting) (f : Function) → IsJudged p → IsFunction p s f
        → (mode : Mode) (here yes no : Here) (x : Expr) → length s.variables < 1024
        → IsCondition s mode here x yes no → (k : ℕ) → Contains here.seen k
        → IsInScope s here.seen k }
{}
