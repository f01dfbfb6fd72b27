//! What follows from the definitions alone, each the contract of a function that does nothing.

ghost use Rattle.std.specs.Prelude.{◌≡◌, ℕ};
ghost use Rattle.ckc_syntax.specs.declared.tree.Name.{Name};
ghost use Rattle.ckc_syntax.specs.declared.tree.Act.{Act-F, out-Act};
ghost use Rattle.ckc_typed.specs.declared.typed.Note.{Note};
ghost use Rattle.ckc_typed.specs.declared.typed.Typed.{Typed};
ghost use Rattle.ckc_typed.specs.Trees.{NotedDecl};
ghost use Rattle.ckc_blame_sound.specs.ckc_bounds_points.specs.declared.frame.Local.{Local};
ghost use Rattle.ckc_blame_sound.specs.ckc_bounds_statements.specs.Paths.{Here};
ghost use Rattle.ckc_source.specs.Code.{Code, Function};
ghost use Rattle.ckc_blame_sound.specs.Settings.{Setting, IsFunction};
ghost use Rattle.ckc_blame_sound.specs.Steps.{IsStep};
ghost use Rattle.ckc_blame_sound.specs.JudgedTexts.{IsJudged};
ghost use Rattle.ckc_blame_given.specs.Written.{IsDeclared};
ghost use Rattle.ckc_blame_steps.specs.Callees.{HaveFewVariables};
ghost use Rattle.ckc_blame_steps.specs.Spared.{SpareResults};

/// The bounds of a result in a judged text name parameters alone, so no local that a step declares.
pub fn results_are_spared()
    ensures { (p : Typed) → IsJudged p → SpareResults p }
{}

/// What a step of a judged text declares is a local of its function, with its type, that neither
/// the bounds of a local in scope nor those of the result name.
pub fn steps_declare()
    ensures { (p : Typed) → IsJudged p → HaveFewVariables p
        → (s : Setting) (f : Function) (here there : Here) (step : Code → Code) (d : NotedDecl)
        → IsFunction p s f → (is : IsStep s here step there)
        → out-Act Name Note is.before.body ≡ Act-F.Local d
        → (k : ℕ) × (l : Local) × IsDeclared s here d k l }
{}
