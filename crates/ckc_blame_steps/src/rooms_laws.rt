//! What follows from the definitions alone, each the contract of a function that does nothing.

ghost use Rattle.std.specs.Prelude.{◌+◌, ◌^◌, ◌<◌, ℕ, length, IfSome};
ghost use Rattle.ckc_base.specs.declared.arithmetic.Mode.{Mode};
ghost use Rattle.ckc_syntax.specs.declared.tree.Name.{Name};
ghost use Rattle.ckc_syntax.specs.declared.tree.Act.{out-Act};
ghost use Rattle.ckc_syntax_limits.specs.Small.{Small};
ghost use Rattle.ckc_typed.specs.declared.typed.Note.{Note};
ghost use Rattle.ckc_typed.specs.declared.typed.Typed.{Typed};
ghost use Rattle.ckc_blame_sound.specs.ckc_bounds_views.specs.Views.{view};
ghost use Rattle.ckc_blame_sound.specs.ckc_bounds_statements.specs.Paths.{Here};
ghost use Rattle.ckc_source.specs.Code.{Code, Expr, Function};
ghost use Rattle.ckc_blame_sound.specs.Calls.{arguments_of};
ghost use Rattle.ckc_blame_sound.specs.Settings.{Setting, IsFunction};
ghost use Rattle.ckc_blame_sound.specs.Steps.{IsStep, IsCondition};
ghost use Rattle.ckc_blame_sound.specs.JudgedTexts.{IsJudged};
ghost use Rattle.ckc_blame_steps.specs.Granted.{HasRoomAct};
ghost use Rattle.ckc_blame_steps.specs.Results.{returned_by};
ghost use Rattle.ckc_blame_steps.specs.Rooms.{HasRoomFrom, HaveRoomEach};

/// In a judged text that keeps the limits of a text there is room for the numbers of the values and
/// the fresh variables of the expressions of each step, after it is judged, and for those of the
/// fresh variables of each condition.
pub fn steps_have_places()
    ensures step { (p : Typed) (s : Setting) (f : Function) (j : IsJudged p) → Small j.named.tree
        → IsFunction p s f → (here there : Here) (step : Code → Code)
        (is : IsStep s here step there)
        → HasRoomAct s.frame here.at here.next (out-Act Name Note is.after.body) }
    ensures condition { (p : Typed) (s : Setting) (f : Function) (j : IsJudged p) →
        Small j.named.tree → IsFunction p s f → (mode : Mode) (here yes no : Here) (e : Expr)
        (c : IsCondition s mode here e yes no)
        → IfSome c.before (λ g. here.next + length ((view s.frame g).fresh here.at) < 2 ^ 32) }
{}

/// There is such room for the arguments of each call, numbered one after another, and for what is
/// returned.
pub fn arguments_have_room()
    ensures each { (p : Typed) (s : Setting) (f : Function) (j : IsJudged p) → Small j.named.tree
        → IsFunction p s f → (here there : Here) (step : Code → Code)
        (is : IsStep s here step there)
        → HaveRoomEach s here (record { value = 0; fresh = here.next }) (arguments_of is.before) }
    ensures returned { (p : Typed) (s : Setting) (f : Function) (j : IsJudged p) →
        Small j.named.tree → IsFunction p s f → (here there : Here) (step : Code → Code)
        (is : IsStep s here step there) → IfSome (returned_by is.before)
        (HasRoomFrom s here (record { value = 0; fresh = here.next })) }
{}
