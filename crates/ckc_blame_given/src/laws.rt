//! What follows from the definitions alone, each the contract of a function that does nothing.

ghost use Rattle.std.specs.Prelude.{◌≡◌, ℕ, ◌+◌, ◌<◌, ◌^◌, true, false, pos, List, length, Some, Ok};
ghost use Rattle.ckc_base.specs.declared.arithmetic.Mode.{Mode};
ghost use Rattle.ckc_types.specs.declared.types.CType.{CType};
ghost use Rattle.ckc_linear.specs.declared.forms.Form.{Form};
ghost use Rattle.ckc_typed.specs.declared.environment.Globals.{Globals};
ghost use Rattle.ckc_typed.specs.Conversions.{converts, is_allocation};
ghost use Rattle.ckc_typed.specs.Statics.{strings_of_expr};
ghost use Rattle.ckc_typed.specs.Trees.{NotedExpr};
ghost use Rattle.ckc_blame_sound.specs.ckc_bounds_points.specs.declared.frame.Frame.{Frame};
ghost use Rattle.ckc_blame_sound.specs.ckc_bounds_points.specs.Flow.{State};
ghost use Rattle.ckc_blame_sound.specs.ckc_bounds_points.specs.Forms.{in_type};
ghost use Rattle.ckc_blame_sound.specs.ckc_bounds_points.specs.Shown.{Known};
ghost use Rattle.ckc_blame_sound.specs.ckc_bounds_stores.specs.declared.values.Numbered.{Numbered};
ghost use Rattle.ckc_blame_sound.specs.ckc_bounds_stores.specs.Values.{narrow};
ghost use Rattle.ckc_blame_sound.specs.ckc_bounds_views.specs.Views.{view};
ghost use Rattle.ckc_blame_sound.specs.ckc_bounds_statements.specs.Paths.{Here};
ghost use Rattle.ckc_source.specs.Eval.{Store, evaluated};
ghost use Rattle.ckc_build_values.specs.Expressions.{expr_elaborated};
ghost use Rattle.ckc_blame_sound.specs.Settings.{Setting, AreStrings};
ghost use Rattle.ckc_blame_sound.specs.Values.{number_of};
ghost use Rattle.ckc_blame_sound.specs.Points.{HoldsAt};
ghost use Rattle.ckc_blame_sound.specs.Bodies.{AreFresh};
ghost use Rattle.ckc_blame_sound.specs.Typed.{IsTyped, Agrees};
ghost use Rattle.ckc_blame_pointers.specs.Covered.{DeclareLocals, IsSoundStore, IsCovered};
ghost use Rattle.ckc_blame_pointers.specs.Owed.{Comes};
ghost use Rattle.ckc_blame_sound.specs.Valuations.{Valuation, AreFacts};
ghost use Rattle.ckc_blame_sound.specs.Containment.{IsNarrowed};
ghost use Rattle.ckc_blame_sound.specs.Elements.{number_kept};
ghost use Rattle.ckc_blame_sound.specs.GivenValues.{memory_of, IsFrom};
ghost use Rattle.ckc_blame_sound.specs.Passed.{IsNewArgument};
ghost use Rattle.ckc_blame_given.specs.Gives.{Gives};
ghost use Rattle.ckc_blame_given.specs.At.{GivesAt};

/// What becomes of a judged expression gives a word that has the place, the number and the range of
/// the expression, under numbers for its values and its fresh variables that go with any for those
/// before, or stops at a named check. In checked code it is not stuck.
pub fn expressions_give()
    ensures { (m : Mode) (globals : Globals) (s : Setting) (entry : List ℕ) (here : Here)
        (before after : NotedExpr) (fresh literals next : ℕ) (store : Store) → Agrees globals s
        → DeclareLocals s → IsSoundStore s store next
        → fresh + length ((view s.frame before).fresh here.at) < 2 ^ 32 → AreFresh s.frame fresh
        → IsTyped globals s before
        → (view s.frame before).judged fresh here.at ≡ Ok after → IsCovered m s store here.seen after
        → AreStrings s literals (strings_of_expr after) → HoldsAt s store entry here
        → Comes m (λ p. GivesAt s store here.at before p.number)
        (evaluated store (expr_elaborated s.text s.variables literals after)) }
{}

/// The range of an expression without its widenings begins as it does with them, and ends at the
/// same base.
pub fn ranges_begin_alike()
    ensures { (frame : Frame) (e : NotedExpr) (first fresh : ℕ) (at : State) → IsNarrowed
        ((view frame e).range first fresh at) ((view frame e).range first fresh (narrow at)) }
{}

/// The word that an expression gives is what containment asks of it at a place of a type that the
/// expression converts to, if it is no `calloc`: of what is assigned, of an initialiser and of a
/// result, and of an argument. If the type is one of integers, the form of the expression in it
/// stands for the number that the place keeps.
pub fn words_go_to_places()
    ensures from { (globals : Globals) (s : Setting) (store : Store) (at : State) (v : Valuation)
        (e : NotedExpr) (from : Numbered) (t : CType) (n : ℕ) → IsTyped globals s e
        → converts t e ≡ true → is_allocation e ≡ false → Gives s store v at e from n
        → IsFrom s.frame (memory_of s store t) v t e from at n }
    ensures argument { (globals : Globals) (s : Setting) (store : Store) (at : State)
        (v : Valuation) (e : NotedExpr) (from : Numbered) (t : CType) (n : ℕ) →
        IsTyped globals s e → converts t e ≡ true → is_allocation e ≡ false
        → Gives s store v at e from n
        → IsNewArgument (memory_of s store t) v (view s.frame e) from.value from.fresh at n }
    ensures number { (globals : Globals) (s : Setting) (store : Store) (at : State)
        (v : Valuation) (e : NotedExpr) (from : Numbered) (t : CType) (n : ℕ) (facts : Known)
        (f : Form) → IsTyped globals s e → converts t e ≡ true → is_allocation e ≡ false
        → Gives s store v at e from n
        → v.number 0 ≡ pos 0 → AreFacts v facts
        → in_type facts t ((view s.frame e).form facts) ≡ Some f
        → number_of v.number f ≡ number_kept t n }
{}
