//! What follows from the definitions alone, each the contract of a function that does nothing.

ghost use Rattle.std.specs.Prelude.{◌≡◌, ◌⊎◌, ℕ, ◌+◌, ◌<◌, ◌^◌, true, List, Some, IfSome, Ok};
ghost use Rattle.std.specs.List.{Contains};
ghost use Rattle.ckc_base.specs.declared.arithmetic.Mode.{Mode};
ghost use Rattle.ckc_types.specs.declared.types.CType.{CType};
ghost use Rattle.ckc_syntax.specs.declared.tree.Name.{Name};
ghost use Rattle.ckc_typed.specs.declared.environment.Globals.{Globals};
ghost use Rattle.ckc_typed.specs.Operands.{dot_type};
ghost use Rattle.ckc_typed.specs.declared.typed.Typed.{Typed};
ghost use Rattle.ckc_typed.specs.Scoped.{Scoped};
ghost use Rattle.ckc_typed.specs.Trees.{NotedExpr};
ghost use Rattle.ckc_typed.specs.Types.{is_scalar};
ghost use Rattle.ckc_blame_sound.specs.ckc_bounds.specs.Phase.{bounding};
ghost use Rattle.ckc_blame_sound.specs.ckc_bounds_statements.specs.Paths.{Here};
ghost use Rattle.ckc_blame_sound.specs.ckc_bounds_views.specs.Views.{view};
ghost use Rattle.ckc_source.specs.Code.{Code, End, Expr, Function};
ghost use Rattle.ckc_source.specs.Eval.{Store};
ghost use Rattle.ckc_blame_sound.specs.Settings.{Setting, IsFunction};
ghost use Rattle.ckc_blame_sound.specs.Safe.{AreSafe};
ghost use Rattle.ckc_blame_sound.specs.Slots.{AreFilled};
ghost use Rattle.ckc_blame_sound.specs.Scopes.{NamesSeen};
ghost use Rattle.ckc_blame_sound.specs.Steps.{IsStep, IsCondition};
ghost use Rattle.ckc_blame_sound.specs.Words.{HaveWords};
ghost use Rattle.ckc_blame_sound.specs.Typed.{IsTyped};
ghost use Rattle.ckc_blame_given.specs.ckc_blame_pointers.specs.Covered.{DeclareOnes, KeepRunsFree, IsInScope, AreCovered, IsCovered, IsIntegerMember, IsPointerMember};
ghost use Rattle.ckc_blame_sound.specs.Elements.{NameIntegerMembers};
ghost use Rattle.ckc_blame_sound.specs.JudgedTexts.{IsJudged, globals_in};
ghost use Rattle.ckc_blame_steps.specs.Checked.{IsOfMode, IsStmtOfMode, mode_of};
ghost use Rattle.ckc_blame_steps.specs.Told.{IsTold, IsSpoken};

/// In checked scopes the expressions of a text that is scoped have no unchecked pointer and no `_Assume_bounds_cast`.
pub fn texts_are_safe()
    ensures { (q p : Typed) → Scoped q → bounding.Makes q p → AreSafe p }
{}

/// The expressions of a step and of a condition are of its mode: in checked code none has an unchecked
/// pointer in its type or is an `_Assume_bounds_cast`, nor is one in it, if those of the text are
/// safe.
pub fn parts_are_of_mode()
    ensures step { (m : Mode) (s : Setting) (here there : Here) (step : Code → Code) →
        AreSafe s.text → (is : IsStep s here step there) → mode_of (step End) ≡ m
        → IsStmtOfMode m is.before }
    ensures condition { (m : Mode) (s : Setting) (here yes no : Here) (e : Expr) → AreSafe s.text
        → (c : IsCondition s m here e yes no) → IfSome c.before (IsOfMode m) }
{}

/// The structures that a judged text declares are those that it is laid out by.
pub fn declared_structures_are_laid_out()
    ensures { (p : Typed) → IsJudged p → (globals_in p).structs ≡ p.layout }
{}

/// What has the type of a member of a structure of a judged text is an integer or a pointer there, as it is judged and as
/// it is read, if bounds of members name integer members and the pointers that memory holds are in bounds.
pub fn members_are_told()
    ensures { (p : Typed) (s : Setting) (f : Function) (store : Store) → IsJudged p
        → IsFunction p s f → NameIntegerMembers p.layout → AreFilled s.text store
        → (u t : CType) (n : Name) → dot_type s.text.layout u n ≡ Some t
        → IsIntegerMember s u t n ⊎ IsPointerMember s store u t n }
{}

/// The judgement of a judged text and its program tell alike of locals in scope, static objects and members: locals that
/// are `_Ptr` are granted to have the bounds of their type, and locals in scope to be there.
pub fn texts_are_told()
    ensures { (p : Typed) (s : Setting) (f : Function) (store : Store) (seen : List ℕ) →
        IsJudged p → IsFunction p s f → NameIntegerMembers p.layout → DeclareOnes s
        → KeepRunsFree s.text → AreFilled s.text store
        → ((k : ℕ) → Contains seen k → IsInScope s seen k)
        → IsTold (globals_in p) s store seen }
{}

/// A typed expression of code of a mode, of few values, that names locals in scope is one of which it is said what it
/// comes to, if it has only such nodes; so is what a scalar is judged as, if it has.
pub fn expressions_are_covered()
    ensures whole { (m : Mode) (globals : Globals) (s : Setting) (store : Store)
        (seen : List ℕ) → IsTold globals s store seen → (e : NotedExpr) → IsTyped globals s e
        → IsOfMode m e → NamesSeen seen e → IsSpoken m s e
        → (view s.frame e).values + 1 < 2 ^ 32 → AreCovered m s store seen e }
    ensures judged { (m : Mode) (globals : Globals) (s : Setting) (store : Store) (here : Here)
        (before after : NotedExpr) (fresh : ℕ) → IsTold globals s store here.seen
        → IsTyped globals s before → IsOfMode m before → NamesSeen here.seen before
        → is_scalar before.note.ctype ≡ true → (view s.frame before).values + 1 < 2 ^ 32
        → (view s.frame before).judged fresh here.at ≡ Ok after → IsSpoken m s after
        → IsCovered m s store here.seen after }
{}

/// So is a condition of a mode of a text with words as literals whose expressions are safe.
pub fn conditions_are_covered()
    ensures { (m : Mode) (p : Typed) (s : Setting) (f : Function) (store : Store)
        (here yes no : Here) (e : Expr) (c : IsCondition s m here e yes no) → HaveWords p
        → IsFunction p s f → AreSafe s.text → IsTold (globals_in p) s store here.seen
        → IfSome c.before (λ x. (view s.frame x).values + 1 < 2 ^ 32)
        → IfSome c.after (IsSpoken m s) → IfSome c.after (IsCovered m s store here.seen) }
{}
