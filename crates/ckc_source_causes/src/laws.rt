//! What follows from the definitions alone, each the contract of a function that does nothing.

ghost use Rattle.std.specs.Prelude.{◌≡◌, ◌≢◌, ℕ, Bool, true, Ok, Err};
ghost use Rattle.ckc_types.specs.declared.types.CType.{CType};
ghost use Rattle.ckc_base.specs.declared.arithmetic.Width.{Width};
ghost use Rattle.ckc_base.specs.declared.places.Pos.{Pos};
ghost use Rattle.ckc_source.specs.declared.expr.Access.{Access};
ghost use Rattle.ckc_source.specs.declared.expr.Integer.{Integer};
ghost use Rattle.ckc_source.specs.declared.expr.Through.{Through};
ghost use Rattle.ckc_source.specs.declared.expr.Through.TheVariants.{Raw};
ghost use Rattle.ckc_source.specs.declared.outcome.Halt.TheVariants.{Stuck};
ghost use Rattle.ckc_source.specs.declared.outcome.Value.{Value};
ghost use Rattle.ckc_source.specs.Blocks.{lies_in};
ghost use Rattle.ckc_source.specs.Code.{Expr, Program};
ghost use Rattle.ckc_source.specs.Eval.{Store, evaluated, element, place_in, tests};
ghost use Rattle.ckc_source_causes.specs.Layouts.{Layout, IsLaidOutBy};
ghost use Rattle.ckc_source_causes.specs.Ranges.{GivesRange, IsNullOrRanged};
ghost use Rattle.ckc_source_causes.specs.WellFormed.{IsWellFormed, IsWellFormedAccess, IsWellFormedCell, IsWellFormedExpr};
ghost use Rattle.ckc_source_causes.specs.Causes.{HasCause, HoldsObjects, IsStuckForCauseAlone};

/// The value of an expression that gives a range, if it has one, is null or has a range. So an access of a well formed program
/// is never stuck where its address is judged, and neither is the test of a bounds cast.
pub fn ranges_are_given()
    ensures given { (p : Program) (l : Layout) (t : CType) (terminated : Bool) (e : Expr)
        (s : Store) (v : Value) → GivesRange p l t terminated e → evaluated s e ≡ Ok v
        → IsNullOrRanged v }
    ensures accesses { (p : Program) (l : Layout) (access : Access) (e i : Expr) (s : Store)
        (v : Value) (n : ℕ) → IsWellFormedAccess p l access e i → evaluated s e ≡ Ok v
        → element access v n ≢ Err Stuck }
    ensures casts { (p : Program) (l : Layout) (t : CType) (terminated : Bool) (size : ℕ)
        (form : Integer) (at : Pos) (e : Expr) (s : Store) (v : Value) (k : ℕ)
        → GivesRange p l t terminated e → evaluated s e ≡ Ok v → tests size form at v k ≢ Err Stuck }
{}

/// What an access of a well formed program reads or writes, by name or through a checked pointer, is aligned and lies in a block,
/// once its checks have passed.
pub fn checked_accesses_lie()
    ensures { (p : Program) (l : Layout) (s : Store) (width : Width) (access : Access) (e i : Expr)
        (v k : Value) (a : ℕ) → IsLaidOutBy p l → HoldsObjects p l s
        → IsWellFormedCell p l width access e i → access.through ≢ Raw → evaluated s e ≡ Ok v
        → evaluated s i ≡ Ok k → element access v k.number ≡ Ok a
        → lies_in width (place_in a access.offset) s.blocks ≡ true }
{}

/// An expression of a well formed program that is stuck is stuck for a cause, where the objects of the program are.
pub fn expressions_are_stuck_for_a_cause()
    ensures { (p : Program) (l : Layout) (s : Store) (e : Expr) → IsLaidOutBy p l
        → HoldsObjects p l s → IsWellFormedExpr p l e → evaluated s e ≡ Err Stuck → HasCause s e }
{}

/// A run of a well formed program is stuck only for a cause: its next step goes through a `T *` to what no block has, or reads a
/// checked pointer whose bounds are not true.
pub fn runs_are_stuck_for_a_cause()
    ensures { (p : Program) → IsWellFormed p → IsStuckForCauseAlone p }
{}
