//! What follows from the definitions alone.

ghost use Rattle.std.specs.Prelude.{◌↔◌, ◌+◌, ℕ, List, ℤ, IsTrue};
ghost use Rattle.ckc_linear.specs.declared.facts.Fact.{Fact};
ghost use Rattle.ckc_linear.specs.Chains.{Chain};
ghost use Rattle.ckc_bounds_known.specs.Shown.{reaches};

/// The search for a chain finds one exactly when there is one.
pub fn shown_by_chains()
    ensures { (vars : ℕ) (facts : List Fact) (x y : ℕ) (c : ℤ) →
        IsTrue (reaches (vars + 1) facts x y c) ↔ Chain vars facts x y c }
{}
