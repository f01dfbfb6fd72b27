//! Laws of the definitions, each the contract of a function that does nothing.
ghost use Rattle.std.specs.Prelude.{◌≡◌, ◌≢◌, ℕ, List, false, ℤ, ◌+ℤ◌, ◌≤ℤ◌};
ghost use Rattle.std.specs.List.{All};
ghost use Rattle.ckc_linear.specs.declared.facts.Fact.{Fact};
ghost use Rattle.ckc_linear.specs.Facts.{Satisfies, names, shifted};
ghost use Rattle.ckc_linear.specs.Chains.{Chain};

/// Numbers that satisfy all facts satisfy what each chain says.
pub fn chains_hold()
    ensures { (vars : ℕ) (facts : List Fact) (value : ℕ → ℤ) (x y : ℕ) (c : ℤ) →
        All (Satisfies value) facts → Chain vars facts x y c → value x ≤ℤ (value y +ℤ c) }
{}

/// A fact that does not name `x` stays true if `x` alone changes.
pub fn others_hold()
    ensures { (f : Fact) (x : ℕ) (before after : ℕ → ℤ) → ((v : ℕ) → v ≢ x → after v ≡ before v) →
        names x f ≡ false → Satisfies before f → Satisfies after f }
{}

/// A shifted fact is true if `x` has grown by `c`.
pub fn shifted_hold()
    ensures { (f : Fact) (x : ℕ) (c : ℤ) (before after : ℕ → ℤ)
        → ((v : ℕ) → v ≢ x → after v ≡ before v) →
        after x ≡ before x +ℤ c → Satisfies before f → Satisfies after (shifted x c f) }
{}
