//! What `entails` promises of chains.
ghost use Rattle.std.specs.Prelude.{◌≡◌, ◌↔◌, Bool, true, false, IsTrue, pos};
ghost use Rattle.ckc_linear.specs.Chains.{Chain};
ghost use Rattle.ckc_wrong_bodies.specs.Examples.{two_facts};

/// From x - y <= 1 and y - z <= 1 a chain leads to x - z <= 2, and none to x - z <= 1. So `entails`, which is true
/// exactly when there is a chain, is so for the one and not for the other: a body is refused that looks at single facts
/// alone, of which none is about x and z, and one that lets a sum pass that is too large by one.
pub fn chains_have_several_facts()
    ensures longer { (answer : Bool) → (IsTrue answer ↔ Chain 3 two_facts 0 2 (pos 2))
        → answer ≡ true }
    ensures exact { (answer : Bool) → (IsTrue answer ↔ Chain 3 two_facts 0 2 (pos 1))
        → answer ≡ false }
{}
