//! What follows from the contract of `insert`, the contract of a function that does nothing.
ghost use Rattle.std.specs.Prelude.{◌≡◌, List, ℕ};
ghost use Rattle.ckc_base.specs.declared.places.Pos.{Pos};
ghost use Rattle.ckc_base.specs.declared.runtime_checks.Check.{Check};
ghost use Rattle.ckc_base.specs.Traces.{Stopped};
ghost use Rattle.ckc_source.specs.Code.{Program};
ghost use Rattle.ckc_source.specs.LaidOut.{AreBytes};
ghost use Rattle.ckc_source.specs.Source.{source};
ghost use Rattle.ckc_core.specs.Code as core;
ghost use Rattle.ckc_core.specs.Meaning.{core_meaning};
ghost use Rattle.ckc_checks_follow.specs.Followed.{IsFollowedByCore};

/// Where a program stops at a check, each core code that `insert` may return stops at that check and that place, having
/// read and put the same bytes. So no test may be left out, made weaker or done later.
pub fn checks_stay()
    ensures { (p : Program) (c : core.Program) (input : List ℕ) (n : ℕ) (check : Check) (at : Pos)
        → AreBytes input → IsFollowedByCore p c → (source p input n).standing ≡ Stopped check at
        → (k : ℕ) × (core_meaning c input k ≡ source p input n) }
{}
