//! Laws of the definitions, each the contract of a function that does nothing.
ghost use Rattle.std.specs.Prelude.{◌≡◌, ◌≢◌, ℕ, ◌≤◌, List, [], Some};
ghost use Rattle.ckc_base.specs.declared.places.Pos.{Pos};
ghost use Rattle.ckc_base.specs.declared.runtime_checks.Check.TheVariants.{Null};
ghost use Rattle.ckc_base.specs.Traces.{Going, Ended, Stopped};
ghost use Rattle.ckc_base.specs.Follows.{IsPrefix};
ghost use Rattle.ckc_source.specs.Code.{Program};
ghost use Rattle.ckc_base.specs.States.{state_at};
ghost use Rattle.ckc_source.specs.LaidOut.{IsLaidOut};
ghost use Rattle.ckc_source.specs.Source.{source, source_system, first_state, place_after, unchecked_since, IsOrderly};
ghost use Rattle.ckc_source.specs.Example.{line_one, null_example, null_shows, null_place, swap_example, swap_shows};

/// What a program shows begins with what it showed before, and once it has ended, stopped or is stuck it stays as it is.
pub fn source_goes_on()
    ensures begins { (p : Program) (input : List ℕ) (n k : ℕ) → n ≤ k
        → IsPrefix (source p input n).trace (source p input k).trace }
    ensures stays { (p : Program) (input : List ℕ) (n k : ℕ) → n ≤ k
        → (source p input n).standing ≢ Going → source p input k ≡ source p input n }
{}

/// Each state of a run is orderly, if the static objects and the string literals lie apart and begin as bytes.
pub fn states_are_orderly()
    ensures { (p : Program) (input : List ℕ) (n : ℕ) → IsLaidOut p
        → IsOrderly (state_at (source_system p) (first_state p input) n) }
{}

/// Where unchecked code ran first is known from the step on at which it did, and does not change.
pub fn blame_stays()
    ensures { (p : Program) (input : List ℕ) (n k : ℕ) (at : Pos) → n ≤ k
        → unchecked_since p input n ≡ Some at → unchecked_since p input k ≡ Some at }
{}

/// What the first program of specs/Example.antt shows: it puts a byte, and stops where it reads through null, in
/// the statement at column 50; its first step is unchecked.
pub fn null_is_checked()
    ensures goes_on { source null_example [] 2 ≡ null_shows Going }
    ensures stops { source null_example [] 3 ≡ null_shows (Stopped Null null_place) }
    ensures place { place_after null_example [] 3 ≡ line_one 50 }
    ensures blame { unchecked_since null_example [] 3 ≡ Some (line_one 32) }
{}

/// What the second program of specs/Example.antt shows: in a bundle all right sides have the values before it.
pub fn bundle_is_at_once()
    ensures goes_on { source swap_example [] 3 ≡ swap_shows Going }
    ensures ends { source swap_example [] 4 ≡ swap_shows (Ended 21) }
{}
