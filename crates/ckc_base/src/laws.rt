//! Laws of the definitions, each the contract of a function that does nothing.
ghost use Rattle.std.specs.Prelude.{◌≡◌, ◌≢◌, ℕ, ◌+◌, ◌*◌, ◌≤◌, List, Bool, IsTrue};
ghost use Rattle.ckc_base.specs.Traces.{Event, Stuck, Showing, narrowed};
ghost use Rattle.ckc_base.specs.Follows.{Follows};
ghost use Rattle.ckc_base.specs.Steps.{System, meaning};
ghost use Rattle.ckc_base.specs.Matching.{MatchedBy};
ghost use Rattle.ckc_base.specs.Simulation.{Nears, SimulatedBy};
ghost use Rattle.ckc_base.specs.Listing.{Listing};

/// What is matched step by step follows: if pairs of states are given so that each step of the upper system is
/// matched by steps of the lower one that lead to a pair again, within c steps for each one counted, the lower system
/// follows the upper one from each pair.
pub fn following_by_steps<E, S, T, P>()
    ensures { (a : System E S) (b : System E T) (upper : P → S) (lower : P → T) (measure : S → ℕ)
        (c : ℕ)
        → ((p : P) → MatchedBy b upper lower measure (upper p) (lower p)
        (c * (a.weight (upper p) + 1)) (a.step (upper p)))
        → (p : P) → Follows (meaning a (upper p)) (meaning b (lower p)) c }
{}

/// Following is transitive: what follows what follows a run follows that run, and the bounds multiply.
pub fn following_composes<E>()
    ensures { (a b d : ℕ → Showing E) (c e : ℕ) → Follows a b c → Follows b d e
        → Follows a d (e * (c + 1)) }
{}

/// If following holds of detailed traces, it holds of the traces in which each detailed event is seen as some
/// events of input and output, perhaps none.
pub fn following_narrows<E>()
    ensures { (f : E → List Event) (a b : ℕ → Showing E) (c : ℕ) → Follows a b c
        → Follows (λ n. narrowed f (a n)) (λ k. narrowed f (b k)) c }
{}

/// What is simulated follows in what is seen: if the related pairs of states are given, each step of the upper
/// system from such a pair is simulated by steps of the lower one that end near to such a pair again, and each needs
/// at most c steps for each one counted, the lower system follows the upper one from each state near to a pair.
pub fn following_by_simulation<E, F, G, S, T>()
    ensures { (a : System E S) (b : System F T) (f : E → List G) (g : F → List G)
        (may : S → F → Bool) (beside related : S → T → Bool)
        (measure most : S → ℕ) (near c : ℕ) → ((s : S) → near + most s ≤ c * (a.weight s + 1))
        → ((s : S) (t : T) → IsTrue (related s t)
        → SimulatedBy b f g (λ s e. IsTrue (may s e)) (λ s t. IsTrue (beside s t))
        (λ s t. IsTrue (related s t)) measure near (most s) s t (a.step s))
        → (s : S) (t u : T) → IsTrue (related s u)
        → Nears b g (λ e. IsTrue (may s e)) (λ t. IsTrue (beside s t)) near t u
        → Follows (λ n. narrowed f (meaning a s n)) (λ k. narrowed g (meaning b t k)) c }
{}

/// A run that is simulated can be listed beside the upper one, if that one is never stuck: each of its steps
/// stands at a step of the upper run, and what it does next is allowed there.
pub fn listing_by_simulation<E, F, G, S, T>()
    ensures { (a : System E S) (b : System F T) (f : E → List G) (g : F → List G)
        (may : S → F → Bool) (beside related : S → T → Bool)
        (measure most : S → ℕ) (near : ℕ)
        → ((s : S) (t : T) → IsTrue (related s t)
        → SimulatedBy b f g (λ s e. IsTrue (may s e)) (λ s t. IsTrue (beside s t))
        (λ s t. IsTrue (related s t)) measure near (most s) s t (a.step s))
        → (s : S) (t u : T) → IsTrue (related s u)
        → Nears b g (λ e. IsTrue (may s e)) (λ t. IsTrue (beside s t)) near t u
        → ((n : ℕ) → (meaning a s n).standing ≢ Stuck)
        → (k : ℕ) → Listing a b f g (λ s e. IsTrue (may s e)) (λ s t. IsTrue (beside s t)) s t k }
{}
