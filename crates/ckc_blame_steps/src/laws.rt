//! What follows from the definitions alone, each the contract of a function that does nothing.

ghost use Rattle.std.specs.Prelude.{◌≡◌, List, ◌∷◌};
ghost use Rattle.ckc_base.specs.declared.arithmetic.Mode.{Mode};
ghost use Rattle.ckc_typed.specs.declared.typed.Typed.{Typed};
ghost use Rattle.ckc_source.specs.declared.stmt.Spot.{Spot};
ghost use Rattle.ckc_source.specs.Code.{Target, Right, Expr, Code, Assign, Bundle, Get, Put};
ghost use Rattle.ckc_source.specs.States.{Work, Rest, State, settled};
ghost use Rattle.ckc_source.specs.Steps.{source_step, spot_of};
ghost use Rattle.ckc_build_elaborate.specs.Elaborated.{elaborated};
ghost use Rattle.ckc_blame_sound.specs.Sound.{Sound};
ghost use Rattle.ckc_blame_steps.specs.Granted.{IsGranted};
ghost use Rattle.ckc_blame_steps.specs.Unchecked.{StoresSafely, MovesSoundly};

/// An assignment, a declaration and a bundle that is the next step of a sound state, and stores
/// through no unchecked pointer, leads to a sound state, or stops at a named check, or is stuck in
/// code of mode Unchecked.
pub fn assignments_keep_sound()
    ensures assignment { (p : Typed) (s : State) (h : Sound p s) (spot : Spot) (target : Target)
        (right : Right) (rest : Code) (next : List Work) → IsGranted p
        → settled s.frame.work ≡ Rest (Assign spot target right rest) ∷ next
        → (m : Mode) → (spot_of s).mode ≡ m → StoresSafely m (Assign spot target right rest)
        → MovesSoundly m p (source_step (elaborated p) s) }
    ensures bundle { (p : Typed) (s : State) (h : Sound p s) (spot : Spot)
        (assigns : List (Target × Right)) (rest : Code) (next : List Work) → IsGranted p
        → settled s.frame.work ≡ Rest (Bundle spot assigns rest) ∷ next
        → (m : Mode) → (spot_of s).mode ≡ m → StoresSafely m (Bundle spot assigns rest)
        → MovesSoundly m p (source_step (elaborated p) s) }
{}

/// A call of `getchar` and of `putchar` that is the next step of a sound state, and stores through
/// no unchecked pointer, leads to a sound state, or stops at a named check, or is stuck in code of
/// mode Unchecked: alone, assigned, or what a local begins with.
pub fn bytes_keep_sound()
    ensures get { (p : Typed) (s : State) (h : Sound p s) (spot : Spot)
        (target : Target) (rest : Code) (next : List Work) → IsGranted p
        → settled s.frame.work ≡ Rest (Get spot target rest) ∷ next
        → (m : Mode) → (spot_of s).mode ≡ m → StoresSafely m (Get spot target rest)
        → MovesSoundly m p (source_step (elaborated p) s) }
    ensures put { (p : Typed) (s : State) (h : Sound p s) (spot : Spot)
        (target : Target) (e : Expr) (rest : Code) (next : List Work) → IsGranted p
        → settled s.frame.work ≡ Rest (Put spot target e rest) ∷ next
        → (m : Mode) → (spot_of s).mode ≡ m → StoresSafely m (Put spot target e rest)
        → MovesSoundly m p (source_step (elaborated p) s) }
{}
