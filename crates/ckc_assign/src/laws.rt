//! Laws of the definitions, each the contract of a function that does nothing.
ghost use Rattle.std.specs.Prelude.{All, List, ℕ};
ghost use Rattle.ckc_base.specs.Follows.{Follows};
ghost use Rattle.ckc_tac.specs.Meaning.{tac_detail};
ghost use Rattle.ckc_frame.specs.declared.code.Placed.{Placed};
ghost use Rattle.ckc_frame.specs.Meaning.{placed_detail};
ghost use Rattle.ckc_frame.specs.WellFormed.{IsWellFormed, code_of};
ghost use Rattle.ckc_assign.specs.Apart.{HasOwnPlaces, KeepsLive};

/// Placed code follows its code step by step, however its places were found, if registers that are live at once lie
/// apart and calls keep what is live after them.
pub fn placed_code_follows()
    ensures { (p : Placed) → IsWellFormed p → All HasOwnPlaces p.funcs → All KeepsLive p.funcs
        → (input : List ℕ) → Follows (tac_detail (code_of p) input) (placed_detail p input) 1 }
{}
