//! Laws of the definitions, each the contract of a function that does nothing.
ghost use Rattle.std.specs.Prelude.{◌≡◌};
ghost use Rattle.ckc_tac.specs.declared.code.Tac.{Tac};
ghost use Rattle.ckc_passes_jumps.specs.Jumps.{ProgramAfter};

/// The pass makes one program alone of a program.
pub fn one_is_left()
    ensures { (t a b : Tac) → ProgramAfter t a → ProgramAfter t b → a ≡ b }
{}
