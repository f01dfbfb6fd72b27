//! Laws of the definitions, each the contract of a function that does nothing.
ghost use Rattle.std.specs.Prelude.{◌≡◌};
ghost use Rattle.ckc_tac.specs.declared.code.Tac.{Tac};
ghost use Rattle.ckc_passes.specs.Passes.{ProgramBecomes};
ghost use Rattle.ckc_passes_redundant.specs.Redundant.{redundant_pass};

/// The pass makes one program alone of a program.
pub fn one_is_left()
    ensures { (t a b : Tac)
        → ProgramBecomes redundant_pass t a → ProgramBecomes redundant_pass t b → a ≡ b }
{}
