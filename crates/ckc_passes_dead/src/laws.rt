//! Laws of the definitions, each the contract of a function that does nothing.
ghost use Rattle.std.specs.Prelude.{◌≡◌};
ghost use Rattle.ckc_tac.specs.declared.code.Tac.{Tac};
ghost use Rattle.ckc_passes.specs.Passes.{ProgramBecomes};
ghost use Rattle.ckc_passes_dead.specs.Dead.{dead_pass};
ghost use Rattle.ckc_passes_dead.specs.Effects.{effects_of};

/// The pass makes one program alone of a program.
pub fn one_is_left()
    ensures { (t a b : Tac) → ProgramBecomes dead_pass t a → ProgramBecomes dead_pass t b → a ≡ b }
{}

/// The pass drops no operation that does more than write a register: no check, call, load, store, input or output.
pub fn effects_stay()
    ensures { (t after : Tac) → ProgramBecomes dead_pass t after → effects_of after ≡ effects_of t }
{}
