//! Laws of the definitions, each the contract of a function that does nothing.
ghost use Rattle.std.specs.Prelude.{◌≡◌, [], ◌∷◌};
ghost use Rattle.ckc_base.specs.declared.arithmetic.BinOp.TheVariants.{Add};
ghost use Rattle.ckc_tac.specs.declared.code.Operand.TheVariants.{Register, Number};
ghost use Rattle.ckc_tac.specs.declared.code.TacOp.TheVariants.{Bin, Copy, Const, Get};
ghost use Rattle.ckc_passes.specs.Values.{Combined, Entry, Known, New, value_after};

/// Values after `r1 = get; r2 = 3; r3 = r2 + 4; r4 = r1 + r0; r1 = r3`: a register that was not written has its first
/// value, and a copy has the value that its source had at its place.
pub fn example_values()
    ensures first { value_after (Get 1 ∷ []) 0 ≡ Entry 0 }
    ensures new { value_after (Get 1 ∷ []) 1 ≡ New 0 }
    ensures known { value_after (Bin Add 3 (Register 2) (Number 4) ∷ Const 2 3 ∷ Get 1 ∷ []) 3
        ≡ Known 7 }
    ensures combined { value_after (Copy 1 3 ∷ Bin Add 4 (Register 1) (Register 0) ∷ Get 1 ∷ []) 4
        ≡ Combined Add (New 0) (Entry 0) }
    ensures copied { value_after (Copy 1 3 ∷ Const 3 7 ∷ Get 1 ∷ []) 1 ≡ Known 7 }
{}
