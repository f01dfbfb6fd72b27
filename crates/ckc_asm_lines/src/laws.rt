ghost use Rattle.std.specs.Prelude.{ℕ, List};
ghost use Rattle.ckc_asm_lines.specs.declared.lines.Line.{Line};
ghost use Rattle.ckc_asm_lines.specs.Assembled.{Assembled, AreParts, CanAssemble};

/// Labelled lines are assembled to one entry, code and list of initial bytes.
pub fn one_assembly()
    ensures { (lines : List Line) (start entry other : ℕ)
        (given code code' initial initial' : List ℕ) →
        CanAssemble lines start given → Assembled lines start given entry code initial →
        Assembled lines start given other code' initial'
        → AreParts entry code initial other code' initial' }
{}
