//! What follows from the definitions alone, each the contract of a function that does nothing.

ghost use Rattle.std.specs.Prelude.{◌≡◌, ◌*◌, ◌≤◌};
ghost use Rattle.ckc_bounds.specs.Phase.{bounding};
ghost use Rattle.ckc_build_elaborate.specs.Elaborated.{elaborated};
ghost use Rattle.ckc_checks_operands.specs.Weights.{program_weight};
ghost use Rattle.ckc_build_sizes.specs.Nodes.{text_nodes};
ghost use Rattle.ckc_syntax_limits.specs.Marks.{marks_of};
ghost use Rattle.ckc_typed.specs.declared.typed.Typed.{Typed};

/// The program of a text weighs at most 240 instructions for each node of the text.
pub fn programs_are_small()
    ensures { (p : Typed) → program_weight (elaborated p) ≤ 240 * text_nodes p }
{}

/// The bounds phase keeps what there is to count in a text.
pub fn marks_stay()
    ensures { (p q : Typed) → bounding.Makes p q → marks_of q.tree ≡ marks_of p.tree }
{}
