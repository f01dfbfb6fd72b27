//! What follows from the definitions, each the contract of a function that does nothing.

ghost use Rattle.std.specs.Prelude.{◌≡◌, length};
ghost use Rattle.ckc_typed.specs.Trees.{NotedExpr};
ghost use Rattle.ckc_typed.specs.Statics.{strings_of_expr};
ghost use Rattle.ckc_build_values.specs.Expressions.{literals_of};

/// As many string literals are counted in an expression as make blocks.
pub fn literals_are_counted()
    ensures counted { (e : NotedExpr) → literals_of e ≡ length (strings_of_expr e) }
{}
