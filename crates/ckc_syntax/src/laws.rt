//! Laws of the definitions, each the contract of a function that does nothing.
ghost use Rattle.std.specs.Prelude.{◌≡◌, ℕ, List};
ghost use Rattle.ckc_syntax.specs.Literals.{IsLiteral};
ghost use Rattle.ckc_syntax.specs.code.Decoded.{decoded};

/// The bytes that the function finds of a spelling are those of the literal in double quotes that this is.
pub fn literals_have_bytes()
    ensures { (spelling values : List ℕ) → IsLiteral 34 spelling values → decoded spelling ≡ values }
{}
