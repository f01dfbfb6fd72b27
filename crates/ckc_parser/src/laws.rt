ghost use Rattle.std.specs.Prelude.{◌≡◌};
ghost use Rattle.ckc_base.specs.Phases.{IsExact};
ghost use Rattle.ckc_base.specs.declared.places.Refusal.{Refusal};
ghost use Rattle.ckc_syntax.specs.Spelled.{Tokens};
ghost use Rattle.ckc_parser.specs.Phase.{parsing};

/// Tokens have one tree, or one place where they stop to be the beginning of a text: never two, never both, never
/// neither.
pub fn is_exact()
    ensures { IsExact parsing }
{}

/// Tokens are refused by one code.
pub fn codes()
    ensures { (tokens : Tokens) (r : Refusal) → parsing.Refuses tokens r → r.code ≡ 120 }
{}
