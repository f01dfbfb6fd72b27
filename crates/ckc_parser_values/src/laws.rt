ghost use Rattle.std.specs.Prelude.{◌≡◌};
ghost use Rattle.ckc_parser_grammar.specs.code.Grammar.{Rule, left, right};
ghost use Rattle.ckc_parser_grammar.specs.code.Values.{made};
ghost use Rattle.ckc_parser_values.specs.declared.held.Held.{Held};
ghost use Rattle.ckc_parser_values.specs.code.Kept.{KeptAll, worth, worths, put, put_all, close};
ghost use Rattle.ckc_parser_values.specs.code.Programs.{run, program};

/// What is held for a production stands for its value.
#[tactic(auto, using(crate::proofs::Plays::makes))]
pub fn productions_are_made()
    ensures { (r : Rule) (ks : KeptAll (right r))
        → made r (worths (right r) ks) ≡ worth (left r) (close r ks) }
{}

/// The actions of a production put what is held for it in place of what is held for its symbols.
#[tactic(auto, using(crate::proofs::Plays::plays))]
pub fn productions_are_played()
    ensures { (r : Rule) (ks : KeptAll (right r)) (w : Held)
        → run (program r) (put_all (right r) ks w) ≡ put (left r) (close r ks) w }
{}
