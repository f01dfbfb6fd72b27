ghost use Rattle.std.specs.Prelude.{[]};
ghost use Rattle.ckc_grammar.specs.Text.{DerivesTree};

/// No tokens are a text without items.
pub fn no_tokens_are_a_text()
    ensures { DerivesTree [] (record { items = [] }) }
{}
