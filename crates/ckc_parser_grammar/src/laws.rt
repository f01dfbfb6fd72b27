ghost use Rattle.std.specs.Prelude.{◌↔◌, List};
ghost use Rattle.ckc_syntax.specs.Spelled.{Spelled};
ghost use Rattle.ckc_grammar.specs.Trees.{Tree};
ghost use Rattle.ckc_grammar.specs.Text.{DerivesTree};
ghost use Rattle.ckc_parser_grammar.specs.code.Text.{DerivesValue};
ghost use Rattle.ckc_parser_grammar.specs.code.Values.{tree};

/// The table derives the trees that the grammar does.
pub fn derives_the_same_trees()
    ensures { (xs : List Spelled) (whole : Tree) → DerivesTree xs whole ↔ DerivesValue xs
        (tree whole) }
{}
