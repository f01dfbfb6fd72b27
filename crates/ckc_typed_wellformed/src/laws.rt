//! What follows from the definitions alone, each the contract of a function that does nothing.

ghost use Rattle.std.specs.Prelude.{◌≡◌, List, true};
ghost use Rattle.ckc_syntax.specs.Spelled.{Spelled};
ghost use Rattle.ckc_syntax.specs.Trees.{Tree};
ghost use Rattle.ckc_grammar.specs.Text.{DerivesTree};
ghost use Rattle.ckc_typed_welltyped.specs.Productions.{spoken_tree};

/// The tree that tokens derive, as the parser makes it, is one that the productions give: a `calloc` stands only as a whole
/// call statement or a whole right side, a call statement is a call, a bundle has 2 or more assignments, a `for` begins with
/// one declaration or an assignment, no `break` leaves its step, no branch is a declaration, and a structure has a member.
pub fn trees_are_given()
    ensures given { (xs : List Spelled) (whole : Tree) → DerivesTree xs whole
        → spoken_tree whole ≡ true }
{}
