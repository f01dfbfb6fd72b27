//! What follows from the definitions alone, each the contract of a function that does nothing.

ghost use Rattle.std.specs.Prelude.{◌≤◌, ◌*◌, List, ℕ};
ghost use Rattle.ckc_types.specs.declared.types.CType.{CType};
ghost use Rattle.ckc_typed.specs.declared.environment.Variable.{Variable};
ghost use Rattle.ckc_typed.specs.declared.typed.Typed.{Typed};
ghost use Rattle.ckc_typed.specs.Trees.{NotedStmt};
ghost use Rattle.ckc_syntax_limits.specs.Marks.{is_node, marks_of_stmt};
ghost use Rattle.ckc_syntax_limits.specs.Small.{how_many};
ghost use Rattle.ckc_checks_operands.specs.Compilable.{code_nodes, IsCompilable};
ghost use Rattle.ckc_blame_steps.specs.Accepted.{IsAccepted};
ghost use Rattle.ckc_build_elaborate.specs.Elaborated.{elaborated};
ghost use Rattle.ckc_build_elaborate.specs.Statements.{alone, stmt_elaborated};
ghost use Rattle.ckc_build_words.specs.Numbers.{NumbersFit};
ghost use Rattle.ckc_build_words.specs.Places.{PlacesFit};

use ckc_typed_welltyped::{counts_stay, texts_exactly};

/// What a statement becomes has at most six nodes for each node of the text.
pub fn statements_have_few_nodes()
    ensures { (p : Typed) (locals : List Variable) (result : CType) (k : ℕ) (s : NotedStmt) →
        code_nodes (alone (stmt_elaborated p locals result k s))
        ≤ 6 * how_many is_node (marks_of_stmt s) }
{}

/// The program of a text that the phases accept can be compiled, if the places in it fit in their words.
pub fn accepted_texts_have_the_form()
    ensures { (text : List ℕ) (p : Typed) → IsAccepted text p → PlacesFit (elaborated p)
        → IsCompilable (elaborated p) }
{
    texts_exactly();
    counts_stay();
}

/// The numbers in the program of a text that the phases accept fit in 32 bits.
pub fn accepted_numbers_fit()
    ensures { (text : List ℕ) (p : Typed) → IsAccepted text p → NumbersFit (elaborated p) }
{
    texts_exactly();
    counts_stay();
}
