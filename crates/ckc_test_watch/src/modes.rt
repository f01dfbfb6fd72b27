//! Whether a program is wholly checked.
use ckc_base::Mode;
use ckc_source::{Program, Spot, StmtTree};

/// Whether each step of a program stands in a checked scope.
pub fn is_wholly_checked(program: &Program) -> bool {
    for f in program.functions.as_slice() {
        if !is_checked(&f.end) || !are_checked(f.body.as_slice()) {
            return false;
        }
    }
    true
}

fn is_checked(spot: &Spot) -> bool {
    spot.mode == Mode::Checked
}

fn are_checked(stmts: &[StmtTree]) -> bool {
    let mut all = true;
    let mut i = stmts.len();
    while i > 0 {
        i -= 1;
        let here = match &stmts[i] {
            StmtTree::Assign(spot, _) => is_checked(spot),
            StmtTree::Bundle(spot, _) => is_checked(spot),
            StmtTree::Get(spot, _) => is_checked(spot),
            StmtTree::Put(spot, _, _) => is_checked(spot),
            StmtTree::Call(spot, _, _, _) => is_checked(spot),
            StmtTree::Return(spot, _) => is_checked(spot),
            StmtTree::Check(spot, _) => is_checked(spot),
            StmtTree::If(spot, _, one, two) | StmtTree::Loop(spot, _, one, two) => {
                let first = are_checked(one.as_slice());
                let second = are_checked(two.as_slice());
                is_checked(spot) && first && second
            }
            StmtTree::Break | StmtTree::Continue => true,
        };
        all = all && here;
    }
    all
}
