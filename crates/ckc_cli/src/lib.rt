//! The top call of the compiler: from the words of the command line and the objects of the outside to a status; and the
//! laws that follow from the cause of a status.
#![tactic(auto)]

mod causes;
mod interpreted;
mod leaves;
mod outcomes;
mod top;

pub use causes::{faults_have_causes, statuses_have_causes};
pub use ckc_cli_commands::{FaultKind, Status, report};
pub use interpreted::{interp_shows, interp_shows_always};
pub use leaves::{calls_keep, calls_touch, files_stay};
pub use outcomes::{causes_give_statuses, one_outcome};
pub use top::ccc;
