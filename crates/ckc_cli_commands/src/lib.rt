//! The commands of the compiler: the words that ask for them, what each does, and the status that it ends with.
#![tactic(auto)]

mod assembly;
mod checking;
mod commands;
mod reporting;
mod run;
mod status;
mod words;

pub use ckc_machine::FaultKind;
pub use commands::{
    assemble_text, build_text, check_text, exec_text, interp_text, list_image, run_image, sample,
};
pub use reporting::report;
pub use status::Status;
pub use words::{Command, command_of};
