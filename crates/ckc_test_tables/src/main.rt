//! Cases as text: what public calls of the small crates answer, and what sources, sinks and stores do.
//!
//! The words are the names of files of cases, in data/. A line is a case; docs/phase-cases.md says how its fields are
//! written.
#![tactic(auto)]

mod arithmetic;
mod facts;
mod images;
mod instructions;
mod kinds;
mod layouts;
mod lists;
mod objects;
mod scripts;
mod structures;
mod walks;
mod words;

use ckc_test_trials::run_words;
use kinds::Tables;
use std::io;
use std::process::ExitCode;

fn main(rt: HostRuntime) -> io::Result<ExitCode> {
    run_words(&rt, &Tables { rt: &rt })
}
