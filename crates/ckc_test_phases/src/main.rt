//! Texts and what is expected of their tokens, trees, names, types, static objects and checked scopes. The words are
//! the names of files of cases; docs/phase-cases.md says how a case is written.
#![tactic(auto)]

mod answer;
mod parts;
mod phases;
mod source;

use answer::Phases;
use ckc_test_trials::run_words;
use std::io;
use std::process::ExitCode;

fn main(rt: HostRuntime) -> io::Result<ExitCode> {
    run_words(&rt, &Phases)
}
