//! The program `ccc`: it makes the real objects, calls `ccc` and ends with the exit status.
#![tactic(auto)]

use ckc_cli::ccc;
use ckc_outside::{RealSink, RealSource, RealStore};
use std::env;
use std::process::ExitCode;
use std::rt::Env;

fn main(rt: HostRuntime) -> ExitCode {
    let mut input = RealSource::new(rt.stdin());
    let mut out = RealSink::new(rt.stdout());
    let mut err = RealSink::new(rt.stderr());
    let mut store = RealStore::new(&rt);
    let words = command_words(&rt);
    let status = ccc(
        rt.alloc(),
        words.as_slice(),
        &mut input,
        &mut out,
        &mut err,
        &mut store,
    );
    ExitCode::from(status.exit())
}

/// The words of the command line without the program's name. If they cannot be had, since a word is not UTF-8 or
/// for want of memory, there are none, which no command reads.
fn command_words(rt: &(impl Env + AllocGlobal)) -> Vec<String> {
    let mut words = Vec::new(rt.alloc());
    if let Ok(args) = env::args(rt) {
        for word in args.skip(1) {
            if words.push(word).is_err() {
                return Vec::new(rt.alloc());
            }
        }
    }
    words
}
