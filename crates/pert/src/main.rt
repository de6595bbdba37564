//! `pert`: reads a deck from standard input and writes what its words ask for to standard output.
//!
//! The program only collects its words, draws a random key, makes the adapters of the real streams and calls
//! [`pert_cli::run`], which returns its exit status.
#![tactic(auto)]

use pc_edges::{ReadSource, WriteSink, draw_key};
use pc_project::shell::{Status, words_of};
use pert_cli::run;
use std::process::ExitCode;

fn main(rt: HostRuntime) -> ExitCode {
    let Ok(words) = words_of(&rt) else {
        return ExitCode::from(Status::OutOfMemory.code());
    };
    let mut deck = ReadSource::new(rt.stdin()).with_key(draw_key(&rt));
    let mut out = WriteSink::new(rt.stdout());
    let mut err = WriteSink::new(rt.stderr());
    ExitCode::from(run(rt.alloc(), &words, &mut deck, &mut out, &mut err))
}
