//! `pert_whatif`: reads a deck from the file that its word names and lines from standard input, and writes to standard
//! output an answer to each line, before it reads more.
//!
//! The program only collects its words, makes the adapters of the file and the real streams and calls
//! [`pc_whatif::session_run`], which returns its exit status.
#![tactic(auto)]

use pc_edges::{ReadSource, WriteSink};
use pc_project::shell::{Status, deck_file, words_of};
use pc_whatif::session_run;
use std::process::ExitCode;

fn main(rt: HostRuntime) -> ExitCode {
    let Ok(words) = words_of(&rt) else {
        return ExitCode::from(Status::OutOfMemory.code());
    };
    let mut deck = deck_file(&rt, &words);
    let mut edits = ReadSource::new(rt.stdin());
    let mut out = WriteSink::new(rt.stdout());
    let mut err = WriteSink::new(rt.stderr());
    ExitCode::from(session_run(
        rt.alloc(),
        &words,
        &mut deck,
        &mut edits,
        &mut out,
        &mut err,
    ))
}
