//! `pert_check`: reads a deck from the file that its word names and a certificate from standard input, and writes to
//! standard output whether the certificate is right.
//!
//! The program only collects its words, makes the adapters of the file and the real streams and calls
//! [`pc_audit::check_run`], which returns its exit status.
#![tactic(auto)]

use pc_audit::check_run;
use pc_edges::{ReadSource, WriteSink};
use pc_project::shell::{Status, deck_file, words_of};
use std::process::ExitCode;

fn main(rt: HostRuntime) -> ExitCode {
    let Ok(words) = words_of(&rt) else {
        return ExitCode::from(Status::OutOfMemory.code());
    };
    let mut deck = deck_file(&rt, &words);
    let mut cert = ReadSource::new(rt.stdin());
    let mut out = WriteSink::new(rt.stdout());
    let mut err = WriteSink::new(rt.stderr());
    ExitCode::from(check_run(rt.alloc(), &words, &mut deck, &mut cert, &mut out, &mut err))
}
