//! Each call of an edge fails in turn, in runs of each form, in checks and in sessions: a pull gives 100 bytes at most,
//! a push takes 7.

use crate::testing::Call::{self, CheckRun, Run, SessionRun};
use crate::testing::Edge::{self, Deck, Second};
use crate::testing::{
    AT_WORK, CERTIFICATE, TASKS, Task, WHOLE, expect_ok_none, stops_at_each_pull,
    stops_at_each_push,
};
use std::alloc::{AllocError, Global};

/// A call, its words, a deck, the second input, one of the two, and how many pulls read that: the last of them finds
/// its end.
pub(crate) type CallRow = (
    Call,
    &'static [&'static str],
    &'static str,
    &'static str,
    Edge,
    u64,
);

/// Words that ask for each form, for lengths that the deck does not have, and for nothing; decks that are none; and
/// checks and sessions that are refused or not.
pub(crate) const RUNS: &[CallRow] = &[
    (Run, &["check"], WHOLE, "", Deck, 4),
    (Run, &["normal"], WHOLE, "", Deck, 4),
    (Run, &["times"], WHOLE, "", Deck, 4),
    (Run, &["summary"], WHOLE, "", Deck, 4),
    (Run, &["summary"], AT_WORK, "", Deck, 5),
    (Run, &["value"], WHOLE, "", Deck, 4),
    (Run, &["value"], AT_WORK, "", Deck, 5),
    (Run, &["curve"], WHOLE, "", Deck, 4),
    (Run, &["certify"], WHOLE, "", Deck, 4),
    (Run, &["point", "6"], WHOLE, "", Deck, 4),
    (Run, &["outlook", "6"], WHOLE, "", Deck, 4),
    (Run, &["bench", "4"], WHOLE, "", Deck, 0),
    (Run, &["migrate"], WHOLE, "", Deck, 4),
    (Run, &["optimum"], WHOLE, "", Deck, 4),
    (Run, &["arrows"], TASKS, "", Deck, 3),
    (Run, &["load", "7"], WHOLE, "", Deck, 4),
    (Run, &["point", "4"], WHOLE, "", Deck, 4),
    (Run, &["point", "10"], WHOLE, "", Deck, 4),
    (Run, &["outlook", "10"], WHOLE, "", Deck, 4),
    (Run, &[], WHOLE, "", Deck, 0),
    (Run, &["point", "06"], WHOLE, "", Deck, 0),
    (Run, &["point", "-1"], WHOLE, "", Deck, 0),
    (Run, &["curve", "x"], WHOLE, "", Deck, 0),
    (Run, &["CURVE"], WHOLE, "", Deck, 0),
    (Run, &["bench", "0"], WHOLE, "", Deck, 0),
    (Run, &["certify"], "END\n", "", Deck, 2),
    (Run, &["arrows"], "END\n", "", Deck, 2),
    (CheckRun, &["deck"], WHOLE, CERTIFICATE, Deck, 4),
    (CheckRun, &["deck"], WHOLE, CERTIFICATE, Second, 4),
    (CheckRun, &["deck"], WHOLE, "END\n", Deck, 4),
    (CheckRun, &["deck"], WHOLE, "END\n", Second, 1),
    (CheckRun, &["deck"], "END\n", CERTIFICATE, Deck, 2),
    (CheckRun, &["deck"], "END\n", CERTIFICATE, Second, 0),
    (CheckRun, &[], WHOLE, CERTIFICATE, Deck, 0),
    (CheckRun, &[], WHOLE, CERTIFICATE, Second, 0),
    (SessionRun, &["deck"], WHOLE, "CURVE\n", Deck, 4),
    (SessionRun, &["deck"], "END\n", "CURVE\n", Deck, 2),
    (SessionRun, &["deck", "lines"], WHOLE, "CURVE\n", Deck, 0),
    (SessionRun, &[], WHOLE, "CURVE\n", Deck, 0),
];

/// What such a call does.
pub(crate) fn task_of(row: &CallRow) -> (Task<'static>, Edge, u64) {
    let &(call, words, deck, second, edge, pulls) = row;
    let task = Task {
        call,
        words,
        deck: deck.as_bytes(),
        second: second.as_bytes(),
    };
    (task, edge, pulls)
}

/// The first of these calls with a wrong result when one of its pulls fails, or none.
fn first_wrong_by_pull(alloc: Global) -> Result<Option<usize>, AllocError> {
    for (i, row) in RUNS.iter().enumerate() {
        let (task, edge, pulls) = task_of(row);
        if !stops_at_each_pull(alloc, &task, edge, pulls)? {
            return Ok(Some(i));
        }
    }
    Ok(None)
}

#[test]
fn each_pull_fails(rt: HostRuntime) {
    expect_ok_none(&rt, first_wrong_by_pull(rt.alloc()));
}

/// The first of these calls with a wrong result when one of its pushes fails, or none.
fn first_wrong_by_push(alloc: Global) -> Result<Option<usize>, AllocError> {
    for (i, row) in RUNS.iter().enumerate() {
        let (task, _, _) = task_of(row);
        if !stops_at_each_push(alloc, &task)? {
            return Ok(Some(i));
        }
    }
    Ok(None)
}

#[test]
fn each_push_fails(rt: HostRuntime) {
    expect_ok_none(&rt, first_wrong_by_push(rt.alloc()));
}
