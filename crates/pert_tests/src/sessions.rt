//! What-if sessions over sources and sinks in memory: their results by status, and calls of each edge that fail in
//! turn.

use crate::testing::{
    Edges, SMALL, Task, UNREADABLE, WHOLE, expect_ok_none, failing_push, leaves, leaves_all,
    session_of,
};
use std::alloc::{AllocError, Global};

/// The lines of a session on the small deck. Some of them are refused.
pub(crate) const LINES: &[&[u8]] = &[
    b"SLOPE A 9\n",
    b"CURVE\n",
    b"TRY A 4 2 3 6\n",
    b"UNDO\n",
    b"TRY A 4 2 3 10\n",
    b"UNDO\n",
    b"CRASH A 5\n",
    b"SLOPE Q 1\n",
    b"CURVE\n",
];

/// The answer to each of the lines.
pub(crate) const ANSWERS: &[&[u8]] = &[
    b"OK\n",
    b"9 45 5\n7 55 11\n5 77 -\n",
    b"COST 58\n",
    b"OK\n",
    b"NO 8\n",
    b"NO 7\n",
    b"NO 4\n",
    b"NO 2\n",
    b"9 45 3\n7 51 7\n5 65 -\n",
];

/// Whether the lines are answered in pulls of `pulled` bytes.
fn are_answered(alloc: Global, pulled: usize) -> Result<bool, AllocError> {
    let lines = LINES.concat(alloc)?;
    let answers = ANSWERS.concat(alloc)?;
    let edges = Edges { pulled, ..SMALL };
    let task = session_of(&["deck"], WHOLE, &lines);
    leaves(alloc, &task, edges, 0, &answers, b"")
}

#[test]
fn lines_come_in_pieces(rt: HostRuntime) {
    for pulled in [1, 2, 7, 4096] {
        assert!(rt; matches!(are_answered(rt.alloc(), pulled), Ok(true)));
    }
}

const USAGE: &[u8] = b"usage: pert_whatif DECK\n";

const NO_PROJECT: &[u8] = b"F3 record 1: first card is not PROJECT\n";

// Words and a deck that give no project, and edges, with the status and the error output. The words are refused before
// the deck is read.
const REFUSED: &[(&[&str], &str, Edges, u8, &[u8])] = &[
    (&[], WHOLE, UNREADABLE, 2, USAGE),
    (&["deck", "lines"], WHOLE, UNREADABLE, 2, USAGE),
    (&["deck"], "END\n", UNREADABLE_LINES, 1, NO_PROJECT),
];

const UNREADABLE_LINES: Edges = Edges {
    failing_second: 1,
    ..SMALL
};

/// The first of these that leaves another thing than it must, or none.
fn first_wrong_refusal(alloc: Global) -> Result<Option<usize>, AllocError> {
    for (i, &(words, deck, edges, status, err)) in REFUSED.iter().enumerate() {
        let task = session_of(words, deck, b"CURVE\n");
        if !leaves(alloc, &task, edges, status, b"", err)? {
            return Ok(Some(i));
        }
    }
    Ok(None)
}

#[test]
fn no_line_is_read_without_a_project(rt: HostRuntime) {
    expect_ok_none(&rt, first_wrong_refusal(rt.alloc()));
}

/// How many lines end in the bytes.
fn lines_in(bytes: &[u8]) -> usize {
    let mut lines: usize = 0;
    for byte in bytes {
        if *byte == b'\n' {
            lines = lines.saturating_add(1);
        }
    }
    lines
}

/// The answers to the lines that end in the bytes.
fn answers_to(alloc: Global, bytes: &[u8]) -> Result<Vec<u8>, AllocError> {
    let lines = lines_in(bytes).min(ANSWERS.len());
    ANSWERS[..lines].concat(alloc)
}

/// Edges at which this pull of the lines fails, and each gives a byte.
fn failing_at(pull: usize) -> Edges {
    Edges {
        pulled: 1,
        failing_second: pull as u64,
        ..SMALL
    }
}

/// Whether the session ends with status 4 and the complete answers to the given lines if the next pull fails.
fn is_unread_after(alloc: Global, task: &Task<'_>, given: &[u8]) -> Result<bool, AllocError> {
    let answers = answers_to(alloc, given)?;
    let edges = failing_at(given.len().saturating_add(1));
    leaves(alloc, task, edges, 4, &answers, b"")
}

/// Lets each pull of the lines fail in turn, with one byte per pull, and then the pull after them, which the session
/// does not make. Returns whether each has the right result: the last one that of the session without a failure.
fn stops_at_each_line(alloc: Global, lines: &[u8]) -> Result<bool, AllocError> {
    let task = session_of(&["deck"], WHOLE, lines);
    for given in 0..=lines.len() {
        if !is_unread_after(alloc, &task, &lines[..given])? {
            return Ok(false);
        }
    }
    leaves_all(alloc, &task, failing_at(lines.len().saturating_add(2)))
}

fn stops_at_each_of_the_lines(alloc: Global) -> Result<bool, AllocError> {
    stops_at_each_line(alloc, &LINES.concat(alloc)?)
}

#[test]
fn each_pull_of_the_lines_fails(rt: HostRuntime) {
    assert!(rt; matches!(stops_at_each_of_the_lines(rt.alloc()), Ok(true)));
}

/// How many bytes of the answers were taken before each push and each flush.
fn taken_before(alloc: Global) -> Result<Vec<usize>, AllocError> {
    let mut all = Vec::new(alloc);
    let mut taken: usize = 0;
    for &answer in ANSWERS {
        for pushed in answer.chunks(SMALL.pushed) {
            all.push(taken)?;
            taken = taken.saturating_add(pushed.len());
        }
        all.push(taken)?;
    }
    Ok(all)
}

/// Lets each push and each flush of the answers fail in turn, and then the call after them, which the session does not
/// make. Returns whether each failure gives status 5 and what the calls before took, and the last run the result of the
/// session without a failure.
fn stops_at_each_call(
    alloc: Global,
    task: &Task<'_>,
    answers: &[u8],
    taken_before: &[usize],
) -> Result<bool, AllocError> {
    let mut call: u64 = 1;
    for &taken in taken_before {
        let front = &answers[..taken.min(answers.len())];
        if !leaves(alloc, task, failing_push(call), 5, front, b"")? {
            return Ok(false);
        }
        call = call.saturating_add(1);
    }
    leaves_all(alloc, task, failing_push(call))
}

fn stops_at_each_answer(alloc: Global) -> Result<bool, AllocError> {
    let (lines, answers) = (LINES.concat(alloc)?, ANSWERS.concat(alloc)?);
    let task = session_of(&["deck"], WHOLE, &lines);
    stops_at_each_call(alloc, &task, &answers, &taken_before(alloc)?)
}

#[test]
fn each_push_and_flush_of_the_answers_fails(rt: HostRuntime) {
    assert!(rt; matches!(stops_at_each_answer(rt.alloc()), Ok(true)));
}
