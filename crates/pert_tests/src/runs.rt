//! Runs over sources and sinks in memory, and their results by status.

use crate::testing::{
    Edges, SMALL, TASKS, Task, UNREADABLE, WHOLE, expect_ok_none, first_wrong_run, leaves, left_by,
    run_of,
};
use std::alloc::{AllocError, Global};

// Two activities that form a cycle next to the way from the start to the end.
const ROUND: &str = "PROJECT,P,S,T,2024-01-01,1,,\n\
WBS,1,,\n\
EVENT,S,\n\
EVENT,M,\n\
EVENT,N,\n\
EVENT,T,\n\
ACT,A,S,M,1,1,1,1,1,1,1,1,\n\
ACT,B,M,N,1,1,1,1,1,1,1,1,\n\
ACT,C,N,M,1,1,1,1,1,1,1,1,\n\
ACT,D,N,T,1,1,1,1,1,1,1,1,\n\
END\n";

const LOADED: &str = "LOAD E1 7\n\
PERIOD                0 2024-01-01\n\
PERIOD                1 2024-01-08\n\
ITEMS\n\
1                     0             35\n\
1                     1             10\n\
1.1                   0             25\n\
1.2                   0             10\n\
1.2                   1             10\n\
RESOURCES\n";

const NO_PROJECT: &str = "F3 record 1: first card is not PROJECT\n";

// Words that ask for a form and a deck, with the status, the output and the error output that they give. The texts of
// the forms are compared in tests/acceptance/run.sh, and what failing edges leave of them in `edges`.
const RUNS: &[(&[&str], &str, u8, &str, &str)] = &[
    (&["load", "7"], WHOLE, 0, LOADED, ""),
    (&["check"], "END\n", 1, "", NO_PROJECT),
    (
        &["times"],
        ROUND,
        1,
        "",
        "F27 record 8: activities in a cycle: B C\n",
    ),
    (&["arrows"], WHOLE, 1, "", "F4 record 5: unknown kind\n"),
    (&["migrate"], TASKS, 1, "", "F4 record 4: unknown kind\n"),
];

#[test]
fn answers_or_refuses_decks(rt: HostRuntime) {
    expect_ok_none(&rt, first_wrong_run(rt.alloc(), SMALL, RUNS));
}

// Words that ask for no form, or for a benchmark that has no deck.
const WORDS: &[&[&str]] = &[
    &["NORMAL"],
    &["normal", "check"],
    &["times "],
    &[""],
    &["point"],
    &["point", "06"],
    &["point", "-1"],
    &["point", ""],
    &["point", "12345678901234"],
    &["point", "6", "7"],
    &["6", "point"],
    &["curve", "6"],
    &["curve", "x"],
    &["CURVE"],
    &["bench", "0"],
    &["bench", "4001"],
    &["bench", "04"],
    &["bench", "-1"],
    &["bench", ""],
    &["bench", "10000000000000"],
];

/// Returns the first of `WORDS` that leave another thing than no words do, which leave the usage line alone, or `None`.
/// Nothing can be read. The acceptance case `no-words` has the usage line, byte by byte.
fn first_asking(alloc: Global) -> Result<Option<usize>, AllocError> {
    let usage = left_by(alloc, &run_of(&[], WHOLE), UNREADABLE)?;
    if !usage.is_usage(b"usage: pert check | ") {
        return Ok(Some(WORDS.len()));
    }
    for (i, &words) in WORDS.iter().enumerate() {
        if !left_by(alloc, &run_of(words, WHOLE), UNREADABLE)?.is_same(&usage) {
            return Ok(Some(i));
        }
    }
    Ok(None)
}

#[test]
fn refuses_words(rt: HostRuntime) {
    expect_ok_none(&rt, first_asking(rt.alloc()));
}

#[test]
fn an_output_may_be_full(rt: HostRuntime) {
    let (task, edges) = (run_of(&["curve"], WHOLE), Edges { room: 5, ..SMALL });
    assert!(rt; matches!(leaves(rt.alloc(), &task, edges, 5, b"9 45 ", b""), Ok(true)));
}

fn is_refused(alloc: Global) -> Result<bool, AllocError> {
    let deck = vec![in alloc; b'\n'; 67_108_865]?;
    let edges = Edges {
        pulled: 1_000_000,
        ..SMALL
    };
    let task = Task {
        deck: &deck,
        ..run_of(&["normal"], "")
    };
    let fault = b"F1 record 0: more than 67108864 bytes\n";
    leaves(alloc, &task, edges, 1, b"", fault)
}

#[test]
fn a_deck_may_be_too_long(rt: HostRuntime) {
    assert!(rt; matches!(is_refused(rt.alloc()), Ok(true)));
}
