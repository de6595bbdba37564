//! Checks of certificates over sources and sinks in memory, and their results by status.

use crate::testing::{Edges, SMALL, WHOLE, check_of, expect_ok_none, leaves};
use std::alloc::{AllocError, Global};

const HEAD: &[u8] = b"CERT 1 E1 3 3\nNORMAL\nSTEP A\nSTEP B\nCRASH\nSTEP A\nSTEP B\n";

const FIRST: &[u8] = b"SEGMENT 9 7 45 3\nEVENT S 0 0\nEVENT M 4 1\nEVENT T 9 1\n\
ACT A 4 3 0\nACT B 5 3 0\nACT C 7 0 0\nCLOSE\n";

const SECOND: &[u8] = b"SEGMENT 7 5 51 7\nEVENT S 0 0\nEVENT M 2 0\nEVENT T 7 1\n\
ACT A 2 3 2\nACT B 5 5 0\nACT C 7 2 0\nCLOSE\n";

// The first segment with a lower end at which A's gap is below its crash duration.
const TOO_FAR: &[u8] = b"SEGMENT 9 6 45 3\nEVENT S 0 0\nEVENT M 4 1\nEVENT T 9 1\n\
ACT A 4 3 0\nACT B 5 3 0\nACT C 7 0 0\nCLOSE\n";

// The parts of a certificate, with the status and the line that they give.
const CHECKS: &[(&[&[u8]], u8, &[u8])] = &[
    (&[HEAD, FIRST, SECOND, b"END\n"], 0, b"certified 2\n"),
    (
        &[HEAD, TOO_FAR, SECOND, b"END\n"],
        6,
        b"not certified line 12 reason 6\n",
    ),
    (
        &[HEAD, FIRST, b"END\n"],
        6,
        b"not certified line 16 reason 3\n",
    ),
    (
        &[HEAD, FIRST, SECOND, b"EN"],
        6,
        b"not certified line 24 reason 0\n",
    ),
    (
        &[HEAD, FIRST, SECOND, b"END\nx"],
        6,
        b"not certified line 25 reason 0\n",
    ),
];

/// The first of these checks with a wrong result in pulls of `pulled` bytes, or none.
fn first_wrong_check(alloc: Global, pulled: usize) -> Result<Option<usize>, AllocError> {
    let edges = Edges { pulled, ..SMALL };
    for (i, &(parts, status, line)) in CHECKS.iter().enumerate() {
        let cert = parts.concat(alloc)?;
        if !leaves(
            alloc,
            &check_of(&["deck"], WHOLE, &cert),
            edges,
            status,
            line,
            b"",
        )? {
            return Ok(Some(i));
        }
    }
    Ok(None)
}

#[test]
fn certificates_come_in_pieces(rt: HostRuntime) {
    for pulled in [1, 2, 7, 4096] {
        expect_ok_none(&rt, first_wrong_check(rt.alloc(), pulled));
    }
}

const USAGE: &[u8] = b"usage: pert_check DECK\n";

#[test]
fn asks_for_one_word(rt: HostRuntime) {
    let task = check_of(&[], WHOLE, b"");
    assert!(rt; matches!(leaves(rt.alloc(), &task, SMALL, 2, b"", USAGE), Ok(true)));
}
