//! The benchmark: its figures, that it reads nothing, and the certificates of its decks.

use crate::testing::{
    Edges, SMALL, Task, UNREADABLE, check_of, expect_ok_none, first_wrong_run, left_by, run_of,
};
use pc_curve::bench::{MOST_ACTIVITIES, bench_deck};
use std::alloc::{AllocError, Global};

// Words that ask for the curve of the deck with this many activities, with the status, the output and the error output
// that they give. The deck is not read. tests/acceptance/run.sh has small ones.
const FIGURES: &[(&[&str], &str, u8, &str, &str)] = &[(
    &["bench", "400"],
    "",
    0,
    "BENCH 400\nNORMAL 3069 22170\nCRASH 1898 31246\nBREAKS 25\nSUM 29299862\n",
    "",
)];

#[test]
fn the_benchmark_reads_nothing(rt: HostRuntime) {
    expect_ok_none(&rt, first_wrong_run(rt.alloc(), UNREADABLE, FIGURES));
}

// Edges that give and take much at once.
const LARGE: Edges = Edges {
    pulled: 4096,
    pushed: 4096,
    room: 100_000,
    ..SMALL
};

// How many activities the decks have.
const DECKS: &[u64] = &[4, 40];

// Whether a certificate of the deck passes its check.
fn passes(alloc: Global, deck: &[u8], cert: &[u8]) -> Result<bool, AllocError> {
    let check = Task {
        deck,
        ..check_of(&["deck"], "", cert)
    };
    Ok(left_by(alloc, &check, LARGE)?.is_accepted())
}

// Whether a certificate of the deck is written, and passes its check.
fn is_certified(alloc: Global, deck: &[u8]) -> Result<bool, AllocError> {
    let certify = Task {
        deck,
        ..run_of(&["certify"], "")
    };
    let written = left_by(alloc, &certify, LARGE)?;
    Ok(written.is_accepted() & passes(alloc, deck, written.out())?)
}

// Whether this holds for the benchmark's deck of `n` activities.
fn is_bench_certified(alloc: Global, n: u64) -> Result<bool, AllocError> {
    let deck = bench_deck(alloc, n.clamp(1, MOST_ACTIVITIES))?;
    is_certified(alloc, &deck)
}

// The first of these decks whose certificate does not pass, or none.
fn first_uncertified(alloc: Global) -> Result<Option<usize>, AllocError> {
    for (i, &n) in DECKS.iter().enumerate() {
        if !is_bench_certified(alloc, n)? {
            return Ok(Some(i));
        }
    }
    Ok(None)
}

#[test]
fn certificates_of_the_benchmark_pass(rt: HostRuntime) {
    expect_ok_none(&rt, first_uncertified(rt.alloc()));
}
