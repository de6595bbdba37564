//! The conditions of a certificate on an activity's gaps and flows, on three activities: the first has knees at 4, of a
//! rise of 3, and at 2, of a rise of 5.
ghost use Rattle.std.specs.Prelude.{◌≡◌, length};

use crate::cases::expect_none;
use crate::cert_reader::joined;
use crate::small::small_net;
use pc_check::{Verdict, audit_source};
use pc_crash::{CrashNet, PieceRow, Term};
use pc_edges::MemSource;
use pc_net::Net;
use pc_text::Code;
use std::alloc::Global;

const TERMS: &[Term] = &[
    Term {
        normal: 4,
        crash: 1,
        cost: 10,
        slope: 3,
    },
    Term {
        normal: 5,
        crash: 2,
        cost: 20,
        slope: 9,
    },
    Term {
        normal: 12,
        crash: 3,
        cost: 30,
        slope: 2,
    },
];

const PIECES: &[PieceRow] = &[PieceRow {
    activity: 0,
    units: 1,
    slope: 8,
}];

fn priced<'n>(alloc: Global, net: &'n Net) -> Option<CrashNet<'n>>
    requires events { net.now.events ≡ 3 }
    requires activities { length net.now.arcs ≡ 3 }
{
    let (a, b, c) = (Code::read(b"A")?, Code::read(b"B")?, Code::read(b"C")?);
    CrashNet::build(alloc, net, TERMS, PIECES, a, &[a, b, c], &[a, b, c]).ok()
}

// The first line of the text that fails and why, or 0 and how many segments are certified.
fn audited(alloc: Global, net: &CrashNet<'_>, text: &[u8]) -> Option<(u64, u64)> {
    let mut source = MemSource::new(alloc, text, 4096, &[]).ok()?;
    match audit_source(alloc, net, &mut source).ok()? {
        Verdict::Yes { segments } => Some((0, segments)),
        Verdict::No { line, reason } => Some((line, u64::from(reason))),
    }
}

// What is found of the text of these parts.
fn found(alloc: Global, parts: &[&[u8]]) -> Option<(u64, u64)> {
    let net = small_net(alloc)?;
    let priced = priced(alloc, &net)?;
    let text = joined(alloc, parts).ok()?;
    audited(alloc, &priced, &text)
}

// The lines up to the second segment.
const BEGUN: &[u8] =
    b"CERT 2 A 3 3\nNORMAL\nSTEP C\nCRASH\nSTEP C\nSEGMENT 12 9 60 2\nEVENT A 0 0\nEVENT B 4 0\nEVENT C 12 1\n\
ACT A 4 0 0 0\nACT B 5 0 0\nACT C 12 2 0\nCLOSE\n";

// The second segment up to the line of the first activity, where its gap is 4, 3, 2 and 1 units.
const FOUR: &[u8] = b"SEGMENT 9 8 0 0\nEVENT A 0 0\nEVENT B 4 0\nEVENT C 9 1\nACT A 4 ";

const THREE: &[u8] = b"SEGMENT 9 8 0 0\nEVENT A 0 0\nEVENT B 3 0\nEVENT C 9 1\nACT A 3 ";

const TWO: &[u8] = b"SEGMENT 9 8 0 0\nEVENT A 0 0\nEVENT B 2 0\nEVENT C 9 1\nACT A 2 ";

const ONE_UNIT: &[u8] = b"SEGMENT 9 8 0 0\nEVENT A 0 0\nEVENT B 1 0\nEVENT C 9 1\nACT A 1 ";

// The second segment up to the gap of the first activity, the flows of this activity, and why its line fails; 0 where
// it doesn't, and the next line is missing.
const FLOWS: &[(&[u8], &[u8], u64)] = &[
    (THREE, b"3 0 0\n", 0),
    (FOUR, b"3 0 0\n", 0),
    (TWO, b"3 0 0\n", 0),
    (ONE_UNIT, b"3 0 0\n", 11),
    (THREE, b"1 0 0\n", 11),
    (FOUR, b"1 0 0\n", 0),
    (TWO, b"1 0 0\n", 11),
    (ONE_UNIT, b"1 0 0\n", 11),
    (THREE, b"3 5 0\n", 11),
    (FOUR, b"3 5 0\n", 11),
    (TWO, b"3 5 0\n", 0),
    (ONE_UNIT, b"3 5 0\n", 0),
    (THREE, b"3 5 9\n", 11),
    (FOUR, b"3 5 9\n", 11),
    (TWO, b"3 5 9\n", 11),
    (ONE_UNIT, b"3 5 9\n", 0),
    (THREE, b"0 0 0\n", 11),
    (FOUR, b"0 0 0\n", 0),
    (TWO, b"0 0 0\n", 11),
    (ONE_UNIT, b"0 0 0\n", 11),
    // above its rise
    (THREE, b"4 0 0\n", 8),
    (FOUR, b"4 0 0\n", 8),
    (TWO, b"4 0 0\n", 8),
    (ONE_UNIT, b"4 0 0\n", 8),
];

// Whether this is why the line of these flows fails after this text, or why it does not.
fn is_found(alloc: Global, before: &[u8], flows: &[u8], reason: u64) -> bool {
    let at = if reason == 0 { 19 } else { 18 };
    found(alloc, &[BEGUN, before, flows]) == Some((at, reason))
}

// The first of these flows with another result, or none.
fn first_wrong_flows(alloc: Global) -> Option<usize> {
    for (i, &(before, flows, reason)) in FLOWS.iter().enumerate() {
        if !is_found(alloc, before, flows, reason) {
            return Some(i);
        }
    }
    None
}

#[test]
fn flows_of_an_activity(rt: HostRuntime) {
    expect_none(&rt, first_wrong_flows(rt.alloc()));
}

// The lines up to the first segment, and that of an only length.
const HEAD: &[u8] = b"CERT 2 A 3 3\nNORMAL\nSTEP C\nCRASH\nSTEP C\n";

const ONE: &[u8] = b"SEGMENT 12 12 60 0\nEVENT A 0 0\nEVENT B 4 0\nEVENT C 12 0\n";

// The second segment, in which the first activity is shortened from 4 to 2, the third, in which it is shortened to 1,
// and the fourth.
const SECOND: &[u8] =
    b"SEGMENT 9 7 66 5\nEVENT A 0 0\nEVENT B 4 1\nEVENT C 9 1\nACT A 4 3 0 0\nACT B 5 3 0\nACT C 9 2 0\nCLOSE\n";

const THIRD: &[u8] =
    b"SEGMENT 7 6 76 10\nEVENT A 0 0\nEVENT B 2 1\nEVENT C 7 1\nACT A 2 3 5 0\nACT B 5 8 0\nACT C 7 2 0\nCLOSE\n";

const FOURTH: &[u8] =
    b"SEGMENT 6 3 86 11\nEVENT A 0 0\nEVENT B 1 0\nEVENT C 6 1\nACT A 1 3 5 1\nACT B 5 9 0\nACT C 6 2 0\nCLOSE\n";

// The parts of a text, and the first line that fails and why; if no other line fails, the line after the last is
// missing.
const TEXTS: &[(&[&[u8]], (u64, u64))] = &[
    (&[BEGUN, SECOND, THIRD, FOURTH, b"END\n"], (0, 4)),
    // it stops if its gap at the lower end is crash, or a knee that it reaches: from 4 to 2, from 2 to 1 and from 5 to
    // 4, but not from 4 to 3 nor from 6 to 5
    (&[BEGUN, SECOND], (22, 0)),
    (&[BEGUN, SECOND, THIRD], (30, 0)),
    (
        &[
            HEAD,
            b"SEGMENT 12 11 60 2\nEVENT A 0 0\nEVENT B 5 1\nEVENT C 12 1\nACT A 4 0 0 0\n\
ACT B 5 0 0\nACT C 12 2 0\nCLOSE\n",
        ],
        (14, 0),
    ),
    (
        &[
            BEGUN,
            b"SEGMENT 9 8 66 5\nEVENT A 0 0\nEVENT B 4 1\nEVENT C 9 1\nACT A 4 3 0 0\nACT B 5 3 0\n\
ACT C 9 2 0\nCLOSE\n",
        ],
        (21, 14),
    ),
    (
        &[
            HEAD,
            b"SEGMENT 12 11 60 2\nEVENT A 0 0\nEVENT B 6 1\nEVENT C 12 1\nACT A 4 0 0 0\n\
ACT B 5 0 0\nACT C 12 2 0\nCLOSE\n",
        ],
        (13, 14),
    ),
    // the second activity has a gap of 1, and the first one of 0
    (
        &[
            BEGUN,
            b"SEGMENT 9 8 0 0\nEVENT A 0 0\nEVENT B 8 0\nEVENT C 9 1\nACT A 4 0 0 0\nACT B 1 9 0\n",
        ],
        (19, 6),
    ),
    (
        &[
            BEGUN,
            b"SEGMENT 9 8 0 0\nEVENT A 0 0\nEVENT B 0 0\nEVENT C 9 1\nACT A 0 3 5 0\n",
        ],
        (18, 6),
    ),
    // the flows of the first activity are summed
    (
        &[
            BEGUN,
            SECOND,
            THIRD,
            b"SEGMENT 6 3 86 11\nEVENT A 0 0\nEVENT B 1 0\nEVENT C 6 1\nACT A 1 3 5 2\nACT B 5 9 0\n\
ACT C 6 2 0\nCLOSE\n",
        ],
        (37, 9),
    ),
    (
        &[
            BEGUN,
            SECOND,
            THIRD,
            b"SEGMENT 6 3 86 11\nEVENT A 0 0\nEVENT B 1 0\nEVENT C 6 1\n\
ACT A 1 3 5 999999999999999999\nACT B 5 9 0\nACT C 6 2 0\nCLOSE\n",
        ],
        (37, 9),
    ),
    // nothing flows in a segment of one length
    (&[HEAD, ONE, b"ACT A 4 0 0 0\n"], (11, 0)),
    (&[HEAD, ONE, b"ACT A 4 1 0 0\n"], (10, 15)),
];

// The first of these texts with another result, or none.
fn first_wrong_text(alloc: Global) -> Option<usize> {
    for (i, &(parts, want)) in TEXTS.iter().enumerate() {
        if found(alloc, parts) != Some(want) {
            return Some(i);
        }
    }
    None
}

#[test]
fn gaps_of_an_activity(rt: HostRuntime) {
    expect_none(&rt, first_wrong_text(rt.alloc()));
}
