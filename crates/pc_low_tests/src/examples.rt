//! The examples in the doc comments of low crates: each function has the lines that the comment shows, and each test
//! sees that they return true. `tests/docs/examples.py` compares them.
ghost use Rattle.std.specs.Prelude.{◌≡◌, [], length, IfSome};
ghost use Rattle.pc_crash.specs.inside.Steps.{IsBlankOf};

use crate::small::small_net;
use pc_cells::Region;
use pc_check::{Verdict, audit_source};
use pc_crash::{CrashNet, PieceRow, SegmentView, Steps, Term};
use pc_edges::MemSource;
use pc_flow::{Solver, cells_needed};
use pc_net::{Arc, Net};
use pc_text::Code;
use std::alloc::Global;
use std::marker::Brand;
use std::sync::ledger::{Blank, Ledger};

fn build_net(alloc: Global) -> Option<bool> {
    // A leads from event 0 to event 1, B from there to event 2, and C runs alongside both.
    let arcs = [
        Arc { from: 0, to: 1 },
        Arc { from: 1, to: 2 },
        Arc { from: 0, to: 2 },
    ];
    let net = Net::build(alloc, 3, 0, 2, &arcs).ok()?;
    Some(net.order() == [0, 1, 2].as_slice())
}

#[test]
fn builds_a_net(rt: HostRuntime) {
    assert!(rt; build_net(rt.alloc()) == Some(true));
}

fn build_crash_net(alloc: Global) -> Option<bool> {
    let net = Net::build(alloc, 2, 0, 1, &[Arc { from: 0, to: 1 }]).ok()?;
    // The activity lasts 4 units and costs 10. The first unit less costs 3, the second 6.
    let terms = [Term {
        normal: 4,
        crash: 2,
        cost: 10,
        slope: 3,
    }];
    let pieces = [PieceRow {
        activity: 0,
        units: 1,
        slope: 6,
    }];
    let (s, t, dig) = (Code::read(b"S")?, Code::read(b"T")?, Code::read(b"DIG")?);
    let project = Code::read(b"E1")?;
    let priced = CrashNet::build(alloc, &net, &terms, &pieces, project, &[s, t], &[dig]).ok()?;
    Some(priced.knees(0).len() == 2)
}

#[test]
fn builds_a_crash_net(rt: HostRuntime) {
    assert!(rt; build_crash_net(rt.alloc()) == Some(true));
}

const TERMS: [Term; 3] = [
    Term {
        normal: 4,
        crash: 2,
        cost: 10,
        slope: 3,
    },
    Term {
        normal: 5,
        crash: 3,
        cost: 20,
        slope: 5,
    },
    Term {
        normal: 7,
        crash: 5,
        cost: 15,
        slope: 2,
    },
];

/// The small network with its prices.
fn priced_of_three<'n>(alloc: Global, net: &'n Net) -> Option<CrashNet<'n>>
    requires events { net.now.events ≡ 3 }
    requires activities { length net.now.arcs ≡ 3 }
    ensures network { IfSome result (λ priced. priced.network ≡ net.now) }
    ensures pieces { IfSome result (λ priced. priced.pieces ≡ []) }
{
    let (a, b, c) = (Code::read(b"A")?, Code::read(b"B")?, Code::read(b"C")?);
    CrashNet::build(alloc, net, &TERMS, &[], a, &[a, b, c], &[a, b, c]).ok()
}

fn take_segments<L: Ledger>(alloc: Global, net: &CrashNet<'_>, blank: Blank) -> Option<bool>
    requires blank { IsBlankOf L.name L.parts blank.name blank.parts }
    requires events { net.now.network.events ≡ 3 }
    requires activities { length net.now.network.arcs ≡ 3 }
    requires pieces { net.now.pieces ≡ [] }
{
    let region = Region::with_cells(alloc, cells_needed(3, 3, 0)).ok()?;
    let mut solver = Solver::begin(region, net);
    let mut steps = Steps::<L>::new(blank);
    let mut segments = [[0; 4]; 3];
    for segment in &mut segments {
        if !solver.next_segment(&mut steps) {
            break;
        }
        *segment = [
            solver.upper(),
            solver.lower(),
            solver.cost(),
            solver.slope(),
        ];
    }
    // From 9 to 7 units each unit less costs 3, from 7 to 5 units 7.
    Some(segments == [[9, 7, 45, 3], [7, 5, 51, 7], [0; 4]])
}

fn take_segments_of_three(alloc: Global) -> Option<bool> {
    let net = small_net(alloc)?;
    let priced = priced_of_three(alloc, &net)?;
    take_segments::<Brand>(alloc, &priced, Blank::new(1))
}

#[test]
fn takes_segments(rt: HostRuntime) {
    assert!(rt; take_segments_of_three(rt.alloc()) == Some(true));
}

fn audit_a_text(alloc: Global, net: &CrashNet<'_>) -> Option<bool> {
    let text = b"CERT 1 A 2 1\nNORMAL\nSTEP A\nCRASH\nSTEP A\nSEGMENT 3 3 7 0\n\
EVENT A 0 0\nEVENT B 3 0\nACT A 3 0 0\nCLOSE\nEND\n";
    let mut source = MemSource::new(alloc, text, 4096, &[]).ok()?;
    let verdict = audit_source(alloc, net, &mut source).ok()?;
    Some(verdict == Verdict::Yes { segments: 1 })
}

/// One activity that lasts 3 units and costs 7.
fn audit_of_one(alloc: Global) -> Option<bool> {
    let (a, b) = (Code::read(b"A")?, Code::read(b"B")?);
    let terms = [Term {
        normal: 3,
        crash: 3,
        cost: 7,
        slope: 2,
    }];
    let net = Net::build(alloc, 2, 0, 1, &[Arc { from: 0, to: 1 }]).ok()?;
    let priced = CrashNet::build(alloc, &net, &terms, &[], a, &[a, b], &[a]).ok()?;
    audit_a_text(alloc, &priced)
}

#[test]
fn audits_a_text(rt: HostRuntime) {
    assert!(rt; audit_of_one(rt.alloc()) == Some(true));
}
