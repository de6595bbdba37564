//! The segments of small time-cost curves, one after another.
ghost use Rattle.std.specs.Prelude.{◌≡◌, ◌<◌, ◌≤◌, false, [], length, IfOk, IfSome};
ghost use Rattle.pc_crash.specs.inside.Steps.{IsBlankOf};

use crate::small::{small_net, small_priced};
use pc_cells::Region;
use pc_crash::{CrashNet, SegmentView, Steps, Term};
use pc_flow::{Solver, cells_needed};
use pc_net::{Arc, Net};
use pc_text::Code;
use std::alloc::{AllocError, Global};
use std::marker::Brand;
use std::sync::ledger::{Blank, Ledger};

/// A solver before its first segment.
pub(crate) fn solver<'n>(alloc: Global, net: &'n CrashNet<'n>) -> Result<Solver<'n>, AllocError>
    requires { length net.now.pieces ≤ 1 }
    ensures net { IfOk result (λ solver. solver.net ≡ net.now) }
    ensures before { IfOk result (λ solver. solver.given ≡ false) }
{
    let shape = net.net();
    let cells = cells_needed(shape.events() as usize, shape.activities() as usize, 1);
    Ok(Solver::begin(Region::with_cells(alloc, cells)?, net))
}

/// The ends, the cost and the slope of each segment of a curve with at most five; zeros after the last.
fn segments<L: Ledger>(solver: &mut Solver<'_>, blank: Blank) -> [[u64; 4]; 5]
    requires { IsBlankOf L.name L.parts blank.name blank.parts }
{
    let mut steps = Steps::<L>::new(blank);
    let mut rows = [[0; 4]; 5];
    for row in &mut rows {
        if !solver.next_segment(&mut steps) {
            break;
        }
        *row = [
            solver.upper(),
            solver.lower(),
            solver.cost(),
            solver.slope(),
        ];
    }
    rows
}

/// The segments of a curve.
fn curve(alloc: Global, net: &CrashNet<'_>) -> Option<[[u64; 4]; 5]>
    requires { length net.now.pieces ≤ 1 }
{
    let mut solver = solver(alloc, net).ok()?;
    Some(segments::<Brand>(&mut solver, Blank::new(1)))
}

fn small_curve(alloc: Global) -> Option<[[u64; 4]; 5]> {
    let net = small_net(alloc)?;
    let priced = small_priced(alloc, &net)?;
    curve(alloc, &priced)
}

#[test]
fn segments_of_pieces(rt: HostRuntime) {
    let rows = [
        [9, 8, 45, 3],
        [8, 7, 48, 5],
        [7, 6, 53, 7],
        [6, 5, 60, 8],
        [0; 4],
    ];
    assert!(rt; small_curve(rt.alloc()) == Some(rows));
}

/// The range of a curve; of its first segment the time and moving bit of event 1, the duration of activity 0, its flows
/// at the first knee and on the crash duration, and its total flow; and how many cells are free at last.
fn first<L: Ledger>(alloc: Global, net: &CrashNet<'_>, blank: Blank) -> Result<[u64; 9], AllocError>
    requires blank { IsBlankOf L.name L.parts blank.name blank.parts }
    requires pieces { length net.now.pieces ≤ 1 }
    requires event { 1 < net.now.network.events }
    requires activity { 0 < length net.now.network.arcs }
{
    let mut steps = Steps::<L>::new(blank);
    let mut solver = solver(alloc, net)?;
    if !solver.next_segment(&mut steps) {
        return Ok([0; 9]);
    }
    Ok([
        solver.longest(),
        solver.shortest(),
        solver.time(1),
        solver.moves(1) as u64,
        solver.duration(0),
        solver.flow(0, 0),
        solver.flow(0, net.knees(0).len()),
        solver.whole_flow(0),
        solver.close().free() as u64,
    ])
}

fn small_first(alloc: Global) -> Option<[u64; 9]> {
    let net = small_net(alloc)?;
    let priced = small_priced(alloc, &net)?;
    first::<Brand>(alloc, &priced, Blank::new(1)).ok()
}

#[test]
fn first_segment_of_pieces(rt: HostRuntime) {
    assert!(rt; small_first(rt.alloc()) == Some([9, 5, 4, 1, 4, 3, 0, 3, 60]));
}

/// Two activities lead to event 1, the first of which is shortened at no cost, and from there one that cannot be
/// shortened and one that takes no time.
fn parallel_net(alloc: Global) -> Option<Net>
    ensures events { IfSome result (λ net. net.events ≡ 3) }
    ensures activities { IfSome result (λ net. length net.arcs ≡ 4) }
{
    let arcs = [
        Arc { from: 0, to: 1 },
        Arc { from: 0, to: 1 },
        Arc { from: 1, to: 2 },
        Arc { from: 1, to: 2 },
    ];
    Net::build(alloc, 3, 0, 2, &arcs).ok()
}

const PARALLEL_TERMS: [Term; 4] = [
    Term {
        normal: 4,
        crash: 2,
        cost: 10,
        slope: 0,
    },
    Term {
        normal: 4,
        crash: 3,
        cost: 5,
        slope: 2,
    },
    Term {
        normal: 3,
        crash: 3,
        cost: 7,
        slope: 9,
    },
    Term {
        normal: 0,
        crash: 0,
        cost: 0,
        slope: 0,
    },
];

fn parallel_priced<'n>(alloc: Global, net: &'n Net) -> Option<CrashNet<'n>>
    requires events { net.now.events ≡ 3 }
    requires activities { length net.now.arcs ≡ 4 }
    ensures { IfSome result (λ priced. priced.pieces ≡ []) }
{
    let (a, b, c) = (Code::read(b"A")?, Code::read(b"B")?, Code::read(b"C")?);
    let d = Code::read(b"D")?;
    CrashNet::build(
        alloc,
        net,
        &PARALLEL_TERMS,
        &[],
        a,
        &[a, b, c],
        &[a, b, c, d],
    )
    .ok()
}

fn parallel_curve(alloc: Global) -> Option<[[u64; 4]; 5]> {
    let net = parallel_net(alloc)?;
    let priced = parallel_priced(alloc, &net)?;
    curve(alloc, &priced)
}

#[test]
fn segments_of_parallel_activities(rt: HostRuntime) {
    let rows = [[7, 6, 22, 2], [0; 4], [0; 4], [0; 4], [0; 4]];
    assert!(rt; parallel_curve(rt.alloc()) == Some(rows));
}

/// One activity that cannot be shortened.
fn single_net(alloc: Global) -> Option<Net>
    ensures events { IfSome result (λ net. net.events ≡ 2) }
    ensures activities { IfSome result (λ net. length net.arcs ≡ 1) }
{
    Net::build(alloc, 2, 0, 1, &[Arc { from: 0, to: 1 }]).ok()
}

fn single_priced<'n>(alloc: Global, net: &'n Net) -> Option<CrashNet<'n>>
    requires events { net.now.events ≡ 2 }
    requires activities { length net.now.arcs ≡ 1 }
    ensures { IfSome result (λ priced. priced.pieces ≡ []) }
{
    let terms = [Term {
        normal: 3,
        crash: 3,
        cost: 7,
        slope: 2,
    }];
    let (a, b) = (Code::read(b"A")?, Code::read(b"B")?);
    CrashNet::build(alloc, net, &terms, &[], a, &[a, b], &[a]).ok()
}

fn single_curve(alloc: Global) -> Option<[[u64; 4]; 5]> {
    let net = single_net(alloc)?;
    let priced = single_priced(alloc, &net)?;
    curve(alloc, &priced)
}

#[test]
fn one_length(rt: HostRuntime) {
    let rows = [[3, 3, 7, 0], [0; 4], [0; 4], [0; 4], [0; 4]];
    assert!(rt; single_curve(rt.alloc()) == Some(rows));
}
