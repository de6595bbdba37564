//! The breakpoints of the small network's curve, its least costs, and a cheapest schedule.
ghost use Rattle.std.specs.Prelude.{◌≡◌, ◌≤◌, false, length};
ghost use Rattle.pc_crash.specs.inside.Steps.{IsBlankOf};
ghost use Rattle.pc_curve.specs.inside.Breaks.{StandsBy};

use crate::cases::expect_none;
use crate::curves::solver;
use crate::small::{small_net, small_priced};
use pc_crash::{CrashNet, SegmentView, Steps};
use pc_curve::{Break, Breaks, cost_at, point_at, write_curve};
use pc_edges::MemSink;
use pc_edges::page::Page;
use pc_flow::Solver;
use std::alloc::{AllocError, Global};
use std::marker::Brand;
use std::sync::ledger::{Blank, Ledger};

/// The first two breakpoints of the small network.
const BREAKS: &[Break] = &[
    Break {
        length: 9,
        cost: 45,
        slope: Some(3),
    },
    Break {
        length: 8,
        cost: 48,
        slope: Some(5),
    },
];

/// The first of these breakpoints that is not the next one, or none.
fn first_wrong_break<L: Ledger>(
    breaks: &mut Breaks,
    solver: &mut Solver<'_>,
    steps: &mut Steps<L>,
) -> Option<usize>
    requires { StandsBy breaks.old solver.old }
{
    for (i, &want) in BREAKS.iter().enumerate() {
        if breaks.next(solver, steps) != Some(want) {
            return Some(i);
        }
    }
    None
}

/// The same, or 2 if the last one is then at another length.
fn first_wrong<L: Ledger>(solver: &mut Solver<'_>, blank: Blank) -> Option<usize>
    requires blank { IsBlankOf L.name L.parts blank.name blank.parts }
    requires before { solver.old.given ≡ false }
{
    let mut steps = Steps::<L>::new(blank);
    let mut breaks = Breaks::new();
    let wrong = first_wrong_break(&mut breaks, solver, &mut steps);
    if breaks.last() == Some(8) {
        wrong
    } else {
        Some(BREAKS.len())
    }
}

fn small_breaks(alloc: Global) -> Option<Option<usize>> {
    let net = small_net(alloc)?;
    let priced = small_priced(alloc, &net)?;
    let mut solver = solver(alloc, &priced).ok()?;
    Some(first_wrong::<Brand>(&mut solver, Blank::new(1)))
}

#[test]
fn breakpoints_of_pieces(rt: HostRuntime) {
    expect_none(&rt, small_breaks(rt.alloc()).unwrap_or(Some(BREAKS.len())));
}

/// The least costs of 7 and 6 units; for 6 that of a schedule, and when it ends.
fn costs<L: Ledger>(alloc: Global, net: &CrashNet<'_>, blank: Blank) -> Result<[u64; 4], AllocError>
    requires blank { IsBlankOf L.name L.parts blank.name blank.parts }
    requires pieces { length net.now.pieces ≤ 1 }
    requires events { net.now.network.events ≡ 3 }
    requires activities { length net.now.network.arcs ≡ 3 }
{
    let mut steps = Steps::<L>::new(blank);
    let mut solver = solver(alloc, net)?;
    if solver.shortest() > 6 || solver.longest() < 7 {
        return Ok([0; 4]);
    }
    let (mut times, mut durations) = ([0; 3], [0; 3]);
    let seven = cost_at(&mut solver, 7, &mut steps);
    let six = cost_at(&mut solver, 6, &mut steps);
    let again = point_at(&mut solver, 6, &mut times, &mut durations, &mut steps);
    Ok([seven, six, again, times[2]])
}

fn small_costs(alloc: Global) -> Option<[u64; 4]> {
    let net = small_net(alloc)?;
    let priced = small_priced(alloc, &net)?;
    costs::<Brand>(alloc, &priced, Blank::new(1)).ok()
}

#[test]
fn least_costs_of_pieces(rt: HostRuntime) {
    assert!(rt; small_costs(rt.alloc()) == Some([53, 60, 60, 6]));
}

/// Whether just this text is written of the curve.
fn is_written<L: Ledger>(
    alloc: Global,
    net: &CrashNet<'_>,
    text: &[u8],
    blank: Blank,
) -> Result<bool, AllocError>
    requires blank { IsBlankOf L.name L.parts blank.name blank.parts }
    requires pieces { length net.now.pieces ≤ 1 }
{
    let mut steps = Steps::<L>::new(blank);
    let mut solver = solver(alloc, net)?;
    let mut page = Page::with_capacity(alloc, 200)?;
    let mut sink = MemSink::new(alloc, 200, 200, &[])?;
    let written = write_curve(&mut page, &mut sink, &mut solver, &mut steps);
    Ok(written.is_ok() && sink.bytes() == text)
}

fn small_is_written(alloc: Global, text: &[u8]) -> Option<bool> {
    let net = small_net(alloc)?;
    let priced = small_priced(alloc, &net)?;
    is_written::<Brand>(alloc, &priced, text, Blank::new(1)).ok()
}

#[test]
fn text_of_a_curve(rt: HostRuntime) {
    let text = b"9 45 3\n8 48 5\n7 53 7\n6 60 8\n5 68 -\n";
    assert!(rt; small_is_written(rt.alloc(), text) == Some(true));
}
