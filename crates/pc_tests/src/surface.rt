//! The calls that write to a bare sink, each piece of a text as it comes: a schedule, the parts of a certificate, and
//! loads.
ghost use Rattle.std.specs.Prelude.{◌≡◌, ◌<◌, ◌≤◌, length, All};
ghost use Rattle.pc_crash.specs.inside.Steps.{IsBlankOf};

use crate::cases::expect_none;
use crate::certificates::{TEXT, priced};
use crate::curves::solver;
use crate::small::small_net;
use pc_cert::{write_end, write_head, write_segment};
use pc_crash::{CrashNet, Steps};
use pc_edges::{Failed, MemSink};
use pc_flow::Solver;
use pc_reports::write_schedule;
use std::alloc::{AllocError, Global};
use std::marker::Brand;
use std::sync::ledger::{Blank, Ledger};

const SCHEDULE: &[u8] =
    b"LENGTH 9\nCOST 45\nEVENT S 0\nEVENT M 4\nEVENT T 9\nACT A 4\nACT B 5\nACT C 7\n";

/// Writes the schedule to a sink of this capacity with calls that fail. Returns what the call returns, and how much of
/// the text the sink took: none if it took something else.
fn schedule_of(
    alloc: Global,
    net: &CrashNet<'_>,
    room: usize,
    failing: &[u64],
) -> Option<(Result<(), Failed>, usize)>
    requires events { net.now.network.events ≡ 3 }
    requires activities { length net.now.network.arcs ≡ 3 }
{
    let mut sink = MemSink::new(alloc, room, 1000, failing).ok()?;
    let written = write_schedule(&mut sink, net, 9, 45, &[0, 4, 9], &[4, 5, 7]);
    if !SCHEDULE.starts_with(sink.bytes()) {
        return None;
    }
    Some((written, sink.bytes().len()))
}

fn small_schedule(
    alloc: Global,
    room: usize,
    failing: &[u64],
) -> Option<(Result<(), Failed>, usize)> {
    let net = small_net(alloc)?;
    let priced = priced(alloc, &net)?;
    schedule_of(alloc, &priced, room, failing)
}

/// The capacity of the sink, the calls that fail, what the call returns, and how much of the text is written. The
/// second push has the length, after seven bytes.
const SCHEDULES: &[(usize, &[u64], Result<(), Failed>, usize)] = &[
    (200, &[], Ok(()), 71),
    (200, &[1], Err(Failed), 0),
    (200, &[2], Err(Failed), 7),
    (5, &[], Err(Failed), 5),
];

/// The first of these cases that ends otherwise, or none.
fn first_wrong_schedule(alloc: Global) -> Option<usize> {
    for (i, &(room, failing, answer, taken)) in SCHEDULES.iter().enumerate() {
        if small_schedule(alloc, room, failing) != Some((answer, taken)) {
            return Some(i);
        }
    }
    None
}

#[test]
fn schedule_on_a_bare_sink(rt: HostRuntime) {
    expect_none(&rt, first_wrong_schedule(rt.alloc()));
}

/// Writes a head with this walk at normal and at crash durations, the next two segments of a solver, and the end.
/// Returns whether there are two and nothing failed.
fn write_parts<L: Ledger>(
    sink: &mut MemSink,
    net: &CrashNet<'_>,
    walk: &[u32],
    solver: &mut Solver<'_>,
    steps: &mut Steps<L>,
) -> bool
    requires net { solver.old.net ≡ net.now }
    requires walk { All (λ a. a < length net.now.network.arcs) walk.now }
{
    if write_head(sink, net, walk, walk).is_err() {
        return false;
    }
    if !solver.next_segment(steps) {
        return false;
    }
    if write_segment(sink, net, solver).is_err() {
        return false;
    }
    if !solver.next_segment(steps) {
        return false;
    }
    write_segment(sink, net, solver).is_ok() && write_end(sink).is_ok()
}

/// Returns whether just this text is written in parts.
fn is_written_in_parts<L: Ledger>(
    alloc: Global,
    net: &CrashNet<'_>,
    walk: &[u32],
    text: &[u8],
    blank: Blank,
) -> Result<bool, AllocError>
    requires blank { IsBlankOf L.name L.parts blank.name blank.parts }
    requires pieces { length net.now.pieces ≤ 1 }
    requires walk { All (λ a. a < length net.now.network.arcs) walk.now }
{
    let mut steps = Steps::<L>::new(blank);
    let mut solver = solver(alloc, net)?;
    let mut sink = MemSink::new(alloc, 1000, 1000, &[])?;
    let written = write_parts(&mut sink, net, walk, &mut solver, &mut steps);
    Ok(written && sink.bytes() == text)
}

fn small_is_written_in_parts(alloc: Global, text: &[u8]) -> Option<bool> {
    let net = small_net(alloc)?;
    let priced = priced(alloc, &net)?;
    is_written_in_parts::<Brand>(alloc, &priced, &[0, 1], text, Blank::new(1)).ok()
}

#[test]
fn certificate_on_a_bare_sink(rt: HostRuntime) {
    assert!(rt; small_is_written_in_parts(rt.alloc(), TEXT) == Some(true));
}
