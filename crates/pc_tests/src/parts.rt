//! The certificate of three activities, put on a page part by part.
ghost use Rattle.std.specs.Prelude.{◌≡◌, ◌≤◌, ◌<◌, length, All};
ghost use Rattle.pc_crash.specs.inside.Steps.{IsBlankOf};
ghost use Rattle.pc_certify.specs.inside.fast.Spelled.{AreActsSpelled, AreEventsSpelled};

use crate::certificates::{TEXT, priced};
use crate::curves::solver;
use crate::small::small_net;
use pc_cert::{put_end, put_head};
use pc_certify::{LastLines, put_segment_by};
use pc_crash::{CrashNet, Steps};
use pc_edges::MemSink;
use pc_edges::page::Page;
use pc_flow::Solver;
use std::alloc::{AllocError, Global};
use std::marker::Brand;
use std::sync::ledger::{Blank, Ledger};

/// Puts a head with this walk at normal and at crash durations, the next two segments of a solver and the end; or says
/// that there are not two.
fn put_parts<L: Ledger>(
    page: &mut Page,
    sink: &mut MemSink,
    net: &CrashNet<'_>,
    walk: &[u32],
    solver: &mut Solver<'_>,
    lines: &mut LastLines,
    steps: &mut Steps<L>,
) -> bool
    requires net { solver.old.net ≡ net.now }
    requires events { AreEventsSpelled net.now lines.old.events.items }
    requires acts { AreActsSpelled net.now lines.old.acts.items }
    requires walk { All (λ a. a < length net.now.network.arcs) walk.now }
{
    put_head(page, sink, net, walk, walk);
    if !solver.next_segment(steps) {
        return false;
    }
    put_segment_by(page, sink, net, solver, lines);
    if !solver.next_segment(steps) {
        return false;
    }
    put_segment_by(page, sink, net, solver, lines);
    put_end(page, sink);
    true
}

/// Whether just this text is put in parts: a head with this walk at normal and at crash durations, two segments, and
/// the end.
fn is_put_in_parts<L: Ledger>(
    alloc: Global,
    net: &CrashNet<'_>,
    walk: &[u32],
    text: &[u8],
    blank: Blank,
) -> Result<bool, AllocError>
    requires blank { IsBlankOf L.name L.parts blank.name blank.parts }
    requires pieces { length net.now.pieces ≤ 1 }
    requires walk { All (λ a. a < length net.now.network.arcs) walk.now }
{
    let mut steps = Steps::<L>::new(blank);
    let mut solver = solver(alloc, net)?;
    let mut lines = LastLines::build(alloc, net)?;
    let mut page = Page::with_capacity(alloc, 1000)?;
    let mut sink = MemSink::new(alloc, 1000, 1000, &[])?;
    let both = put_parts(
        &mut page,
        &mut sink,
        net,
        walk,
        &mut solver,
        &mut lines,
        &mut steps,
    );
    let written = page.finish(&mut sink);
    Ok(both && written.is_ok() && sink.bytes() == text)
}

fn small_is_put_in_parts(alloc: Global, text: &[u8]) -> Option<bool> {
    let net = small_net(alloc)?;
    let priced = priced(alloc, &net)?;
    is_put_in_parts::<Brand>(alloc, &priced, &[0, 1], text, Blank::new(1)).ok()
}

#[test]
fn parts_of_a_certificate(rt: HostRuntime) {
    assert!(rt; small_is_put_in_parts(rt.alloc(), TEXT) == Some(true));
}
