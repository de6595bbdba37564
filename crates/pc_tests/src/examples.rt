//! The examples in the doc comments of calls on a deck and on the time-cost curve: each function has the lines that the
//! comment shows, and each test sees that they return true. `tests/docs/examples.py` compares them.
ghost use Rattle.std.specs.Prelude.{◌≡◌, [], length};
ghost use Rattle.pc_crash.specs.inside.Steps.{IsBlankOf};

use crate::certificates::priced;
use crate::small::small_net;
use pc_cells::Region;
use pc_certify::certify;
use pc_crash::{CrashNet, SegmentView, Steps};
use pc_curve::{Break, Breaks, point_at};
use pc_deck::read_cards;
use pc_edges::MemSink;
use pc_flow::{Solver, cells_needed};
use pc_model::TimeTerms;
use pc_project::project_of;
use pc_total::best;
use std::alloc::Global;
use std::marker::Brand;
use std::sync::ledger::{Blank, Ledger};

fn read_a_deck(alloc: Global) -> Option<bool> {
    let deck = b"PROJECT,E1,S,T,2024-01-01,1,,\nWBS,1,,\nEVENT,S,\nEVENT,T,\n\
ACT,DIG,S,T,1,3,4,5,4,2,10,3,\nACCT,X,1,10,\nEND\n";
    let cards = read_cards(alloc, deck).ok()?;
    Some((cards.events().len() == 2) & (cards.acts().len() == 1))
}

#[test]
fn reads_a_deck(rt: HostRuntime) {
    assert!(rt; read_a_deck(rt.alloc()) == Some(true));
}

fn make_a_project(alloc: Global) -> Option<bool> {
    let deck = b"PROJECT,E1,S,T,2024-01-01,1,,\nWBS,1,,\nEVENT,S,\nEVENT,T,\n\
ACT,DIG,S,T,1,3,4,5,4,2,10,3,\nACCT,X,1,10,\nEND\n";
    let cards = read_cards(alloc, deck).ok()?;
    let project = project_of(alloc, cards).ok()?;
    // Estimates of 3, 4 and 5 units expect 4 units, kept in sixths.
    let is_expected = project.expected() == [24].as_slice();
    drop(project);
    Some(is_expected)
}

#[test]
fn makes_a_project(rt: HostRuntime) {
    assert!(rt; make_a_project(rt.alloc()) == Some(true));
}

fn take_breaks<L: Ledger>(alloc: Global, net: &CrashNet<'_>, blank: Blank) -> Option<bool>
    requires blank { IsBlankOf L.name L.parts blank.name blank.parts }
    requires events { net.now.network.events ≡ 3 }
    requires activities { length net.now.network.arcs ≡ 3 }
    requires pieces { net.now.pieces ≡ [] }
{
    let region = Region::with_cells(alloc, cells_needed(3, 3, 0)).ok()?;
    let mut solver = Solver::begin(region, net);
    let mut steps = Steps::<L>::new(blank);
    let mut breaks = Breaks::new();
    let first = breaks.next(&mut solver, &mut steps)?;
    let second = breaks.next(&mut solver, &mut steps)?;
    let third = breaks.next(&mut solver, &mut steps)?;
    let lengths = [first.length, second.length, third.length];
    let costs = [first.cost, second.cost, third.cost];
    let is_last = breaks.next(&mut solver, &mut steps).is_none();
    Some((lengths == [9, 7, 5]) & (costs == [45, 51, 65]) & is_last)
}

fn take_breaks_of_three(alloc: Global) -> Option<bool> {
    let net = small_net(alloc)?;
    let priced = priced(alloc, &net)?;
    take_breaks::<Brand>(alloc, &priced, Blank::new(1))
}

#[test]
fn takes_breaks(rt: HostRuntime) {
    assert!(rt; take_breaks_of_three(rt.alloc()) == Some(true));
}

fn read_a_point<L: Ledger>(alloc: Global, net: &CrashNet<'_>, blank: Blank) -> Option<bool>
    requires blank { IsBlankOf L.name L.parts blank.name blank.parts }
    requires events { net.now.network.events ≡ 3 }
    requires activities { length net.now.network.arcs ≡ 3 }
    requires pieces { net.now.pieces ≡ [] }
{
    let region = Region::with_cells(alloc, cells_needed(3, 3, 0)).ok()?;
    let mut solver = Solver::begin(region, net);
    let mut steps = Steps::<L>::new(blank);
    if solver.shortest() > 8 || solver.longest() < 8 {
        return None;
    }
    let (mut times, mut durations) = ([0; 3], [0; 3]);
    let cost = point_at(&mut solver, 8, &mut times, &mut durations, &mut steps);
    // A lasts 3 units in place of 4, for 3 more.
    Some((cost == 48) & (times == [0, 3, 8]) & (durations == [3, 5, 7]))
}

fn read_a_point_of_three(alloc: Global) -> Option<bool> {
    let net = small_net(alloc)?;
    let priced = priced(alloc, &net)?;
    read_a_point::<Brand>(alloc, &priced, Blank::new(1))
}

#[test]
fn reads_a_point(rt: HostRuntime) {
    assert!(rt; read_a_point_of_three(rt.alloc()) == Some(true));
}

fn find_the_best<L: Ledger>(alloc: Global, net: &CrashNet<'_>, blank: Blank) -> Option<bool>
    requires blank { IsBlankOf L.name L.parts blank.name blank.parts }
    requires events { net.now.network.events ≡ 3 }
    requires activities { length net.now.network.arcs ≡ 3 }
    requires pieces { net.now.pieces ≡ [] }
{
    let region = Region::with_cells(alloc, cells_needed(3, 3, 0)).ok()?;
    let mut solver = Solver::begin(region, net);
    let mut steps = Steps::<L>::new(blank);
    // Each unit of time costs 5, and nothing else depends on the length.
    let terms = TimeTerms {
        overhead: 5,
        target: 0,
        bonus: 0,
        penalty: 0,
    };
    let found = best(&mut solver, &terms, &mut steps);
    Some((found.length == 7) & (found.direct == 51) & (found.time == 35) & (found.total == 86))
}

fn find_the_best_of_three(alloc: Global) -> Option<bool> {
    let net = small_net(alloc)?;
    let priced = priced(alloc, &net)?;
    find_the_best::<Brand>(alloc, &priced, Blank::new(1))
}

#[test]
fn finds_the_best(rt: HostRuntime) {
    assert!(rt; find_the_best_of_three(rt.alloc()) == Some(true));
}

fn certify_a_net(alloc: Global, net: &CrashNet<'_>) -> Option<bool>
    requires events { net.now.network.events ≡ 3 }
    requires activities { length net.now.network.arcs ≡ 3 }
    requires pieces { net.now.pieces ≡ [] }
{
    let region = Region::with_cells(alloc, cells_needed(3, 3, 0)).ok()?;
    let mut sink = MemSink::new(alloc, 1000, 1000, &[]).ok()?;
    let is_written = certify(alloc, net, region, &mut sink).is_ok();
    Some(is_written && sink.bytes().starts_with(b"CERT 1 E1 3 3\nNORMAL\nSTEP A\n"))
}

fn certify_three(alloc: Global) -> Option<bool> {
    let net = small_net(alloc)?;
    let priced = priced(alloc, &net)?;
    certify_a_net(alloc, &priced)
}

#[test]
fn certifies_a_net(rt: HostRuntime) {
    assert!(rt; certify_three(rt.alloc()) == Some(true));
}
