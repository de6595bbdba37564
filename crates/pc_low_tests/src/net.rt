//! Networks that are sound, and those that are refused.
ghost use Rattle.std.specs.Bool.{OnTrue};
ghost use Rattle.pc_model.specs.Network.{IsInRange};
ghost use Rattle.pc_net.specs.inside.Networks.{network};

use crate::cases::expect_none;
use pc_model::{MAX_ACTIVITIES, MAX_EVENTS};
use pc_net::{Arc, Net, NetError};
use std::alloc::Global;

/// Whether a network may be built of these.
fn is_in_range(events: u32, start: u32, end: u32, arcs: &[Arc]) -> bool
    ensures { OnTrue result (IsInRange (network events start end arcs.now)) }
{
    for arc in arcs {
        if arc.from >= events || arc.to >= events || arc.from == arc.to {
            return false;
        }
    }
    start < events && end < events && start != end
}

/// The network of these activities from event 0 to event 1, or none where they are out of range.
fn built(alloc: Global, events: u32, arcs: &[Arc]) -> Option<Result<Net, NetError>> {
    if events > MAX_EVENTS
        || arcs.len() > MAX_ACTIVITIES as usize
        || !is_in_range(events, 0, 1, arcs)
    {
        return None;
    }
    Some(Net::build(alloc, events, 0, 1, arcs))
}

/// Why that network is refused, or none where it is not.
fn refusal(alloc: Global, events: u32, arcs: &[Arc]) -> Option<NetError> {
    match built(alloc, events, arcs) {
        Some(Err(e)) => Some(e),
        _ => None,
    }
}

const fn arc(from: u32, to: u32) -> Arc {
    Arc { from, to }
}

// S = 0, T = 1, M = 2; A from S to M, B from M to T, C from S to T
fn is_as_built(net: &Net) -> bool {
    if net.events() != 3 || net.activities() != 3 {
        return false;
    }
    let is_placed = (net.start() == 0) & (net.end() == 1) & (net.from(1) == 2) & (net.to(1) == 1);
    let is_ordered = net.order() == [0, 2, 1].as_slice();
    let is_listed = (net.out_arcs(0) == [0, 2].as_slice()) & (net.in_arcs(1) == [1, 2].as_slice());
    is_placed & is_ordered & is_listed
}

fn is_built(alloc: Global) -> bool {
    match built(alloc, 3, &[arc(0, 2), arc(2, 1), arc(0, 1)]) {
        Some(Ok(net)) => is_as_built(&net),
        _ => false,
    }
}

#[test]
fn builds_a_network(rt: HostRuntime) {
    assert!(rt; is_built(rt.alloc()));
}

/// Why a network is refused, with the activity or the event and its side; a cycle is reported without its activities.
#[derive(Clone, Copy, PartialEq)]
enum Cause {
    None,
    StartEntered(u32),
    EndLeft(u32),
    Dangling(u32, bool),
    Other,
}

fn cause_of(alloc: Global, events: u32, arcs: &[Arc]) -> Cause {
    match refusal(alloc, events, arcs) {
        None => Cause::None,
        Some(NetError::StartEntered { arc }) => Cause::StartEntered(arc),
        Some(NetError::EndLeft { arc }) => Cause::EndLeft(arc),
        Some(NetError::Dangling { event, entered }) => Cause::Dangling(event, entered),
        Some(_) => Cause::Other,
    }
}

// Activities among three events, and why their network is refused.
const CAUSES: &[(&[Arc], Cause)] = &[
    (
        &[Arc { from: 0, to: 2 }, Arc { from: 2, to: 1 }],
        Cause::None,
    ),
    (
        &[
            Arc { from: 0, to: 2 },
            Arc { from: 2, to: 1 },
            Arc { from: 2, to: 0 },
            Arc { from: 1, to: 0 },
        ],
        Cause::StartEntered(2),
    ),
    (
        &[
            Arc { from: 0, to: 2 },
            Arc { from: 1, to: 2 },
            Arc { from: 2, to: 1 },
            Arc { from: 1, to: 2 },
        ],
        Cause::EndLeft(1),
    ),
    (
        &[Arc { from: 0, to: 1 }, Arc { from: 0, to: 2 }],
        Cause::Dangling(2, true),
    ),
    (
        &[Arc { from: 0, to: 1 }, Arc { from: 2, to: 1 }],
        Cause::Dangling(2, false),
    ),
];

/// The first of these networks that is refused for something else, or none.
fn first_wrong_cause(alloc: Global) -> Option<usize> {
    for (i, &(arcs, wanted)) in CAUSES.iter().enumerate() {
        if cause_of(alloc, 3, arcs) != wanted {
            return Some(i);
        }
    }
    None
}

#[test]
fn names_the_first_cause(rt: HostRuntime) {
    expect_none(&rt, first_wrong_cause(rt.alloc()));
}

/// 2 to 3 to 2 and 4 to 5 to 4; the first activity leads from the one cycle to the other, and is on none.
const fn two_cycles() -> [Arc; 7] {
    [
        arc(3, 4),
        arc(0, 2),
        arc(5, 4),
        arc(2, 3),
        arc(3, 2),
        arc(4, 5),
        arc(5, 1),
    ]
}

/// Whether the network is refused for that cycle.
fn has_cycle(alloc: Global, events: u32, arcs: &[Arc], cycle: &[u32]) -> bool {
    match refusal(alloc, events, arcs) {
        Some(NetError::Cycle(found)) => found.as_slice() == cycle,
        _ => false,
    }
}

#[test]
fn names_a_cycle(rt: HostRuntime) {
    // 2 to 3 to 4 to 2, entered at 2 and left at 4; the first activity on it is 1
    let round = [arc(0, 2), arc(2, 3), arc(4, 1), arc(3, 4), arc(4, 2)];
    assert!(rt; has_cycle(rt.alloc(), 5, &round, &[1, 3, 4]));
    assert!(rt; has_cycle(rt.alloc(), 6, &two_cycles(), &[2, 5]));
}
