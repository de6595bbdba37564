//! Times, paths and forecasts of the small network, and estimates.
ghost use Rattle.std.specs.Prelude.{ℕ, ◌≡◌, ◌<◌, length};
ghost use Rattle.pc_times.specs.Forecast.{IsSmallState, state_at};

use crate::cases::expect_all;
use crate::small::small_net;
use pc_net::Net;
use pc_times::ActState::{Finished, Started, Waiting};
use pc_times::{
    ActState, critical_path, early, expected_sixths, forecast, late, longest, slack, variance_36,
};
use std::alloc::Global;

/// The length of the small network for these lengths of its activities, and the times of its events.
fn times(alloc: Global, net: &Net, lengths: [u8; 3]) -> Option<(u64, [u64; 3])>
    requires events { net.now.events ≡ 3 }
    requires activities { length net.now.arcs ≡ 3 }
{
    let [a, b, c] = lengths;
    let found = longest(alloc, net, &[a as u64, b as u64, c as u64]).ok()?;
    Some((
        found.length(),
        [found.time(0), found.time(1), found.time(2)],
    ))
}

/// Whether the longest walk takes these times at the events, and goes along these activities.
fn goes(alloc: Global, net: &Net, lengths: [u8; 3], times: &[u64], path: &[u32]) -> Option<bool>
    requires events { net.now.events ≡ 3 }
    requires activities { length net.now.arcs ≡ 3 }
{
    let [a, b, c] = lengths;
    let found = longest(alloc, net, &[a as u64, b as u64, c as u64]).ok()?;
    Some((found.times() == times) & (found.path() == path))
}

/// Whether the critical path goes along these activities.
fn is_critical(alloc: Global, net: &Net, lengths: [u8; 3], path: &[u32]) -> Option<bool>
    requires events { net.now.events ≡ 3 }
    requires activities { length net.now.arcs ≡ 3 }
{
    let [a, b, c] = lengths;
    let found = critical_path(alloc, net, &[a as u64, b as u64, c as u64]).ok()?;
    Some(found.as_slice() == path)
}

// In the second both walks take 5 units, and activity 0 is before activity 2.
fn walks_of(alloc: Global, net: &Net) -> Option<[bool; 6]>
    requires events { net.now.events ≡ 3 }
    requires activities { length net.now.arcs ≡ 3 }
{
    Some([
        times(alloc, net, [4, 5, 7])? == (9, [0, 4, 9]),
        times(alloc, net, [2, 3, 5])? == (5, [0, 2, 5]),
        goes(alloc, net, [4, 5, 7], &[0, 4, 9], &[0, 1])?,
        goes(alloc, net, [2, 3, 5], &[0, 2, 5], &[0, 1])?,
        goes(alloc, net, [1, 1, 5], &[0, 1, 5], &[2])?,
        is_critical(alloc, net, [1, 1, 5], &[2])?,
    ])
}

fn small_walks(alloc: Global) -> Option<[bool; 6]> {
    let net = small_net(alloc)?;
    walks_of(alloc, &net)
}

#[test]
fn longest_walks(rt: HostRuntime) {
    expect_all(&rt, &small_walks(rt.alloc()).unwrap_or([false; 6]));
}

/// Whether these are the early times.
fn are_early(alloc: Global, net: &Net, lengths: [u8; 3], times: &[u64]) -> Option<bool>
    requires events { net.now.events ≡ 3 }
    requires activities { length net.now.arcs ≡ 3 }
{
    let [a, b, c] = lengths;
    let found = early(alloc, net, &[a as u64, b as u64, c as u64]).ok()?;
    Some(found.as_slice() == times)
}

/// Whether these are the late times where the end is to be reached so early.
fn are_late(alloc: Global, net: &Net, lengths: [u8; 3], by: i8, times: &[i64]) -> Option<bool>
    requires events { net.now.events ≡ 3 }
    requires activities { length net.now.arcs ≡ 3 }
{
    let [a, b, c] = lengths;
    let found = late(alloc, net, &[a as u64, b as u64, c as u64], by as i64).ok()?;
    Some(found.as_slice() == times)
}

fn bounds_of(alloc: Global, net: &Net) -> Option<[bool; 3]>
    requires events { net.now.events ≡ 3 }
    requires activities { length net.now.arcs ≡ 3 }
{
    Some([
        are_early(alloc, net, [4, 5, 7], &[0, 4, 9])?,
        are_late(alloc, net, [4, 5, 7], 12, &[3, 7, 12])?,
        are_late(alloc, net, [4, 5, 7], 6, &[-3, 1, 6])?,
    ])
}

fn small_bounds(alloc: Global) -> Option<[bool; 3]> {
    let net = small_net(alloc)?;
    bounds_of(alloc, &net)
}

#[test]
fn early_and_late_times(rt: HostRuntime) {
    expect_all(&rt, &small_bounds(rt.alloc()).unwrap_or([false; 3]));
    assert!(rt; [slack(7, 4), slack(1, 4)] == [3, -3]);
}

/// When the events are expected, and when activity 2 is finished, as of 42.
fn expected(alloc: Global, net: &Net, lengths: [u8; 3], states: &[ActState; 3]) -> Option<[u64; 4]>
    requires events { net.now.events ≡ 3 }
    requires activities { length net.now.arcs ≡ 3 }
    requires states { (a : ℕ) → a < 3 → IsSmallState (state_at states.now a) }
{
    let [a, b, c] = lengths;
    let lengths = [a as u64, b as u64, c as u64];
    let found = forecast(alloc, net, &lengths, states, 42).ok()?;
    Some([found.time(0), found.time(1), found.time(2), found.finish(2)])
}

// In the third a dummy that waits takes no time and does not wait for as-of.
fn forecasts_of(alloc: Global, net: &Net) -> Option<[bool; 3]>
    requires events { net.now.events ≡ 3 }
    requires activities { length net.now.arcs ≡ 3 }
{
    let waiting = [Waiting, Waiting, Waiting];
    let started = [Finished(30), Waiting, Started(6)];
    Some([
        expected(alloc, net, [24, 36, 42], &waiting)? == [0, 66, 102, 84],
        expected(alloc, net, [24, 36, 42], &started)? == [0, 30, 78, 48],
        expected(alloc, net, [0, 36, 42], &waiting)? == [0, 0, 84, 84],
    ])
}

fn small_forecasts(alloc: Global) -> Option<[bool; 3]> {
    let net = small_net(alloc)?;
    forecasts_of(alloc, &net)
}

#[test]
fn forecasts(rt: HostRuntime) {
    expect_all(&rt, &small_forecasts(rt.alloc()).unwrap_or([false; 3]));
}

#[test]
fn estimates(rt: HostRuntime) {
    let expected = [
        expected_sixths(2, 4, 12, 5),
        expected_sixths(3, 3, 3, 1),
        expected_sixths(100_000, 100_000, 100_000, 7),
    ];
    assert!(rt; expected == [150, 18, 4_200_000]);
    assert!(rt; [variance_36(2, 12, 5), variance_36(3, 3, 1)] == [2_500, 0]);
}
