//! When events and activities are expected, given the states of the activities.
ghost use Rattle.std.specs.Prelude.{◌≡◌, ℕ, ◌^◌, ◌<◌, ◌≤◌, length, slice_index, IfOk, OnOk};
ghost use Rattle.pc_model.specs.Network.{IsInRange, IsSound};
ghost use Rattle.pc_times.specs.Times.{AreLengths};
ghost use Rattle.pc_times.specs.Forecast.{Expected, finish_of, IsSmallState, AreStates, IsForecast};
ghost use Rattle.pc_times.specs.inside.Forecast.{finish_at, IsLastAt, AreFinishes, AreLast};
ghost use Rattle.pc_times.specs.declared.TheConstants.{MAX_ACTIVITY_LENGTH};

use crate::expected::Forecast;
use pc_net::Net;
use std::alloc::{AllocError, Global};

/// Returns the forecast from `states`, one per activity in card order, and the as-of time `as_of`. Times and lengths
/// are in sixths of a day.
///
/// The start is expected at 0, and each other event when the last of the activities that end there is finished. Linear
/// in events and activities.
///
/// # Errors
///
/// Returns `AllocError` if memory runs out.
pub fn forecast(
    alloc: Global,
    net: &Net,
    lengths: &[u64],
    states: &[ActState],
    as_of: u64,
) -> Result<Forecast, AllocError>
    requires lengths { AreLengths net.now lengths.now }
    requires states { AreStates net.now states.now }
    requires as_of { as_of < 2 ^ 40 }
    ensures forecast { IfOk result (IsForecast net.now lengths.now states.now as_of) }
    ensures only { IfOk result (λ forecast. (other : Expected) →
        IsForecast net.now lengths.now states.now as_of other → other ≡ forecast) }
{
    let times = event_times(alloc, net, lengths, states, as_of)?;
    let finishes = finishes(alloc, net, lengths, states, as_of, &times)?;
    Ok(Forecast { times, finishes })
}

/// When each event is expected. One pass in the order.
fn event_times(
    alloc: Global,
    net: &Net,
    lengths: &[u64],
    states: &[ActState],
    as_of: u64,
) -> Result<Vec<u64>, AllocError>
    requires lengths { AreLengths net.now lengths.now }
    requires states { AreStates net.now states.now }
    requires as_of { as_of < 2 ^ 40 }
    ensures times { IfOk result (λ times. AreLast net.now lengths.now states.now as_of times.items) }
    ensures in_range { OnOk result (IsInRange net.now) }
    ensures only { OnOk result ((one other : Expected) → IsForecast net.now lengths.now states.now as_of one →
        IsForecast net.now lengths.now states.now as_of other → one ≡ other) }
{
    let mut times = vec![in alloc; 0; net.events() as usize]?;
    for &event in net.order() {
        times[event as usize] = last_finish(net, lengths, states, as_of, &times, event);
    }
    Ok(times)
}

/// When the last of the activities that end at the event is finished, or 0 if there is none.
fn last_finish(
    net: &Net,
    lengths: &[u64],
    states: &[ActState],
    as_of: u64,
    times: &[u64],
    event: u32,
) -> u64
    requires sound { IsSound net.now }
    requires event { event < net.now.events }
    requires lengths { AreLengths net.now lengths.now }
    requires states { AreStates net.now states.now }
    requires as_of { as_of < 2 ^ 40 }
    requires times { length times.now ≡ net.now.events }
    requires small { (e : ℕ) → slice_index times.now e < 2 ^ 41 }
    ensures { IsLastAt net.now (finish_at net.now lengths.now states.now as_of times.now) event result }
{
    let mut last = 0;
    for &a in net.in_arcs(event) {
        last = last.max(finish_at(net, lengths, states, as_of, times, a));
    }
    last
}

/// When each activity is finished, from the times of all events.
fn finishes(
    alloc: Global,
    net: &Net,
    lengths: &[u64],
    states: &[ActState],
    as_of: u64,
    times: &[u64],
) -> Result<Vec<u64>, AllocError>
    requires lengths { AreLengths net.now lengths.now }
    requires states { AreStates net.now states.now }
    requires as_of { as_of < 2 ^ 40 }
    requires times { length times.now ≡ net.now.events }
    requires small { (e : ℕ) → slice_index times.now e < 2 ^ 41 }
    ensures { IfOk result (λ finishes. AreFinishes net.now lengths.now states.now as_of times.now
        (length net.now.arcs) finishes.items) }
{
    let mut finishes = Vec::with_capacity(alloc, net.activities() as usize)?;
    for a in 0..net.activities() {
        finishes.push(finish_at(net, lengths, states, as_of, times, a))?;
    }
    Ok(finishes)
}

/// When the activity is finished, from the time of the event where it begins.
fn finish_at(
    net: &Net,
    lengths: &[u64],
    states: &[ActState],
    as_of: u64,
    times: &[u64],
    a: u32,
) -> u64
    requires a { a < length net.now.arcs }
    requires lengths { AreLengths net.now lengths.now }
    requires states { AreStates net.now states.now }
    requires as_of { as_of < 2 ^ 40 }
    requires times { length times.now ≡ net.now.events }
    requires small { (e : ℕ) → slice_index times.now e < 2 ^ 41 }
    ensures { result ≡ finish_at net.now lengths.now states.now as_of times.now a }
{
    let begin = times[net.from(a) as usize];
    finish(states[a as usize], lengths[a as usize], as_of, begin)
}

/// When an activity of this length is finished that begins at an event with this time.
fn finish(state: ActState, length: u64, as_of: u64, begin: u64) -> u64
    requires state { IsSmallState state }
    requires length { length ≤ MAX_ACTIVITY_LENGTH }
    requires as_of { as_of < 2 ^ 40 }
    requires begin { begin < 2 ^ 41 }
    ensures { result ≡ finish_of state length as_of begin }
{
    match state {
        ActState::Finished(at) => at,
        ActState::Started(at) => (at + length).max(as_of),
        ActState::Waiting if length == 0 => begin,
        ActState::Waiting => begin.max(as_of) + length,
    }
}

/// The progress of an activity. Times are in sixths of a day from the project's start date.
#[derive(Clone, Copy)]
pub enum ActState {
    /// It has not begun.
    Waiting,
    /// It began at this time and is not finished.
    Started(u64),
    /// It was finished at this time.
    Finished(u64),
}
