//! When the events of a network are reached and when they must be: the passes over the events, and the time between.
ghost use Rattle.std.specs.Prelude.{◌≡◌, ◌^◌, ◌<◌, ◌≤◌, pos, ◌-ℤ◌, unsigned_abs, IfOk, length, OnOk};
ghost use Rattle.std.specs.List.{All};
ghost use Rattle.pc_times.specs.Times.{AreLengths, AreEarly, IsTail};
ghost use Rattle.pc_times.specs.Late.{AreLate};
ghost use Rattle.pc_times.specs.inside.Late.{IsInTimeFor};
ghost use Rattle.pc_model.specs.Network.{IsEarly};
ghost use Rattle.pc_times.specs.inside.Times.{AreTails};
ghost use Rattle.pc_times.specs.inside.Passes.{HasBoundedWalks, AreEarlyBefore, AreTailsAfter};

use crate::MAX_TIME;
use pc_net::Net;
use std::alloc::{AllocError, Global};

/// Returns the earliest time of each event, in card order: the greatest sum of lengths over the walks from the start.
/// Linear in events and activities.
///
/// # Errors
///
/// Returns `AllocError` if memory runs out.
pub fn early(alloc: Global, net: &Net, lengths: &[u64]) -> Result<Vec<u64>, AllocError>
    requires { AreLengths net.now lengths.now }
    ensures times { IfOk result (λ times. AreEarly net.now lengths.now times.items) }
    ensures limit { IfOk result (λ times. All (λ time. time ≤ MAX_TIME) times.items) }
    ensures walks { OnOk result (HasBoundedWalks net.now lengths.now) }
{
    let mut times = vec![in alloc; 0; net.events() as usize]?;
    early_into(net, lengths, &mut times);
    Ok(times)
}

/// Returns the latest time of each event, in card order, at which the end can still be reached at `by`. Linear in
/// events and activities.
///
/// A time is negative if a walk from that event to the end takes longer than `by`.
///
/// # Errors
///
/// Returns `AllocError` if memory runs out.
pub fn late(alloc: Global, net: &Net, lengths: &[u64], by: i64) -> Result<Vec<i64>, AllocError>
    requires lengths { AreLengths net.now lengths.now }
    requires by { unsigned_abs by < 2 ^ 40 }
    ensures times { IfOk result (λ times. AreLate net.now lengths.now by times.items) }
    ensures limit { IfOk result (λ times. All (IsInTimeFor by) times.items) }
{
    let tails = tails_to_end(alloc, net, lengths)?;
    let mut times = Vec::with_capacity(alloc, net.events() as usize)?;
    for &tail in &tails {
        times.push(so_long_before(by, tail))?;
    }
    Ok(times)
}

/// Returns `by` minus `tail`: the latest time of an event, if `tail` is the greatest sum of lengths over the walks from
/// it to the end.
pub fn so_long_before(by: i64, tail: u64) -> i64
    requires by { unsigned_abs by < 2 ^ 40 }
    requires tail { tail ≤ MAX_TIME }
    ensures { result ≡ by -ℤ pos tail }
{
    by - tail as i64
}

/// Returns the slack of an event: its latest time minus its earliest. It is negative if the end cannot be met.
pub fn slack(late: i64, early: u64) -> i64
    requires late { unsigned_abs late < 2 ^ 41 }
    requires early { early < 2 ^ 41 }
    ensures { result ≡ late -ℤ pos early }
{
    late - early as i64
}

/// For each event the greatest sum of lengths over the walks from it to the end.
pub(crate) fn tails_to_end(
    alloc: Global,
    net: &Net,
    lengths: &[u64],
) -> Result<Vec<u64>, AllocError>
    requires { AreLengths net.now lengths.now }
    ensures tails { IfOk result (λ tails. AreTails net.now lengths.now tails.items) }
    ensures limit { IfOk result (λ tails. All (λ tail. tail ≤ MAX_TIME) tails.items) }
    ensures walks { OnOk result (HasBoundedWalks net.now lengths.now) }
{
    let mut tails = vec![in alloc; 0; net.events() as usize]?;
    tails_into(net, lengths, &mut tails);
    Ok(tails)
}

/// Writes the earliest time of each event, in card order, to `times`: the greatest sum of lengths over the walks from
/// the start to it. One pass over the activities; allocates nothing.
pub fn early_into(net: &Net, lengths: &[u64], times: &mut [u64])
    requires lengths { AreLengths net.now lengths.now }
    requires places { length times.old ≡ net.now.events }
    ensures times { AreEarly net.now lengths.now times.new }
    ensures limit { All (λ time. time ≤ MAX_TIME) times.new }
    ensures walks { HasBoundedWalks net.now lengths.now }
{
    // The bound on events says that no sum is too great.
    net.facts();
    for &event in net.order() {
        times[event as usize] = latest_arrival(net, lengths, times, event);
    }
}

/// Writes for each event, in card order, the greatest sum of lengths over the walks from it to the end to `tails`. One
/// pass over the activities; allocates nothing.
pub fn tails_into(net: &Net, lengths: &[u64], tails: &mut [u64])
    requires lengths { AreLengths net.now lengths.now }
    requires places { length tails.old ≡ net.now.events }
    ensures tails { AreTails net.now lengths.now tails.new }
    ensures limit { All (λ tail. tail ≤ MAX_TIME) tails.new }
    ensures walks { HasBoundedWalks net.now lengths.now }
{
    // The bound on events says that no sum is too great.
    net.facts();
    for &event in net.order().iter().rev() {
        tails[event as usize] = longest_departure(net, lengths, tails, event);
    }
}

/// The time of an event, from those of the events where the activities that enter it begin.
fn latest_arrival(net: &Net, lengths: &[u64], times: &[u64], event: u32) -> u64
    requires lengths { AreLengths net.now lengths.now }
    requires walks { HasBoundedWalks net.now lengths.now }
    requires before { AreEarlyBefore net.now lengths.now times.now event }
    ensures { IsEarly net.now lengths.now event result }
{
    let mut latest = 0;
    for &a in net.in_arcs(event) {
        latest = latest.max(times[net.from(a) as usize] + lengths[a as usize]);
    }
    latest
}

/// The tail of an event, from those of the events where the activities that leave it end.
fn longest_departure(net: &Net, lengths: &[u64], tails: &[u64], event: u32) -> u64
    requires lengths { AreLengths net.now lengths.now }
    requires walks { HasBoundedWalks net.now lengths.now }
    requires after { AreTailsAfter net.now lengths.now tails.now event }
    ensures { IsTail net.now lengths.now event result }
{
    let mut longest = 0;
    for &a in net.out_arcs(event) {
        longest = longest.max(lengths[a as usize] + tails[net.to(a) as usize]);
    }
    longest
}
