//! The longest walk, and the one of several that is picked.
ghost use Rattle.std.specs.Prelude.{◌≡◌, ℕ, ◌<◌, ◌≤◌, length, take, slice_index, IfOk, IfSome, IfNone};
ghost use Rattle.std.specs.List.{All};
ghost use Rattle.pc_model.specs.Greatest.{IsFirst};
ghost use Rattle.pc_model.specs.Walk.{IsWalk, walk_sum};
ghost use Rattle.pc_model.specs.Network.{IsLongest};
ghost use Rattle.pc_times.specs.Times.{AreLengths, AreEarly};
ghost use Rattle.pc_times.specs.inside.Times.{AreTails};
ghost use Rattle.pc_times.specs.Picked.{IsPickedWalk, IsLongestWalk};
ghost use Rattle.pc_times.specs.inside.Passes.{HasBoundedWalks, HasNoSlack};

use crate::MAX_TIME;
use crate::events::{early, tails_to_end};
use crate::found::Longest;
use pc_net::Net;
use std::alloc::{AllocError, Global};

/// Returns the length of the network, its event times and its critical path, in two passes over the activities.
///
/// If several walks have the greatest sum, the critical path takes at each event the first activity, in card order,
/// that is on one of them.
///
/// # Errors
///
/// Returns `AllocError` if memory runs out.
pub fn longest(alloc: Global, net: &Net, lengths: &[u64]) -> Result<Longest, AllocError>
    requires { AreLengths net.now lengths.now }
    ensures times { IfOk result (λ found. AreEarly net.now lengths.now found.times) }
    ensures limit { IfOk result (λ found. All (λ time. time ≤ MAX_TIME) found.times) }
    ensures length { IfOk result (λ found. IsLongest net.now lengths.now found.length) }
    ensures end_time { IfOk result (λ found. slice_index found.times net.now.end ≡ found.length) }

    ensures picked { IfOk result (λ found. IsPickedWalk net.now lengths.now found.path) }
    ensures through { IfOk result (λ found. IsWalk net.now.arcs net.now.start found.path net.now.end) }
    ensures sum { IfOk result (λ found. walk_sum lengths.now found.path ≡ found.length) }
    ensures short { IfOk result (λ found. length found.path < net.now.events) }
{
    let times = early(alloc, net, lengths)?;
    let tails = tails_to_end(alloc, net, lengths)?;
    let path = picked_walk(alloc, net, lengths, &times, &tails)?;
    Ok(Longest {
        length: times[net.end() as usize],
        times,
        path,
    })
}

/// Returns the critical path that [`longest`] picks, in two passes over the activities.
///
/// # Errors
///
/// Returns `AllocError` if memory runs out.
pub fn critical_path(alloc: Global, net: &Net, lengths: &[u64]) -> Result<Vec<u32>, AllocError>
    requires { AreLengths net.now lengths.now }
    ensures picked { IfOk result (λ path. IsPickedWalk net.now lengths.now path.items) }
    ensures longest { IfOk result (λ path. IsLongestWalk net.now lengths.now path.items) }
    ensures short { IfOk result (λ path. length path.items < net.now.events) }
{
    Ok(longest(alloc, net, lengths)?.path)
}

/// The picked walk, by the sums to each event and from it.
pub(crate) fn picked_walk(
    alloc: Global,
    net: &Net,
    lengths: &[u64],
    times: &[u64],
    tails: &[u64],
) -> Result<Vec<u32>, AllocError>
    requires lengths { AreLengths net.now lengths.now }
    requires walks { HasBoundedWalks net.now lengths.now }
    requires times { AreEarly net.now lengths.now times.now }
    requires tails { AreTails net.now lengths.now tails.now }
    ensures picked { IfOk result (λ path. IsPickedWalk net.now lengths.now path.items) }
    ensures through { IfOk result (λ path. IsWalk net.now.arcs net.now.start path.items net.now.end) }
    ensures sum { IfOk result (λ path. walk_sum lengths.now path.items ≡ slice_index times.now net.now.end) }
    ensures short { IfOk result (λ path. length path.items < net.now.events) }
{
    let mut path = Vec::with_capacity(alloc, net.events() as usize)?;
    let mut event = net.start();
    while let Some(a) = first_without_slack(net, lengths, times, tails, event) {
        path.push(a)?;
        event = net.to(a);
    }
    Ok(path)
}

/// Writes the critical path to the front of a slice, given the sums to each event and from it, and returns how many
/// activities it has. At most two passes over the activities; allocates nothing.
pub fn critical_path_into(
    net: &Net,
    lengths: &[u64],
    times: &[u64],
    tails: &[u64],
    path: &mut [u64],
) -> usize
    requires lengths { AreLengths net.now lengths.now }
    requires times { AreEarly net.now lengths.now times.now }
    requires tails { AreTails net.now lengths.now tails.now }
    requires places { length path.old ≡ net.now.events }
    ensures picked { IsPickedWalk net.now lengths.now (take result path.new) }
    ensures short { result < net.now.events }
{
    // The bound on events and their order say that no walk is longer than the slice.
    net.facts();
    let mut event = net.start();
    let mut count = 0;
    while let Some(a) = first_without_slack(net, lengths, times, tails, event) {
        path[count] = u64::from(a);
        count += 1;
        event = net.to(a);
    }
    count
}

/// The first activity at the event that is on a longest walk.
fn first_without_slack(
    net: &Net,
    lengths: &[u64],
    times: &[u64],
    tails: &[u64],
    event: u32,
) -> Option<u32>
    requires event { event < net.now.events }
    requires lengths { AreLengths net.now lengths.now }
    requires walks { HasBoundedWalks net.now lengths.now }
    requires times { AreEarly net.now lengths.now times.now }
    requires tails { AreTails net.now lengths.now tails.now }
    ensures found { IfSome result (λ a. IsFirst (HasNoSlack net.now lengths.now times.now tails.now event) a) }
    ensures none { IfNone result ((a : ℕ) → HasNoSlack net.now lengths.now times.now tails.now event a → ⊥) }
{
    let longest = times[net.end() as usize];
    for &a in net.out_arcs(event) {
        if times[event as usize] + lengths[a as usize] + tails[net.to(a) as usize] == longest {
            return Some(a);
        }
    }
    None
}
