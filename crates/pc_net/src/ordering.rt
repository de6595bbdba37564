//! An order of the events.
ghost use Rattle.std.specs.Prelude.{◌≡◌, ◌+◌, ◌<◌, ◌≤◌, ◌^◌, IfOk, OnOk, length, slice_index, vec_len};
ghost use Rattle.pc_model.specs.inside.Greatest.{IsListed};
ghost use Rattle.pc_model.specs.Network.{IsPartOrder};
ghost use Rattle.pc_net.specs.inside.Queue.{AreEntering, IsQueue, IsBlocked};

use crate::graph::Graph;
use pc_model::MAX_EVENTS;
use std::alloc::{AllocError, Global};

/// The events, each after those from which an activity leads to it, as far as no cycle is in the way (Kahn 1962).
/// Linear in events and activities.
pub(crate) fn ordered(alloc: Global, graph: &Graph) -> Result<Vec<u32>, AllocError>
    ensures part { IfOk result (λ o. IsPartOrder graph.now o.items) }
    ensures blocked { IfOk result (λ o. IsBlocked graph.now o.items) }
{
    let mut missing = entering(alloc, graph)?;
    let mut order = free_events(alloc, &missing)?;
    let mut at = 0;
    while at < order.len() {
        cross(&mut order, &mut missing, at, graph)?;
        at += 1;
    }
    Ok(order)
}

/// How many activities enter each event.
fn entering(alloc: Global, graph: &Graph) -> Result<Vec<u32>, AllocError>
    ensures counts { IfOk result (λ v. AreEntering graph.now v.items) }
    ensures few { IfOk result (λ v. vec_len v ≤ MAX_EVENTS) }
{
    let mut counts = vec![in alloc; 0; graph.events() as usize]?;
    for a in 0..graph.activities() {
        counts[graph.to(a) as usize] += 1;
    }
    Ok(counts)
}

/// The events that no activity enters.
fn free_events(alloc: Global, missing: &[u32]) -> Result<Vec<u32>, AllocError>
    requires { length missing.now < 2 ^ 32 }
    ensures { IfOk result (λ o. IsListed (λ v. slice_index missing.now v ≡ 0) (length missing.now) o.items) }
{
    let mut order = Vec::with_capacity(alloc, missing.len())?;
    for (event, count) in missing.iter().enumerate() {
        if *count == 0 {
            order.push(event as u32)?;
        }
    }
    Ok(order)
}

/// Crosses the activities that begin at the event at a place of the queue, and appends to the queue the events that
/// nothing else enters.
fn cross(
    order: &mut Vec<u32>,
    missing: &mut Vec<u32>,
    at: usize,
    graph: &Graph,
) -> Result<(), AllocError>
    requires queued { at < vec_len order.old }
    requires queue { IsQueue graph.now order.old.items missing.old.items at }
    ensures queue { OnOk result (IsQueue graph.now order.new.items missing.new.items (at + 1)) }
{
    for a in graph.out_arcs(order[at]) {
        let next = graph.to(*a) as usize;
        missing[next] -= 1;
        if missing[next] == 0 {
            order.push(next as u32)?;
        }
    }
    Ok(())
}
