//! The activities at each event, in one list.
ghost use Rattle.std.specs.Prelude.{◌≡◌, ◌<◌, ◌^◌, [], IfOk, OnOk, length};
ghost use Rattle.pc_net.specs.inside.Sides.{events_of, AreBelow};
ghost use Rattle.pc_net.specs.inside.Listings.{AreListed, IsListing, HasPart, part_of};
ghost use Rattle.pc_net.specs.inside.Chains.{AreChains};

use crate::graph::Side;
use pc_model::Arc;
use std::alloc::{AllocError, Global};

/// For each event the activities at it, in card order: those of event e are in `items` from `starts[e]` up to `starts[e
/// + 1]`.
#[derive(Drop)]
pub(crate) struct Listing {
    pub(crate) items: Vec<u32>,
    pub(crate) starts: Vec<usize>,
}

impl Listing {
    /// The activities by the event at one of their ends. Linear in events and activities.
    pub(crate) fn build(
        alloc: Global,
        events: u32,
        arcs: &[Arc],
        side: Side,
    ) -> Result<Listing, AllocError>
        requires few { length arcs.now < 2 ^ 32 }
        requires in_range { AreBelow (events_of side arcs.now) events }
        ensures { IfOk result (IsListing (events_of side arcs.now) events) }
    {
        let mut items = Vec::with_capacity(alloc, arcs.len())?;
        let mut starts = Vec::with_capacity(alloc, events as usize + 1)?;
        list(alloc, events, arcs, side, &mut items, &mut starts)?;
        Ok(Listing { items, starts })
    }

    /// The activities at the event, in card order.
    pub(crate) fn at(&self, event: u32) -> &[u32]
        requires { HasPart self.now event }
        ensures { result.now ≡ part_of self.now event }
    {
        &self.items[self.starts[event as usize]..self.starts[event as usize + 1]]
    }
}

/// Lists the activities at each event, one event after another, and where each event's begin.
fn list(
    alloc: Global,
    events: u32,
    arcs: &[Arc],
    side: Side,
    items: &mut Vec<u32>,
    starts: &mut Vec<usize>,
) -> Result<(), AllocError>
    requires few { length arcs.now < 2 ^ 32 }
    requires in_range { AreBelow (events_of side arcs.now) events }
    requires no_items { items.old.items ≡ [] }
    requires no_starts { starts.old.items ≡ [] }
    ensures { OnOk result (AreListed (events_of side arcs.now) events items.new.items starts.new.items) }
{
    let chains = chained(alloc, events, arcs, side)?;
    starts.push(0)?;
    'events: for head in &chains.heads {
        let mut at = *head as usize;
        'chain: while at < arcs.len() {
            items.push(at as u32)?;
            at = chains.nexts[at] as usize;
        }
        starts.push(items.len())?;
    }
    Ok(())
}

/// The activities at each event as linked lists: for each event the first, for each activity the next at the same
/// event. The number of activities means that there is none.
#[derive(Drop)]
pub(crate) struct Chains {
    pub(crate) heads: Vec<u32>,
    pub(crate) nexts: Vec<u32>,
}

/// The chains of the activities by the event at one of their ends.
pub(crate) fn chained(
    alloc: Global,
    events: u32,
    arcs: &[Arc],
    side: Side,
) -> Result<Chains, AllocError>
    requires few { length arcs.now < 2 ^ 32 }
    requires in_range { AreBelow (events_of side arcs.now) events }
    ensures { IfOk result (λ c. AreChains (events_of side arcs.now) events 0 c.heads.items c.nexts.items) }
{
    let none = arcs.len() as u32;
    let mut heads = vec![in alloc; none; events as usize]?;
    let mut nexts = vec![in alloc; none; arcs.len()]?;
    for i in (0..none).rev() {
        let event = side.event_of(arcs[i as usize]) as usize;
        nexts[i as usize] = heads[event];
        heads[event] = i;
    }
    Ok(Chains { heads, nexts })
}
