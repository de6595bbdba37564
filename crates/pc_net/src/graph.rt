//! A network that may not be sound, and the two ends of an activity.
ghost use Rattle.std.specs.Prelude.{◌≡◌, ◌<◌, ◌≤◌, IfOk, length};
ghost use Rattle.pc_model.specs.Greatest.{places};
ghost use Rattle.pc_model.specs.inside.Greatest.{IsListed};
ghost use Rattle.pc_model.specs.Walk.{from_of, to_of};
ghost use Rattle.pc_model.specs.Network.{IsInRange};
ghost use Rattle.pc_net.specs.Networks.{events_from, events_to};
ghost use Rattle.pc_net.specs.inside.Networks.{network};
ghost use Rattle.pc_net.specs.inside.Sides.{event_of};

use crate::listing::Listing;
use pc_model::{Arc, MAX_ACTIVITIES, MAX_EVENTS};
use std::alloc::{AllocError, Global};
use std::marker::Model;

/// A network that may not be sound, with the activities at each event.
pub(crate) struct Graph {
    events: u32,
    start: u32,
    end: u32,
    arcs: Vec<Arc>,
    outgoing: Listing,
    incoming: Listing,
}

impl Drop for Graph {
    // Written by hand so that the proof of dropping it is done once, here.
    fn drop(self) {
        let Graph {
            events: _events,
            start: _start,
            end: _end,
            arcs: _arcs,
            outgoing: _outgoing,
            incoming: _incoming,
        } = self;
    }
}

impl Model for Graph {
    ghost use Rattle.pc_model.specs.Network.{Network};

    ghost Value = { Network };

    ghost use Rattle.pc_net.specs.inside.Graphs.{network_of_graph, IsIndexed};

    ghost view = { network_of_graph };

    ghost invariant = { IsIndexed };
}

impl Graph {
    pub(crate) fn build(
        alloc: Global,
        events: u32,
        start: u32,
        end: u32,
        arcs: &[Arc],
    ) -> Result<Graph, AllocError>
        requires few_events { events ≤ MAX_EVENTS }
        requires few_activities { length arcs.now ≤ MAX_ACTIVITIES }
        requires in_range { IsInRange (network events start end arcs.now) }
        ensures { IfOk result (λ graph. graph ≡ network events start end arcs.now) }
    {
        let outgoing = Listing::build(alloc, events, arcs, Side::Begins)?;
        let incoming = Listing::build(alloc, events, arcs, Side::Ends)?;
        let arcs = Vec::from_slice(alloc, arcs)?;
        Ok(Graph {
            events,
            start,
            end,
            arcs,
            outgoing,
            incoming,
        })
    }

    // Does nothing. States what holds of every graph.
    pub(crate) fn facts(&self)
        ensures events { self.now.events ≤ MAX_EVENTS }
        ensures activities { length self.now.arcs ≤ MAX_ACTIVITIES }
        ensures in_range { IsInRange self.now }
    {
        let _ = &self.events;
    }

    pub(crate) fn events(&self) -> u32
        ensures events { result ≡ self.now.events }
        ensures limit { result ≤ MAX_EVENTS }
        ensures in_range { IsInRange self.now }
    {
        self.events
    }

    pub(crate) fn activities(&self) -> u32
        ensures activities { result ≡ length self.now.arcs }
        ensures limit { result ≤ MAX_ACTIVITIES }
    {
        self.arcs.len() as u32
    }

    pub(crate) fn start(&self) -> u32
        ensures start { result ≡ self.now.start }
        ensures known { result < self.now.events }
    {
        self.start
    }

    pub(crate) fn end(&self) -> u32
        ensures end { result ≡ self.now.end }
        ensures known { result < self.now.events }
    {
        self.end
    }

    pub(crate) fn from(&self, a: u32) -> u32
        requires { a < length self.now.arcs }
        ensures event { result ≡ from_of self.now.arcs a }
        ensures known { result < self.now.events }
    {
        self.arcs[a as usize].from
    }

    pub(crate) fn to(&self, a: u32) -> u32
        requires { a < length self.now.arcs }
        ensures event { result ≡ to_of self.now.arcs a }
        ensures known { result < self.now.events }
    {
        self.arcs[a as usize].to
    }

    pub(crate) fn out_arcs(&self, e: u32) -> &[u32]
        requires { e < self.now.events }
        ensures listed { IsListed (λ a. from_of self.now.arcs a ≡ e) (length self.now.arcs) result.now }
        ensures places { result.now ≡ places e 0 (events_from self.now.arcs) }
    {
        self.outgoing.at(e)
    }

    pub(crate) fn in_arcs(&self, e: u32) -> &[u32]
        requires { e < self.now.events }
        ensures listed { IsListed (λ a. to_of self.now.arcs a ≡ e) (length self.now.arcs) result.now }
        ensures places { result.now ≡ places e 0 (events_to self.now.arcs) }
    {
        self.incoming.at(e)
    }
}

/// One of the two ends of an activity.
#[derive(Clone, Copy)]
pub(crate) enum Side {
    Begins,
    Ends,
}

impl Side {
    /// The event at this end of the activity.
    pub(crate) fn event_of(self, arc: Arc) -> u32
        ensures { result ≡ event_of self arc }
    {
        match self {
            Side::Begins => arc.from,
            Side::Ends => arc.to,
        }
    }
}
