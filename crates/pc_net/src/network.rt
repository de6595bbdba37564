//! A sound network, and how often its activities are among those that begin or end at its events.
ghost use Rattle.std.specs.Prelude.{◌≡◌, ◌<◌, ◌≤◌, IfOk, IfErr, OnOk, length, ℕ, List};
ghost use Rattle.pc_model.specs.Greatest.{places};
ghost use Rattle.pc_model.specs.inside.Greatest.{IsListed};
ghost use Rattle.pc_model.specs.Walk.{from_of, to_of};
ghost use Rattle.pc_model.specs.Network.{IsInRange, IsSound, IsOrder, Network};
ghost use Rattle.pc_net.specs.Networks.{events_from, events_to};
ghost use Rattle.pc_net.specs.inside.Networks.{network};
ghost use Rattle.pc_net.specs.Refusals.{IsNetError};
ghost use Rattle.pc_net.specs.Degrees.{AreDistinct, degrees};

use crate::cycle::first_cycle;
use crate::graph::Graph;
use crate::ordering::ordered;
use crate::refusal::{NetError, check};
use pc_model::{Arc, Indices, MAX_ACTIVITIES, MAX_EVENTS};
use std::alloc::Global;
use std::marker::Model;

/// A sound network, with an order of its events and the activities at each of them.
pub struct Net {
    graph: Graph,
    order: Vec<u32>,
}

impl Drop for Net {
    // Written by hand so that the proof of dropping a network is done once, here.
    fn drop(self) {
        let Net {
            graph: _graph,
            order: _order,
        } = self;
    }
}

impl Model for Net {
    ghost use Rattle.pc_model.specs.Network.{Network};

    ghost Value = { Network };

    ghost use Rattle.pc_net.specs.inside.Nets.{graph_of, IsOrdered};

    ghost view = { graph_of };

    ghost invariant = { IsOrdered };
}

impl Net {
    /// Builds the network of these activities between the events 0 to `events` - 1. Linear in events and activities.
    ///
    /// # Errors
    ///
    /// Returns the first cause of [`NetError`] that applies, or `NetError::OutOfMemory` if memory runs out.
    ///
    /// # Examples
    ///
    /// ```
    /// // A leads from event 0 to event 1, B from there to event 2, and C runs alongside both.
    /// let arcs = [
    ///     Arc { from: 0, to: 1 },
    ///     Arc { from: 1, to: 2 },
    ///     Arc { from: 0, to: 2 },
    /// ];
    /// let net = Net::build(alloc, 3, 0, 2, &arcs).ok()?;
    /// Some(net.order() == [0, 1, 2].as_slice())
    /// ```
    ///
    /// These are the lines of `pc_low_tests::examples::build_net`. A test sees that it returns `Some(true)`.
    pub fn build(
        alloc: Global,
        events: u32,
        start: u32,
        end: u32,
        arcs: &[Arc],
    ) -> Result<Net, NetError>
        requires few_events { events ≤ MAX_EVENTS }
        requires few_activities { length arcs.now ≤ MAX_ACTIVITIES }
        requires in_range { IsInRange (network events start end arcs.now) }
        ensures network { IfOk result (λ net. net ≡ network events start end arcs.now) }
        ensures sound { OnOk result (IsSound (network events start end arcs.now)) }
        ensures refused { IfErr result (IsNetError (network events start end arcs.now)) }
    {
        let graph = Graph::build(alloc, events, start, end, arcs)?;
        check(&graph)?;
        let order = ordered(alloc, &graph)?;
        if order.len() < events as usize {
            return match first_cycle(alloc, &graph)? {
                Some(cycle) => Err(NetError::Cycle(Indices::new(cycle))),
                None => unreachable!(),
            };
        }
        Ok(Net { graph, order })
    }

    /// Does nothing. States what holds of every network, for a proof that needs only that.
    pub fn facts(&self)
        ensures events { self.now.events ≤ MAX_EVENTS }
        ensures activities { length self.now.arcs ≤ MAX_ACTIVITIES }
        ensures sound { IsSound self.now }
        ensures in_range { IsInRange self.now }
        ensures ordered { (order : List ℕ) × IsOrder self.now order }
    {
        self.graph.facts();
    }

    /// Returns the number of events.
    pub fn events(&self) -> u32
        ensures events { result ≡ self.now.events }
        ensures limit { result ≤ MAX_EVENTS }
    {
        self.graph.events()
    }

    /// Returns the number of activities.
    pub fn activities(&self) -> u32
        ensures activities { result ≡ length self.now.arcs }
        ensures limit { result ≤ MAX_ACTIVITIES }
        ensures sound { IsSound self.now }
        ensures in_range { IsInRange self.now }
    {
        self.graph.activities()
    }

    /// Returns the event where the project starts.
    pub fn start(&self) -> u32
        ensures start { result ≡ self.now.start }
        ensures known { result < self.now.events }
    {
        self.graph.start()
    }

    /// Returns the event where the project ends.
    pub fn end(&self) -> u32
        ensures end { result ≡ self.now.end }
        ensures known { result < self.now.events }
    {
        self.graph.end()
    }

    /// Returns the event where the activity begins.
    pub fn from(&self, a: u32) -> u32
        requires { a < length self.now.arcs }
        ensures event { result ≡ from_of self.now.arcs a }
        ensures known { result < self.now.events }
    {
        self.graph.from(a)
    }

    /// Returns the event where the activity ends.
    pub fn to(&self, a: u32) -> u32
        requires { a < length self.now.arcs }
        ensures event { result ≡ to_of self.now.arcs a }
        ensures known { result < self.now.events }
    {
        self.graph.to(a)
    }

    /// Returns all events, the beginning of each activity before its end.
    pub fn order(&self) -> &[u32]
        ensures order { IsOrder self.now result.now }
        ensures sound { IsSound self.now }
        ensures in_range { IsInRange self.now }
    {
        &self.order
    }

    /// Returns the activities that begin at the event, in card order.
    pub fn out_arcs(&self, e: u32) -> &[u32]
        requires { e < self.now.events }
        ensures listed { IsListed (λ a. from_of self.now.arcs a ≡ e) (length self.now.arcs) result.now }
        ensures places { result.now ≡ places e 0 (events_from self.now.arcs) }
    {
        self.graph.out_arcs(e)
    }

    /// Returns the activities that end at the event, in card order.
    pub fn in_arcs(&self, e: u32) -> &[u32]
        requires { e < self.now.events }
        ensures listed { IsListed (λ a. to_of self.now.arcs a ≡ e) (length self.now.arcs) result.now }
        ensures places { result.now ≡ places e 0 (events_to self.now.arcs) }
    {
        self.graph.in_arcs(e)
    }
}

/// States that, over all events, each activity occurs once among those that begin there and once among those that end
/// there, and over distinct events at most once.
///
/// `degrees` adds up the lengths of [`crate::Net::out_arcs`] or [`crate::Net::in_arcs`].
pub fn each_activity_stands_once()
    ensures begin_at_most { (net : Network) (events : List ℕ) → AreDistinct events →
        degrees (events_from net.arcs) events ≤ length net.arcs }
    ensures end_at_most { (net : Network) (events : List ℕ) → AreDistinct events →
        degrees (events_to net.arcs) events ≤ length net.arcs }
    ensures begin { (net : Network) (order : List ℕ) → IsInRange net → IsOrder net order →
        degrees (events_from net.arcs) order ≡ length net.arcs }
    ensures end { (net : Network) (order : List ℕ) → IsInRange net → IsOrder net order →
        degrees (events_to net.arcs) order ≡ length net.arcs }
{}
