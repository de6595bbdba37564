//! Looks at an activity, and labels the event at its far end if its step has residual capacity.
ghost use Rattle.std.specs.Prelude.{◌≡◌, ◌+◌, ◌<◌, ◌≤◌, ◌↔◌, IsTrue, length};
ghost use Rattle.pc_crash.specs.inside.Looks.{IsLookAt};
ghost use Rattle.pc_model.specs.Network.{IsInRange};
ghost use Rattle.pc_flow.specs.board.Sheets.{rank_of};
ghost use Rattle.pc_flow.specs.inside.board.Labelling.{HaveRoom, IsFor};
ghost use Rattle.pc_flow.specs.inside.search.Ways.{near_in, far_in, CanFlow};
ghost use Rattle.pc_flow.specs.inside.search.Searches.{IsSearch, IsPricedBoard, IsWay, StopsAfterFall, IsVisited};

use crate::board::Board;
use crate::search::way::Way;
use pc_crash::{CrashNet, Look, Steps};
use std::sync::ledger::Ledger;

impl Board {
    /// Returns which way labels may cross an activity: along it from where it begins, or, if something flows, against
    /// it from where it ends.
    pub fn way(&self, net: &CrashNet<'_>, a: u32, look: &Look) -> Option<Way>
        requires known { a < length net.now.network.arcs }
        requires look { IsLookAt net.now a look.now }
        requires in_range { IsInRange net.now.network }
        requires fits { IsFor net.now.network self.now }
        ensures { IsWay net.now self.now a result }
    {
        let from = self.rank(look.from) > 0;
        let to = self.rank(look.to) > 0;
        if from {
            if to { None } else { Some(Way::Along) }
        } else if to && self.flow(a) > 0 {
            Some(Way::Against)
        } else {
            None
        }
    }

    /// Returns after how long a step of the times an activity stops that labels may cross this way, from the event
    /// `near` to the event `far`.
    #[inline(always)]
    pub fn stop(&self, net: &CrashNet<'_>, a: u32, near: u32, far: u32, way: Way) -> u64
        requires known { a < length net.now.network.arcs }
        requires near { near_in net.now way a ≡ near }
        requires far { far_in net.now way a ≡ far }
        requires board { IsPricedBoard net.now self.now }
        requires way { IsWay net.now self.now a (Some way) }
        ensures { StopsAfterFall net.now self.now a way result }
    {
        match way {
            Way::Along => self.falling_time(far) - self.resting_time(near) - self.up(a),
            Way::Against => self.down(a) - (self.resting_time(near) - self.falling_time(far)),
        }
    }

    /// Labels the far event of an activity if its step has residual capacity, and otherwise lets the activity wait for
    /// a step of the times. One look.
    #[inline(always)]
    pub fn visit<L: Ledger>(&mut self, net: &CrashNet<'_>, a: u32, steps: &mut Steps<L>)
        requires known { a < length net.now.network.arcs }
        requires search { IsSearch net.now self.old }
        requires room { HaveRoom self.old }
        ensures counted { steps.new ≡ steps.old + 1 }
        ensures visited { IsVisited net.now self.old self.new a }
    {
        let look = net.look(a, steps);
        let way = match self.way(net, a, &look) {
            Some(way) => way,
            None => return,
        };
        let (near, far) = way.ends(look.from, look.to);
        self.cross(net, a, near, far, way);
    }

    /// Visits an activity from an event with a label: this way, if its other end has none and more can flow. One look.
    ///
    /// This and the next call get the events at both ends, so that the rank of the other end alone says of most
    /// activities that labels may not cross. They use nothing that the look returns, so that a compiler leaves out
    /// reading the activity's row.
    #[inline(always)]
    pub fn visit_from<L: Ledger>(
        &mut self,
        net: &CrashNet<'_>,
        a: u32,
        near: u32,
        far: u32,
        way: Way,
        steps: &mut Steps<L>,
    )
        requires known { a < length net.now.network.arcs }
        requires near { near_in net.now way a ≡ near }
        requires far { far_in net.now way a ≡ far }
        requires labelled { 0 < rank_of self.old near }
        requires search { IsSearch net.now self.old }
        requires room { HaveRoom self.old }
        ensures counted { steps.new ≤ steps.old + 1 }
        ensures visited { IsVisited net.now self.old self.new a }
    {
        net.look(a, steps);
        if self.rank(far) == 0 && self.can_flow(a, way) {
            self.cross(net, a, near, far, way);
        }
    }

    /// Visits an activity to an event without a label: this way, if its other end has one and more can flow. Returns
    /// whether the event has a label then. One look.
    #[inline(always)]
    pub fn visit_to<L: Ledger>(
        &mut self,
        net: &CrashNet<'_>,
        a: u32,
        near: u32,
        far: u32,
        way: Way,
        steps: &mut Steps<L>,
    ) -> bool
        requires known { a < length net.now.network.arcs }
        requires near { near_in net.now way a ≡ near }
        requires far { far_in net.now way a ≡ far }
        requires unlabelled { rank_of self.old far ≡ 0 }
        requires search { IsSearch net.now self.old }
        requires room { HaveRoom self.old }
        ensures counted { steps.new ≤ steps.old + 1 }
        ensures labelled { IsTrue result ↔ (0 < rank_of self.new far) }
        ensures visited { IsVisited net.now self.old self.new a }
    {
        net.look(a, steps);
        if self.rank(near) == 0 || !self.can_flow(a, way) {
            return false;
        }
        self.cross(net, a, near, far, way);
        self.rank(far) > 0
    }

    // Whether more can flow this way: along an activity always, and against it if something flows there.
    #[inline(always)]
    fn can_flow(&self, a: u32, way: Way) -> bool
        requires { a < self.now.activities }
        ensures { IsTrue result ↔ CanFlow self.now way a }
    {
        match way {
            Way::Along => true,
            Way::Against => self.flow(a) > 0,
        }
    }

    // Labels the event to which a step leads that labels may take, or has its activity wait that stops only after a
    // fall.
    //
    // It becomes part of the loops that call it, where the direction is known.
    #[inline(always)]
    fn cross(&mut self, net: &CrashNet<'_>, a: u32, near: u32, far: u32, way: Way)
        requires known { a < length net.now.network.arcs }
        requires near { near_in net.now way a ≡ near }
        requires far { far_in net.now way a ≡ far }
        requires search { IsSearch net.now self.old }
        requires room { HaveRoom self.old }
        requires way { IsWay net.now self.old a (Some way) }
        ensures { IsVisited net.now self.old self.new a }
    {
        let after = self.stop(net, a, near, far, way);
        if after > 0 {
            self.wait(a);
            return;
        }
        // One unit more fits. How many do is measured once the flow is raised here.
        self.enter(far, a, way.is_against(), near, 1);
    }
}
