//! A complete labelling: the flow augmented until the labels cannot grow, and how far the events without one may fall.
ghost use Rattle.std.specs.Prelude.{◌≡◌, ◌+◌, ◌*◌, ◌<◌, ◌≤◌, length};
ghost use Rattle.pc_flow.specs.board.Sheets.{rank_of};
ghost use Rattle.pc_flow.specs.inside.search.Growing.{AreDueLater, AreSettled};
ghost use Rattle.pc_flow.specs.search.Labelling.{slopes_in};
ghost use Rattle.pc_flow.specs.inside.search.Labelling.{
  IsBetweenLabellings,
  IsAboveAllCrash,
  IsUnderWay,
  Rises,
  HasLabelled,
  slope_at,
};
ghost use Rattle.pc_flow.specs.inside.board.Labelling.{HaveRoom};
ghost use Rattle.pc_flow.specs.inside.search.Searches.{IsSearch, IsPricedBoard};
ghost use Rattle.pc_flow.specs.inside.search.Choosing.{IsStopOf, HasChosen};

use crate::board::Board;
use pc_crash::{CrashNet, Steps};
use std::sync::ledger::Ledger;

/// The result of a labelling: by how much the flow was raised, and by how much the events without a label can move.
#[derive(Clone, Copy, Debug, PartialEq, Eq)]
pub struct Labelling {
    pub rise: u64,
    pub fall: u64,
}

impl Board {
    /// Augments the flow until no steps with residual capacity lead to the end, and returns by how much, and by how
    /// much the events without a label can move then. At most four looks for each activity, and four more for each unit
    /// of the augmentation.
    ///
    /// # Source
    ///
    /// Fulkerson 1961.
    pub fn label<L: Ledger>(&mut self, net: &CrashNet<'_>, steps: &mut Steps<L>) -> Labelling
        requires between { IsBetweenLabellings net.now self.old }
        requires above { IsAboveAllCrash net.now self.old }
        requires listed { AreDueLater net.now self.old }
        ensures counted { steps.new ≤ steps.old + 4 * length net.now.network.arcs * (1 + result.rise) }
        ensures labelled { HasLabelled net.now self.old self.new result.rise result.fall }
    {
        // The network is priced, so that some activity stops before the length is 0.
        net.facts();
        self.settle(net, steps);
        self.grow(net, steps);
        let rise = self.raise_all(net, steps);
        let fall = self.choose(net, steps);
        Labelling { rise, fall }
    }

    // Raises the flow until the end has no label, and says by how much in all.
    fn raise_all<L: Ledger>(&mut self, net: &CrashNet<'_>, steps: &mut Steps<L>) -> u64
        requires under_way { IsUnderWay net.now self.old }
        ensures counted { steps.new ≤ steps.old + 4 * length net.now.network.arcs * result }
        ensures rises { Rises net.now self.old self.new result }
        ensures under_way { IsUnderWay net.now self.new }
        ensures unreached { rank_of self.new net.now.network.end ≡ 0 }
    {
        // No sum of last slopes is so great that the rises together do not fit.
        net.facts();
        let end = net.net().end();
        let mut rise = 0;
        while self.rank(end) > 0 {
            rise += self.raise_once(net, steps);
        }
        rise
    }

    // Raises the flow along the steps that led to the end, and labels events again. At most four looks for each
    // activity.
    fn raise_once<L: Ledger>(&mut self, net: &CrashNet<'_>, steps: &mut Steps<L>) -> u64
        requires under_way { IsUnderWay net.now self.old }
        requires reached { 0 < rank_of self.old net.now.network.end }
        ensures counted { steps.new ≤ steps.old + 4 * length net.now.network.arcs }
        ensures some { 0 < result }
        ensures rises { Rises net.now self.old self.new result }
        ensures under_way { IsUnderWay net.now self.new }
        ensures bounded { slope_at net.now self.new ≤ slopes_in net.now }
    {
        let raised = self.augment(net);
        self.look_again(net, raised.standing, steps);
        self.grow(net, steps);
        raised.by
    }

    /// Returns the least number of units after which an activity stops that labels may cross, and keeps for each such
    /// activity when it stops. The others leave the list. One look for each activity that waits.
    pub fn choose<L: Ledger>(&mut self, net: &CrashNet<'_>, steps: &mut Steps<L>) -> u64
        requires search { IsSearch net.now self.old }
        requires room { HaveRoom self.old }
        requires settled { AreSettled net.now self.old }
        requires scanned { self.old.head ≡ self.old.count }
        requires stuck { rank_of self.old net.now.network.end ≡ 0 }
        ensures counted { steps.new ≡ steps.old + self.old.len }
        ensures chosen { HasChosen net.now self.old self.new result }
    {
        let mut kept = 0;
        let mut least = u64::MAX;
        for i in 0..self.len() {
            let a = self.waiting(i);
            match self.stop_of(net, a, steps) {
                Some(after) => {
                    self.wait_at(a, kept, after);
                    kept += 1;
                    least = least.min(after);
                }
                None => self.go(a),
            }
        }
        self.cut(kept);
        least
    }

    // After how much of a fall an activity stops, if labels may cross it. One look.
    fn stop_of<L: Ledger>(&self, net: &CrashNet<'_>, a: u32, steps: &mut Steps<L>) -> Option<u64>
        requires known { a < length net.now.network.arcs }
        requires board { IsPricedBoard net.now self.now }
        ensures counted { steps.new ≡ steps.old + 1 }
        ensures stop { IsStopOf net.now self.now a result }
    {
        let look = net.look(a, steps);
        let way = self.way(net, a, &look)?;
        let (near, far) = way.ends(look.from, look.to);
        Some(self.stop(net, a, near, far, way))
    }
}
