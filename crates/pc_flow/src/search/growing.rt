//! Labels events along steps with residual capacity, from event to event.
ghost use Rattle.std.specs.Prelude.{◌≡◌, ◌+◌, ◌*◌, ◌<◌, ◌≤◌, ℕ, length};
ghost use Rattle.pc_model.specs.Greatest.{StandsBelow};
ghost use Rattle.pc_crash.specs.inside.Links.{activities_of};
ghost use Rattle.pc_flow.specs.board.Sheets.{rank_of};
ghost use Rattle.pc_flow.specs.inside.board.Labelling.{HaveRoom};
ghost use Rattle.pc_flow.specs.inside.search.Ways.{near_in, far_in, AreLinks};
ghost use Rattle.pc_flow.specs.inside.search.Searches.{IsSearch};
ghost use Rattle.pc_flow.specs.inside.search.Growing.{
  IsAt,
  degree,
  AreDueLater,
  AreSettled,
  GoesOn,
  HasSettled,
  HasGrown,
  IsAtLost,
  HasLookedAgain,
};
ghost use Rattle.pc_model.specs.Sums.{sum_to};
ghost use Rattle.pc_flow.specs.inside.board.Sheets.{lost_of};
ghost use Rattle.pc_flow.specs.inside.board.Raising.{StandFirst};

use crate::board::Board;
use crate::search::way::Way;
use pc_crash::{CrashNet, Link, Steps};
use pc_net::each_activity_stands_once;
use std::sync::ledger::Ledger;

impl Board {
    /// Visits all activities at an event with a label: along those that begin there, and against those that end there.
    /// At most one look for each.
    #[inline(always)]
    pub fn scan<L: Ledger>(&mut self, net: &CrashNet<'_>, e: u32, steps: &mut Steps<L>)
        requires known { e < net.now.network.events }
        requires labelled { 0 < rank_of self.old e }
        requires search { IsSearch net.now self.old }
        requires room { HaveRoom self.old }
        ensures counted { steps.new ≤ steps.old + degree net.now e }
        ensures goes_on { GoesOn net.now (IsAt net.now e) self.old self.new }
    {
        self.scan_links(net, e, net.out_links(e), Way::Along, steps);
        self.scan_links(net, e, net.in_links(e), Way::Against, steps);
    }

    // Visits these activities, at an event with a label, from there this way.
    #[inline(always)]
    fn scan_links<L: Ledger>(
        &mut self,
        net: &CrashNet<'_>,
        e: u32,
        links: &[Link],
        way: Way,
        steps: &mut Steps<L>,
    )
        requires links { AreLinks net.now (near_in net.now way) (far_in net.now way) e links.now }
        requires labelled { 0 < rank_of self.old e }
        requires search { IsSearch net.now self.old }
        requires room { HaveRoom self.old }
        ensures counted { steps.new ≤ steps.old + length links.now }
        ensures goes_on { GoesOn net.now
            (StandsBelow (activities_of links.now) (length links.now)) self.old self.new }
    {
        for link in links {
            self.visit_from(net, link.activity, e, link.other, way, steps);
        }
    }

    /// Visits the activities that wait and may stop now, and keeps those that still wait. At most one look for each.
    pub fn settle<L: Ledger>(&mut self, net: &CrashNet<'_>, steps: &mut Steps<L>)
        requires search { IsSearch net.now self.old }
        requires room { HaveRoom self.old }
        requires listed { AreDueLater net.now self.old }
        ensures counted { steps.new ≤ steps.old + self.old.len }
        ensures settled { HasSettled net.now self.old self.new }
    {
        for i in 0..self.len() {
            let a = self.waiting(i);
            if self.is_due(a) {
                self.visit(net, a, steps);
            }
        }
    }

    /// Scans events with a label until the end has one or none is left. At most two looks for each activity.
    pub fn grow<L: Ledger>(&mut self, net: &CrashNet<'_>, steps: &mut Steps<L>)
        requires search { IsSearch net.now self.old }
        requires room { HaveRoom self.old }
        requires settled { AreSettled net.now self.old }
        ensures counted { steps.new ≤ steps.old + 2 * length net.now.network.arcs }
        ensures grown { HasGrown net.now self.old self.new }
    {
        let end = net.net().end();
        while self.head() < self.count() && self.rank(end) == 0 {
            let e = self.next_to_scan();
            self.scan(net, e, steps);
        }
        each_activity_stands_once();
    }

    /// Visits the activities at an event without a label until it has one. At most one look for each.
    #[inline(always)]
    pub fn seek<L: Ledger>(&mut self, net: &CrashNet<'_>, e: u32, steps: &mut Steps<L>)
        requires known { e < net.now.network.events }
        requires unlabelled { rank_of self.old e ≡ 0 }
        requires search { IsSearch net.now self.old }
        requires room { HaveRoom self.old }
        ensures counted { steps.new ≤ steps.old + degree net.now e }
        ensures goes_on { GoesOn net.now (IsAt net.now e) self.old self.new }
    {
        self.seek_links(net, e, net.out_links(e), Way::Against, steps);
        if self.rank(e) == 0 {
            self.seek_links(net, e, net.in_links(e), Way::Along, steps);
        }
    }

    // Visits these activities, at an event without a label, to it this way, until it has one.
    #[inline(always)]
    fn seek_links<L: Ledger>(
        &mut self,
        net: &CrashNet<'_>,
        e: u32,
        links: &[Link],
        way: Way,
        steps: &mut Steps<L>,
    )
        requires links { AreLinks net.now (far_in net.now way) (near_in net.now way) e links.now }
        requires unlabelled { rank_of self.old e ≡ 0 }
        requires search { IsSearch net.now self.old }
        requires room { HaveRoom self.old }
        ensures counted { steps.new ≤ steps.old + length links.now }
        ensures goes_on { GoesOn net.now
            (StandsBelow (activities_of links.now) (length links.now)) self.old self.new }
    {
        for link in links {
            if self.visit_to(net, link.activity, link.other, e, way, steps) {
                return;
            }
        }
    }

    /// Removes, after an augmentation, the labels whose steps have no residual capacity, and seeks new ones for the
    /// events that lost theirs. If these are more than the others that were scanned, it scans the others again instead.
    /// The first labels that stay are not touched. At most two looks for each activity.
    pub fn look_again<L: Ledger>(&mut self, net: &CrashNet<'_>, standing: u32, steps: &mut Steps<L>)
        requires search { IsSearch net.now self.old }
        requires settled { AreSettled net.now self.old }
        requires stand { StandFirst self.old standing }
        ensures counted { steps.new ≤ steps.old + 2 * length net.now.network.arcs }
        ensures again { HasLookedAgain net.now self.old self.new }
    {
        each_activity_stands_once();
        let gone = self.prune(standing);
        if gone > self.head() {
            self.scan_anew();
        } else {
            self.seek_lost(net, gone, steps);
        }
    }

    // Seeks labels for the events that lost theirs.
    fn seek_lost<L: Ledger>(&mut self, net: &CrashNet<'_>, gone: u32, steps: &mut Steps<L>)
        requires search { IsSearch net.now self.old }
        requires room { HaveRoom self.old }
        requires few { gone ≤ self.old.events }
        requires known { (k : ℕ) → k < gone → lost_of self.old k < self.old.events }
        requires unlabelled { (k : ℕ) → k < gone → rank_of self.old (lost_of self.old k) ≡ 0 }
        ensures counted { steps.new ≤ steps.old + sum_to gone
            (λ k. degree net.now (lost_of self.old k)) }
        ensures goes_on { GoesOn net.now
            (IsAtLost net.now self.old gone) self.old self.new }
    {
        for i in 0..gone {
            let e = self.lost(i);
            // Only its own search gives an event its label, so none has one yet. The test spares the proof of that.
            if self.rank(e) == 0 {
                self.seek(net, e, steps);
            }
        }
    }
}
