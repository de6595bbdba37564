//! Augments the flow along the steps that led to the end, and removes the labels whose steps have no residual capacity
//! left.
ghost use Rattle.std.specs.Prelude.{◌≡◌, ◌<◌, ℕ, ◌+◌, ◌≤◌, ◌↔◌, IsTrue};
ghost use Rattle.pc_flow.specs.inside.board.Labelling.{
  HasStep,
  IsRanked,
  IsRankedBack,
  HaveSteps,
  HaveRoom,
  AreStoredTimes,
};
ghost use Rattle.pc_flow.specs.inside.board.Raising.{IsLeast, IsRaised, StandFirst};
ghost use Rattle.pc_flow.specs.board.Sheets.{rank_of};
ghost use Rattle.pc_flow.specs.inside.board.Sheets.{room_of, near_of};
ghost use Rattle.pc_flow.specs.inside.board.Pruning.{IsPruned};

use crate::board::board::Board;

/// The result of an augmentation: by how much the flow was raised, and how many of the first labels in the queue stay
/// as they are, those before the first whose step has no residual capacity.
#[derive(Clone, Copy, Debug, PartialEq, Eq)]
pub struct Augmentation {
    pub by: u64,
    pub standing: u32,
}

impl Board {
    /// Augments the flow along the steps that led to an event, as far as all of them have residual capacity. It looks
    /// at the steps only, and at no activity.
    ///
    /// # Source
    ///
    /// Fulkerson 1961.
    pub fn raise(&mut self, end: u32) -> Augmentation
        requires ranked { IsRanked self.old }
        requires back { IsRankedBack self.old }
        requires steps { HaveSteps self.old }
        requires room { HaveRoom self.old }
        requires known { end < self.old.events }
        requires led { HasStep self.old end }
        ensures raised { IsRaised self.old self.new end result.by }
        ensures lengths { self.new ≡ record self.old { room = self.new.room; flow = self.new.flow } }
        ensures stand { StandFirst self.new result.standing }
    {
        let least = self.least_room(end);
        let by = least.by;
        let mut e = end;
        while self.rank(e) > 1 {
            self.step_back(e, by);
            e = self.near(e);
        }
        least
    }

    // The least room of the steps that led to an event, and how many labels come before the first step with that room.
    fn least_room(&self, end: u32) -> Augmentation
        requires ranked { IsRanked self.now }
        requires back { IsRankedBack self.now }
        requires known { end < self.now.events }
        requires led { HasStep self.now end }
        ensures { (k : ℕ) × IsLeast self.now end result.by result.standing k }
    {
        let mut by = u64::MAX;
        let mut standing = 0;
        let mut e = end;
        while self.rank(e) > 1 {
            let room = self.room(e);
            if room <= by {
                by = room;
                standing = self.rank(e) - 1;
            }
            e = self.near(e);
        }
        Augmentation { by, standing }
    }

    /// Removes the labels of those events whose step has no residual capacity or comes from an event that lost its
    /// label, and returns their number. The others keep theirs, in their order. One pass over the queue, after the
    /// first `standing` labels.
    pub fn prune(&mut self, standing: u32) -> u32
        requires ranked { IsRanked self.old }
        requires back { IsRankedBack self.old }
        requires times { AreStoredTimes self.old }
        requires stand { StandFirst self.old standing }
        ensures { IsPruned self.old self.new result }
    {
        let mut kept = standing;
        let mut gone = 0;
        let mut seen = self.head();
        for i in standing..self.count() {
            let e = self.queued(i);
            if self.is_held(e) {
                self.keep_at(e, kept);
                kept += 1;
            } else {
                self.lose_at(e, gone);
                gone += 1;
                seen = less_one_below(seen, i, self.head());
            }
        }
        self.cut_queue(kept, seen);
        gone
    }

    // Whether an event's step has residual capacity and comes from an event with a label.
    fn is_held(&self, e: u32) -> bool
        requires known { e < self.now.events }
        requires near { near_of self.now e < self.now.events }
        ensures { IsTrue result ↔ ((0 < room_of self.now e) × (0 < rank_of self.now (near_of self.now e))) }
    {
        self.room(e) > 0 && self.rank(self.near(e)) > 0
    }
}

// One less where the place was scanned.
fn less_one_below(seen: u32, place: u32, head: u32) -> u32
    requires { place < head → 0 < seen }
    ensures below { place < head → result + 1 ≡ seen }
    ensures beyond { head ≤ place → result ≡ seen }
{
    if place < head { seen - 1 } else { seen }
}
