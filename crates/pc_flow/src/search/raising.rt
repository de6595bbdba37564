//! The flow raised where the labels reach the end.
ghost use Rattle.std.specs.Prelude.{◌<◌};
ghost use Rattle.pc_flow.specs.board.Sheets.{rank_of};
ghost use Rattle.pc_flow.specs.inside.board.Labelling.{HasStep, HaveRoom, IsFor, IsRankedBack, HaveSteps};
ghost use Rattle.pc_flow.specs.inside.board.Raising.{StandFirst};
ghost use Rattle.pc_flow.specs.inside.search.Searches.{IsOnStairs, IsSearch};
ghost use Rattle.pc_flow.specs.inside.search.Lengths.{AreLevelBack, IsRenewedBack};
ghost use Rattle.pc_flow.specs.inside.search.Rooms.{IsRoom, IsMeasured};
ghost use Rattle.pc_flow.specs.inside.search.Growing.{AreSettled};
ghost use Rattle.pc_flow.specs.inside.search.Labelling.{IsBetweenLabellings, IsAboveAllCrash, HasRaised};

use crate::board::{Augmentation, Board};
use crate::lengths::renew_step;
use crate::stair::{room_against, room_along};
use pc_crash::CrashNet;

impl Board {
    /// Augments the flow along the steps that led to the end, as far as they have residual capacity. It measures their
    /// residual capacities first, and then renews the stored lengths of their activities. No look.
    pub fn augment(&mut self, net: &CrashNet<'_>) -> Augmentation
        requires between { IsBetweenLabellings net.now self.old }
        requires above { IsAboveAllCrash net.now self.old }
        requires settled { AreSettled net.now self.old }
        requires reached { 0 < rank_of self.old net.now.network.end }
        ensures raised { HasRaised net.now self.old self.new result.by }
        ensures stand { StandFirst self.new result.standing }
    {
        net.facts();
        let shape = net.net();
        // With an order of the events, no activity has more flow than the value.
        shape.facts();
        let end = shape.end();
        self.measure_back(net, end);
        let raised = self.raise(end);
        self.renew_back(net, end);
        raised
    }

    // Measures the residual capacities of all steps that led to an event.
    fn measure_back(&mut self, net: &CrashNet<'_>, end: u32)
        requires known { end < self.old.events }
        requires search { IsSearch net.now self.old }
        requires room { HaveRoom self.old }
        ensures { IsMeasured net.now self.old self.new }
    {
        let mut e = end;
        while self.rank(e) > 1 {
            let room = self.room_of_step(net, e);
            self.set_room(e, room);
            e = self.near(e);
        }
    }

    // How many units more the step of an event can take.
    fn room_of_step(&self, net: &CrashNet<'_>, e: u32) -> u64
        requires known { e < self.now.events }
        requires has { HasStep self.now e }
        requires search { IsSearch net.now self.now }
        requires room { HaveRoom self.now }
        ensures { IsRoom net.now self.now e result }
    {
        let a = self.step(e);
        let list = net.knees(a);
        let knees = list.as_slice();
        let crash = net.term(a).crash;
        let flow = self.flow(a);
        if self.is_against(e) {
            room_against(knees, crash, flow)
        } else {
            room_along(knees, crash, flow)
        }
    }

    // Renews the lengths of the activities of all steps that led to an event.
    fn renew_back(&mut self, net: &CrashNet<'_>, end: u32)
        requires known { end < self.old.events }
        requires fits { IsFor net.now.network self.old }
        requires back { IsRankedBack self.old }
        requires steps { HaveSteps self.old }
        requires stairs { IsOnStairs net.now self.old }
        requires level { AreLevelBack net.now self.old self.old end }
        ensures { IsRenewedBack net.now self.old self.new end }
    {
        let mut e = end;
        while self.rank(e) > 1 {
            renew_step(self, net, e);
            e = self.near(e);
        }
    }
}
