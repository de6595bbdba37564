//! The events with a label, and the steps that gave it to them.

ghost use Rattle.std.specs.Prelude.{◌≡◌, ◌+◌, ◌-◌, ◌<◌, ◌≤◌, ◌^◌, IsTrue, IsFalse};
ghost use Rattle.pc_flow.specs.board.Sheets.{rank_of, flow_of, kept_time, time_of};
ghost use Rattle.pc_flow.specs.inside.board.Sheets.{
  queue_of,
  step_of,
  against_of,
  near_of,
  room_of,
  lost_of,
  up_of,
  down_of,
};
ghost use Rattle.pc_flow.specs.inside.board.Moves.{
  KeepsAt,
  LosesAt,
  StepsBack,
  SetsStep,
  SetsRoom,
  SetsTime,
  SetsLengths,
  StartsAt,
  QueuesLast,
  EntersAt,
};

use crate::board::board::{Board, Column};

impl Board {
    /// Returns how many events have a label.
    pub fn count(&self) -> u32
        ensures { result ≡ self.now.count }
    {
        self.count
    }

    /// Returns how many events with a label have been scanned.
    pub fn head(&self) -> u32
        ensures { result ≡ self.now.head }
    {
        self.head
    }

    /// Returns an event's place in the queue, counted from 1, or 0 if it has no label.
    pub fn rank(&self, e: u32) -> u32
        requires { e < self.now.events }
        ensures { result ≡ rank_of self.now e }
    {
        self.number(Column::Rank, e)
    }

    /// Returns the event at a place of the queue.
    pub fn queued(&self, place: u32) -> u32
        requires { place < self.now.events }
        ensures { result ≡ queue_of self.now place }
    {
        self.number(Column::Queue, place)
    }

    /// Returns the time of an event.
    pub fn time(&self, e: u32) -> u64
        requires known { e < self.now.events }
        requires deep { rank_of self.now e ≡ 0 → self.now.fallen ≤ kept_time self.now e }
        ensures { result ≡ time_of self.now e }
    {
        let time = self.get(Column::Time, e);
        if self.rank(e) > 0 {
            time
        } else {
            time - self.fallen
        }
    }

    /// Returns the time of an event that has a label.
    pub fn resting_time(&self, e: u32) -> u64
        requires known { e < self.now.events }
        requires labelled { 0 < rank_of self.now e }
        ensures { result ≡ time_of self.now e }
    {
        self.get(Column::Time, e)
    }

    /// Returns the time of an event that has no label.
    pub fn falling_time(&self, e: u32) -> u64
        requires known { e < self.now.events }
        requires unlabelled { rank_of self.now e ≡ 0 }
        requires deep { self.now.fallen ≤ kept_time self.now e }
        ensures { result ≡ time_of self.now e }
    {
        self.get(Column::Time, e) - self.fallen
    }

    /// Returns the number that is stored for an event's time.
    pub fn kept_time(&self, e: u32) -> u64
        requires { e < self.now.events }
        ensures { result ≡ kept_time self.now e }
    {
        self.get(Column::Time, e)
    }

    /// Returns the event from which the step came that gave an event its label.
    pub fn near(&self, e: u32) -> u32
        requires { e < self.now.events }
        ensures { result ≡ near_of self.now e }
    {
        self.number(Column::Near, e)
    }

    /// Returns how much the flow of this step may still change at least.
    pub fn room(&self, e: u32) -> u64
        requires { e < self.now.events }
        ensures { result ≡ room_of self.now e }
    {
        self.get(Column::Room, e)
    }

    /// Returns whether the step that gave an event its label goes against its activity.
    pub fn is_against(&self, e: u32) -> bool
        requires { e < self.now.events }
        ensures against { IsTrue result → 0 < against_of self.now e }
        ensures along { IsFalse result → against_of self.now e ≡ 0 }
    {
        self.number(Column::Against, e) > 0
    }

    /// Sets how much the flow of this step may still change at least.
    pub fn set_room(&mut self, e: u32, room: u64)
        requires { e < self.old.events }
        ensures { SetsRoom self.old self.new e room }
    {
        self.set(Column::Room, e, room);
    }

    /// Returns an event that lost its label.
    pub fn lost(&self, place: u32) -> u32
        requires { place < self.now.events }
        ensures { result ≡ lost_of self.now place }
    {
        self.number(Column::Lost, place)
    }

    /// Returns the flow along an activity.
    pub fn flow(&self, a: u32) -> u64
        requires { a < self.now.activities }
        ensures { result ≡ flow_of self.now a }
    {
        self.get(Column::Flow, a)
    }

    /// Returns the length of the arc on which the next unit of an activity's flow runs.
    pub fn up(&self, a: u32) -> u64
        requires { a < self.now.activities }
        ensures { result ≡ up_of self.now a }
    {
        self.get(Column::Up, a)
    }

    /// Returns the length of the arc on which the last unit of an activity's flow runs.
    pub fn down(&self, a: u32) -> u64
        requires { a < self.now.activities }
        ensures { result ≡ down_of self.now a }
    {
        self.get(Column::Down, a)
    }

    /// Sets the lengths of the arcs on which the next unit of an activity's flow and its last one run.
    pub fn set_lengths(&mut self, a: u32, up: u64, down: u64)
        requires { a < self.old.activities }
        ensures { SetsLengths self.old self.new a up down }
    {
        self.set(Column::Up, a, up);
        self.set(Column::Down, a, down);
    }

    /// Returns the activity of the step that gave an event its label.
    pub fn step(&self, e: u32) -> u32
        requires { e < self.now.events }
        ensures { result ≡ step_of self.now e }
    {
        self.number(Column::Step, e)
    }

    /// Sets the number that is stored for an event's time.
    pub fn set_time(&mut self, e: u32, time: u64)
        requires { e < self.old.events }
        ensures { SetsTime self.old self.new e time }
    {
        self.set(Column::Time, e, time);
    }

    /// Gives the start its label, the first of all.
    pub fn start_at(&mut self, e: u32)
        requires { e < self.old.events }
        ensures { StartsAt self.old self.new e }
    {
        self.set(Column::Queue, 0, e as u64);
        self.set(Column::Rank, e, 1);
        self.count = 1;
    }

    /// Gives an event its label by a step.
    pub fn enter(&mut self, e: u32, a: u32, against: bool, near: u32, room: u64)
        requires known { e < self.old.events }
        requires room { self.old.count < self.old.events }
        requires deep { self.old.fallen ≤ kept_time self.old e }
        ensures { EntersAt self.old self.new e a against near room }
    {
        self.rest_at(e);
        self.queue_last(e);
        self.set_step(e, a, against, near, room);
    }

    // Takes the falls off the number that is stored for an event's time.
    fn rest_at(&mut self, e: u32)
        requires known { e < self.old.events }
        requires deep { self.old.fallen ≤ kept_time self.old e }
        ensures { SetsTime self.old self.new e (kept_time self.old e - self.old.fallen) }
    {
        let time = self.get(Column::Time, e);
        self.set(Column::Time, e, time - self.fallen);
    }

    // Puts an event at the end of the queue.
    fn queue_last(&mut self, e: u32)
        requires known { e < self.old.events }
        requires room { self.old.count < self.old.events }
        ensures { QueuesLast self.old self.new e }
    {
        self.set(Column::Queue, self.count, e as u64);
        self.count += 1;
        self.set(Column::Rank, e, self.count as u64);
    }

    // Sets the step that gives an event its label.
    fn set_step(&mut self, e: u32, a: u32, against: bool, near: u32, room: u64)
        requires { e < self.old.events }
        ensures { SetsStep self.old self.new e a against near room }
    {
        self.set(Column::Step, e, a as u64);
        self.set(Column::Against, e, against as u64);
        self.set(Column::Near, e, near as u64);
        self.set(Column::Room, e, room);
    }

    /// Counts one more event as scanned, and returns it.
    pub fn next_to_scan(&mut self) -> u32
        requires within { self.old.head < self.old.count }
        requires queue { self.old.count ≤ self.old.events }
        ensures next { result ≡ queue_of self.old self.old.head }
        ensures scanned { self.new ≡ record self.old { head = self.old.head + 1 } }
    {
        let e = self.queued(self.head);
        self.head += 1;
        e
    }

    /// Restarts the scanning at the first event.
    pub fn scan_anew(&mut self)
        ensures { self.new ≡ record self.old { head = 0 } }
    {
        self.head = 0;
    }

    /// Moves the events without a label to times earlier by this much.
    pub fn fall(&mut self, by: u64)
        requires { self.old.fallen + by < 2 ^ 64 }
        ensures { self.new ≡ record self.old { fallen = self.old.fallen + by } }
    {
        self.fallen += by;
    }

    // Gives an event with a label its place in the queue.
    pub(in crate::board) fn keep_at(&mut self, e: u32, place: u32)
        requires known { e < self.old.events }
        requires within { place < self.old.events }
        requires few { place + 1 < 2 ^ 32 }
        ensures { KeepsAt self.old self.new e place }
    {
        self.set(Column::Queue, place, e as u64);
        self.set(Column::Rank, e, place as u64 + 1);
    }

    // Takes an event's label off it.
    pub(in crate::board) fn lose_at(&mut self, e: u32, place: u32)
        requires known { e < self.old.events }
        requires within { place < self.old.events }
        requires fits { kept_time self.old e + self.old.fallen < 2 ^ 64 }
        ensures { LosesAt self.old self.new e place }
    {
        let time = self.get(Column::Time, e);
        self.set(Column::Time, e, time + self.fallen);
        self.set(Column::Rank, e, 0);
        self.set(Column::Lost, place, e as u64);
    }

    // Cuts the queue.
    pub(in crate::board) fn cut_queue(&mut self, count: u32, head: u32)
        ensures { self.new ≡ record self.old { count = count; head = head } }
    {
        self.count = count;
        self.head = head;
    }

    // Changes the flow of an event's step by `by`.
    pub(in crate::board) fn step_back(&mut self, e: u32, by: u64)
        requires known { e < self.old.events }
        requires step { step_of self.old e < self.old.activities }
        requires room { by ≤ room_of self.old e }
        requires along { against_of self.old e ≡ 0 → flow_of self.old (step_of self.old e) + by < 2 ^ 64 }
        requires against { 0 < against_of self.old e → by ≤ flow_of self.old (step_of self.old e) }
        ensures { StepsBack self.old self.new by e }
    {
        let room = self.room(e);
        self.set(Column::Room, e, room - by);
        let a = self.step(e);
        let flow = self.flow(a);
        if self.number(Column::Against, e) == 0 {
            self.set(Column::Flow, a, flow + by);
        } else {
            self.set(Column::Flow, a, flow - by);
        }
    }
}
