//! The list of the activities that wait for a fall.

ghost use Rattle.std.specs.Prelude.{◌≡◌, ◌≢◌, ◌+◌, ◌<◌, ◌≤◌, ◌^◌, ◌↔◌, IsTrue};
ghost use Rattle.pc_flow.specs.inside.board.Sheets.{waiting_of, slot_of, due_of};
ghost use Rattle.pc_flow.specs.inside.board.Moves.{WaitsAt, GoesAt, WaitsOnce};

use crate::board::board::{Board, Column};

impl Board {
    /// Returns how many activities wait.
    pub fn len(&self) -> u32
        ensures { result ≡ self.now.len }
    {
        self.len
    }

    /// Returns the activity at a place of the list.
    pub fn waiting(&self, place: u32) -> u32
        requires { place < self.now.activities }
        ensures { result ≡ waiting_of self.now place }
    {
        self.number(Column::Waiting, place)
    }

    /// Adds an activity to the list, unless it is there already.
    pub fn wait(&mut self, a: u32)
        requires known { a < self.old.activities }
        requires room { slot_of self.old a ≡ 0 → self.old.len < self.old.activities }
        requires few { self.old.len + 1 < 2 ^ 32 }
        ensures stays { slot_of self.old a ≢ 0 → self.new ≡ self.old }
        ensures waits { slot_of self.old a ≡ 0 → WaitsOnce self.old self.new a }
    {
        if self.number(Column::Slot, a) == 0 {
            self.set(Column::Waiting, self.len, a as u64);
            self.set(Column::Slot, a, self.len as u64 + 1);
            self.len += 1;
        }
    }

    /// Puts an activity at a place of the list. It does not stop before the times have moved by `after` more units.
    pub fn wait_at(&mut self, a: u32, place: u32, after: u64)
        requires known { a < self.old.activities }
        requires within { place < self.old.activities }
        requires few { place + 1 < 2 ^ 32 }
        ensures { WaitsAt self.old self.new a place after }
    {
        self.set(Column::Waiting, place, a as u64);
        self.set(Column::Slot, a, place as u64 + 1);
        self.set(Column::Due, a, self.fallen.saturating_add(after));
    }

    /// Returns whether an activity on the list may stop now. If not, it does not stop before the times move.
    pub fn is_due(&self, a: u32) -> bool
        requires { a < self.now.activities }
        ensures { IsTrue result ↔ (due_of self.now a ≤ self.now.fallen) }
    {
        self.get(Column::Due, a) <= self.fallen
    }

    /// Removes an activity from the list.
    pub fn go(&mut self, a: u32)
        requires { a < self.old.activities }
        ensures { GoesAt self.old self.new a }
    {
        self.set(Column::Slot, a, 0);
    }

    /// Truncates the list.
    pub fn cut(&mut self, len: u32)
        ensures { self.new ≡ record self.old { len = len } }
    {
        self.len = len;
    }
}
