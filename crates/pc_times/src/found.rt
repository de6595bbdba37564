//! What a search for the longest walk finds.
ghost use Rattle.std.specs.Prelude.{◌≡◌, ◌<◌, length, slice_index};

use std::marker::Model;

/// The length of a network for given lengths of its activities, its event times and its critical path.
#[derive(Drop)]
pub struct Longest {
    pub(crate) length: u64,
    pub(crate) times: Vec<u64>,
    pub(crate) path: Vec<u32>,
}

impl Model for Longest {
    ghost use Rattle.pc_times.specs.inside.Picked.{LongestWalk};

    ghost Value = { LongestWalk };

    ghost view = { λ found. record { length = found.length; times = found.times.items; path = found.path.items } };
}

impl Longest {
    /// Returns the sum of the lengths along the critical path.
    pub fn length(&self) -> u64
        ensures { result ≡ self.now.length }
    {
        self.length
    }

    /// Returns the time of an event: the greatest sum of lengths over the walks from the start to it.
    pub fn time(&self, e: u32) -> u64
        requires { e < length self.now.times }
        ensures { result ≡ slice_index self.now.times e }
    {
        self.times[e as usize]
    }

    /// Returns the times of all events, in card order.
    pub fn times(&self) -> &[u64]
        ensures { result.now ≡ self.now.times }
    {
        &self.times
    }

    /// Returns the activities of the critical path, from the start event to the end event.
    pub fn path(&self) -> &[u32]
        ensures { result.now ≡ self.now.path }
    {
        &self.path
    }
}
