//! What a forecast says.
ghost use Rattle.std.specs.Prelude.{◌≡◌, ◌^◌, ◌<◌, length, slice_index};

use std::marker::Model;

/// The forecast: when each event is expected, and when each activity is expected to be finished.
#[derive(Drop)]
pub struct Forecast {
    pub(crate) times: Vec<u64>,
    pub(crate) finishes: Vec<u64>,
}

impl Model for Forecast {
    ghost use Rattle.std.specs.Prelude.{◌<◌, ◌^◌, ℕ, slice_index};
    ghost use Rattle.pc_times.specs.Forecast.{Expected};

    ghost Value = { Expected };

    ghost view = { λ forecast. record { times = forecast.times.items; finishes = forecast.finishes.items } };

    ghost invariant = { λ forecast. ((e : ℕ) → slice_index forecast.times.items e < 2 ^ 41)
        × ((a : ℕ) → slice_index forecast.finishes.items a < 2 ^ 41) };
}

impl Forecast {
    /// Returns when the event is expected, in sixths of a day.
    pub fn time(&self, e: u32) -> u64
        requires { e < length self.now.times }
        ensures time { result ≡ slice_index self.now.times e }
        ensures limit { result < 2 ^ 41 }
    {
        self.times[e as usize]
    }

    /// Returns when the activity is expected to be finished, in sixths of a day.
    pub fn finish(&self, a: u32) -> u64
        requires { a < length self.now.finishes }
        ensures finish { result ≡ slice_index self.now.finishes a }
        ensures limit { result < 2 ^ 41 }
    {
        self.finishes[a as usize]
    }
}
