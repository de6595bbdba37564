//! The vocabulary of the planning problem: activities as plain data, the limits of a project, and the definitions of
//! walks, lengths, schedules and costs that every contract above cites. `specs/` has the definitions; their laws are
//! the contracts of the public functions, and the lemmas in `proofs/`.
#![tactic(auto)]

ghost use Rattle.std.specs.Prelude.{◌≡◌};

mod limits;
pub mod schedule_laws;

pub use limits::{
    MAX_ACCOUNTS, MAX_ACTIVITIES, MAX_CHARGES, MAX_COST, MAX_DIRECTED, MAX_DURATION, MAX_EVENTS,
    MAX_ITEMS, MAX_LEVEL, MAX_LOADS, MAX_PIECES, MAX_PIECES_EACH, MAX_RESOURCES, MAX_SLOPE,
    MAX_STATUSES, MAX_TERMS, MAX_TOGOS, MAX_UNIT_DAYS, MAX_VARIANCE,
};
use std::marker::Model;

/// Where an activity is in the network: the events where it begins and ends, numbered from 0 in card order.
#[derive(Clone, Copy)]
pub struct Arc {
    pub from: u32,
    pub to: u32,
}

/// What the duration of an activity may be, in units, and what it costs.
///
/// The activity costs `cost` at its normal duration and `slope` more for each unit that it is shorter. If its cost has
/// further pieces, `slope` applies to the first of these units only.
#[derive(Clone, Copy, Debug, PartialEq, Eq)]
pub struct Term {
    pub normal: u64,
    pub crash: u64,
    pub cost: u64,
    pub slope: u64,
}

/// A further piece of an activity's cost: a number of units of its duration, and the cost of each of them.
///
/// The pieces of an activity follow one another in order, below the units to which its own slope applies, down to its
/// crash duration.
#[derive(Clone, Copy, Default)]
pub struct PieceRow {
    pub activity: u32,
    pub units: u64,
    pub slope: u64,
}

/// A knee of an activity's cost: a duration, in units, and how much more a unit costs below it than above it.
#[derive(Clone, Copy, Debug, PartialEq, Eq)]
pub struct Knee {
    pub at: u64,
    pub rise: u64,
}

/// What time costs: amounts of money per unit of the project's length, and per unit that the end is before or after the
/// target.
///
/// A project of length L costs `overhead` · L for its time, plus `penalty` for each unit that L is above the target, or
/// minus `bonus` for each unit that it is below. Each number is at most `MAX_TERMS`, and the bonus is at most the
/// penalty.
#[derive(Clone, Copy)]
pub struct TimeTerms {
    pub overhead: u64,
    /// The greatest length, in units, that is not late.
    pub target: u64,
    /// What each unit before the target brings.
    pub bonus: u64,
    /// What each unit after the target costs.
    pub penalty: u64,
}

/// A list of activities or of items, each given by its number.
#[derive(Debug, Drop)]
pub struct Indices {
    items: Vec<u32>,
}

impl Model for Indices {
    ghost use Rattle.std.specs.Prelude.{ℕ, List};

    ghost Value = { List ℕ };

    ghost view = { λ indices. indices.items.items };
}

impl Indices {
    /// Returns the list of these numbers.
    pub fn new(items: Vec<u32>) -> Indices
        ensures { result ≡ items.items }
    {
        Indices { items }
    }

    /// Returns the numbers, in order.
    pub fn as_slice(&self) -> &[u32]
        ensures { result.now ≡ self.now }
    {
        &self.items
    }
}
