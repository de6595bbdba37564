//! What a project says of one activity.

use pc_text::Code;

/// An activity, with the numbers of what its card names.
#[derive(Clone, Copy)]
pub struct Activity {
    pub code: Code,
    /// The number of the event where it begins.
    pub from: u32,
    /// The number of the event where it ends.
    pub to: u32,
    /// The number of its item in the work breakdown structure.
    pub item: u32,
    /// The expected time, in sixths of a day.
    pub expected: u64,
    /// The variance of that time, in thirty-sixths of a square day.
    pub variance: u64,
    /// The normal duration, in units.
    pub normal: u64,
    /// The crash duration, in units: the least that it may last.
    pub crash: u64,
    /// The cost at its normal duration.
    pub cost: u64,
    /// The cost of each unit by which it is shortened, before its pieces begin.
    pub slope: u64,
}

/// The three estimates of an activity's duration, in units.
#[derive(Clone, Copy)]
pub struct Estimates {
    pub optimistic: u64,
    pub likely: u64,
    pub pessimistic: u64,
}
