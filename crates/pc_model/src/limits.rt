//! How large a project may be. Other crates cite these numbers by name.

/// The greatest number of events of a project.
pub const MAX_EVENTS: u32 = 10_000;

/// The greatest number of activities of a project.
pub const MAX_ACTIVITIES: u32 = 20_000;

/// The greatest number of items of a work breakdown structure.
pub const MAX_ITEMS: u32 = 10_000;

/// The greatest number of cost accounts of a project.
pub const MAX_ACCOUNTS: u32 = 10_000;

/// The greatest number of charges of a project.
pub const MAX_CHARGES: u32 = 500_000;

/// The greatest number of amounts to go of a project.
pub const MAX_TOGOS: u32 = 100_000;

/// The greatest number of status cards of a project.
pub const MAX_STATUSES: u32 = 40_000;

/// The greatest number of resources of a project.
pub const MAX_RESOURCES: u32 = 1_000;

/// The greatest number of loads that activities put on resources.
pub const MAX_LOADS: u32 = 40_000;

/// The greatest number of levels of a work breakdown structure.
pub const MAX_LEVEL: u32 = 16;

/// The greatest number of pieces, besides the first slopes, of all costs of a project.
pub const MAX_PIECES: u32 = 80_000;

/// The greatest number of pieces, besides the first slope, of the cost of one activity.
pub const MAX_PIECES_EACH: usize = 4;

/// The greatest estimate or duration of an activity, in units.
pub const MAX_DURATION: u64 = 100_000;

/// The greatest number of days in a unit of time.
pub const MAX_UNIT_DAYS: u64 = 7;

/// The greatest directed length of a project, in days.
pub const MAX_DIRECTED: u64 = 1_000_000;

/// The greatest variance of an activity's duration, in thirty-sixths of a square day: that of estimates from 0 to
/// `MAX_DURATION`, in units of `MAX_UNIT_DAYS` days.
pub const MAX_VARIANCE: u64 = 490_000_000_000;

/// The greatest cost of an activity at its normal duration, and the greatest amount of money on a card.
pub const MAX_COST: u64 = 1_000_000_000_000;

/// The greatest overhead, target, bonus and penalty of a project.
pub const MAX_TERMS: u64 = 1_000_000_000;

/// The greatest cost of one unit saved of an activity.
pub const MAX_SLOPE: u64 = 100_000_000;
