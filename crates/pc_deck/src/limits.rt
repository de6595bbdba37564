//! How large a deck may be, how many cards one of version 1 may have if version 2 may have more, and how many a deck of
//! tasks may have. The other limits are next to those of projects.

/// How many bytes a deck may have, of either sort and version.
pub const DECK_LIMIT: usize = 67_108_864;

/// How many EVENT cards a deck of version 1 may have.
pub const SMALL_EVENTS: u32 = 5_000;

/// How many ACT cards a deck of version 1 may have.
pub const SMALL_ACTIVITIES: u32 = 10_000;

/// How many PIECE cards a deck of version 1 may have.
pub const SMALL_PIECES: u32 = 40_000;

/// How many CHARGE cards a deck of version 1 may have.
pub const SMALL_CHARGES: u32 = 200_000;

/// How many STATUS cards a deck of version 1 may have.
pub const SMALL_STATUSES: u32 = 20_000;

/// How many WBS cards a deck of tasks may have: one item is added to them.
pub const MAX_TASK_ITEMS: u32 = 9_999;

/// How many TASK cards a deck of tasks may have.
pub const MAX_TASKS: u32 = 4_000;

/// How many AFTER cards a deck of tasks may have.
pub const MAX_AFTERS: u32 = 8_000;
