//! Event times and the critical path: for given lengths of the activities the greatest sums of lengths over the
//! walks of a network, and the lengths that estimates give.
#![tactic(auto)]

mod estimate;
mod events;
mod expected;
mod forecasts;
mod found;
mod path;

pub use estimate::{expected_sixths, variance_36};
pub use events::{early, early_into, late, slack, so_long_before, tails_into};
pub use expected::Forecast;
pub use forecasts::{ActState, forecast};
pub use found::Longest;
pub use path::{critical_path, critical_path_into, longest};

/// The greatest length of an activity, in sixths of a day: 100,000 units of 7 days.
pub const MAX_ACTIVITY_LENGTH: u64 = 4_200_000;

/// The greatest time of an event, in sixths of a day: no walk has more than 10,000 activities, each of the greatest
/// length.
pub const MAX_TIME: u64 = 42_000_000_000;
