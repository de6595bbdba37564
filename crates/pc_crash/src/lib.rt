//! Activities that can be shortened at a price: what durations cost, which are a schedule, and the knees where the
//! price of a unit rises.
#![tactic(auto)]

mod crash_net;
mod knee_list;
mod link_table;
mod net_codes;
mod pieces;
mod price_table;
mod segment_view;
mod steps;

pub use crash_net::{CrashNet, Look, MAX_ACTIVITY_COST, MAX_PROJECT_COST};
pub use knee_list::{KneeList, Knees};
pub use link_table::Link;
pub use net_codes::NetCodes;
pub use pc_model::{Knee, PieceRow, Term};
pub use pieces::cost_of_one;
pub use segment_view::SegmentView;
pub use steps::Steps;
