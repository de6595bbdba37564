//! The solver of the time-cost curve: one segment after another, from the all-normal length down to the all-crash
//! length (Kelley 1961, Fulkerson 1961), in one region of memory that the caller took before.
#![tactic(auto)]

pub mod board;
mod early;
mod lengths;
pub mod look_laws;
mod opening;
pub mod search;
mod solver;
pub mod stair;

pub use early::MAX_LENGTH;
pub use pc_crash::{CrashNet, SegmentView, Steps};
pub use solver::{Solver, cells_needed};
