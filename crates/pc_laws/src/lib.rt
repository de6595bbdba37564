//! The laws of the time-cost curve: why flows prove schedules cheapest, why a segment is right at every length between
//! its ends, and how a curve is followed from its longest length to its shortest.
//!
//! `specs/` has the definitions. Each public function does nothing: its contract is a law, proved once, and a caller
//! that calls it has the law as a fact.
#![tactic(auto)]

pub mod curve_laws;
pub mod flow_laws;
pub mod one_slope_laws;
pub mod segment_laws;
pub mod stair_laws;
pub mod state_laws;
pub mod whole_flow_laws;
