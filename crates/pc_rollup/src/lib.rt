//! Sums by item: what the items of a work breakdown structure add up to, and the lines of a level.
#![tactic(auto)]

pub mod figures;
mod levels;
mod totals;

pub use levels::{LevelLine, each_leaf_has_one_line, level_lines};
pub use totals::{Placed, rollup, totals_of};
