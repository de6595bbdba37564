//! The breakpoints and the points of the time-cost curve of a network, read from a solver on its way down, and the text
//! of the breakpoints: the line of each is put as soon as it is known, so that no memory is taken for the list.
#![tactic(auto)]

pub mod bench;
mod breaks;
mod curve_text;
mod points;

pub use breaks::{Break, Breaks, breaks_make_the_list};
pub use curve_text::{put_curve, write_curve};
pub use points::{cost_at, point_at};
