//! The benchmark: a deck that is the same on every machine, and the figures of its time-cost curve.

mod deck;
mod figures;
mod report;

pub use deck::{MOST_ACTIVITIES, bench_deck};
pub use figures::{CurveFigures, figures_of};
pub use report::put_bench;
