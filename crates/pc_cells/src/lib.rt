//! A region of memory: a fixed number of cells, allocated once. Spans of it are handed out one after the other and
//! returned in reverse order. Code that works in its spans allocates nothing.
#![tactic(auto)]

mod region;

pub use region::{Mark, Region, RegionFull, Span};
