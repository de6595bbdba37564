//! What is there for speed alone: most lines of a certificate occur again in the next segment.
//!
//! `last_lines` keeps the text of each line as it was put last, and `gathered` gives the page many lines as one piece.

mod gathered;
mod last_lines;
mod spelling;

pub(crate) use gathered::Gathered;
pub use last_lines::{ActRow, EventRow, LastLines};
