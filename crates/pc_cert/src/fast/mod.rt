//! What is there for speed alone: most lines of a certificate occur again in the next segment.
//!
//! `front` compares the bytes at the front of a piece several at once. `known` holds what was last read of a row, so
//! that a line which says the same again is recognized before it is read, and a changed one is read at its place.

mod front;
mod known;

pub use front::WIDTH;
pub(crate) use front::{begin_same, begins};
pub use known::{KnownLine, LineText};
