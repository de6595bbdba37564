//! The records of a deck, one at a time: the rows of fields that `csv` reads from its bytes, and writes as bytes.
//!
//! A deck is a text of comma-separated values without a header, with records of any length, double quotes, and no
//! trimming. A byte order mark in front is dropped once. [`RowReader`] streams its records into one [`Row`] that is
//! used again for each, so that nothing is allocated per record. [`RowWriter`] writes records into one text.
//!
//! Cards are read from [`Fields`] and put into [`Records`], which say what these two offer without the types of `csv`.
#![tactic(auto)]

mod row;
mod rows;
mod writer;

pub use crate::row::{Fields, Row};
pub use crate::rows::RowReader;
pub use crate::writer::{Records, RowWriter};
