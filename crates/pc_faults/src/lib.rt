//! The faults with which a deck is refused, and the line that reports each.
//!
//! A fault has a number, the record at which it occurs, and a detail. [`Fault::new`] makes one where it is found, and
//! [`fault_line`] returns the line. [`earliest`] returns the earlier of two faults. The crates above define which
//! faults a deck has.
#![tactic(auto)]

mod fault;
mod kind;
mod target;
mod tell;
mod words;

pub use crate::fault::{
    DeckError, Detail, Fault, NOT_UTF8, StatusFault, TOO_LONG, earlier_of, earliest,
};
pub use crate::kind::Kind;
pub use crate::target::Target;
pub use crate::tell::fault_line;
