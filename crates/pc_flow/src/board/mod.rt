//! The board on which the events of a network are labelled: the data of each event and of each activity during the
//! search for a flow, in one region of memory. It allocates nothing.
//!
//! Labels are given from the start on, each by a step along or against an activity from an event that has one. If the
//! end has a label, the flow is augmented along the steps that led there; then the labels whose steps have no residual
//! capacity left are removed, and with them those that came from there.

mod board;
mod labels;
mod raising;
mod waiting;

pub use board::Board;
pub use raising::Augmentation;
