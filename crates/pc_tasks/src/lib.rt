//! Decks of tasks: which tasks come after which, and the plan of arrows that is generated from them.
#![tactic(auto)]

mod arrows;
mod card_faults;
mod circle;
mod codes;
mod draw;
pub mod laws;
mod links;
pub mod network;
mod phases;
mod tree;

pub use crate::arrows::{arrows_of, drawn_project};
pub use pc_deck::{AfterCard, TaskCard, TaskCards, read_tasks};
