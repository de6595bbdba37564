//! The project that a deck describes: its cards with every code looked up once.
//!
//! From here on events, activities and items are numbers, in card order from 0, and nothing is looked up again.
//! [`shell`] leads from a source to the project, and has what the top calls share.
#![tactic(auto)]

mod activity;
pub mod deck_text;
pub mod laws;
mod leaves;
mod lists;
mod named;
mod network;
mod numbers;
mod packages;
mod phases;
mod pieces;
mod placed;
mod project;
mod refers;
pub mod shell;
mod statuses;
mod togos;
mod tree;

pub use crate::activity::{Activity, Estimates};
pub use crate::deck_text::deck_text_of;
pub use crate::named::codes_at;
pub use crate::phases::project_of;
pub use crate::placed::{AfterRow, LoadItem, Placement};
pub use crate::project::{Counts, Project};
pub use crate::refers::{Refers, first_fault, first_of_further, look_up_all};
pub use crate::tree::tree_between;
pub use pc_model::PieceRow as Piece;
