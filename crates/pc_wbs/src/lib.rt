//! The tree of a work breakdown structure: items divided level by level, each below its parent.
#![tactic(auto)]

mod error;
mod levels;
mod loops;
mod order;
mod tree;

pub use error::TreeError;
pub use pc_model::Indices;
pub use tree::{ItemRow, Tree};
