//! What-if sessions: lines that edit a project, and lines that ask for the times and costs that follow.
#![tactic(auto)]

mod edits;
mod session;
mod top;
mod trials;

pub use crate::session::{Session, answers_are_one_text, edits_stand_in_order};
pub use crate::top::session_run;
