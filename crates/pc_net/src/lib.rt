//! The network of a project: its activities between events, found sound or refused, with an order of the events
//! and the activities at each event.
#![tactic(auto)]

mod components;
mod cycle;
mod graph;
mod listing;
mod network;
mod ordering;
mod refusal;

pub use network::{Net, each_activity_stands_once};
pub use pc_model::{Arc, Indices};
pub use refusal::NetError;
