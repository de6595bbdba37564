//! Codes, no two of them the same, each found by its bytes.
//!
//! The codes are looked up in an [`IndexSet`](indexmap::IndexSet) whose hash has a key. Whoever does not know the key
//! cannot choose codes that crowd one slot of the table. The key changes how long a call takes, never what it returns.
#![tactic(auto)]

mod hash;
mod names;

pub use hash::key_of_bytes;
pub use names::Names;
