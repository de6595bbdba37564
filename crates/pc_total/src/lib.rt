//! What a project costs in all for a length: its least direct cost and what its time costs; and the length for which
//! that is least. Nothing here takes memory.
#![tactic(auto)]

mod finding;
pub mod laws;
mod optimum;
mod report;
mod time;

pub use finding::best;
pub use optimum::Best;
pub use pc_model::TimeTerms;
pub use report::put_best;
pub use time::time_cost;
