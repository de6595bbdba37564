//! The top call of `pert`: words and bytes in, bytes and a status out; and `check_run`, the top call of `pert_check`.
#![tactic(auto)]

mod certify;
mod cheapest;
mod curve;
mod deliver;
mod fault_laws;
mod form_deck;
mod forms;
mod load;
mod migrate;
mod normal;
mod optimum;
mod outlook;
mod printed;
mod solving;
mod top;

pub use crate::fault_laws::one_fault;
pub use crate::top::run;
pub use pc_audit::check_run;
pub use pc_curve::bench::bench_deck;
