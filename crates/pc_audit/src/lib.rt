//! The top call of `pert_check`. It shares no code with the programs that make certificates: no crate below this one
//! belongs to the curve's solver.
#![tactic(auto)]

mod checking;
mod telling;

pub use crate::checking::check_run;
