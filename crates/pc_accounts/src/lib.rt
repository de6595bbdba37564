//! Cost accounts: what each has spent, what is still to go and what its work is worth, and whether the budgets of
//! packages fit the costs of their work.
#![tactic(auto)]

mod book;
mod packages;
pub mod status;

pub use book::{AcctRow, Book, BookError, Entry, MoneyRow};
pub use packages::{Uneven, WorkRow, reconcile};
