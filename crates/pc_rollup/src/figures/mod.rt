//! The figures of the reports by item and by level: what the accounts add up to, what the work is worth, and how long
//! it can wait.

mod outline;
mod outlook;
mod slacks;
mod summary;
mod worth;

pub use outline::{OutlineRow, outline_of};
pub use outlook::{Outlook, OutlookAmounts};
pub use slacks::least_slacks;
pub use summary::{Summary, SummaryAmounts, each_charge_counts_once};
pub use worth::{Worth, WorthAmounts};
