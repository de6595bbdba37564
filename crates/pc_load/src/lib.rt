//! What a project spends and what it takes of its resources in each period: costs and quantities spread over the
//! expected times of activities, by item and by resource.
#![tactic(auto)]

mod entries;
mod loading;
mod rows;
mod spread;
mod table;
mod text;

pub use loading::{Loading, MAX_DAYS, NoLoad};
pub use spread::{Spread, part};
pub use table::{LoadRow, MAX_PERIODS, Table, item_table};
pub use text::{put_loading, write_load};
