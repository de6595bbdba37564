//! Days: the dates of a deck as day numbers, and their texts.
#![tactic(auto)]

mod day;

pub use day::{Day, DayError, date_of_sixths, day_text, days_between, read_day};
