//! What is there for speed alone: most lines of a certificate occur again in the next segment.
//!
//! `act_rows` and `event_rows` take several lines after one another, at the front of a piece, without reading them as
//! lines. They take only lines that cannot fail, so that all that the checker says of a line is in `advancing`.

mod act_rows;
mod event_rows;
mod fronts;
mod passed;

pub(crate) use act_rows::advance_acts;
pub(crate) use event_rows::advance_events;
pub(crate) use fronts::fronts_of;
pub(crate) use passed::{Passed, none_passed, passed_of};
