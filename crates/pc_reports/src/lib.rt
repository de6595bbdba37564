//! The texts of the reports, line by line.
#![tactic(auto)]

mod check;
mod columns;
mod dates;
mod forecasts;
mod outlook_report;
mod outlook_rows;
mod report;
mod schedule;
mod summary_report;
mod summary_rows;
mod times;
mod times_report;
mod times_rows;
mod value_report;
mod value_rows;
mod view;

pub use outlook_report::OutlookReport;
pub use report::Report;
pub use schedule::{Schedule, put_plan, put_schedule, write_schedule};
pub use summary_report::SummaryReport;
pub use times::end_to_meet;
pub use times_report::{TimesReport, write_times, write_times_on};
pub use value_report::ValueReport;
pub use view::TimesView;
