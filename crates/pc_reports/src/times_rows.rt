//! The rows of the report of event times.
ghost use Rattle.std.specs.Prelude.{◌≡◌, ◌<◌, ◌^◌, length, unsigned_abs};
ghost use Rattle.pc_edges.specs.inside.page.Puts.{Puts};
ghost use Rattle.pc_reports.specs.TimesText.{
  event_table,
  event_cells,
  activity_table,
  activity_cells,
  activity_slack,
  critical_text,
};
ghost use Rattle.pc_reports.specs.inside.View.{IsShownOf, as_shown};

use crate::columns::{CODE, TEXT, TIME, VARIANCE};
use crate::dates::{DATE_LENGTH, date_text};
use crate::view::TimesView;
use pc_edges::Sink;
use pc_edges::page::{Cell, Fill, Page, put_code, put_head, put_number, put_row};
use pc_project::Project;
use pc_text::Code;
use pc_times::slack;

/// The columns of the events.
const EVENT_COLUMNS: [Fill; 5] = [CODE, TIME, TIME, TIME, TEXT];

/// The words above them.
const EVENT_WORDS: [&[u8]; 5] = [b"EVENT", b"TE", b"TL", b"SLACK", b"DATE"];

/// The columns of the activities.
const ACTIVITY_COLUMNS: [Fill; 4] = [CODE, TIME, VARIANCE, TIME];

/// The words above them.
const ACTIVITY_WORDS: [&[u8]; 4] = [b"ACTIVITY", b"EXPECTED", b"VARIANCE", b"SLACK"];

/// Puts a row for each event, in card order.
pub(crate) fn put_events<O: Sink, V: TimesView>(
    page: &mut Page,
    sink: &mut O,
    project: &Project,
    view: &V,
)
    requires { IsShownOf project.now (V.shown view.now) }
    ensures { Puts O.taken O.faults page.old sink.old page.new sink.new
        (event_table (as_shown project.now (V.shown view.now)) (V.shown view.now).times) }
{
    let start = project.start_day();
    put_head(page, sink, &EVENT_COLUMNS, &EVENT_WORDS);
    for (e, code) in project.event_codes().iter().enumerate() {
        let early = view.early(e as u32);
        let late = view.late(e as u32);
        put_event(page, sink, code, early, late, &date_text(start, early));
    }
}

/// Puts a row for each activity, in card order.
pub(crate) fn put_activities<O: Sink, V: TimesView>(
    page: &mut Page,
    sink: &mut O,
    project: &Project,
    view: &V,
)
    requires { IsShownOf project.now (V.shown view.now) }
    ensures { Puts O.taken O.faults page.old sink.old page.new sink.new
        (activity_table (as_shown project.now (V.shown view.now)) (V.shown view.now).times) }
{
    put_head(page, sink, &ACTIVITY_COLUMNS, &ACTIVITY_WORDS);
    for (i, code) in project.activity_codes().iter().enumerate() {
        let a = i as u32;
        let slack = activity_slack(project, view, a);
        put_activity(page, sink, code, view.expected(a), view.variance(a), slack);
    }
}

/// Puts a line for each activity of the critical path, and the sum of their variances, in thirty-sixths of a square
/// day.
pub(crate) fn put_path<O: Sink, V: TimesView>(
    page: &mut Page,
    sink: &mut O,
    project: &Project,
    view: &V,
)
    requires { IsShownOf project.now (V.shown view.now) }
    ensures { Puts O.taken O.faults page.old sink.old page.new sink.new
        (critical_text (as_shown project.now (V.shown view.now)) (V.shown view.now).times) }
{
    let codes = project.activity_codes();
    let mut k = 0;
    let mut variance = 0;
    while let Some(a) = view.on_path(k) {
        put_code(page, sink, b"CRITICAL ", &codes[a as usize]);
        variance += view.variance(a);
        k += 1;
    }
    put_number(page, sink, b"VARIANCE ", variance);
}

fn put_event<'r, O: Sink>(
    page: &mut Page,
    sink: &mut O,
    code: &'r Code,
    early: u64,
    late: i64,
    date: &'r [u8; DATE_LENGTH],
)
    requires early { early < 2 ^ 40 }
    requires late { unsigned_abs late < 2 ^ 40 }
    ensures { Puts O.taken O.faults page.old sink.old page.new sink.new (event_cells code.now early late date.now) }
{
    let cells = [
        Cell::Text(code.bytes()),
        Cell::Number(early),
        Cell::Signed(late),
        Cell::Signed(slack(late, early)),
        Cell::Text(date),
    ];
    put_row(page, sink, &EVENT_COLUMNS, &cells);
}

fn put_activity<O: Sink>(
    page: &mut Page,
    sink: &mut O,
    code: &Code,
    expected: u64,
    variance: u64,
    slack: i64,
)
    ensures { Puts O.taken O.faults page.old sink.old page.new sink.new
        (activity_cells code.now expected variance slack) }
{
    let cells = [
        Cell::Text(code.bytes()),
        Cell::Number(expected),
        Cell::Number(variance),
        Cell::Signed(slack),
    ];
    put_row(page, sink, &ACTIVITY_COLUMNS, &cells);
}

/// Returns the slack of an activity in sixths of a day: the time between its events, less its expected time.
fn activity_slack<V: TimesView>(project: &Project, view: &V, a: u32) -> i64
    requires view { IsShownOf project.now (V.shown view.now) }
    requires known { a < length project.now.network.arcs }
    ensures { result ≡ activity_slack (as_shown project.now (V.shown view.now)) (V.shown view.now).times a }
{
    let net = project.net();
    let between = slack(view.late(net.to(a)), view.early(net.from(a)));
    slack(between, view.expected(a))
}
