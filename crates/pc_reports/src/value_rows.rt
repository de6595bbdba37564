//! The rows of the report of the value of work.
ghost use Rattle.std.specs.Prelude.{◌≡◌, ◌<◌, ◌≤◌, ◌^◌, length, unsigned_abs};
ghost use Rattle.pc_edges.specs.inside.page.Cells.{cell_text};
ghost use Rattle.pc_edges.specs.inside.page.Puts.{Puts};
ghost use Rattle.pc_times.specs.declared.TheConstants.{MAX_TIME};
ghost use Rattle.pc_reports.specs.Earned.{AreForecasts, IsEarned};
ghost use Rattle.pc_reports.specs.ValueText.{forecast_cells, forecast_row, slack_text, worth_cells, worth_row};

use crate::columns::{AMOUNT, CODE, LEVEL, TEXT, TIME};
use crate::forecasts::Forecasts;
use crate::value_report::ValueReport;
use pc_edges::Sink;
use pc_edges::page::{Cell, Fill, Page, Rows, put_row};
use pc_project::Project;
use pc_rollup::figures::WorthAmounts;
use pc_text::{Code, Title};
use pc_times::slack;

/// The columns of the events.
pub(crate) const FORECAST_COLUMNS: [Fill; 4] = [CODE, TIME, TIME, TEXT];

/// The words above them.
pub(crate) const FORECAST_WORDS: [&[u8]; 4] = [b"EVENT", b"FORECAST", b"FSLACK", b"DATE"];

/// The columns of the items.
pub(crate) const WORTH_COLUMNS: [Fill; 8] = [
    CODE, LEVEL, AMOUNT, AMOUNT, AMOUNT, AMOUNT, TIME, TEXT,
];

/// The words above them.
pub(crate) const WORTH_WORDS: [&[u8]; 8] = [
    b"ITEM", b"LV", b"BUDGET", b"ACTUAL", b"VALUE", b"OVERRUN", b"FSLACK", b"TITLE",
];

/// A row for each event.
#[derive(Clone, Copy)]
pub(crate) struct ForecastRows<'a> {
    pub(crate) project: &'a Project,
    pub(crate) forecasts: &'a Forecasts,
}

impl<'a> Rows for ForecastRows<'a> {
    ghost row_count = { λ t. length t.project.now.events };

    ghost row_text = { λ t. forecast_row t.project.now t.forecasts.now };

    ghost IsReady = { λ t. AreForecasts t.project.now t.forecasts.now };

    fn count(&self) -> usize {
        self.project.event_codes().len()
    }

    fn put<O: Sink>(&self, i: usize, page: &mut Page, sink: &mut O) {
        let code = &self.project.event_codes()[i];
        let e = i as u32;
        let (time, late) = (self.forecasts.time(e), self.forecasts.late(e));
        put_forecast(page, sink, code, time, late, self.forecasts.date(e));
    }
}

/// A row for each item, in preorder.
#[derive(Clone, Copy)]
pub(crate) struct WorthRows<'a> {
    pub(crate) project: &'a Project,
    pub(crate) report: &'a ValueReport,
}

impl<'a> Rows for WorthRows<'a> {
    ghost row_count = { λ t. length t.report.now.outline };

    ghost row_text = { λ t. worth_row t.project.now t.report.now };

    ghost IsReady = { λ t. IsEarned t.project.now t.report.now };

    fn count(&self) -> usize {
        self.report.items()
    }

    fn put<O: Sink>(&self, i: usize, page: &mut Page, sink: &mut O) {
        let row = self.report.row(i);
        let code = self.project.item_code(row.item);
        let amounts = self.report.worth().of_item(row.item);
        let slack = self.report.forecasts().slack(row.item);
        let title = self.project.item_title(row.item);
        put_worth(page, sink, &code, row.level, &amounts, slack, title);
    }
}

fn put_forecast<'r, O: Sink>(
    page: &mut Page,
    sink: &mut O,
    code: &'r Code,
    time: u64,
    late: i64,
    date: &'r [u8; 10],
)
    requires time { time < 2 ^ 40 }
    requires late { unsigned_abs late ≤ MAX_TIME }
    ensures { Puts O.taken O.faults page.old sink.old page.new sink.new (forecast_cells code.now time late date.now) }
{
    let cells = [
        Cell::Text(code.bytes()),
        Cell::Number(time),
        Cell::Signed(slack(late, time)),
        Cell::Text(date),
    ];
    put_row(page, sink, &FORECAST_COLUMNS, &cells);
}

fn put_worth<'r, O: Sink>(
    page: &mut Page,
    sink: &mut O,
    code: &'r Code,
    level: u32,
    amounts: &WorthAmounts,
    slack: Option<i64>,
    title: &'r Title,
)
    ensures { Puts O.taken O.faults page.old sink.old page.new sink.new
        (worth_cells code.now level amounts.now slack title.now) }
{
    let cells = [
        Cell::Text(code.bytes()),
        Cell::Number(level as u64),
        Cell::Signed(amounts.budget),
        Cell::Signed(amounts.actual),
        Cell::Signed(amounts.value),
        Cell::Signed(amounts.overrun),
        slack_cell(slack),
        Cell::Text(title.bytes()),
    ];
    put_row(page, sink, &WORTH_COLUMNS, &cells);
}

/// Returns the cell of an item's slack: a hyphen if it has none.
fn slack_cell(slack: Option<i64>) -> Cell<'static>
    ensures { cell_text result ≡ slack_text slack }
{
    match slack {
        Some(slack) => Cell::Signed(slack),
        None => Cell::Text(b"-"),
    }
}
