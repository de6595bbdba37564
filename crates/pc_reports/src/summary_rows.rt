//! The rows of the management summary.
ghost use Rattle.std.specs.Prelude.{length};
ghost use Rattle.pc_edges.specs.inside.page.Puts.{Puts};
ghost use Rattle.pc_reports.specs.SummaryText.{IsSummary, item_cells, item_row, level_cells, level_row};

use crate::columns::{AMOUNT, CODE, LEVEL, TEXT};
use pc_edges::Sink;
use pc_edges::page::{Cell, Fill, Page, Rows, put_row};
use pc_project::Project;
use pc_rollup::figures::{Summary, SummaryAmounts};
use pc_text::{Code, Title};

/// The columns of the items and of the levels, which have no title.
pub(crate) const COLUMNS: [Fill; 8] = [CODE, LEVEL, AMOUNT, AMOUNT, AMOUNT, AMOUNT, AMOUNT, TEXT];

/// The words above them.
pub(crate) const WORDS: [&[u8]; 8] = [
    b"ITEM", b"LV", b"BUDGET", b"ACTUAL", b"TO-GO", b"LATEST", b"OVERRUN", b"TITLE",
];

/// A row for each item, in preorder.
#[derive(Clone, Copy)]
pub(crate) struct ItemRows<'a> {
    pub(crate) project: &'a Project,
    pub(crate) summary: &'a Summary,
}

impl<'a> Rows for ItemRows<'a> {
    ghost row_count = { λ t. length t.summary.now.outline };

    ghost row_text = { λ t. item_row t.project.now t.summary.now };

    ghost IsReady = { λ t. IsSummary t.project.now t.summary.now };

    fn count(&self) -> usize {
        self.summary.items()
    }

    fn put<O: Sink>(&self, i: usize, page: &mut Page, sink: &mut O) {
        let row = self.summary.row(i);
        let code = self.project.item_code(row.item);
        let amounts = self.summary.of_item(row.item);
        let title = self.project.item_title(row.item);
        put_item(page, sink, &code, row.level, &amounts, title);
    }
}

/// A row for each level, from the first on.
#[derive(Clone, Copy)]
pub(crate) struct LevelRows<'a> {
    pub(crate) project: &'a Project,
    pub(crate) summary: &'a Summary,
}

impl<'a> Rows for LevelRows<'a> {
    ghost row_count = { λ t. length t.summary.now.budget.levels };

    ghost row_text = { λ t. level_row t.summary.now };

    ghost IsReady = { λ t. IsSummary t.project.now t.summary.now };

    fn count(&self) -> usize {
        self.summary.depth()
    }

    fn put<O: Sink>(&self, i: usize, page: &mut Page, sink: &mut O) {
        let amounts = self.summary.of_level(i);
        put_level(page, sink, i as u64 + 1, &amounts);
    }
}

fn put_item<'r, O: Sink>(
    page: &mut Page,
    sink: &mut O,
    code: &'r Code,
    level: u32,
    amounts: &SummaryAmounts,
    title: &'r Title,
)
    ensures { Puts O.taken O.faults page.old sink.old page.new sink.new
        (item_cells code.now level amounts.now title.now) }
{
    let cells = [
        Cell::Text(code.bytes()),
        Cell::Number(level as u64),
        Cell::Signed(amounts.budget),
        Cell::Signed(amounts.actual),
        Cell::Signed(amounts.to_go),
        Cell::Signed(amounts.latest),
        Cell::Signed(amounts.overrun),
        Cell::Text(title.bytes()),
    ];
    put_row(page, sink, &COLUMNS, &cells);
}

fn put_level<O: Sink>(page: &mut Page, sink: &mut O, level: u64, amounts: &SummaryAmounts)
    ensures { Puts O.taken O.faults page.old sink.old page.new sink.new (level_cells level amounts.now) }
{
    let cells = [
        Cell::Text(b"LEVEL"),
        Cell::Number(level),
        Cell::Signed(amounts.budget),
        Cell::Signed(amounts.actual),
        Cell::Signed(amounts.to_go),
        Cell::Signed(amounts.latest),
        Cell::Signed(amounts.overrun),
    ];
    put_row(page, sink, &COLUMNS, &cells);
}
