//! The rows of the outlook.
ghost use Rattle.std.specs.Prelude.{length};
ghost use Rattle.pc_edges.specs.inside.page.Puts.{Puts};
ghost use Rattle.pc_reports.specs.OutlookText.{outlook_cells, outlook_row};
ghost use Rattle.pc_reports.specs.inside.OutlookText.{IsOutlookFor};

use crate::columns::{AMOUNT, CODE, LEVEL, TEXT};
use pc_edges::Sink;
use pc_edges::page::{Cell, Fill, Page, Rows, put_row};
use pc_project::Project;
use pc_rollup::figures::{Outlook, OutlookAmounts};
use pc_text::{Code, Title};

/// The columns of the items.
pub(crate) const COLUMNS: [Fill; 6] = [CODE, LEVEL, AMOUNT, AMOUNT, AMOUNT, TEXT];

/// The words above them.
pub(crate) const WORDS: [&[u8]; 6] = [b"ITEM", b"LV", b"BUDGET", b"OUTLOOK", b"CHANGE", b"TITLE"];

/// A row for each item, in preorder.
#[derive(Clone, Copy)]
pub(crate) struct OutlookRows<'a> {
    pub(crate) project: &'a Project,
    pub(crate) outlook: &'a Outlook,
}

impl<'a> Rows for OutlookRows<'a> {
    ghost row_count = { λ t. length t.outlook.now.outline };

    ghost row_text = { λ t. outlook_row t.project.now t.outlook.now };

    ghost IsReady = { λ t. IsOutlookFor t.project.now t.outlook.now };

    fn count(&self) -> usize {
        self.outlook.items()
    }

    fn put<O: Sink>(&self, i: usize, page: &mut Page, sink: &mut O) {
        let row = self.outlook.row(i);
        let code = self.project.item_code(row.item);
        let amounts = self.outlook.of_item(row.item);
        let title = self.project.item_title(row.item);
        put_amounts(page, sink, &code, row.level, &amounts, title);
    }
}

fn put_amounts<'r, O: Sink>(
    page: &mut Page,
    sink: &mut O,
    code: &'r Code,
    level: u32,
    amounts: &OutlookAmounts,
    title: &'r Title,
)
    ensures { Puts O.taken O.faults page.old sink.old page.new sink.new
        (outlook_cells code.now level amounts.now title.now) }
{
    let cells = [
        Cell::Text(code.bytes()),
        Cell::Number(level as u64),
        Cell::Signed(amounts.budget),
        Cell::Signed(amounts.outlook),
        Cell::Signed(amounts.change),
        Cell::Text(title.bytes()),
    ];
    put_row(page, sink, &COLUMNS, &cells);
}
