//! The rows of the report of loads.
ghost use Rattle.std.specs.Prelude.{◌≡◌, ◌<◌, pos, ◌+ℤ◌, length};
ghost use Rattle.pc_days.specs.Calendar.{date_or_none};
ghost use Rattle.pc_edges.specs.inside.page.Puts.{Puts};
ghost use Rattle.pc_load.specs.inside.Loading.{IsReadyToLoad};
ghost use Rattle.pc_load.specs.inside.PrintedLoad.{loading_of};
ghost use Rattle.pc_load.specs.LoadText.{amount_row, item_rows, period_cells, period_row, resource_rows};
ghost use Rattle.pc_load.specs.Table.{amount_in};
ghost use Rattle.pc_load.specs.inside.Table.{IsRowOf};

use crate::loading::PrintedLoad;
use crate::table::Table;
use pc_days::{Day, date_of_sixths, day_text};
use pc_edges::Sink;
use pc_edges::page::{Cell, Fill, Page, Rows, put_row, put_rows};
use pc_project::Project;
use pc_text::Code;

/// Codes, and the word of a row that has none.
const NAME: Fill = Fill::Left(16);

/// Numbers of periods.
const PERIOD: Fill = Fill::Right(6);

/// Parts of amounts.
const PART: Fill = Fill::Right(14);

/// A row for each period.
#[derive(Clone, Copy)]
pub(crate) struct PeriodRows<'a> {
    pub(crate) project: &'a Project,
    pub(crate) printed: &'a PrintedLoad<'a>,
}

impl<'a> Rows for PeriodRows<'a> {
    ghost row_count = { λ t. t.printed.now.items.now.periods };

    ghost row_text = { λ t. period_row t.project.now t.printed.now.days };

    ghost IsReady = { λ t. IsReadyToLoad t.project.now (loading_of t.printed.now) };

    fn count(&self) -> usize {
        self.printed.items.periods() as usize
    }

    fn put<O: Sink>(&self, i: usize, page: &mut Page, sink: &mut O) {
        let date = date_after(self.project.start_day(), self.printed.days * i as u64);
        put_period(page, sink, i as u64, &date);
    }
}

/// The rows of each item, in preorder.
#[derive(Clone, Copy)]
pub(crate) struct ItemLoadRows<'a> {
    pub(crate) project: &'a Project,
    pub(crate) printed: &'a PrintedLoad<'a>,
}

impl<'a> Rows for ItemLoadRows<'a> {
    ghost row_count = { λ t. length t.printed.now.order.now };

    ghost row_text = { λ t. item_rows t.project.now (loading_of t.printed.now) };

    ghost IsReady = { λ t. IsReadyToLoad t.project.now (loading_of t.printed.now) };

    fn count(&self) -> usize {
        self.printed.order.len()
    }

    fn put<O: Sink>(&self, i: usize, page: &mut Page, sink: &mut O) {
        let row = self.printed.order[i];
        let code = &self.project.item_code(row);
        let table = self.printed.items;
        put_rows(page, sink, &AmountRows { code, table, row });
    }
}

/// The rows of each resource, in card order.
#[derive(Clone, Copy)]
pub(crate) struct ResourceRows<'a> {
    pub(crate) project: &'a Project,
    pub(crate) printed: &'a PrintedLoad<'a>,
}

impl<'a> Rows for ResourceRows<'a> {
    ghost row_count = { λ t. length t.project.now.resources };

    ghost row_text = { λ t. resource_rows t.project.now (loading_of t.printed.now) };

    ghost IsReady = { λ t. IsReadyToLoad t.project.now (loading_of t.printed.now) };

    fn count(&self) -> usize {
        self.project.resource_count() as usize
    }

    fn put<O: Sink>(&self, i: usize, page: &mut Page, sink: &mut O) {
        let row = i as u32;
        let code = &self.project.resource_code(row);
        let table = self.printed.resources;
        put_rows(page, sink, &AmountRows { code, table, row });
    }
}

/// A row for each period in which a row of a table has an amount.
#[derive(Clone, Copy)]
struct AmountRows<'a> {
    code: &'a Code,
    table: &'a Table,
    row: u32,
}

impl<'a> Rows for AmountRows<'a> {
    ghost row_count = { λ t. t.table.now.periods };

    ghost row_text = { λ t k. amount_row t.code.now k (amount_in t.table.now t.row k) };

    ghost IsReady = { λ t. IsRowOf t.table.now t.row };

    fn count(&self) -> usize {
        self.table.periods() as usize
    }

    fn put<O: Sink>(&self, i: usize, page: &mut Page, sink: &mut O) {
        let amount = self.table.amount(self.row, i as u32);
        if amount > 0 {
            put_amount(page, sink, self.code, i as u64, amount);
        }
    }
}

fn put_period<O: Sink>(page: &mut Page, sink: &mut O, k: u64, date: &[u8; 10])
    ensures { Puts O.taken O.faults page.old sink.old page.new sink.new (period_cells k date.now) }
{
    let cells = [Cell::Text(b"PERIOD"), Cell::Number(k), Cell::Text(date)];
    put_row(page, sink, &[NAME, PERIOD, Fill::Plain], &cells);
}

fn put_amount<O: Sink>(page: &mut Page, sink: &mut O, code: &Code, k: u64, amount: u64)
    requires { 0 < amount }
    ensures { Puts O.taken O.faults page.old sink.old page.new sink.new (amount_row code.now k (pos amount)) }
{
    let cells = [
        Cell::Text(code.bytes()),
        Cell::Number(k),
        Cell::Number(amount),
    ];
    put_row(page, sink, &[NAME, PERIOD, PART], &cells);
}

/// Returns the date `days` days after a day, or ten hyphens if it is past the days that are printed.
fn date_after(start: Day, days: u64) -> [u8; 10]
    requires { days < 10_000_000 }
    ensures { result ≡ date_or_none (start +ℤ pos days) }
{
    match date_of_sixths(start, 6 * days as i64) {
        Some(day) => day_text(day),
        None => *b"----------",
    }
}
