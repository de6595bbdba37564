//! Tables of amounts by row and period.
ghost use Rattle.std.specs.Prelude.{◌≡◌, ℕ, ◌^◌, ◌*◌, ◌<◌, ◌≤◌, pos, length, sum_by, unsigned_abs, IfOk};
ghost use Rattle.pc_model.specs.declared.limits.TheConstants.{MAX_COST, MAX_ITEMS, MAX_LOADS};
ghost use Rattle.pc_rollup.specs.inside.Totals.{AreAtLeaves};
ghost use Rattle.pc_load.specs.Items.{LevelsAddUp};
ghost use Rattle.pc_load.specs.inside.Items.{IsItemTable};
ghost use Rattle.pc_load.specs.Table.{amount_in, column};
ghost use Rattle.pc_load.specs.inside.Adding.{CanGrowRow, IsAdded};
ghost use Rattle.pc_load.specs.inside.Share.{IsSpread};
ghost use Rattle.pc_load.specs.inside.Table.{AreEntries, IsTableOf, RowsAddUp};

use crate::spread::{Spread, share};
use pc_rollup::rollup;
use pc_wbs::Tree;
use std::alloc::{AllocError, Global};
use std::marker::Model;

/// The most periods that a table can have.
pub const MAX_PERIODS: u32 = 400;

/// An entry of a table: a spread amount, and the row on which it counts.
#[derive(Clone, Copy)]
pub struct LoadRow {
    pub row: u32,
    pub spread: Spread,
}

/// A table with an amount for each row in each period. Rows and periods are counted from 0.
#[derive(Drop)]
pub struct Table {
    rows: u32,
    periods: u32,
    // Period by period, because the sums over items take the rows of one period.
    cells: Vec<i64>,
}

impl Model for Table {
    ghost use Rattle.pc_load.specs.Table.{Table};

    ghost Value = { Table };

    ghost use Rattle.pc_load.specs.inside.TableInside.{table_from, IsTableInside};

    ghost view = { table_from };

    ghost invariant = { IsTableInside };
}

impl Table {
    /// Returns the table of some entries: in each period each row has the sum of the parts of the entries that count on
    /// it.
    ///
    /// A period is `width` sixths of a day long. The first one begins with the project, and what comes after the last
    /// one is left out. The time that it takes is linear in the cells and in the periods that each entry spans.
    ///
    /// # Errors
    ///
    /// `AllocError` if there is no memory for the cells.
    pub fn build(
        alloc: Global,
        rows: u32,
        entries: &[LoadRow],
        width: u64,
        periods: u32,
    ) -> Result<Table, AllocError>
        requires rows { rows ≤ MAX_ITEMS }
        requires entries { AreEntries rows entries.now }
        requires least_width { 6 ≤ width }
        requires most_width { width ≤ 21_960 }
        requires some_periods { 1 ≤ periods }
        requires few_periods { periods ≤ MAX_PERIODS }
        ensures table { IfOk result (IsTableOf rows entries.now width periods) }
        ensures add_up { IfOk result (RowsAddUp rows entries.now width periods) }
        ensures small { IfOk result (λ table. (k : ℕ) → k < periods →
            sum_by unsigned_abs (column table k) ≤ MAX_LOADS * MAX_COST) }
    {
        let mut cells = vec![in alloc; 0; rows as usize * periods as usize]?;
        for entry in entries {
            add(&mut cells, rows, periods, entry, width);
        }
        Ok(Table {
            rows,
            periods,
            cells,
        })
    }

    /// Does nothing. States what holds of every table, for a proof that needs only that.
    pub(crate) fn facts(&self)
        ensures limit { self.now.periods ≤ MAX_PERIODS }
    {
        let _ = &self.cells;
    }

    /// Returns the amount of a row in period `k`.
    pub fn amount(&self, row: u32, k: u32) -> u64
        requires row { row < self.now.rows }
        requires period { k < self.now.periods }
        ensures { pos result ≡ amount_in self.now row k }
    {
        self.cells[k as usize * self.rows as usize + row as usize].unsigned_abs()
    }

    /// Returns how many periods there are.
    pub(crate) fn periods(&self) -> u32
        ensures count { result ≡ self.now.periods }
        ensures limit { result ≤ MAX_PERIODS }
    {
        self.periods
    }

    /// The amounts of period `k`, one for each row.
    fn column(&self, k: u32) -> &[i64]
        requires { k < self.now.periods }
        ensures column { result.now ≡ column self.now k }
        ensures one_each { length result.now ≡ self.now.rows }
    {
        let at = k as usize * self.rows as usize;
        &self.cells[at..at + self.rows as usize]
    }
}

/// Adds the parts of an entry to the cells of its row, in the periods that it spans.
fn add(cells: &mut [i64], rows: u32, periods: u32, entry: &LoadRow, width: u64)
    requires rows { rows ≤ MAX_ITEMS }
    requires periods { periods ≤ MAX_PERIODS }
    requires whole { length cells.old ≡ periods * rows }
    requires known { entry.now.row < rows }
    requires spread { IsSpread entry.now.spread }
    requires least_width { 6 ≤ width }
    requires most_width { width ≤ 21_960 }
    requires room { CanGrowRow rows periods entry.now.row cells.old }
    ensures { IsAdded rows periods entry.now width cells.old cells.new }
{
    let s = &entry.spread;
    let last = (s.begin + s.length) / width;
    let end = (last + 1).min(u64::from(periods));
    let mut so_far = 0;
    for k in s.begin / width..end {
        let by = share(s, width * (k + 1));
        cells[k as usize * rows as usize + entry.row as usize] += (by - so_far) as i64;
        so_far = by;
    }
}

/// Returns the table of all items, given that of the leaves: in each period an item has the sum over the leaves that
/// are the item or below it. Linear in the cells.
///
/// # Errors
///
/// `AllocError` if there is no memory for the cells.
pub fn item_table(alloc: Global, tree: &Tree, leaves: &Table) -> Result<Table, AllocError>
    requires one_each { leaves.now.rows ≡ length tree.now }
    requires at_leaves { (k : ℕ) → k < leaves.now.periods → AreAtLeaves tree.now (column leaves.now k) }
    requires small { (k : ℕ) → k < leaves.now.periods → sum_by unsigned_abs (column leaves.now k) < 2 ^ 63 }
    ensures items { IfOk result (IsItemTable tree.now leaves.now) }
    ensures levels { IfOk result (LevelsAddUp tree.now) }
{
    let rows = tree.len();
    let mut cells = Vec::with_capacity(alloc, leaves.cells.len())?;
    for k in 0..leaves.periods {
        let totals = rollup(alloc, tree, leaves.column(k))?;
        cells.extend_from_slice(&totals)?;
    }
    Ok(Table {
        rows,
        periods: leaves.periods,
        cells,
    })
}
