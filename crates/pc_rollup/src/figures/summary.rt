//! What the management summary reports.
ghost use Rattle.std.specs.Prelude.{◌≡◌, ℕ, ◌+◌, ◌<◌, ◌≤◌, ◌^◌, ℤ, pos, List, length, IfOk};
ghost use Rattle.pc_wbs.specs.declared.tree.ItemRow.{ItemRow};
ghost use Rattle.pc_accounts.specs.declared.book.AcctRow.{AcctRow};
ghost use Rattle.pc_accounts.specs.declared.book.MoneyRow.{MoneyRow};
ghost use Rattle.pc_accounts.specs.declared.book.Entry.{Entry};
ghost use Rattle.pc_accounts.specs.Amounts.{all_charged};
ghost use Rattle.pc_accounts.specs.Entries.{AreEntriesWithinLimits, IsEntryWithinLimits};
ghost use Rattle.pc_accounts.specs.inside.Entries.{entry_of_all};
ghost use Rattle.pc_rollup.specs.declared.levels.LevelLine.{LevelLine};
ghost use Rattle.pc_rollup.specs.Lines.{AreLevelLines, sum_of};
ghost use Rattle.pc_rollup.specs.figures.Columns.{AreOnTree, AreItemSums};
ghost use Rattle.pc_rollup.specs.figures.Figures.{account_summary_at, actual_at, amounts_of};
ghost use Rattle.pc_rollup.specs.figures.Outline.{outline_row_at};
ghost use Rattle.pc_rollup.specs.figures.Summary.{IsSummaryOf, AreBooked, CountsOnce, item_amounts, level_amounts};
ghost use Rattle.pc_rollup.specs.inside.figures.Columns.{AreSumsByItem, summary_columns};

use crate::each_leaf_has_one_line;
use crate::figures::outline::{OutlineRow, outline_of};
use crate::totals::{Amounts, add_at, roll};
use pc_accounts::{AcctRow, Entry};
use pc_wbs::Tree;
use std::alloc::{AllocError, Global};
use std::marker::Model;

/// The amounts of an item or of a level in a summary.
#[derive(Clone, Copy, Debug, PartialEq, Eq)]
pub struct SummaryAmounts {
    pub budget: i64,
    pub actual: i64,
    pub to_go: i64,
    pub latest: i64,
    pub overrun: i64,
}

impl SummaryAmounts {
    const NONE: SummaryAmounts = SummaryAmounts {
        budget: 0,
        actual: 0,
        to_go: 0,
        latest: 0,
        overrun: 0,
    };

    /// The amounts of an account.
    fn of(entry: &Entry) -> SummaryAmounts
        requires { IsEntryWithinLimits entry.now }
        ensures { result ≡ amounts_of entry.now }
    {
        let budget = entry.budget as i64;
        let latest = entry.latest() as i64;
        SummaryAmounts {
            budget,
            actual: entry.actual as i64,
            to_go: entry.to_go as i64,
            latest,
            overrun: latest - budget,
        }
    }
}

impl Amounts for SummaryAmounts {
    ghost columns = { summary_columns };

    fn plus(self, more: SummaryAmounts) -> SummaryAmounts {
        SummaryAmounts {
            budget: self.budget + more.budget,
            actual: self.actual + more.actual,
            to_go: self.to_go + more.to_go,
            latest: self.latest + more.latest,
            overrun: self.overrun + more.overrun,
        }
    }
}

/// Budget, actual, to-go, latest estimate and overrun of each item and of each level.
pub struct Summary {
    outline: Vec<OutlineRow>,
    amounts: Vec<SummaryAmounts>,
    // At each level the lines add up to what the top has.
    whole: SummaryAmounts,
    depth: u32,
}

impl Drop for Summary {
    // Written by hand so that the proof of dropping it is done once, here.
    fn drop(self) {
        let Summary {
            outline: _outline,
            amounts: _amounts,
            whole: _,
            depth: _,
        } = self;
    }
}

impl Model for Summary {
    ghost use Rattle.pc_rollup.specs.figures.Summary.{Summary};
    ghost use Rattle.pc_rollup.specs.inside.figures.Columns.{summary_column};
    ghost use Rattle.std.specs.Prelude.{◌≤◌};
    ghost use Rattle.pc_model.specs.declared.limits.TheConstants.{MAX_LEVEL};

    ghost Value = { Summary };

    ghost view = { λ s. record {
      outline = s.outline.items;
      budget = summary_column (λ a. a.budget) s.amounts.items s.whole s.depth;
      actual = summary_column (λ a. a.actual) s.amounts.items s.whole s.depth;
      to_go = summary_column (λ a. a.to_go) s.amounts.items s.whole s.depth;
      latest = summary_column (λ a. a.latest) s.amounts.items s.whole s.depth;
      overrun = summary_column (λ a. a.overrun) s.amounts.items s.whole s.depth;
    } };

    ghost invariant = { λ s. s.depth ≤ MAX_LEVEL };
}

impl Summary {
    /// Returns the summary of these accounts. Linear in the accounts and items.
    ///
    /// # Errors
    ///
    /// Returns `AllocError` if memory runs out.
    pub fn build(
        alloc: Global,
        tree: &Tree,
        accounts: &[AcctRow],
        entries: &[Entry],
    ) -> Result<Summary, AllocError>
        requires on_tree { AreOnTree tree.now accounts.now }
        requires one_each { length entries.now ≡ length accounts.now }
        requires small { AreEntriesWithinLimits entries.now }
        ensures summary { IfOk result (IsSummaryOf tree.now accounts.now entries.now) }
        ensures once { IfOk result (CountsOnce tree.now accounts.now (entry_of_all entries.now)) }
    {
        each_leaf_has_one_line();
        let outline = outline_of(alloc, tree)?;
        let amounts = sums_by_item(alloc, tree, accounts, entries)?;
        let top = tree.preorder()[0];
        let whole = amounts[top as usize];
        Ok(Summary {
            outline,
            amounts,
            whole,
            depth: tree.depth(),
        })
    }

    /// Returns the number of items.
    pub fn items(&self) -> usize
        ensures { result ≡ length self.now.outline }
    {
        self.outline.len()
    }

    /// Returns item `k` in preorder, with its level.
    pub fn row(&self, k: usize) -> OutlineRow
        requires { k < length self.now.outline }
        ensures { result ≡ outline_row_at self.now.outline k }
    {
        self.outline[k]
    }

    /// Returns the number of levels.
    pub fn depth(&self) -> usize
        ensures { result ≡ length self.now.budget.levels }
    {
        self.depth as usize
    }

    /// Returns the amounts of an item.
    pub fn of_item(&self, item: u32) -> SummaryAmounts
        requires { item < length self.now.budget.items }
        ensures { result ≡ item_amounts self.now item }
    {
        self.amounts[item as usize]
    }

    /// Returns the amounts of level `k + 1`.
    pub fn of_level(&self, k: usize) -> SummaryAmounts
        requires { k < length self.now.budget.levels }
        ensures amounts { result ≡ level_amounts self.now k }
        ensures counted { k + 1 < 2 ^ 64 }
    {
        self.whole
    }
}

/// For each item the sums of the amounts of the accounts that are on it or below it.
fn sums_by_item(
    alloc: Global,
    tree: &Tree,
    accounts: &[AcctRow],
    entries: &[Entry],
) -> Result<Vec<SummaryAmounts>, AllocError>
    requires on_tree { AreOnTree tree.now accounts.now }
    requires one_each { length entries.now ≡ length accounts.now }
    requires small { AreEntriesWithinLimits entries.now }
    ensures { IfOk result (λ sums. AreSumsByItem summary_columns tree.now accounts.now
        (account_summary_at entries.now) sums.items) }
{
    let mut sums = vec![in alloc; SummaryAmounts::NONE; tree.len() as usize]?;
    for a in 0..accounts.len() {
        add_at(&mut sums, accounts[a].item, SummaryAmounts::of(&entries[a]));
    }
    roll(tree, &mut sums);
    Ok(sums)
}

/// States that at each level the actuals of the lines add up to all charges dated up to the as-of date: each of these
/// charges counts once, and no other counts.
pub fn each_charge_counts_once()
    ensures once { (tree : List ItemRow) (accounts : List AcctRow) (charges togos : List MoneyRow) (as_of : ℤ)
        (entries : List Entry) (level : ℕ) (totals : List ℤ) (lines : List LevelLine)
        → AreBooked tree accounts charges togos as_of entries →
        AreItemSums tree accounts (actual_at entries) totals
        → 1 ≤ level → AreLevelLines tree level totals lines → sum_of lines ≡ pos (all_charged charges as_of) }
{}
