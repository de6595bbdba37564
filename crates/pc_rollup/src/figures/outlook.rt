//! What the items are going to cost at given durations of the activities.
ghost use Rattle.std.specs.Prelude.{◌≡◌, ℕ, ◌<◌, ◌≤◌, ◌^◌, length, slice_index, IfOk};
ghost use Rattle.pc_accounts.specs.Entries.{AreEntriesWithinLimits, IsEntryWithinLimits};
ghost use Rattle.pc_model.specs.Sums.{sum_to};
ghost use Rattle.pc_rollup.specs.figures.Columns.{AreOnTree};
ghost use Rattle.pc_rollup.specs.figures.Outline.{outline_row_at};
ghost use Rattle.pc_rollup.specs.figures.Outlook.{IsOutlookOf, amounts_at};
ghost use Rattle.pc_rollup.specs.inside.figures.Outlook.{HasWholeAtTop, StandOnLeaves};
ghost use Rattle.pc_rollup.specs.inside.figures.OutlookParts.{
  AreMarked,
  AreOutlooks,
  account_outlook,
  activity_outlook,
  outlook_columns,
};

use crate::figures::outline::{OutlineRow, outline_of};
use crate::totals::{Amounts, add_at, roll};
use pc_accounts::{AcctRow, Entry};
use pc_wbs::Tree;
use std::alloc::{AllocError, Global};
use std::marker::Model;

/// The amounts of an item in an outlook.
#[derive(Clone, Copy, Debug, PartialEq, Eq)]
pub struct OutlookAmounts {
    pub budget: i64,
    pub outlook: i64,
    pub change: i64,
}

impl OutlookAmounts {
    const NONE: OutlookAmounts = OutlookAmounts {
        budget: 0,
        outlook: 0,
        change: 0,
    };

    /// What an account adds. Its budget counts for the outlook only if its package has no activities.
    fn of_account(entry: &Entry, has_activity: bool) -> OutlookAmounts
        requires { IsEntryWithinLimits entry.now }
        ensures { result ≡ account_outlook has_activity entry.now }
    {
        let budget = entry.budget as i64;
        let outlook = if has_activity { 0 } else { budget };
        OutlookAmounts {
            budget,
            outlook,
            change: outlook - budget,
        }
    }

    /// What an activity adds.
    fn of_activity(cost: u64) -> OutlookAmounts
        requires { cost ≤ 2 ^ 60 }
        ensures { result ≡ activity_outlook cost }
    {
        let outlook = cost as i64;
        OutlookAmounts {
            budget: 0,
            outlook,
            change: outlook,
        }
    }
}

impl Amounts for OutlookAmounts {
    ghost columns = { outlook_columns };

    fn plus(self, more: OutlookAmounts) -> OutlookAmounts {
        OutlookAmounts {
            budget: self.budget + more.budget,
            outlook: self.outlook + more.outlook,
            change: self.change + more.change,
        }
    }
}

/// Budget, outlook and change of each item.
///
/// The outlook of an item is what its activities cost at their durations, plus the budgets of its accounts in packages
/// without activities. The change is the outlook minus the budget.
pub struct Outlook {
    outline: Vec<OutlineRow>,
    amounts: Vec<OutlookAmounts>,
}

impl Drop for Outlook {
    // Written by hand so that the proof of dropping it is done once, here.
    fn drop(self) {
        let Outlook {
            outline: _outline,
            amounts: _amounts,
        } = self;
    }
}

impl Model for Outlook {
    ghost use Rattle.pc_rollup.specs.figures.Outlook.{Outlook};

    ghost Value = { Outlook };

    ghost view = { λ outlook. record { outline = outlook.outline.items; amounts = outlook.amounts.items } };
}

impl Outlook {
    /// Returns the outlook for activities on the items `places` with the given costs. Linear in activities, accounts
    /// and items.
    ///
    /// # Errors
    ///
    /// Returns `AllocError` if memory runs out.
    pub fn build(
        alloc: Global,
        tree: &Tree,
        places: &[u32],
        costs: &[u64],
        accounts: &[AcctRow],
        entries: &[Entry],
    ) -> Result<Outlook, AllocError>
        requires work_on_leaves { StandOnLeaves tree.now places.now }
        requires cost_each { length costs.now ≡ length places.now }
        requires costs_fit { sum_to (length places.now) (slice_index costs.now) ≤ 2 ^ 60 }
        requires on_tree { AreOnTree tree.now accounts.now }
        requires one_each { length entries.now ≡ length accounts.now }
        requires small { AreEntriesWithinLimits entries.now }
        ensures outlook { IfOk result (IsOutlookOf tree.now places.now
            (slice_index costs.now) accounts.now entries.now) }
        ensures top { IfOk result (HasWholeAtTop tree.now places.now (slice_index costs.now) accounts.now entries.now) }
    {
        let outline = outline_of(alloc, tree)?;
        let amounts = sums_by_item(alloc, tree, places, costs, accounts, entries)?;
        Ok(Outlook { outline, amounts })
    }

    /// Returns the number of items.
    pub fn items(&self) -> usize
        ensures { result ≡ length self.now.outline }
    {
        self.outline.len()
    }

    /// Returns item `k` in preorder, with its level.
    pub fn row(&self, k: usize) -> OutlineRow
        requires { k < length self.now.outline }
        ensures { result ≡ outline_row_at self.now.outline k }
    {
        self.outline[k]
    }

    /// Returns the amounts of an item.
    pub fn of_item(&self, item: u32) -> OutlookAmounts
        requires { item < length self.now.amounts }
        ensures { result ≡ amounts_at self.now.amounts item }
    {
        self.amounts[item as usize]
    }
}

/// For each item whether an activity is on it.
pub(in crate::figures) fn marked(
    alloc: Global,
    items: u32,
    places: &[u32],
) -> Result<Vec<bool>, AllocError>
    requires { (a : ℕ) → a < length places.now → slice_index places.now a < items }
    ensures { IfOk result (λ marks. AreMarked items places.now (length places.now) marks.items) }
{
    let mut marks = vec![in alloc; false; items as usize]?;
    for a in 0..places.len() {
        marks[places[a] as usize] = true;
    }
    Ok(marks)
}

/// For each item the sums of the amounts of the accounts and activities that are on it or below it.
fn sums_by_item(
    alloc: Global,
    tree: &Tree,
    places: &[u32],
    costs: &[u64],
    accounts: &[AcctRow],
    entries: &[Entry],
) -> Result<Vec<OutlookAmounts>, AllocError>
    requires work_on_leaves { StandOnLeaves tree.now places.now }
    requires cost_each { length costs.now ≡ length places.now }
    requires costs_fit { sum_to (length places.now) (slice_index costs.now) ≤ 2 ^ 60 }
    requires on_tree { AreOnTree tree.now accounts.now }
    requires one_each { length entries.now ≡ length accounts.now }
    requires small { AreEntriesWithinLimits entries.now }
    ensures { IfOk result (λ sums. AreOutlooks tree.now places.now
        (slice_index costs.now) accounts.now entries.now sums.items) }
{
    let marks = marked(alloc, tree.len(), places)?;
    let mut sums = vec![in alloc; OutlookAmounts::NONE; tree.len() as usize]?;
    for b in 0..accounts.len() {
        let item = accounts[b].item;
        add_at(
            &mut sums,
            item,
            OutlookAmounts::of_account(&entries[b], marks[item as usize]),
        );
    }
    for a in 0..places.len() {
        add_at(&mut sums, places[a], OutlookAmounts::of_activity(costs[a]));
    }
    roll(tree, &mut sums);
    Ok(sums)
}
