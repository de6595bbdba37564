//! What the work of each item is worth.
ghost use Rattle.std.specs.Prelude.{
  ◌≡◌,
  ℕ,
  ◌<◌,
  length,
  slice_index,
  IfOk,
  ◌↔◌,
  ◌&&◌,
  true,
  unwrap_or,
  IsTrue,
};
ghost use Rattle.pc_accounts.specs.Entries.{AreEntriesWithinLimits, IsEntryWithinLimits};
ghost use Rattle.pc_rollup.specs.figures.Columns.{AreOnTree};
ghost use Rattle.pc_rollup.specs.figures.Packages.{IsFinished};
ghost use Rattle.pc_rollup.specs.figures.Worth.{IsWorthOf, worth_amounts};
ghost use Rattle.pc_rollup.specs.inside.figures.Columns.{AreSumsByItem, worth_columns};
ghost use Rattle.pc_rollup.specs.inside.figures.Packages.{AreProgress, worth_at, worth_of};

use crate::totals::{Amounts, add_at, roll};
use pc_accounts::{AcctRow, Entry};
use pc_times::ActState;
use pc_wbs::Tree;
use std::alloc::{AllocError, Global};
use std::marker::Model;

/// For each item whether all activities on it are finished, or none if no activity is on it.
fn progress_of(
    alloc: Global,
    items: u32,
    places: &[u32],
    states: &[ActState],
) -> Result<Vec<Option<bool>>, AllocError>
    requires known { (a : ℕ) → a < length places.now → slice_index places.now a < items }
    requires one_each { length states.now ≡ length places.now }
    ensures { IfOk result (λ progress. AreProgress items places.now states.now (length places.now) progress.items) }
{
    let mut progress = vec![in alloc; None; items as usize]?;
    for a in 0..places.len() {
        let item = places[a] as usize;
        let finished = is_finished(states[a]);
        progress[item] = Some(all_finished(progress[item], finished));
    }
    Ok(progress)
}

/// Whether all activities of an item are finished, from whether those before are, if there are any, and the next one
/// is.
fn all_finished(so_far: Option<bool>, finished: bool) -> bool
    ensures { result ≡ (unwrap_or so_far true && finished) }
{
    so_far.unwrap_or(true) && finished
}

/// Whether an activity is finished.
fn is_finished(state: ActState) -> bool
    ensures { IsTrue result ↔ IsFinished state }
{
    matches!(state, ActState::Finished(_))
}

/// The amounts of an item in a value of work report.
#[derive(Clone, Copy, Debug, PartialEq, Eq)]
pub struct WorthAmounts {
    pub budget: i64,
    pub actual: i64,
    pub value: i64,
    pub overrun: i64,
}

impl WorthAmounts {
    const NONE: WorthAmounts = WorthAmounts {
        budget: 0,
        actual: 0,
        value: 0,
        overrun: 0,
    };

    /// The amounts of an account, where `finished` says whether its package is finished.
    fn of(entry: &Entry, finished: bool) -> WorthAmounts
        requires { IsEntryWithinLimits entry.now }
        ensures { result ≡ worth_of finished entry.now }
    {
        let actual = entry.actual as i64;
        let value = entry.value(finished) as i64;
        WorthAmounts {
            budget: entry.budget as i64,
            actual,
            value,
            overrun: actual - value,
        }
    }
}

impl Amounts for WorthAmounts {
    ghost columns = { worth_columns };

    fn plus(self, more: WorthAmounts) -> WorthAmounts {
        WorthAmounts {
            budget: self.budget + more.budget,
            actual: self.actual + more.actual,
            value: self.value + more.value,
            overrun: self.overrun + more.overrun,
        }
    }
}

/// Budget, actual, earned value and overrun of each item. The overrun is the actual minus the value.
#[derive(Drop)]
pub struct Worth {
    amounts: Vec<WorthAmounts>,
}

impl Model for Worth {
    ghost use Rattle.std.specs.Prelude.{map};
    ghost use Rattle.pc_rollup.specs.figures.Worth.{Worth};

    ghost Value = { Worth };

    ghost view = { λ worth. record {
      budget = map (λ a. a.budget) worth.amounts.items;
      actual = map (λ a. a.actual) worth.amounts.items;
      value = map (λ a. a.value) worth.amounts.items;
      overrun = map (λ a. a.overrun) worth.amounts.items;
    } };
}

impl Worth {
    /// Returns what the work of the items is worth, for activities on the items `places` in the given states. Linear in
    /// activities, accounts and items.
    ///
    /// # Errors
    ///
    /// Returns `AllocError` if memory runs out.
    pub fn build(
        alloc: Global,
        tree: &Tree,
        places: &[u32],
        states: &[ActState],
        accounts: &[AcctRow],
        entries: &[Entry],
    ) -> Result<Worth, AllocError>
        requires known { (a : ℕ) → a < length places.now → slice_index places.now a < length tree.now }
        requires state_each { length states.now ≡ length places.now }
        requires on_tree { AreOnTree tree.now accounts.now }
        requires one_each { length entries.now ≡ length accounts.now }
        requires small { AreEntriesWithinLimits entries.now }
        ensures { IfOk result (IsWorthOf tree.now places.now states.now accounts.now entries.now) }
    {
        let progress = progress_of(alloc, tree.len(), places, states)?;
        let amounts = sums_by_item(alloc, tree, &progress, accounts, entries)?;
        Ok(Worth { amounts })
    }

    /// Returns the amounts of an item.
    pub fn of_item(&self, item: u32) -> WorthAmounts
        requires { item < length self.now.budget }
        ensures { result ≡ worth_amounts self.now item }
    {
        self.amounts[item as usize]
    }
}

/// For each item the sums of the amounts of the accounts that are on it or below it.
fn sums_by_item(
    alloc: Global,
    tree: &Tree,
    progress: &[Option<bool>],
    accounts: &[AcctRow],
    entries: &[Entry],
) -> Result<Vec<WorthAmounts>, AllocError>
    requires progress_each { length progress.now ≡ length tree.now }
    requires on_tree { AreOnTree tree.now accounts.now }
    requires one_each { length entries.now ≡ length accounts.now }
    requires small { AreEntriesWithinLimits entries.now }
    ensures { IfOk result (λ sums. AreSumsByItem worth_columns tree.now accounts.now
        (worth_at progress.now accounts.now entries.now) sums.items) }
{
    let mut sums = vec![in alloc; WorthAmounts::NONE; tree.len() as usize]?;
    for a in 0..accounts.len() {
        let item = accounts[a].item;
        let finished = progress[item as usize].unwrap_or(false);
        add_at(&mut sums, item, WorthAmounts::of(&entries[a], finished));
    }
    roll(tree, &mut sums);
    Ok(sums)
}
