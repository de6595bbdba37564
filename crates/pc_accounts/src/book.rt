//! The book of all accounts: the rows that it is made from, and the amounts to go that count.
//!
//! Accounts and items are numbered in card order from 0.
ghost use Rattle.std.specs.Prelude.{
  ◌≡◌,
  ℕ,
  ◌+◌,
  ◌*◌,
  ◌/◌,
  ◌<◌,
  ◌≤◌,
  length,
  IsTrue,
  IsFalse,
  IfOk,
  IfErr,
  IfSome,
  OnOk,
};
ghost use Rattle.pc_model.specs.declared.limits.TheConstants.{MAX_ACCOUNTS, MAX_CHARGES, MAX_TOGOS, MAX_COST};
ghost use Rattle.pc_accounts.specs.Entries.{entry_at, latest_of, value_of, AreEntriesWithinLimits, IsEntryWithinLimits};
ghost use Rattle.pc_accounts.specs.inside.Entries.{entry_of_all, IsShare};
ghost use Rattle.pc_accounts.specs.Amounts.{AreBudgets, AreMoney, AreEntriesOf, entry_of_project};
ghost use Rattle.pc_accounts.specs.inside.Parts.{
  AreActuals,
  AreKnownAmounts,
  AreMade,
  entry_from,
  AreLatest,
  later_row,
};
ghost use Rattle.pc_accounts.specs.Second.{IsRepeated};
ghost use Rattle.pc_accounts.specs.inside.Second.{IsRefusal};

use pc_days::Day;
use std::alloc::{AllocError, AllocFailed, Global};
use std::collections::BTreeMap;
use std::marker::Model;

/// A cost account: its item and its budget.
#[derive(Clone, Copy)]
pub struct AcctRow {
    pub item: u32,
    pub budget: u64,
}

/// A dated amount of an account: a charge, or an amount to go on that day.
#[derive(Clone, Copy)]
pub struct MoneyRow {
    pub account: u32,
    pub day: Day,
    pub amount: u64,
}

/// An account's budget, the sum of its charges up to the as-of date, and its amount to go.
#[derive(Clone, Copy)]
pub struct Entry {
    pub budget: u64,
    pub actual: u64,
    pub to_go: u64,
}

impl Entry {
    /// Returns the latest estimate: what was spent plus what is to go.
    pub fn latest(&self) -> u64
        requires { IsEntryWithinLimits self.now }
        ensures latest { result ≡ latest_of self.now }
        ensures limit { result ≤ (MAX_CHARGES + 1) * MAX_COST }
    {
        self.actual + self.to_go
    }

    /// Returns the earned value; `finished` says whether the account's package is finished.
    ///
    /// Finished work is worth its budget. Other work is worth the budget in the ratio of what was spent to the latest
    /// estimate, rounded down, or 0 if the latest estimate is 0.
    pub fn value(&self, finished: bool) -> u64
        requires { IsEntryWithinLimits self.now }
        ensures value { result ≡ value_of finished self.now }
        ensures done { IsTrue finished → result ≡ self.now.budget }
        ensures share { IsFalse finished → 0 < latest_of self.now → IsShare self.now result }
        ensures nothing { IsFalse finished → latest_of self.now ≡ 0 → result ≡ 0 }
        ensures limit { result ≤ MAX_COST }
    {
        if finished {
            return self.budget;
        }
        let latest = self.latest();
        if latest == 0 {
            return 0;
        }
        share(self.budget, self.actual, latest)
    }
}

/// The budget in the ratio of what was spent to the latest estimate, rounded down.
fn share(budget: u64, actual: u64, latest: u64) -> u64
    requires some { 0 < latest }
    requires part { actual ≤ latest }
    requires budget { budget ≤ MAX_COST }
    requires actual { actual ≤ MAX_CHARGES * MAX_COST }
    ensures share { result ≡ budget * actual / latest }
    ensures within { result ≤ budget }
{
    (u128::from(budget) * u128::from(actual) / u128::from(latest)) as u64
}

/// Why there is no book.
#[derive(Clone, Copy, Debug)]
pub enum BookError {
    /// The first amount to go that has the account and the day of an earlier one, `second`, and the earliest such one,
    /// `first`.
    SecondToGo { first: u32, second: u32 },
    OutOfMemory,
}

impl From<AllocError> for BookError {
    ghost use Rattle.std.specs.Prelude.{◌≡◌};
    ghost use Rattle.pc_accounts.specs.declared.book.BookError.TheVariants.{OutOfMemory};

    ghost from_gives = { λ _ e. e ≡ OutOfMemory };

    fn from(_error: AllocError) -> BookError {
        BookError::OutOfMemory
    }
}

impl<T: Drop> From<AllocFailed<T>> for BookError {
    ghost use Rattle.std.specs.Prelude.{◌≡◌};
    ghost use Rattle.pc_accounts.specs.declared.book.BookError.TheVariants.{OutOfMemory};

    ghost from_gives = { λ _ e. e ≡ OutOfMemory };

    fn from(_error: AllocFailed<T>) -> BookError {
        BookError::OutOfMemory
    }
}

/// What each account has spent up to the as-of date and what is to go, in card order.
#[derive(Drop)]
pub struct Book {
    entries: Vec<Entry>,
}

impl Model for Book {
    ghost use Rattle.std.specs.Prelude.{List};
    ghost use Rattle.pc_accounts.specs.declared.book.Entry.{Entry};
    ghost use Rattle.pc_accounts.specs.Entries.{AreEntriesWithinLimits};

    ghost Value = { List Entry };

    ghost view = { λ book. book.entries.items };

    ghost invariant = { λ book. AreEntriesWithinLimits book.entries.items };
}

impl Book {
    /// Builds the book of these accounts. Charges and amounts to go that are dated after `as_of` do not count. Linear
    /// in the rows, except for the look-up of repeated amounts to go.
    ///
    /// # Errors
    ///
    /// Returns `BookError::SecondToGo` if two amounts to go have the same account and day, and `BookError::OutOfMemory`
    /// if memory runs out.
    pub fn build(
        alloc: Global,
        accounts: &[AcctRow],
        charges: &[MoneyRow],
        togos: &[MoneyRow],
        as_of: Day,
    ) -> Result<Book, BookError>
        requires few_accounts { length accounts.now ≤ MAX_ACCOUNTS }
        requires few_charges { length charges.now ≤ MAX_CHARGES }
        requires few_togos { length togos.now ≤ MAX_TOGOS }
        requires budgets { AreBudgets accounts.now }
        requires charges { AreMoney (length accounts.now) charges.now }
        requires togos { AreMoney (length accounts.now) togos.now }
        ensures entries { IfOk result (λ book. AreEntriesOf accounts.now charges.now togos.now as_of book) }
        ensures whole { IfOk result (λ book. entry_of_all book ≡ entry_of_project accounts.now charges.now as_of book) }
        ensures small { IfOk result AreEntriesWithinLimits }
        ensures once { OnOk result ((k : ℕ) → IsRepeated togos.now k → ⊥) }
        ensures refused { IfErr result (IsRefusal togos.now) }
    {
        refuse_second(alloc, togos)?;
        let actuals = actuals(alloc, accounts.len(), charges, as_of)?;
        let latest = latest_togos(alloc, accounts.len(), togos, as_of)?;
        Ok(Book {
            entries: entries(alloc, accounts, togos, &actuals, &latest)?,
        })
    }

    /// Returns one entry per account, in card order.
    pub fn entries(&self) -> &[Entry]
        ensures entries { result.now ≡ self.now }
        ensures small { AreEntriesWithinLimits self.now }
    {
        &self.entries
    }

    /// Returns what the account has spent: the sum of its charges dated up to the as-of date.
    pub fn actual(&self, a: u32) -> u64
        requires { a < length self.now }
        ensures actual { result ≡ (entry_at self.now a).actual }
        ensures limit { result ≤ MAX_CHARGES * MAX_COST }
    {
        self.entries[a as usize].actual
    }

    /// Returns the account's amount to go.
    pub fn to_go(&self, a: u32) -> u64
        requires { a < length self.now }
        ensures to_go { result ≡ (entry_at self.now a).to_go }
        ensures limit { result ≤ MAX_COST }
    {
        self.entries[a as usize].to_go
    }

    /// Returns the account's latest estimate: what it has spent plus what is to go.
    pub fn latest(&self, a: u32) -> u64
        requires { a < length self.now }
        ensures latest { result ≡ latest_of (entry_at self.now a) }
        ensures limit { result ≤ (MAX_CHARGES + 1) * MAX_COST }
    {
        self.entries[a as usize].latest()
    }

    /// Returns the earned value of the account; `finished` says whether its package is finished. See [`Entry::value`].
    pub fn value(&self, a: u32, finished: bool) -> u64
        requires { a < length self.now }
        ensures value { result ≡ value_of finished (entry_at self.now a) }
        ensures done { IsTrue finished → result ≡ (entry_at self.now a).budget }
        ensures share { IsFalse finished → 0 < latest_of (entry_at self.now a) → IsShare (entry_at self.now a) result }
        ensures nothing { IsFalse finished → latest_of (entry_at self.now a) ≡ 0 → result ≡ 0 }
        ensures limit { result ≤ MAX_COST }
    {
        self.entries[a as usize].value(finished)
    }
}

/// The sum of each account's charges up to as-of.
fn actuals(
    alloc: Global,
    accounts: usize,
    charges: &[MoneyRow],
    as_of: Day,
) -> Result<Vec<u64>, AllocError>
    requires few { length charges.now ≤ MAX_CHARGES }
    requires charges { AreMoney accounts charges.now }
    ensures { IfOk result (λ actuals. AreActuals accounts charges.now as_of (length charges.now) actuals.items) }
{
    let mut actuals = vec![in alloc; 0; accounts]?;
    for charge in charges {
        if charge.day <= as_of {
            actuals[charge.account as usize] += charge.amount;
        }
    }
    Ok(actuals)
}

/// The entries, from the sums of the charges and the amounts to go that count.
fn entries(
    alloc: Global,
    accounts: &[AcctRow],
    togos: &[MoneyRow],
    actuals: &[u64],
    latest: &[Option<u32>],
) -> Result<Vec<Entry>, AllocError>
    requires actuals { length actuals.now ≡ length accounts.now }
    requires latest { length latest.now ≡ length accounts.now }
    requires known { AreKnownAmounts togos.now latest.now }
    ensures { IfOk result (λ entries. AreMade accounts.now togos.now actuals.now latest.now
        (length accounts.now) entries.items) }
{
    let mut entries = Vec::with_capacity(alloc, accounts.len())?;
    for a in 0..accounts.len() {
        let budget = accounts[a].budget;
        entries.push(entry_from(budget, actuals[a], latest[a], togos))?;
    }
    Ok(entries)
}

/// An account's entry, where `latest` is the amount to go that counts, if there is one.
fn entry_from(budget: u64, actual: u64, latest: Option<u32>, togos: &[MoneyRow]) -> Entry
    requires { IfSome latest (λ row. row < length togos.now) }
    ensures { result ≡ entry_from togos.now budget actual latest }
{
    let to_go = match latest {
        Some(row) => togos[row as usize].amount,
        None => budget.saturating_sub(actual),
    };
    Entry {
        budget,
        actual,
        to_go,
    }
}

/// Refuses two amounts to go of one account and one day. In an ordered map, so that no deck can make a look-up long.
pub(crate) fn refuse_second(alloc: Global, togos: &[MoneyRow]) -> Result<(), BookError>
    requires { length togos.now ≤ MAX_TOGOS }
    ensures once { OnOk result ((k : ℕ) → IsRepeated togos.now k → ⊥) }
    ensures refused { IfErr result (IsRefusal togos.now) }
{
    let mut seen: BTreeMap<(u32, Day), u32> = BTreeMap::new(alloc);
    for second in 0..togos.len() as u32 {
        let row = togos[second as usize];
        if let Some(first) = seen.insert((row.account, row.day), second)? {
            return Err(BookError::SecondToGo { first, second });
        }
    }
    Ok(())
}

/// The row of each account's latest amount to go up to as-of, if there is one.
pub(crate) fn latest_togos(
    alloc: Global,
    accounts: usize,
    togos: &[MoneyRow],
    as_of: Day,
) -> Result<Vec<Option<u32>>, AllocError>
    requires few { length togos.now ≤ MAX_TOGOS }
    requires togos { AreMoney accounts togos.now }
    ensures { IfOk result (λ latest. AreLatest accounts togos.now as_of (length togos.now) latest.items) }
{
    let mut latest = vec![in alloc; None; accounts]?;
    for row in 0..togos.len() as u32 {
        let togo = togos[row as usize];
        if togo.day <= as_of {
            let account = togo.account as usize;
            latest[account] = Some(later(togos, latest[account], row));
        }
    }
    Ok(latest)
}

/// The one of two rows that has the later day.
fn later(togos: &[MoneyRow], so_far: Option<u32>, row: u32) -> u32
    requires row { row < length togos.now }
    requires so_far { IfSome so_far (λ best. best < length togos.now) }
    ensures { result ≡ later_row togos.now so_far row }
{
    match so_far {
        Some(best) if togos[row as usize].day < togos[best as usize].day => best,
        _ => row,
    }
}
