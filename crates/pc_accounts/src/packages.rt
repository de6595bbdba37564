//! Whether the budgets of each package fit the costs of its work.
ghost use Rattle.std.specs.Prelude.{ℕ, ◌<◌, ◌≤◌, length, IfOk, IfErr, OnOk};
ghost use Rattle.pc_model.specs.declared.limits.TheConstants.{MAX_ACCOUNTS, MAX_ACTIVITIES};
ghost use Rattle.pc_accounts.specs.Amounts.{AreBudgets, item_of};
ghost use Rattle.pc_accounts.specs.Packages.{IsUneven};
ghost use Rattle.pc_accounts.specs.inside.Packages.{AreWork, IsFirstUneven};
ghost use Rattle.pc_accounts.specs.inside.Parts.{AreBudgetSums, AreCostSums};

use crate::book::AcctRow;
use pc_wbs::Tree;
use std::alloc::{AllocError, Global};

/// The item of an activity, and its cost at its normal duration.
#[derive(Clone, Copy)]
pub struct WorkRow {
    pub item: u32,
    pub cost: u64,
}

/// Why budgets do not match the work.
#[derive(Clone, Copy, Debug, PartialEq, Eq)]
pub enum Uneven {
    /// The first item with work for which the sum of its accounts' budgets differs from the sum of its activities'
    /// costs.
    Item { item: u32, budgets: u64, costs: u64 },
    OutOfMemory,
}

impl From<AllocError> for Uneven {
    ghost use Rattle.std.specs.Prelude.{◌≡◌};
    ghost use Rattle.pc_accounts.specs.declared.packages.Uneven.TheVariants.{OutOfMemory};

    ghost from_gives = { λ _ e. e ≡ OutOfMemory };

    fn from(_error: AllocError) -> Uneven {
        Uneven::OutOfMemory
    }
}

/// Checks that in each package with work the budgets of its accounts add up to the costs of its activities. Linear in
/// accounts, activities and items.
///
/// A package with work and no account has the budget 0. A package without work may have any budget.
///
/// # Errors
///
/// Returns `Uneven::Item` for the first package that is uneven, and `Uneven::OutOfMemory` if memory runs out.
pub fn reconcile(
    alloc: Global,
    tree: &Tree,
    accounts: &[AcctRow],
    work: &[WorkRow],
) -> Result<(), Uneven>
    requires few_accounts { length accounts.now ≤ MAX_ACCOUNTS }
    requires few_activities { length work.now ≤ MAX_ACTIVITIES }
    requires items { (a : ℕ) → a < length accounts.now → item_of accounts.now a < length tree.now }
    requires budgets { AreBudgets accounts.now }
    requires work { AreWork (length tree.now) work.now }
    ensures even { OnOk result ((item : ℕ) → IsUneven accounts.now work.now item → ⊥) }
    ensures refused { IfErr result (IsFirstUneven accounts.now work.now) }
{
    let budgets = budget_sums(alloc, tree.len(), accounts)?;
    let costs = cost_sums(alloc, tree.len(), work)?;
    for item in 0..tree.len() {
        let sum = budgets[item as usize];
        if let Some(cost) = costs[item as usize] {
            if cost != sum {
                return Err(Uneven::Item {
                    item,
                    budgets: sum,
                    costs: cost,
                });
            }
        }
    }
    Ok(())
}

/// The sum of the budgets on each item.
fn budget_sums(alloc: Global, items: u32, accounts: &[AcctRow]) -> Result<Vec<u64>, AllocError>
    requires few { length accounts.now ≤ MAX_ACCOUNTS }
    requires items { (a : ℕ) → a < length accounts.now → item_of accounts.now a < items }
    requires budgets { AreBudgets accounts.now }
    ensures { IfOk result (λ sums. AreBudgetSums items accounts.now (length accounts.now) sums.items) }
{
    let mut sums = vec![in alloc; 0; items as usize]?;
    for account in accounts {
        sums[account.item as usize] += account.budget;
    }
    Ok(sums)
}

/// The sum of the costs of each item that has work.
fn cost_sums(alloc: Global, items: u32, work: &[WorkRow]) -> Result<Vec<Option<u64>>, AllocError>
    requires few { length work.now ≤ MAX_ACTIVITIES }
    requires work { AreWork items work.now }
    ensures { IfOk result (λ sums. AreCostSums items work.now (length work.now) sums.items) }
{
    let mut sums = vec![in alloc; None; items as usize]?;
    for activity in work {
        let item = activity.item as usize;
        let so_far = sums[item].unwrap_or(0);
        sums[item] = Some(so_far + activity.cost);
    }
    Ok(sums)
}
