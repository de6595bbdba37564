//! The sum over what is at or below each item: of one amount per item, or of amounts column by column.
ghost use Rattle.std.specs.Prelude.{◌≡◌, ℕ, ◌^◌, ◌<◌, length, sum_by, unsigned_abs, IfOk, List, ℤ, ◌∷◌, []};
ghost use Rattle.pc_rollup.specs.inside.Totals.{
  AreAtLeaves,
  AreRolledUp,
  IsRolledUp,
  AreTotalsOf,
  ArePlacedSums,
  AreOnLeaves,
  placed_item,
};
ghost use Rattle.pc_rollup.specs.inside.Amounts.{CanBeRolled, AreRolled, CanBeAdded, IsSum, CanTake, HaveTaken};

use pc_wbs::Tree;
use std::alloc::{AllocError, Global};

/// What an item of a report has: one amount for each column.
pub(crate) trait Amounts: Copy {
    ghost columns: { Self → List ℤ };

    /// Returns the sum of both in each column.
    fn plus(self, more: Self) -> Self
        requires { CanBeAdded (columns self) (columns more) }
        ensures { IsSum (columns self) (columns more) (columns result) };
}

impl Amounts for i64 {
    ghost columns = { λ amount. amount ∷ [] };

    fn plus(self, more: i64) -> i64 {
        self + more
    }
}

/// Adds amounts to those of an item.
pub(crate) fn add_at<A: Amounts>(items: &mut [A], item: u32, more: A)
    requires { CanTake A.columns items.old item more }
    ensures { HaveTaken A.columns items.old item more items.new }
{
    let i = item as usize;
    items[i] = items[i].plus(more);
}

/// Returns for each item the sum over the leaves at or below it, from one amount per item. Linear in the items.
///
/// # Errors
///
/// Returns `AllocError` if memory runs out.
pub fn rollup(alloc: Global, tree: &Tree, leaf_amounts: &[i64]) -> Result<Vec<i64>, AllocError>
    requires one_each { length leaf_amounts.now ≡ length tree.now }
    requires at_leaves { AreAtLeaves tree.now leaf_amounts.now }
    requires small { sum_by unsigned_abs leaf_amounts.now < 2 ^ 63 }
    ensures { IfOk result (λ totals. AreRolledUp tree.now leaf_amounts.now totals.items) }
{
    let mut totals = Vec::from_slice(alloc, leaf_amounts)?;
    roll(tree, &mut totals);
    Ok(totals)
}

/// Adds the amounts of the leaves to those of all items above them. One pass over the preorder, from its end.
pub(crate) fn roll<A: Amounts>(tree: &Tree, amounts: &mut [A])
    requires { CanBeRolled A.columns tree.now amounts.old }
    ensures { AreRolled A.columns tree.now amounts.old amounts.new }
{
    for &item in tree.preorder().iter().rev() {
        if let Some(parent) = tree.parent(item) {
            let more = amounts[item as usize];
            add_at(amounts, parent, more);
        }
    }
}

/// An amount on an item, such as an account's budget.
#[derive(Clone, Copy)]
pub struct Placed {
    pub item: u32,
    pub amount: i64,
}

/// Returns for each item the sum of the amounts at or below it. Linear in amounts and items.
///
/// # Errors
///
/// Returns `AllocError` if memory runs out.
pub fn totals_of(alloc: Global, tree: &Tree, placed: &[Placed]) -> Result<Vec<i64>, AllocError>
    requires on_leaves { AreOnLeaves tree.now placed.now }
    requires small { sum_by (λ p. unsigned_abs p.amount) placed.now < 2 ^ 63 }
    ensures totals { IfOk result (λ totals. AreTotalsOf tree.now placed.now totals.items) }
    ensures rolled { IfOk result (λ totals. IsRolledUp tree.now totals.items) }
{
    let amounts = amounts_by_item(alloc, tree.len(), placed)?;
    rollup(alloc, tree, &amounts)
}

/// The sum of the amounts on each of `items` items.
fn amounts_by_item(alloc: Global, items: u32, placed: &[Placed]) -> Result<Vec<i64>, AllocError>
    requires known { (k : ℕ) → k < length placed.now → placed_item placed.now k < items }
    requires small { sum_by (λ p. unsigned_abs p.amount) placed.now < 2 ^ 63 }
    ensures amounts { IfOk result (λ amounts. ArePlacedSums items placed.now (length placed.now) amounts.items) }
    ensures small { IfOk result (λ amounts. sum_by unsigned_abs amounts.items < 2 ^ 63) }
{
    let mut amounts = vec![in alloc; 0; items as usize]?;
    for p in placed {
        amounts[p.item as usize] += p.amount;
    }
    Ok(amounts)
}
