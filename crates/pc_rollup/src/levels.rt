//! The lines of a level.
ghost use Rattle.std.specs.Prelude.{◌≡◌, ℕ, ◌<◌, ◌≤◌, List, ℤ, length, IfOk, IsTrue, ◌↔◌};
ghost use Rattle.pc_wbs.specs.declared.tree.ItemRow.{ItemRow};
ghost use Rattle.pc_wbs.specs.Climb.{AreInRange, IsBelow, IsTop, IsLeaf, IsTree, IsAtLevel};
ghost use Rattle.pc_rollup.specs.Totals.{amount_at};
ghost use Rattle.pc_rollup.specs.inside.Totals.{AreRolledUp};
ghost use Rattle.pc_rollup.specs.Lines.{HasLine, AreLevelLines, sum_of};

use pc_wbs::Tree;
use std::alloc::{AllocError, Global};

/// An item at a level, or a leaf above it, with its total.
#[derive(Clone, Copy, Debug, PartialEq, Eq)]
pub struct LevelLine {
    pub item: u32,
    pub amount: i64,
}

/// Returns the items at a level and the leaves above it, in preorder, each with its total. One pass over the preorder.
///
/// Each leaf is below exactly one of them, so if the totals are sums over leaves, the lines together add up to the
/// total of the top.
///
/// # Errors
///
/// Returns `AllocError` if memory runs out.
pub fn level_lines(
    alloc: Global,
    tree: &Tree,
    level: u32,
    totals: &[i64],
) -> Result<Vec<LevelLine>, AllocError>
    requires level { 1 ≤ level }
    requires one_each { length totals.now ≡ length tree.now }
    ensures lines { IfOk result (λ lines. AreLevelLines tree.now level totals.now lines.items) }
    ensures whole { IfOk result (λ lines. (amounts : List ℤ) (top : ℕ) → AreRolledUp tree.now amounts totals.now →
        IsTop tree.now top
        → sum_of lines.items ≡ amount_at totals.now top) }
{
    let mut lines = Vec::new(alloc);
    for &item in tree.preorder() {
        if has_line(tree, level, item) {
            let amount = total(totals, item);
            lines.push(LevelLine { item, amount })?;
        }
    }
    Ok(lines)
}

/// The total of an item.
fn total(totals: &[i64], item: u32) -> i64
    requires { item < length totals.now }
    ensures { result ≡ amount_at totals.now item }
{
    totals[item as usize]
}

/// Whether the item is at the level, or a leaf above it.
fn has_line(tree: &Tree, level: u32, item: u32) -> bool
    requires { item < length tree.now }
    ensures { IsTrue result ↔ HasLine tree.now level item }
{
    let own = tree.level(item);
    own == level || (own < level && tree.is_leaf(item))
}

/// States that each leaf is below exactly one line of each level: its item at that level, or the leaf itself if it is
/// not that deep.
pub fn each_leaf_has_one_line()
    ensures one { (rows : List ItemRow) (level x : ℕ) → AreInRange rows → IsTree rows → 1 ≤ level →
        x < length rows → IsLeaf rows x
        → (y : ℕ) × ((y < length rows) × HasLine rows level y × IsAtLevel rows x level y
        × ((z : ℕ) → HasLine rows level z → IsBelow rows x z → z ≡ y)) }
{}
