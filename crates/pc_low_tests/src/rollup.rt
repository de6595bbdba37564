//! Sums by item on a tree of three levels.
ghost use Rattle.std.specs.Prelude.{◌≡◌, ◌*◌, ◌≤◌, length, sum_by, unsigned_abs, IfOk, IfSome};
ghost use Rattle.pc_rollup.specs.inside.Totals.{AreOnLeaves};

use pc_rollup::{LevelLine, Placed, level_lines, totals_of};
use pc_wbs::{ItemRow, Tree};
use std::alloc::{AllocError, Global};

/// Item 0 has the children 1 and 2; item 1 has the children 3 and 4.
fn tree(alloc: Global) -> Option<Tree>
    ensures { IfSome result (λ tree. length tree ≡ 5) }
{
    let rows = [
        ItemRow { parent: None },
        ItemRow { parent: Some(0) },
        ItemRow { parent: Some(0) },
        ItemRow { parent: Some(1) },
        ItemRow { parent: Some(1) },
    ];
    Tree::build(alloc, &rows).ok()
}

/// Amounts on leaves of the tree.
fn on_leaves(alloc: Global, tree: &Tree, amounts: &[(u32, u16)]) -> Result<Vec<Placed>, AllocError>
    requires { length amounts.now ≤ 100 }
    ensures leaves { IfOk result (λ placed. AreOnLeaves tree.now placed.items) }
    ensures small { IfOk result (λ placed. sum_by (λ p. unsigned_abs p.amount) placed.items
        ≤ 65535 * length amounts.now) }
{
    let mut placed = Vec::new(alloc);
    for &(item, amount) in amounts {
        if item < tree.len() && tree.is_leaf(item) {
            placed.push(Placed {
                item,
                amount: i64::from(amount),
            })?;
        }
    }
    Ok(placed)
}

const AMOUNTS: &[(u32, u16)] = &[(3, 5), (2, 7), (4, 11), (3, 20)];

const TOTALS: &[i64] = &[43, 36, 7, 25, 11];

const SECOND: &[LevelLine] = &[
    LevelLine {
        item: 1,
        amount: 36,
    },
    LevelLine { item: 2, amount: 7 },
];

// Item 2 is a leaf above the third level.
const THIRD: &[LevelLine] = &[
    LevelLine {
        item: 3,
        amount: 25,
    },
    LevelLine {
        item: 4,
        amount: 11,
    },
    LevelLine { item: 2, amount: 7 },
];

/// Whether these are the lines of a level.
fn are_lines(
    alloc: Global,
    tree: &Tree,
    level: u32,
    totals: &[i64],
    lines: &[LevelLine],
) -> Result<bool, AllocError>
    requires level { 1 ≤ level }
    requires one_each { length totals.now ≡ length tree.now }
{
    Ok(level_lines(alloc, tree, level, totals)?.as_slice() == lines)
}

/// Whether the amounts are summed by item and by level.
fn is_summed(alloc: Global, tree: &Tree) -> Result<bool, AllocError>
    requires { length tree.now ≡ 5 }
{
    let placed = on_leaves(alloc, tree, AMOUNTS)?;
    let totals = totals_of(alloc, tree, &placed)?;
    let is_second = are_lines(alloc, tree, 2, &totals, SECOND)?;
    let is_third = are_lines(alloc, tree, 3, &totals, THIRD)?;
    Ok((totals.as_slice() == TOTALS) & is_second & is_third)
}

fn sums(alloc: Global) -> Option<bool> {
    let tree = tree(alloc)?;
    is_summed(alloc, &tree).ok()
}

#[test]
fn sums_by_item_and_level(rt: HostRuntime) {
    assert!(rt; sums(rt.alloc()) == Some(true));
}
