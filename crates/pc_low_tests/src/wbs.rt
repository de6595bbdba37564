//! The tree and its refusals on small rows.
ghost use Rattle.std.specs.Prelude.{◌≡◌, ◌<◌, ◌≤◌, length, IfOk, IfSome};
ghost use Rattle.pc_wbs.specs.Climb.{AreInRange};

use pc_wbs::{ItemRow, Tree, TreeError};
use std::alloc::{AllocError, Global};

fn within(parent: Option<u32>, count: u32) -> Option<u32>
    ensures { IfSome result (λ p. p < count) }
{
    match parent {
        Some(p) if p < count => Some(p),
        _ => None,
    }
}

/// Rows with these parents.
fn rows_of(alloc: Global, parents: &[Option<u32>]) -> Result<Vec<ItemRow>, AllocError>
    requires { length parents.now ≤ 100 }
    ensures count { IfOk result (λ rows. length rows.items ≡ length parents.now) }
    ensures in_range { IfOk result (λ rows. AreInRange rows.items) }
{
    let mut rows = Vec::new(alloc);
    for parent in parents {
        rows.push(ItemRow {
            parent: within(*parent, parents.len() as u32),
        })?;
    }
    Ok(rows)
}

fn built(alloc: Global, parents: &[Option<u32>]) -> Result<Tree, TreeError>
    requires { length parents.now ≤ 100 }
{
    let rows = rows_of(alloc, parents)?;
    Tree::build(alloc, &rows)
}

// 2 is the top, 0 and 4 are its children, 1 and 3 those of 4.
const PARENTS: &[Option<u32>] = &[Some(2), Some(4), None, Some(4), Some(2)];

fn is_as_built(tree: &Tree) -> bool {
    if tree.len() != 5 {
        return false;
    }
    let is_shaped = (tree.depth() == 3) & (tree.preorder() == [2, 0, 4, 1, 3].as_slice());
    let has_parents = (tree.parent(3) == Some(4)) & tree.parent(2).is_none();
    let has_levels = (tree.level(3) == 3) & (tree.level(2) == 1);
    let has_leaves = tree.is_leaf(0) & !tree.is_leaf(4);
    let above = [
        tree.ancestor_at(3, 1),
        tree.ancestor_at(3, 2),
        tree.ancestor_at(0, 3),
    ];
    is_shaped & has_parents & has_levels & has_leaves & (above == [2, 4, 0])
}

fn is_built(alloc: Global) -> bool {
    match built(alloc, PARENTS) {
        Ok(tree) => is_as_built(&tree),
        Err(_) => false,
    }
}

#[test]
fn builds_a_tree(rt: HostRuntime) {
    assert!(rt; is_built(rt.alloc()));
}

/// Why rows are no tree, with the item and its level, or the depth of their tree.
#[derive(Clone, Copy, PartialEq)]
enum TreeFound {
    Depth(u32),
    NoTop,
    SecondTop(u32),
    TooDeep(u32, u32),
    Other,
}

/// The same for what building a tree returned.
fn found_in(built: &Result<Tree, TreeError>) -> TreeFound {
    match built {
        Ok(tree) => TreeFound::Depth(tree.depth()),
        Err(TreeError::NoTop) => TreeFound::NoTop,
        Err(TreeError::SecondTop { item }) => TreeFound::SecondTop(*item),
        Err(TreeError::TooDeep { item, level }) => TreeFound::TooDeep(*item, *level),
        Err(_) => TreeFound::Other,
    }
}

fn found_of(alloc: Global, parents: &[Option<u32>]) -> TreeFound
    requires { length parents.now ≤ 100 }
{
    found_in(&built(alloc, parents))
}

/// Whether the rows are refused for a loop of these.
fn has_loop(alloc: Global, parents: &[Option<u32>], rows: &[u32]) -> bool
    requires { length parents.now ≤ 100 }
{
    match built(alloc, parents) {
        Err(TreeError::Loop(found)) => found.as_slice() == rows,
        _ => false,
    }
}

// 3, 5 and 4 are a loop, 6 is one of its own, and 2 leads into the first.
const LOOPED: &[Option<u32>] = &[None, Some(0), Some(5), Some(5), Some(3), Some(4), Some(6)];

#[test]
fn refuses_what_is_no_tree(rt: HostRuntime) {
    assert!(rt; found_of(rt.alloc(), &[]) == TreeFound::NoTop);
    assert!(rt; found_of(rt.alloc(), &[Some(1), Some(0)]) == TreeFound::NoTop);
    assert!(rt; found_of(rt.alloc(), &[None, Some(0), None, None]) == TreeFound::SecondTop(2));
    assert!(rt; has_loop(rt.alloc(), LOOPED, &[3, 5, 4]));
}

/// What is found of a chain of 16 rows, and of one of 18.
fn of_chains(alloc: Global) -> [TreeFound; 2] {
    let mut parents = [None; 18];
    for item in 1..18 {
        parents[item] = Some(item as u32 - 1);
    }
    [found_of(alloc, &parents[..16]), found_of(alloc, &parents)]
}

#[test]
fn refuses_the_seventeenth_level(rt: HostRuntime) {
    assert!(rt; of_chains(rt.alloc()) == [TreeFound::Depth(16), TreeFound::TooDeep(16, 17)]);
}
