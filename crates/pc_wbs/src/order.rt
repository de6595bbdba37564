//! The preorder of a tree, over links from each row to its first child and to its next sibling.
ghost use Rattle.std.specs.Prelude.{◌<◌, ◌≤◌, length, IfOk, ◌+◌};
ghost use Rattle.pc_model.specs.declared.limits.TheConstants.{MAX_ITEMS};
ghost use Rattle.pc_wbs.specs.Climb.{AreInRange, IsOnlyTop, IsTree};
ghost use Rattle.pc_wbs.specs.inside.Links.{AreFirstChildren, AreNextSiblings, IsNextBeside};
ghost use Rattle.pc_wbs.specs.inside.Precedes.{IsSuccessor};
ghost use Rattle.pc_wbs.specs.Preorder.{IsPreorder};

use crate::tree::{ItemRow, parent_of};
use pc_model::MAX_LEVEL;
use std::alloc::{AllocError, Global};

/// The items in preorder: after each its first child, or else the next sibling of the nearest item that has one.
pub(crate) fn preorder(
    alloc: Global,
    rows: &[ItemRow],
    links: &Links,
    top: u32,
) -> Result<Vec<u32>, AllocError>
    requires count { length rows.now ≤ MAX_ITEMS }
    requires in_range { AreInRange rows.now }
    requires tree { IsTree rows.now }
    requires top { IsOnlyTop rows.now top }
    requires firsts { AreFirstChildren rows.now 0 links.now.firsts.items }
    requires nexts { AreNextSiblings rows.now 0 links.now.nexts.items }
    ensures { IfOk result (λ order. IsPreorder rows.now order.items) }
{
    let mut order = Vec::with_capacity(alloc, rows.len())?;
    let mut next = Some(top);
    while let Some(item) = next {
        order.push(item)?;
        next = next_after(rows, links, item);
    }
    Ok(order)
}

/// The item after this one in preorder.
fn next_after(rows: &[ItemRow], links: &Links, item: u32) -> Option<u32>
    requires in_range { AreInRange rows.now }
    requires tree { IsTree rows.now }
    requires item { item < length rows.now }
    requires firsts { AreFirstChildren rows.now 0 links.now.firsts.items }
    requires nexts { AreNextSiblings rows.now 0 links.now.nexts.items }
    ensures { IsSuccessor rows.now item result }
{
    if let Some(child) = links.firsts[item as usize] {
        return Some(child);
    }
    next_beside(rows, &links.nexts, item)
}

/// The next sibling of an item, or else of the nearest item above it that has one.
fn next_beside(rows: &[ItemRow], nexts: &[Option<u32>], item: u32) -> Option<u32>
    requires in_range { AreInRange rows.now }
    requires tree { IsTree rows.now }
    requires item { item < length rows.now }
    requires nexts { AreNextSiblings rows.now 0 nexts.now }
    ensures { IsNextBeside rows.now nexts.now item result }
{
    let mut at = item;
    for _climbed in 0..MAX_LEVEL {
        if let Some(sibling) = nexts[at as usize] {
            return Some(sibling);
        }
        match parent_of(rows, at) {
            Some(parent) => at = parent,
            None => return None,
        }
    }
    unreachable!()
}

/// The first child and the next sibling of each row.
#[derive(Drop)]
pub(crate) struct Links {
    pub firsts: Vec<Option<u32>>,
    pub nexts: Vec<Option<u32>>,
}

/// The links of the rows, made from the last row to the first.
pub(crate) fn links_of(alloc: Global, rows: &[ItemRow]) -> Result<Links, AllocError>
    requires count { length rows.now ≤ MAX_ITEMS }
    requires in_range { AreInRange rows.now }
    ensures firsts { IfOk result (λ links. AreFirstChildren rows.now 0 links.firsts.items) }
    ensures nexts { IfOk result (λ links. AreNextSiblings rows.now 0 links.nexts.items) }
{
    let mut firsts = vec![in alloc; None; rows.len()]?;
    let mut nexts = vec![in alloc; None; rows.len()]?;
    for item in (0..rows.len() as u32).rev() {
        link(rows, item, &mut firsts, &mut nexts);
    }
    Ok(Links { firsts, nexts })
}

/// Makes a row the first child of its parent, if it has one, and the child that was first before it its next sibling.
fn link(rows: &[ItemRow], item: u32, firsts: &mut Vec<Option<u32>>, nexts: &mut Vec<Option<u32>>)
    requires in_range { AreInRange rows.now }
    requires item { item < length rows.now }
    requires firsts { AreFirstChildren rows.now (item + 1) firsts.old.items }
    requires nexts { AreNextSiblings rows.now (item + 1) nexts.old.items }
    ensures firsts { AreFirstChildren rows.now item firsts.new.items }
    ensures nexts { AreNextSiblings rows.now item nexts.new.items }
{
    let Some(parent) = parent_of(rows, item) else {
        return;
    };
    nexts[item as usize] = firsts[parent as usize];
    firsts[parent as usize] = Some(item);
}
