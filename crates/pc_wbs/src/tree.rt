//! The tree of a work breakdown structure, and the rows that it is built from.
ghost use Rattle.std.specs.Prelude.{◌≡◌, ◌<◌, ◌≤◌, ◌↔◌, length, IsTrue, IsNone, IfOk, IfErr, IfSome};
ghost use Rattle.pc_model.specs.declared.limits.TheConstants.{MAX_ITEMS, MAX_LEVEL};
ghost use Rattle.pc_wbs.specs.Climb.{parent_of, AreInRange, HasLevel, IsTop, IsLeaf, IsTree, IsDepth, IsAtLevel};
ghost use Rattle.pc_wbs.specs.Preorder.{IsPreorder};
ghost use Rattle.pc_wbs.specs.Refusal.{IsTreeError};

use crate::error::TreeError;
use crate::levels::{depth_of, levels_of, only_top};
use crate::order;
use crate::order::links_of;
use std::alloc::Global;
use std::marker::Model;

/// A tree of items, each identified by its row number. In contracts it is its rows.
pub struct Tree {
    rows: Vec<ItemRow>,
    levels: Vec<u32>,
    depth: u32,
    firsts: Vec<Option<u32>>,
    order: Vec<u32>,
}

impl Drop for Tree {
    // Written by hand so that the proof of dropping a tree is done once, here.
    fn drop(self) {
        let Tree {
            rows: _rows,
            levels: _levels,
            depth: _depth,
            firsts: _firsts,
            order: _order,
        } = self;
    }
}

impl Model for Tree {
    ghost use Rattle.std.specs.Prelude.{List};
    ghost use Rattle.pc_wbs.specs.declared.tree.ItemRow.{ItemRow};

    ghost Value = { List ItemRow };

    ghost view = { λ tree. tree.rows.items };

    ghost use Rattle.pc_wbs.specs.inside.Parts.{AreTreeParts};

    ghost invariant = { AreTreeParts };
}

impl Tree {
    /// Builds the tree of these rows. Linear in the rows; naming a loop takes about fourteen more passes.
    ///
    /// # Errors
    ///
    /// Returns the first of the causes of [`TreeError`] that applies.
    pub fn build(alloc: Global, rows: &[ItemRow]) -> Result<Tree, TreeError>
        requires count { length rows.now ≤ MAX_ITEMS }
        requires in_range { AreInRange rows.now }
        ensures rows { IfOk result (λ tree. tree ≡ rows.now) }
        ensures tree { IfOk result IsTree }
        ensures refusal { IfErr result (IsTreeError rows.now) }
    {
        let top = only_top(rows)?;
        let levels = levels_of(alloc, rows)?;
        let links = links_of(alloc, rows)?;
        let order = order::preorder(alloc, rows, &links, top)?;
        Ok(Tree {
            rows: Vec::from_slice(alloc, rows)?,
            depth: depth_of(&levels),
            levels,
            firsts: links.firsts,
            order,
        })
    }

    /// Returns the number of items.
    pub fn len(&self) -> u32
        ensures len { result ≡ length self.now }
        ensures count { length self.now ≤ MAX_ITEMS }
        ensures in_range { AreInRange self.now }
        ensures tree { IsTree self.now }
    {
        self.rows.len() as u32
    }

    /// Returns the parent of an item, or `None` for the top.
    pub fn parent(&self, i: u32) -> Option<u32>
        requires { i < length self.now }
        ensures parent { result ≡ parent_of self.now i }
        ensures top { IsNone result ↔ IsTop self.now i }
        ensures inside { IfSome result (λ p. p < length self.now) }
    {
        parent_of(&self.rows, i)
    }

    /// Returns the level of an item, 1 at the top.
    pub fn level(&self, i: u32) -> u32
        requires { i < length self.now }
        ensures level { HasLevel self.now i result }
        ensures within { result ≤ MAX_LEVEL }
    {
        self.levels[i as usize]
    }

    /// Returns the greatest level of an item.
    pub fn depth(&self) -> u32
        ensures depth { IsDepth self.now result }
        ensures within { result ≤ MAX_LEVEL }
    {
        self.depth
    }

    /// Returns whether the item has no children.
    pub fn is_leaf(&self, i: u32) -> bool
        requires { i < length self.now }
        ensures { IsTrue result ↔ IsLeaf self.now i }
    {
        self.firsts[i as usize].is_none()
    }

    /// Returns the items in preorder: the top first, each item before its children, children in row order.
    pub fn preorder(&self) -> &[u32]
        ensures order { IsPreorder self.now result.now }
        ensures in_range { AreInRange self.now }
        ensures tree { IsTree self.now }
    {
        self.order.as_slice()
    }

    /// Returns the item or its ancestor that is at `level`, or the item itself if its own level is less. Takes one step
    /// per level between them.
    pub fn ancestor_at(&self, i: u32, level: u32) -> u32
        requires item { i < length self.now }
        requires level { 1 ≤ level }
        ensures at_level { IsAtLevel self.now i level result }
        ensures inside { result < length self.now }
    {
        let own = self.level(i);
        let mut at = i;
        for _step in level..own {
            let Some(parent) = self.parent(at) else {
                unreachable!()
            };
            at = parent;
        }
        at
    }
}

/// A row of a work breakdown structure: an item, given by the row of its parent, counted from 0.
///
/// Only the top item has no parent.
#[derive(Clone, Copy)]
pub struct ItemRow {
    pub parent: Option<u32>,
}

/// The parent of a row.
pub(crate) fn parent_of(rows: &[ItemRow], item: u32) -> Option<u32>
    requires { item < length rows.now }
    ensures { result ≡ parent_of rows.now item }
{
    rows[item as usize].parent
}
