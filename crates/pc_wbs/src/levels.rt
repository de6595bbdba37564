//! The level of each row, by climbing at most as many steps as a tree has levels.
ghost use Rattle.std.specs.Prelude.{◌≡◌, ℕ, ◌<◌, ◌≤◌, length, Some, IfOk, IfErr, IfSome, IfNone};
ghost use Rattle.pc_model.specs.declared.limits.TheConstants.{MAX_ITEMS};
ghost use Rattle.pc_wbs.specs.Climb.{AreInRange, climb, HasLevel, IsOnlyTop};
ghost use Rattle.pc_wbs.specs.Refusal.{IsTreeError, IsLooped};
ghost use Rattle.pc_wbs.specs.inside.Ends.{AreLevels, AreGreatest};

use crate::error::TreeError;
use crate::loops;
use crate::tree::{ItemRow, parent_of};
use pc_model::MAX_LEVEL;
use std::alloc::Global;

/// The only row without a parent.
pub(crate) fn only_top(rows: &[ItemRow]) -> Result<u32, TreeError>
    requires { length rows.now ≤ MAX_ITEMS }
    ensures top { IfOk result (IsOnlyTop rows.now) }
    ensures refusal { IfErr result (IsTreeError rows.now) }
{
    let mut top = None;
    for item in 0..rows.len() as u32 {
        if parent_of(rows, item).is_none() {
            if top.is_some() {
                return Err(TreeError::SecondTop { item });
            }
            top = Some(item);
        }
    }
    top.ok_or(TreeError::NoTop)
}

/// The level of a row, if it is among the first `most`.
fn level_within(rows: &[ItemRow], item: u32, most: u32) -> Option<u32>
    requires in_range { AreInRange rows.now }
    requires item { item < length rows.now }
    requires most { most ≤ MAX_ITEMS }
    ensures found { IfSome result (λ level. HasLevel rows.now item level) }
    ensures within { IfSome result (λ level. level ≤ most) }
    ensures none { IfNone result ((end : ℕ) × (climb rows.now most item ≡ Some end)) }
{
    let mut at = item;
    for climbed in 0..most {
        match parent_of(rows, at) {
            Some(parent) => at = parent,
            None => return Some(climbed + 1),
        }
    }
    None
}

/// The level of each row, where each is among the first `MAX_LEVEL`.
pub(crate) fn levels_of(alloc: Global, rows: &[ItemRow]) -> Result<Vec<u32>, TreeError>
    requires count { length rows.now ≤ MAX_ITEMS }
    requires in_range { AreInRange rows.now }
    requires top { (top : ℕ) × IsOnlyTop rows.now top }
    ensures levels { IfOk result (λ levels. AreLevels rows.now (length rows.now) levels.items) }
    ensures refusal { IfErr result (IsTreeError rows.now) }
{
    let mut levels = Vec::with_capacity(alloc, rows.len())?;
    for item in 0..rows.len() as u32 {
        match level_within(rows, item, MAX_LEVEL) {
            Some(level) => levels.push(level)?,
            None => {
                loops::refuse_loop(alloc, rows)?;
                return Err(TreeError::TooDeep {
                    item,
                    level: level_of(rows, item),
                });
            }
        }
    }
    Ok(levels)
}

/// The level of a row, if there is no loop.
fn level_of(rows: &[ItemRow], item: u32) -> u32
    requires count { length rows.now ≤ MAX_ITEMS }
    requires in_range { AreInRange rows.now }
    requires item { item < length rows.now }
    requires no_loop { (x : ℕ) → IsLooped rows.now x → ⊥ }
    ensures { HasLevel rows.now item result }
{
    match level_within(rows, item, rows.len() as u32) {
        Some(level) => level,
        None => unreachable!(),
    }
}

/// The greatest level.
pub(crate) fn depth_of(levels: &[u32]) -> u32
    ensures { AreGreatest levels.now (length levels.now) result }
{
    let mut depth = 0;
    for level in levels {
        depth = depth.max(*level);
    }
    depth
}
