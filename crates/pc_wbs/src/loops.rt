//! Loops: rows from which repeated parents lead back to them.
ghost use Rattle.std.specs.Prelude.{◌≡◌, ℕ, ◌≤◌, length, IfOk, IfErr, OnOk};
ghost use Rattle.pc_model.specs.declared.limits.TheConstants.{MAX_ITEMS};
ghost use Rattle.pc_wbs.specs.Climb.{AreInRange, IsOnlyTop};
ghost use Rattle.pc_wbs.specs.Refusal.{IsTreeError, IsLooped, IsLoopFrom};
ghost use Rattle.pc_wbs.specs.inside.Ends.{AreEnds, AreDoubled, StayInside, IsLeastBelow, IsFirstLooped, lesser};

use crate::error::TreeError;
use crate::tree::{ItemRow, parent_of};
use pc_model::Indices;
use std::alloc::{AllocError, Global};

/// How often a climb is doubled, so that it has at least as many steps as there can be rows.
const DOUBLINGS: u32 = 14;

/// Refuses rows that have a loop.
pub(crate) fn refuse_loop(alloc: Global, rows: &[ItemRow]) -> Result<(), TreeError>
    requires count { length rows.now ≤ MAX_ITEMS }
    requires in_range { AreInRange rows.now }
    requires top { (top : ℕ) × IsOnlyTop rows.now top }
    ensures none { OnOk result ((x : ℕ) → IsLooped rows.now x → ⊥) }
    ensures refusal { IfErr result (IsTreeError rows.now) }
{
    match first_on_loop(alloc, rows)? {
        Some(start) => Err(TreeError::Loop(loop_from(alloc, rows, start)?)),
        None => Ok(()),
    }
}

/// The first row on a loop.
///
/// A climb of at least as many steps as there are rows ends on a loop, and each row of a loop is the end of such a
/// climb. Climbs from all rows at once are doubled until they are that long.
fn first_on_loop(alloc: Global, rows: &[ItemRow]) -> Result<Option<u32>, AllocError>
    requires count { length rows.now ≤ MAX_ITEMS }
    requires in_range { AreInRange rows.now }
    ensures { IfOk result (IsFirstLooped rows.now) }
{
    let mut ends = parents(alloc, rows)?;
    for _round in 0..DOUBLINGS {
        ends = doubled(alloc, &ends)?;
    }
    Ok(least(&ends))
}

/// The parent of each row.
fn parents(alloc: Global, rows: &[ItemRow]) -> Result<Vec<Option<u32>>, AllocError>
    requires { length rows.now ≤ MAX_ITEMS }
    ensures { IfOk result (λ ends. AreEnds rows.now (length rows.now) 1 ends.items) }
{
    let mut parents = Vec::with_capacity(alloc, rows.len())?;
    for item in 0..rows.len() as u32 {
        parents.push(parent_of(rows, item))?;
    }
    Ok(parents)
}

/// Where climbs of twice as many steps end.
fn doubled(alloc: Global, ends: &[Option<u32>]) -> Result<Vec<Option<u32>>, AllocError>
    requires { StayInside ends.now }
    ensures { IfOk result (λ twice. AreDoubled ends.now (length ends.now) twice.items) }
{
    let mut twice = Vec::with_capacity(alloc, ends.len())?;
    for item in 0..ends.len() {
        twice.push(match ends[item] {
            Some(end) => ends[end as usize],
            None => None,
        })?;
    }
    Ok(twice)
}

/// The least of the ends.
fn least(ends: &[Option<u32>]) -> Option<u32>
    ensures { IsLeastBelow ends.now (length ends.now) result }
{
    let mut least = None;
    for item in 0..ends.len() {
        least = lesser(least, ends[item]);
    }
    least
}

/// The lesser of two ends, if there is one.
fn lesser(a: Option<u32>, b: Option<u32>) -> Option<u32>
    ensures { result ≡ lesser a b }
{
    match (a, b) {
        (Some(a), Some(b)) => Some(a.min(b)),
        (None, b) => b,
        (a, None) => a,
    }
}

/// The rows of a loop, from one of them on, each followed by its parent.
fn loop_from(alloc: Global, rows: &[ItemRow], start: u32) -> Result<Indices, AllocError>
    requires in_range { AreInRange rows.now }
    requires looped { IsLooped rows.now start }
    ensures { IfOk result (IsLoopFrom rows.now start) }
{
    let mut found = Vec::new(alloc);
    let mut at = start;
    for _step in 0..rows.len() {
        found.push(at)?;
        match parent_of(rows, at) {
            Some(parent) if parent != start => at = parent,
            _ => return Ok(Indices::new(found)),
        }
    }
    unreachable!()
}
