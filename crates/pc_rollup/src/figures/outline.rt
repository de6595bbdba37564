//! The items in the order in which reports list them.
ghost use Rattle.std.specs.Prelude.{IfOk};
ghost use Rattle.pc_wbs.specs.Climb.{AreInRange, IsTree};
ghost use Rattle.pc_rollup.specs.figures.Outline.{IsOutline};

use pc_wbs::Tree;
use std::alloc::{AllocError, Global};

/// An item and its level, 1 at the top.
#[derive(Clone, Copy, Debug, PartialEq, Eq)]
pub struct OutlineRow {
    pub item: u32,
    pub level: u32,
}

/// Returns one row per item in preorder: the top first, each item before its children.
///
/// # Errors
///
/// Returns `AllocError` if memory runs out.
pub fn outline_of(alloc: Global, tree: &Tree) -> Result<Vec<OutlineRow>, AllocError>
    ensures outline { IfOk result (λ outline. IsOutline tree.now outline.items) }
    ensures ranged { AreInRange tree.now }
    ensures sound { IsTree tree.now }
{
    let mut outline = Vec::with_capacity(alloc, tree.len() as usize)?;
    for &item in tree.preorder() {
        let level = tree.level(item);
        outline.push(OutlineRow { item, level })?;
    }
    Ok(outline)
}
