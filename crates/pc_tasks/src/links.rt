//! The tasks that links connect to the start and to the end.
ghost use Rattle.std.specs.Prelude.{◌≡◌, ◌<◌, ◌^◌, false, not, filter, length, slice_index_or, IfOk};
ghost use Rattle.pc_tasks.specs.network.Arrows.{firsts, lasts};
ghost use Rattle.pc_tasks.specs.network.Tasks.{AreAmong};
ghost use Rattle.std.specs.List.{range_with_len};

use pc_project::AfterRow;
use std::alloc::{AllocError, Global};

/// Returns the tasks that come after no other, in card order. Linear in tasks and rows.
pub(crate) fn firsts(alloc: Global, tasks: u32, afters: &[AfterRow]) -> Result<Vec<u32>, AllocError>
    requires { AreAmong tasks afters.now }
    ensures { IfOk result (λ found. found.items ≡ firsts tasks afters.now) }
{
    let mut come = vec![in alloc; false; tasks as usize]?;
    for after in afters {
        come[after.task as usize] = true;
    }
    unmarked(alloc, &come)
}

/// Returns the tasks that no other comes after, in card order. Linear in tasks and rows.
pub(crate) fn lasts(alloc: Global, tasks: u32, afters: &[AfterRow]) -> Result<Vec<u32>, AllocError>
    requires { AreAmong tasks afters.now }
    ensures { IfOk result (λ found. found.items ≡ lasts tasks afters.now) }
{
    let mut come = vec![in alloc; false; tasks as usize]?;
    for after in afters {
        come[after.before as usize] = true;
    }
    unmarked(alloc, &come)
}

/// Returns the numbers without a mark, in their order.
fn unmarked(alloc: Global, marks: &[bool]) -> Result<Vec<u32>, AllocError>
    requires { length marks.now < 2 ^ 32 }
    ensures { IfOk result (λ found. found.items
        ≡ filter (λ i. not (slice_index_or marks.now i false)) (range_with_len 0 (length marks.now))) }
{
    let mut found = Vec::with_capacity(alloc, marks.len())?;
    for i in 0..marks.len() as u32 {
        if !marks[i as usize] {
            found.push(i)?;
        }
    }
    Ok(found)
}
