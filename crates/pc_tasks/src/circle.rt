//! Whether tasks wait for each other in a circle.
ghost use Rattle.std.specs.Prelude.{◌≡◌, ◌<◌, ◌≤◌, length, IfOk, MatchOption};
ghost use Rattle.pc_tasks.specs.network.Arrows.{tasks_of, wide_arrows};
ghost use Rattle.pc_tasks.specs.network.Cycles.{HasNoTaskCycle, IsFirstTaskCycle};
ghost use Rattle.pc_tasks.specs.network.Tasks.{AreAmong};
ghost use Rattle.pc_deck.specs.declared.limits.TheConstants.{MAX_AFTERS, MAX_TASKS};

use crate::network::wide_arrows_have_the_cycles;
use pc_model::Arc;
use pc_net::{Net, NetError};
use pc_project::AfterRow;
use std::alloc::{AllocError, Global};

/// Returns the tasks of the first circle, if there is one: each comes after the one before it, and the first after the
/// last.
///
/// Linear in the tasks and the rows.
pub(crate) fn first_circle(
    alloc: Global,
    tasks: u32,
    afters: &[AfterRow],
) -> Result<Option<Vec<u32>>, AllocError>
    requires some { 0 < tasks }
    requires few { tasks ≤ MAX_TASKS }
    requires few_afters { length afters.now ≤ MAX_AFTERS }
    requires among { AreAmong tasks afters.now }
    ensures { IfOk result (λ found. MatchOption found
        (HasNoTaskCycle afters.now)
        (λ cycle. IsFirstTaskCycle afters.now cycle.items)) }
{
    // The wide arrows have a cycle exactly if there is a circle, and their first one passes the first circle.
    wide_arrows_have_the_cycles();
    let arcs = wide_arcs(alloc, tasks, afters)?;
    match Net::build(alloc, 2 * tasks + 2, 0, 2 * tasks + 1, &arcs) {
        Ok(_) => Ok(None),
        Err(NetError::Cycle(walk)) => Ok(Some(tasks_of(alloc, tasks, walk.as_slice())?)),
        Err(NetError::OutOfMemory) => Err(AllocError),
        Err(NetError::StartEntered { .. }) => unreachable!(),
        Err(NetError::EndLeft { .. }) => unreachable!(),
        Err(NetError::Dangling { .. }) => unreachable!(),
    }
}

/// Returns the activities of the wide arrows: the tasks, and then the links of the rows, from the start and to the end.
fn wide_arcs(alloc: Global, tasks: u32, afters: &[AfterRow]) -> Result<Vec<Arc>, AllocError>
    requires few { tasks ≤ MAX_TASKS }
    requires few_afters { length afters.now ≤ MAX_AFTERS }
    requires among { AreAmong tasks afters.now }
    ensures { IfOk result (λ arcs. arcs.items ≡ (wide_arrows tasks afters.now).arcs) }
{
    let room = 3 * tasks as usize + afters.len();
    let mut arcs = Vec::with_capacity(alloc, room)?;
    arcs.extend((0..tasks).map(|i| Arc {
        from: 2 * i + 1,
        to: 2 * i + 2,
    }))?;
    for after in afters {
        arcs.push(Arc {
            from: 2 * after.before + 2,
            to: 2 * after.task + 1,
        })?;
    }
    arcs.extend((0..tasks).map(|i| Arc {
        from: 0,
        to: 2 * i + 1,
    }))?;
    arcs.extend((0..tasks).map(|i| Arc {
        from: 2 * i + 2,
        to: 2 * tasks + 1,
    }))?;
    Ok(arcs)
}

/// Returns the tasks among the activities of a walk.
fn tasks_of(alloc: Global, tasks: u32, walk: &[u32]) -> Result<Vec<u32>, AllocError>
    ensures { IfOk result (λ of. of.items ≡ tasks_of tasks walk.now) }
{
    walk.iter().copied().filter(|a| *a < tasks).collect(alloc)
}
