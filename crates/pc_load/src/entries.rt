//! What a project spreads: the costs of its activities, and its loads on resources.
ghost use Rattle.std.specs.Prelude.{◌≡◌, ◌<◌, length, IfOk};
ghost use Rattle.pc_load.specs.inside.Entries.{AreCosts, AreLoads, AreEarliestTimes};
ghost use Rattle.pc_load.specs.Loading.{spread_at};
ghost use Rattle.pc_load.specs.inside.Table.{AreEntries};

use crate::spread::Spread;
use crate::table::LoadRow;
use pc_project::Project;
use std::alloc::{AllocError, Global};

/// The cost of each activity, on the activity's item.
pub(crate) fn costs(
    alloc: Global,
    project: &Project,
    times: &[u64],
) -> Result<Vec<LoadRow>, AllocError>
    requires { AreEarliestTimes project.now times.now }
    ensures costs { IfOk result (λ entries. AreCosts project.now times.now
        (length project.now.network.arcs) entries.items) }
    ensures entries { IfOk result (λ entries. AreEntries (length project.now.tree) entries.items) }
{
    let (places, terms) = (project.places(), project.activity_terms());
    let mut entries = Vec::with_capacity(alloc, places.len())?;
    for a in 0..places.len() {
        let spread = spread_at(project, times, a as u32, terms[a].cost);
        entries.push(LoadRow {
            row: places[a],
            spread,
        })?;
    }
    Ok(entries)
}

/// The quantity of each load, on the load's resource.
pub(crate) fn loads(
    alloc: Global,
    project: &Project,
    times: &[u64],
) -> Result<Vec<LoadRow>, AllocError>
    requires { AreEarliestTimes project.now times.now }
    ensures loads { IfOk result (λ entries. AreLoads project.now times.now (length project.now.loads) entries.items) }
    ensures entries { IfOk result (λ entries. AreEntries (length project.now.resources) entries.items) }
{
    let loads = project.loads();
    let mut entries = Vec::with_capacity(alloc, loads.len())?;
    for load in loads {
        let spread = spread_at(project, times, load.activity, load.quantity);
        entries.push(LoadRow {
            row: load.resource,
            spread,
        })?;
    }
    Ok(entries)
}

/// An amount of an activity, spread over its expected time from the time of the event where it begins.
fn spread_at(project: &Project, times: &[u64], a: u32, amount: u64) -> Spread
    requires times { AreEarliestTimes project.now times.now }
    requires known { a < length project.now.network.arcs }
    ensures { result ≡ spread_at project.now times.now a amount }
{
    Spread {
        begin: times[project.net().from(a) as usize],
        length: project.expected()[a as usize],
        amount,
    }
}
