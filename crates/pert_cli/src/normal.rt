//! `normal`: the schedule at the all-normal length.
ghost use Rattle.std.specs.Prelude.{◌≡◌, IfOk};
ghost use Rattle.pc_model.specs.Schedule.{normals};
ghost use Rattle.pert_cli.specs.Normal.{IsNormalSchedule};

use crate::printed::PrintedSchedule;
use pc_model::Term;
use pc_project::Project;
use pc_times::early;
use std::alloc::{AllocError, Global};

/// Returns the schedule at the all-normal length of a project: every activity at its normal duration, every event as
/// early as possible. Linear in events, activities and pieces.
pub(crate) fn normal_schedule(
    alloc: Global,
    project: &Project,
) -> Result<PrintedSchedule, AllocError>
    ensures { IfOk result (IsNormalSchedule project.now) }
{
    let net = project.net();
    let durations = normal_durations(alloc, project.activity_terms())?;
    let times = early(alloc, net, &durations)?;
    let cost = project.priced(alloc)?.cost_of(&durations);
    Ok(PrintedSchedule {
        total: times[net.end() as usize],
        cost,
        times,
        durations,
    })
}

/// Returns the normal durations, in card order.
fn normal_durations(alloc: Global, terms: &[Term]) -> Result<Vec<u64>, AllocError>
    ensures { IfOk result (λ durations. durations.items ≡ normals terms.now) }
{
    terms.iter().map(|term| term.normal).collect(alloc)
}
