//! The time at which the end is to be met, and the latest times by it.
ghost use Rattle.std.specs.Prelude.{◌≡◌, ◌≤◌, ◌≤ℤ◌, pos, unsigned_abs, IfOk};
ghost use Rattle.std.specs.List.{All};
ghost use Rattle.std.specs.Option.{ForSome};
ghost use Rattle.pc_model.specs.declared.limits.TheConstants.{MAX_DIRECTED};
ghost use Rattle.pc_times.specs.declared.TheConstants.{MAX_TIME};
ghost use Rattle.pc_times.specs.Late.{AreLate};
ghost use Rattle.pc_reports.specs.Times.{end_to_meet};

use pc_project::Project;
use pc_times::late;
use std::alloc::{AllocError, Global};

/// Returns the latest time of each event at which the end can still be met.
pub(crate) fn late_to_meet(
    alloc: Global,
    project: &Project,
    reached: u64,
) -> Result<Vec<i64>, AllocError>
    requires { reached ≤ MAX_TIME }
    ensures late { IfOk result (λ late. AreLate project.now.network project.now.expected
        (end_to_meet project.now.heading.directed reached) late.items) }
    ensures limit { IfOk result (λ late. All (λ time. unsigned_abs time ≤ MAX_TIME) late.items) }
{
    let by = end_to_meet(project.directed(), reached);
    late(alloc, project.net(), project.expected(), by)
}

/// Returns the time at which the end is to be met, in sixths of a day: `directed` days if they are given, and otherwise
/// `reached`, the earliest time of the end event.
pub fn end_to_meet(directed: Option<u64>, reached: u64) -> i64
    requires directed { ForSome directed (λ days. days ≤ MAX_DIRECTED) }
    requires reached { reached ≤ MAX_TIME }
    ensures end { result ≡ end_to_meet directed reached }
    ensures limit { (pos 0 ≤ℤ result) × (result ≤ℤ pos MAX_TIME) }
{
    match directed {
        Some(days) => 6 * days as i64,
        None => reached as i64,
    }
}
