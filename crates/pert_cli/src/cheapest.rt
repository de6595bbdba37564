//! A schedule of least cost for a length of the project's range.
ghost use Rattle.std.specs.Prelude.{◌≡◌, ◌≤◌, IfOk, IfErr, IfSome, IfNone};
ghost use Rattle.pc_curve.specs.Range.{IsLengthInRange};
ghost use Rattle.pc_curve.specs.inside.Points.{HasPlaces, IsToCome};
ghost use Rattle.pc_faults.specs.inside.FaultText.{IsTold};
ghost use Rattle.pc_project.specs.shell.Priced.{priced_in};
ghost use Rattle.pert_cli.specs.Point.{IsCheapest, IsCheapestFor, IsOutside};
ghost use Rattle.pert_cli.specs.inside.Handing.{IsNoReport};

use crate::deliver::NoAnswer;
use crate::printed::PrintedSchedule;
use crate::solving::{SolverTask, solve};
use pc_crash::{CrashNet, Steps};
use pc_curve::point_at;
use pc_faults::{Detail, Fault};
use pc_flow::Solver;
use pc_project::Project;
use std::alloc::{AllocError, Global};
use std::sync::ledger::Ledger;

/// Returns a schedule of least cost for a length, in units. `net` is the project's priced network.
///
/// # Errors
///
/// `Refused` if the length is outside the project's range.
pub(crate) fn cheapest_schedule(
    alloc: Global,
    project: &Project,
    net: &CrashNet<'_>,
    limit: u64,
) -> Result<PrintedSchedule, NoAnswer>
    requires { net.now ≡ priced_in project.now }
    ensures cheapest { IfOk result (IsCheapestFor (priced_in project.now) limit) }
    ensures none { IfErr result (IsNoReport (IsOutside (priced_in project.now) limit)) }
{
    solve(alloc, project, net, &Cheapest { limit })?
}

/// The task of finding a schedule of least cost.
#[derive(Clone, Copy)]
struct Cheapest {
    /// The length, in units.
    limit: u64,
}

impl SolverTask for Cheapest {
    type Found = Result<PrintedSchedule, NoAnswer>;

    ghost HasFound = { λ task project found. IfOk found (IsCheapestFor (priced_in project) task.limit)
        × IfErr found (IsNoReport (IsOutside (priced_in project) task.limit)) };

    fn run<L: Ledger>(
        &self,
        alloc: Global,
        _project: &Project,
        solver: &mut Solver<'_>,
        steps: &mut Steps<L>,
    ) -> Result<PrintedSchedule, NoAnswer> {
        if let Some(fault) = outside(solver, self.limit) {
            return Err(NoAnswer::Refused(fault));
        }
        Ok(cheapest_at(alloc, solver, self.limit, steps)?)
    }
}

/// Returns a schedule of least cost for a length that the solver can reach.
pub(crate) fn cheapest_at<L: Ledger>(
    alloc: Global,
    solver: &mut Solver<'_>,
    limit: u64,
    steps: &mut Steps<L>,
) -> Result<PrintedSchedule, AllocError>
    requires { IsToCome solver.old limit }
    ensures length { IfOk result (λ printed. printed.length ≡ limit) }
    ensures cheapest { IfOk result (IsCheapest solver.old.net) }
{
    let shape = solver.net().net();
    let mut times = vec![in alloc; 0; shape.events() as usize]?;
    let mut durations = vec![in alloc; 0; shape.activities() as usize]?;
    let cost = fill(solver, limit, &mut times, &mut durations, steps);
    Ok(PrintedSchedule {
        total: limit,
        cost,
        times,
        durations,
    })
}

/// Fills in a schedule of least cost for a length, and returns its cost.
fn fill<L: Ledger>(
    solver: &mut Solver<'_>,
    limit: u64,
    times: &mut [u64],
    durations: &mut [u64],
    steps: &mut Steps<L>,
) -> u64
    requires to_come { IsToCome solver.old limit }
    requires places { HasPlaces solver.old.net times.old durations.old }
    ensures { IsCheapest solver.old.net
        (record { length = limit; cost = result; times = times.new; durations = durations.new }) }
{
    point_at(solver, limit, times, durations, steps)
}

/// Returns the fault of a length that is outside the range of the solver's network.
fn outside(solver: &Solver<'_>, limit: u64) -> Option<Fault>
    ensures told { IfSome result IsTold }
    ensures outside { IfSome result (IsOutside solver.now.net limit) }
    ensures within { IfNone result (IsLengthInRange solver.now.net limit) }
    ensures to_come { IfNone result ((solver.now.shortest ≤ limit) × (limit ≤ solver.now.longest)) }
{
    let shortest = solver.shortest();
    let longest = solver.longest();
    if limit < shortest || longest < limit {
        let detail = Detail::Length {
            asked: limit,
            crash: shortest,
            normal: longest,
        };
        Some(Fault::new(0, 32, detail))
    } else {
        None
    }
}
