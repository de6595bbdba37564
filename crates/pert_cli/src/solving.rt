//! What a form asks of a solver of the project's curve, and the memory that the solver works in.
ghost use Rattle.std.specs.Prelude.{◌≡◌, ◌+◌, ◌*◌, ◌≤◌, length, IfOk};
ghost use Rattle.pc_cells.specs.inside.Spans.{free_of};
ghost use Rattle.pc_crash.specs.inside.Steps.{IsBlankOf};
ghost use Rattle.pc_project.specs.Project.{Project as TheProject};
ghost use Rattle.pc_project.specs.shell.Priced.{priced_in};
ghost use Rattle.pert_cli.specs.inside.Solving.{IsAtStart};

use pc_cells::Region;
use pc_crash::{CrashNet, Steps};
use pc_flow::{Solver, cells_needed};
use pc_project::Project;
use std::alloc::{AllocError, Global};
use std::marker::Brand;
use std::sync::ledger::{Blank, Ledger};

/// What a form asks of a solver before its first segment.
pub(crate) trait SolverTask {
    /// What the solver finds.
    type Found;

    // What is found for the project.
    ghost HasFound: { Self → TheProject → Self.Found → Type 0 };

    /// Does the task with a solver of the project's curve.
    fn run<L: Ledger>(
        &self,
        alloc: Global,
        project: &Project,
        solver: &mut Solver<'_>,
        steps: &mut Steps<L>,
    ) -> Self::Found
        requires { IsAtStart project.now solver.old }
        ensures { HasFound self.now project.now result };
}

/// Does a task with a solver of the project's curve, in memory that does not depend on the curve. `net` is the
/// project's priced network.
pub(crate) fn solve<J: SolverTask>(
    alloc: Global,
    project: &Project,
    net: &CrashNet<'_>,
    task: &J,
) -> Result<J::Found, AllocError>
    requires { net.now ≡ priced_in project.now }
    ensures { IfOk result (J.HasFound task.now project.now) }
{
    let mut solver = Solver::begin(solver_region(alloc, project)?, net);
    let blank = Blank::new(1);
    Ok(run_counted::<J, Brand>(alloc, project, task, &mut solver, blank))
}

/// Returns the project's network with what its activities may last and cost. Linear in events, activities and pieces.
pub(crate) fn priced_net(alloc: Global, project: &Project) -> Result<CrashNet<'_>, AllocError>
    ensures { IfOk result (λ net. net ≡ priced_in project.now) }
{
    let net = project.priced(alloc)?;
    Ok(net)
}

/// Does a task. The steps of the solver are counted in a ledger of their own.
fn run_counted<J: SolverTask, L: Ledger>(
    alloc: Global,
    project: &Project,
    task: &J,
    solver: &mut Solver<'_>,
    blank: Blank,
) -> J::Found
    requires start { IsAtStart project.now solver.old }
    requires blank { IsBlankOf L.name L.parts blank.name blank.parts }
    ensures { J.HasFound task.now project.now result }
{
    let mut steps = Steps::<L>::new(blank);
    task.run(alloc, project, solver, &mut steps)
}

/// Takes the memory that a solver of the project's curve works in, whatever the curve is.
pub(crate) fn solver_region(alloc: Global, project: &Project) -> Result<Region, AllocError>
    ensures { IfOk result (λ region. 8 * project.now.network.events + 6 * length project.now.network.arcs
        + 2 * length project.now.pieces + 16 ≤ free_of region) }
{
    let net = project.net();
    let cells = cells_needed(
        net.events() as usize,
        net.activities() as usize,
        project.pieces().len(),
    );
    Region::with_cells(alloc, cells)
}
