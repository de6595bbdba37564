//! `optimum`: the length for which the project costs least in all, and a schedule for it.
ghost use Rattle.std.specs.Prelude.{◌≡◌, IfOk};
ghost use Rattle.pc_model.specs.TimeCost.{AreTimeTerms};
ghost use Rattle.pc_project.specs.shell.Priced.{priced_in};
ghost use Rattle.pert_cli.specs.Optimum.{IsOptimumWith, optimum_text};

use crate::cheapest::cheapest_at;
use crate::printed::PrintedSchedule;
use crate::solving::{SolverTask, priced_net, solve};
use pc_crash::Steps;
use pc_edges::Sink;
use pc_edges::page::Page;
use pc_flow::Solver;
use pc_project::Project;
use pc_reports::{Report, put_plan};
use pc_total::{Best, TimeTerms, best, put_best};
use std::alloc::{AllocError, Global};
use std::sync::ledger::Ledger;

/// A project's optimum, with a schedule for its length.
#[derive(Drop)]
pub(crate) struct OptimumAnswer {
    best: Best,
    schedule: PrintedSchedule,
}

impl Report for OptimumAnswer {
    ghost IsFor = { λ answer project. IsOptimumWith (priced_in project) project.time_terms answer.best
        answer.schedule };

    ghost IsText = { λ answer project text. text ≡ optimum_text project answer.best answer.schedule };

    fn put_on<O: Sink>(self, page: &mut Page, sink: &mut O, project: &Project) {
        put_best(page, sink, &project.code(), &self.best);
        put_plan(page, sink, &self.schedule.with_codes(project));
    }
}

/// Finds the optimum of a project.
pub(crate) fn optimum_of(alloc: Global, project: &Project) -> Result<OptimumAnswer, AllocError>
    ensures { IfOk result (λ answer. IsOptimumWith (priced_in project.now) project.now.time_terms answer.best
        answer.schedule) }
{
    let net = priced_net(alloc, project)?;
    solve(alloc, project, &net, &FindOptimum)?
}

/// The task of finding the optimum. The solver goes down as far as it pays, and the schedule is read where it stops.
#[derive(Clone, Copy)]
struct FindOptimum;

impl SolverTask for FindOptimum {
    type Found = Result<OptimumAnswer, AllocError>;

    ghost HasFound = { λ task project found. IfOk found (λ answer. IsOptimumWith (priced_in project)
        project.time_terms answer.best answer.schedule) };

    fn run<L: Ledger>(
        &self,
        alloc: Global,
        project: &Project,
        solver: &mut Solver<'_>,
        steps: &mut Steps<L>,
    ) -> Result<OptimumAnswer, AllocError> {
        let best = best(solver, &terms_of(project), steps);
        let schedule = cheapest_at(alloc, solver, best.length, steps)?;
        Ok(OptimumAnswer { best, schedule })
    }
}

/// Returns what the project's time costs.
fn terms_of(project: &Project) -> TimeTerms
    ensures terms { result ≡ project.now.time_terms }
    ensures are { AreTimeTerms result }
{
    let (overhead, target, bonus, penalty) = project.terms();
    TimeTerms {
        overhead,
        target,
        bonus,
        penalty,
    }
}
