//! What is printed of the time-cost curve: its breakpoints for `curve`, its figures for `bench N`.
ghost use Rattle.std.specs.Prelude.{◌≡◌, ℕ, List, IfOk, false};
ghost use Rattle.pc_crash.specs.inside.Steps.{IsBlankOf};
ghost use Rattle.pc_edges.specs.inside.page.Puts.{Puts};
ghost use Rattle.pc_project.specs.shell.Priced.{priced_in};
ghost use Rattle.pert_cli.specs.inside.Solving.{CanSolve, IsLinesOf};

use crate::solving::{priced_net, solver_region};
use pc_cells::Region;
use pc_crash::{CrashNet, Steps};
use pc_curve::bench::put_bench;
use pc_curve::put_curve;
use pc_edges::Sink;
use pc_edges::page::Page;
use pc_flow::Solver;
use pc_project::Project;
use pc_reports::Report;
use std::alloc::{AllocError, Global};
use std::marker::Brand;
use std::sync::ledger::{Blank, Ledger};

/// Which lines are printed of a curve.
#[derive(Clone, Copy)]
pub(crate) enum CurveLines {
    Breakpoints,
    /// The figures of the curve of the benchmark's deck with this many activities.
    Figures(u64),
}

/// The report of a project's curve, which a solver finds while it is printed. So the memory that it takes does not
/// depend on the number of breakpoints.
#[derive(Drop)]
pub(crate) struct CurveReport<'p> {
    lines: CurveLines,
    net: CrashNet<'p>,
    region: Region,
}

impl<'p> CurveReport<'p> {
    /// Prices the project's network, and takes the memory of the solver.
    pub(crate) fn build(
        alloc: Global,
        project: &'p Project,
        lines: CurveLines,
    ) -> Result<CurveReport<'p>, AllocError>
        ensures lines { IfOk result (λ report. report.lines ≡ lines) }
        ensures ready { IfOk result (λ report. CanSolve project.now report.net report.region) }
    {
        Ok(CurveReport {
            lines,
            net: priced_net(alloc, project)?,
            region: solver_region(alloc, project)?,
        })
    }
}

impl<'p> Report for CurveReport<'p> {
    ghost IsFor = { λ report project. CanSolve project report.net report.region };

    ghost IsText = { λ report project text. IsLinesOf report.lines (priced_in project) text };

    fn put_on<O: Sink>(self, page: &mut Page, sink: &mut O, _project: &Project) {
        let CurveReport { lines, net, region } = self;
        let mut solver = Solver::begin(region, &net);
        put_lines::<O, Brand>(page, sink, lines, &mut solver, Blank::new(1));
    }
}

/// Puts the lines of a solver's curve. The steps of the solver are counted in a ledger of their own.
fn put_lines<O: Sink, L: Ledger>(
    page: &mut Page,
    sink: &mut O,
    lines: CurveLines,
    solver: &mut Solver<'_>,
    blank: Blank,
)
    requires before { solver.old.given ≡ false }
    requires blank { IsBlankOf L.name L.parts blank.name blank.parts }
    ensures { (text : List ℕ) × IsLinesOf lines solver.old.net text
        × Puts O.taken O.faults page.old sink.old page.new sink.new text }
{
    let mut steps = Steps::<L>::new(blank);
    match lines {
        CurveLines::Breakpoints => put_curve(page, sink, solver, &mut steps),
        CurveLines::Figures(n) => put_bench(page, sink, n, solver, &mut steps),
    }
}
