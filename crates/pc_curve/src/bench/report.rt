//! What the benchmark prints.
ghost use Rattle.std.specs.Prelude.{◌≡◌, ◌+◌, ◌≤◌, ℕ, List, false};
ghost use Rattle.pc_flow.specs.Courses.{IsFurther, IsSameCurve, most_looks};
ghost use Rattle.pc_edges.specs.page.Lines.{number_line};
ghost use Rattle.pc_edges.specs.inside.page.Puts.{Puts};
ghost use Rattle.pc_curve.specs.bench.Report.{IsBenchText, bench_text, point_line};

use crate::bench::figures::{CurveFigures, figures_of};
use pc_crash::Steps;
use pc_edges::Sink;
use pc_edges::page::{Page, put_line, put_pair};
use pc_flow::Solver;
use pc_text::{digits, wide};
use std::sync::ledger::Ledger;

/// Puts what the benchmark of `n` activities reports of the curve of a solver's network on a page: the all-normal and
/// the all-crash length, each with its least cost, the number of breakpoints, and the sum of the least costs of all
/// lengths.
///
/// The solver goes from before its first segment to the last one: at most four looks at each activity for each unit
/// that the slope rises or the lower end decreases. Allocates nothing.
pub fn put_bench<O: Sink, L: Ledger>(
    page: &mut Page,
    sink: &mut O,
    n: u64,
    solver: &mut Solver<'_>,
    steps: &mut Steps<L>,
)
    requires { solver.old.given ≡ false }
    ensures text { (text : List ℕ) × IsBenchText n solver.old.net text
        × Puts O.taken O.faults page.old sink.old page.new sink.new text }
    ensures same { IsSameCurve solver.old solver.new }
    ensures further { IsFurther solver.old solver.new }
    ensures counted { steps.new ≤ steps.old + most_looks solver.old solver.new }
{
    let figures = figures_of(solver, steps);
    put_figures(page, sink, n, &figures);
}

/// Puts the lines of the figures.
fn put_figures<O: Sink>(page: &mut Page, sink: &mut O, n: u64, figures: &CurveFigures)
    ensures { Puts O.taken O.faults page.old sink.old page.new sink.new (bench_text n figures.now) }
{
    put_count(page, sink, b"BENCH ", n as u128);
    put_point(
        page,
        sink,
        b"NORMAL ",
        figures.longest,
        figures.longest_cost as u128,
    );
    put_point(
        page,
        sink,
        b"CRASH ",
        figures.shortest,
        figures.shortest_cost,
    );
    put_count(page, sink, b"BREAKS ", figures.breaks as u128);
    put_count(page, sink, b"SUM ", figures.sum);
}

/// Puts the line of a number.
fn put_count<O: Sink>(page: &mut Page, sink: &mut O, name: &[u8], count: u128)
    ensures { Puts O.taken O.faults page.old sink.old page.new sink.new (number_line name.now count) }
{
    put_line(page, sink, name, wide(count).bytes());
}

/// Puts the line of a length and its cost.
fn put_point<O: Sink>(page: &mut Page, sink: &mut O, name: &[u8], length: u64, cost: u128)
    ensures { Puts O.taken O.faults page.old sink.old page.new sink.new (point_line name.now length cost) }
{
    put_pair(page, sink, name, digits(length).bytes(), wide(cost).bytes());
}
