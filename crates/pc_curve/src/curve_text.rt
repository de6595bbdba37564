//! The breakpoints of a curve, a line each.
ghost use Rattle.std.specs.Prelude.{◌≡◌, ◌+◌, ◌≤◌, ℕ, List, false};
ghost use Rattle.pc_edges.specs.inside.Writes.{Writes};
ghost use Rattle.pc_flow.specs.Courses.{IsSameCurve, IsFurther, most_looks};
ghost use Rattle.pc_edges.specs.inside.page.Page.{fresh};
ghost use Rattle.pc_edges.specs.inside.page.Puts.{Puts};
ghost use Rattle.pc_curve.specs.inside.Breaks.{point_of};
ghost use Rattle.pc_curve.specs.CurveText.{IsCurveText, break_line, slope_text};

use crate::breaks::{Break, Breaks};
use pc_crash::Steps;
use pc_edges::page::Page;
use pc_edges::{Failed, Sink};
use pc_flow::Solver;
use std::sync::ledger::Ledger;

/// Puts the breakpoints of the curve of a solver's network on a page: one line each, from the all-normal length down,
/// with its length, its least cost, and the extra cost of one unit less, or a dash at the all-crash length.
///
/// The solver goes from before its first segment to the last one: at most four looks at each activity for each unit
/// that the slope rises or the lower end decreases. Allocates nothing.
pub fn put_curve<O: Sink, L: Ledger>(
    page: &mut Page,
    sink: &mut O,
    solver: &mut Solver<'_>,
    steps: &mut Steps<L>,
)
    requires { solver.old.given ≡ false }
    ensures text { (text : List ℕ) × IsCurveText solver.old.net text
        × Puts O.taken O.faults page.old sink.old page.new sink.new text }
    ensures same { IsSameCurve solver.old solver.new }
    ensures further { IsFurther solver.old solver.new }
    ensures counted { steps.new ≤ steps.old + most_looks solver.old solver.new }
{
    // Which lengths the two ends of the curve are.
    solver.facts();
    let mut breaks = Breaks::new();
    while let Some(point) = breaks.next(solver, steps) {
        put_break(page, sink, &point);
    }
}

/// Writes the breakpoints of the curve of a solver's network as [`put_curve`] puts them, and flushes the sink.
///
/// # Errors
///
/// Returns `Failed` if a push or the flush failed.
pub fn write_curve<O: Sink, L: Ledger>(
    page: &mut Page,
    sink: &mut O,
    solver: &mut Solver<'_>,
    steps: &mut Steps<L>,
) -> Result<(), Failed>
    requires fresh { page.old ≡ fresh }
    requires before { solver.old.given ≡ false }
    ensures text { (text : List ℕ) × IsCurveText solver.old.net text
        × Writes result (O.taken sink.old) (O.taken sink.new) (O.faults sink.old) (O.faults sink.new) text }
    ensures fresh { page.new ≡ fresh }
    ensures same { IsSameCurve solver.old solver.new }
    ensures further { IsFurther solver.old solver.new }
    ensures counted { steps.new ≤ steps.old + most_looks solver.old solver.new }
{
    put_curve(page, sink, solver, steps);
    page.finish(sink)
}

/// Puts the line of a breakpoint.
fn put_break<O: Sink>(page: &mut Page, sink: &mut O, point: &Break)
    ensures { Puts O.taken O.faults page.old sink.old page.new sink.new (break_line (point_of point.now)) }
{
    page.put_number(sink, point.length);
    page.put(sink, b" ");
    page.put_number(sink, point.cost);
    page.put(sink, b" ");
    put_slope(page, sink, point.slope);
    page.put(sink, b"\n");
}

/// Puts a slope, or a dash.
fn put_slope<O: Sink>(page: &mut Page, sink: &mut O, slope: Option<u64>)
    ensures { Puts O.taken O.faults page.old sink.old page.new sink.new (slope_text slope) }
{
    match slope {
        Some(slope) => page.put_number(sink, slope),
        None => page.put(sink, b"-"),
    }
}
