//! The figures of a time-cost curve: its two ends, how often it breaks, and the sum of the costs of all its lengths.
ghost use Rattle.std.specs.Prelude.{◌≡◌, ◌+◌, ◌*◌, ◌^◌, ◌<◌, ◌≤◌, ◌==◌, if◌then◌else◌, true, false};
ghost use Rattle.pc_model.specs.Sums.{sum_to};
ghost use Rattle.pc_laws.specs.Segment.{cost_for};
ghost use Rattle.pc_flow.specs.Courses.{IsFurther, IsSameCurve, most_looks};
ghost use Rattle.pc_flow.specs.inside.Courses.{IsNext, present};
ghost use Rattle.pc_flow.specs.declared.early.TheConstants.{MAX_LENGTH};
ghost use Rattle.pc_curve.specs.bench.Figures.{IsFiguresOf};
ghost use Rattle.pc_curve.specs.inside.bench.Tallies.{
  CanTakeSegment,
  IsSmallSegment,
  costs_below,
  first_tally,
  next_tally,
};

use pc_crash::{SegmentView, Steps};
use pc_flow::{MAX_LENGTH, Solver};
use std::sync::ledger::Ledger;

/// The figures of a curve.
#[derive(Clone, Copy, Debug, PartialEq, Eq)]
pub struct CurveFigures {
    /// The all-normal length, in units.
    pub longest: u64,
    /// The least cost at the all-normal length.
    pub longest_cost: u64,
    /// The all-crash length, in units.
    pub shortest: u64,
    /// The least cost at the all-crash length.
    pub shortest_cost: u128,
    /// The number of breakpoints.
    pub breaks: u64,
    /// The sum of the least costs of all lengths of the range.
    pub sum: u128,
}

/// The figures of the segments so far.
#[derive(Clone, Copy)]
pub(in crate::bench) struct CurveTally {
    /// The slope of the last one.
    pub(in crate::bench) slope: u64,
    /// How many breakpoints are above its lower end.
    pub(in crate::bench) breaks: u64,
    /// The sum of the least costs of all lengths down to its lower end.
    pub(in crate::bench) sum: u128,
}

/// Returns the figures of the curve of a solver's network. The solver goes from before its first segment to the last
/// one.
///
/// It takes a few steps per segment, and at most four looks at each activity for each unit that the slope rises or the
/// lower end decreases. Allocates nothing.
pub fn figures_of<L: Ledger>(solver: &mut Solver<'_>, steps: &mut Steps<L>) -> CurveFigures
    requires { solver.old.given ≡ false }
    ensures figures { IsFiguresOf solver.old.net result }
    ensures same { IsSameCurve solver.old solver.new }
    ensures further { IsFurther solver.old solver.new }
    ensures counted { steps.new ≤ steps.old + most_looks solver.old solver.new }
{
    // What is known of the network says that the least costs are those of a curve.
    solver.facts();
    let longest = solver.longest();
    let shortest = solver.shortest();
    first_segment(solver, steps);
    let longest_cost = solver.cost();
    let mut tally = first_tally(solver);
    while solver.next_segment(steps) {
        tally = next_tally(tally, solver);
    }
    CurveFigures {
        longest,
        longest_cost,
        shortest,
        shortest_cost: cost_at_lower(solver),
        breaks: tally.breaks + lower_ends(shortest, longest),
        sum: tally.sum,
    }
}

/// Goes on to the first segment: there always is one.
fn first_segment<L: Ledger>(solver: &mut Solver<'_>, steps: &mut Steps<L>)
    requires { solver.old.given ≡ false }
    ensures same { IsSameCurve solver.old solver.new }
    ensures further { IsFurther solver.old solver.new }
    ensures next { IsNext solver.old solver.new }
    ensures counted { steps.new ≤ steps.old + most_looks solver.old solver.new }
{
    solver.next_segment(steps);
}

/// The lower end of the curve is a breakpoint more, unless the curve has only one length.
fn lower_ends(shortest: u64, longest: u64) -> u64
    ensures some { shortest < longest → result ≡ 1 }
    ensures none { longest ≤ shortest → result ≡ 0 }
{
    if shortest < longest { 1 } else { 0 }
}

/// The figures of the first segment.
fn first_tally(solver: &Solver<'_>) -> CurveTally
    requires given { solver.now.given ≡ true }
    requires small { IsSmallSegment (present solver.now) }
    ensures { result ≡ first_tally (present solver.now) }
{
    CurveTally {
        slope: solver.slope(),
        breaks: 1,
        sum: solver.cost() as u128 + costs_below(solver),
    }
}

/// The figures with one segment more.
fn next_tally(tally: CurveTally, solver: &Solver<'_>) -> CurveTally
    requires given { solver.now.given ≡ true }
    requires small { IsSmallSegment (present solver.now) }
    requires room { CanTakeSegment tally (present solver.now) }
    ensures { result ≡ next_tally tally (present solver.now) }
{
    let slope = solver.slope();
    CurveTally {
        slope,
        breaks: tally.breaks + turns(tally.slope, slope),
        sum: tally.sum + costs_below(solver),
    }
}

/// Where one slope follows another the curve breaks, unless they are the same.
fn turns(before: u64, after: u64) -> u64
    ensures { result ≡ (if before == after then 0 else 1) }
{
    if before == after { 0 } else { 1 }
}

/// The sum of the costs of all lengths of the present segment below its upper end.
fn costs_below(solver: &Solver<'_>) -> u128
    requires given { solver.now.given ≡ true }
    requires small { IsSmallSegment (present solver.now) }
    ensures { result ≡ costs_below (present solver.now) }
{
    rising_sum(
        solver.cost(),
        solver.slope(),
        solver.upper() - solver.lower(),
    )
}

/// The sum of `count` costs, each `slope` above the one before, from the first one above `cost`.
fn rising_sum(cost: u64, slope: u64, count: u64) -> u128
    requires cost { cost < 10 ^ 18 }
    requires slope { slope < 10 ^ 18 }
    requires count { count ≤ MAX_LENGTH }
    ensures { result ≡ sum_to count (λ k. cost + slope * (k + 1)) }
{
    let count = count as u128;
    count * cost as u128 + slope as u128 * (count * (count + 1) / 2)
}

/// The cost at the lower end of the present segment.
fn cost_at_lower(solver: &Solver<'_>) -> u128
    requires given { solver.now.given ≡ true }
    requires small { IsSmallSegment (present solver.now) }
    ensures { result ≡ cost_for (present solver.now) (present solver.now).lower }
{
    let fall = solver.upper() - solver.lower();
    solver.cost() as u128 + solver.slope() as u128 * fall as u128
}
