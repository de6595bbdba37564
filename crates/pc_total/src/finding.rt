//! Finding the optimum of a solver's curve, and the two signs that show it: how the totals of its neighbours differ
//! from its own.
ghost use Rattle.std.specs.Prelude.{◌≡◌, ◌+◌, ◌^◌, ◌≤◌, ◌<◌, false, pos, ◌+ℤ◌, IfNone, IfSome};
ghost use Rattle.pc_model.specs.TimeCost.{AreTimeTerms};
ghost use Rattle.pc_flow.specs.Courses.{IsFurther, IsSameCurve, all_looks, lower_of, most_looks};
ghost use Rattle.pc_flow.specs.search.Labelling.{slopes_in};
ghost use Rattle.pc_curve.specs.Points.{curve_in};
ghost use Rattle.pc_curve.specs.inside.Points.{IsThere, IsToCome};
ghost use Rattle.pc_total.specs.Bests.{IsBest};
ghost use Rattle.pc_total.specs.inside.Stops.{PaysToStop, unit_cost, IsStop};
ghost use Rattle.pc_flow.specs.declared.early.TheConstants.{MAX_LENGTH};

use crate::optimum::Best;
use crate::time::{time_cost, unit_cost};
use pc_crash::{SegmentView, Steps};
use pc_curve::cost_at;
use pc_flow::Solver;
use pc_model::TimeTerms;
use std::sync::ledger::Ledger;

/// Finds the optimum of the curve of a solver's network: the length for which the project costs least in total, and of
/// several such lengths the shortest.
///
/// No segment may have been taken from the solver before. It goes down for as long as one unit less costs no more than
/// it saves, and stays at the segment that holds the optimum, so that a schedule for it can be read there. It takes a
/// few steps per segment, and at most four looks at each activity for each unit that the slope rises or the lower
/// end decreases. Allocates nothing.
///
/// # Examples
///
/// `net` is a `CrashNet` of three activities: A can be cut from 4 units to 2 at 3 per unit, B, after it, from 5 to 3 at
/// 5 per unit, and C, alongside both, from 7 to 5 at 2 per unit. `blank` is a `Blank` of the ledger `L`, in which the
/// steps are counted.
///
/// ```
/// let region = Region::with_cells(alloc, cells_needed(3, 3, 0)).ok()?;
/// let mut solver = Solver::begin(region, net);
/// let mut steps = Steps::<L>::new(blank);
/// // Each unit of time costs 5, and nothing else depends on the length.
/// let terms = TimeTerms {
///     overhead: 5,
///     target: 0,
///     bonus: 0,
///     penalty: 0,
/// };
/// let found = best(&mut solver, &terms, &mut steps);
/// Some((found.length == 7) & (found.direct == 51) & (found.time == 35) & (found.total == 86))
/// ```
///
/// These are the lines of `pc_tests::examples::find_the_best`. A test sees that it returns `Some(true)`.
pub fn best<L: Ledger>(solver: &mut Solver<'_>, terms: &TimeTerms, steps: &mut Steps<L>) -> Best
    requires before { solver.old.given ≡ false }
    requires terms { AreTimeTerms terms.now }
    ensures best { IsBest (curve_in solver.old.net) terms.now solver.old.shortest solver.old.longest result }
    ensures there { IsThere solver.new result.length }
    ensures same { IsSameCurve solver.old solver.new }
    ensures further { IsFurther solver.old solver.new }
    ensures counted { steps.new ≤ steps.old + most_looks solver.old solver.new }
    ensures limit { steps.new ≤ steps.old + all_looks solver.old }
{
    // What is known of the network bounds the looks, and before the first segment nothing has fallen.
    solver.facts();
    let turn = come_down(solver, terms, steps);
    best_at(solver, terms, turn.length, turn.slope, turn.gain, steps)
}

/// Where it pays to come down to and no further: a length, what a unit less costs there, and what a unit more saves.
#[derive(Clone, Copy)]
struct TurningPoint {
    length: u64,
    slope: u64,
    gain: u64,
}

/// Takes segments for as long as it pays, and returns the turning point. The solver stays at the segment that holds it.
fn come_down<L: Ledger>(
    solver: &mut Solver<'_>,
    terms: &TimeTerms,
    steps: &mut Steps<L>,
) -> TurningPoint
    requires before { solver.old.given ≡ false }
    requires terms { AreTimeTerms terms.now }
    ensures to_come { IsToCome solver.new result.length }
    ensures pays { PaysToStop (curve_in solver.new.net) terms.now solver.new.shortest solver.new.longest result.length
        result.slope result.gain }
    ensures small { result.slope < 10 ^ 18 }
    ensures small_gain { result.gain < 10 ^ 18 }
    ensures same { IsSameCurve solver.old solver.new }
    ensures further { IsFurther solver.old solver.new }
    ensures counted { steps.new ≤ steps.old + most_looks solver.old solver.new }
{
    // What is known of the network says that the least costs are those of a curve.
    solver.facts();
    // What one unit more saves where the next segment begins.
    let mut gain = 0;
    while solver.next_segment(steps) {
        let slope = solver.slope();
        let lower = solver.lower();
        let upper = solver.upper();
        let stop = stop_in(terms, lower, upper, slope);
        if stop > lower {
            return TurningPoint {
                length: stop,
                slope,
                gain: gain_at(stop, upper, slope, gain),
            };
        }
        gain = slope;
    }
    TurningPoint {
        length: solver.shortest(),
        slope: 0,
        gain,
    }
}

/// What one unit more saves at a length of a segment: the segment's slope below its upper end, and at that end the gain
/// of the segment above.
fn gain_at(length: u64, upper: u64, slope: u64, gain: u64) -> u64
    ensures inside { length < upper → result ≡ slope }
    ensures top { upper ≤ length → result ≡ gain }
{
    if length < upper { slope } else { gain }
}

/// The optimum at `length`, given that it pays to shorten to it and no further: one unit less adds `slope` to the cost,
/// and one unit more saves `gain`.
fn best_at<L: Ledger>(
    solver: &mut Solver<'_>,
    terms: &TimeTerms,
    length: u64,
    slope: u64,
    gain: u64,
    steps: &mut Steps<L>,
) -> Best
    requires terms { AreTimeTerms terms.now }
    requires to_come { IsToCome solver.old length }
    requires stop { PaysToStop (curve_in solver.old.net) terms.now solver.old.shortest solver.old.longest length
        slope gain }
    requires small { slope < 10 ^ 18 }
    requires small_gain { gain < 10 ^ 18 }
    ensures best { IsBest (curve_in solver.old.net) terms.now solver.old.shortest solver.old.longest result }
    ensures there { IsThere solver.new result.length }
    ensures same { IsSameCurve solver.old solver.new }
    ensures further { IsFurther solver.old solver.new }
    ensures counted { steps.new ≤ steps.old + most_looks solver.old solver.new }
    ensures gentle { solver.new.slope ≤ slopes_in solver.new.net }
    ensures range { solver.new.shortest ≤ lower_of solver.new }
{
    // What is known of the network says that the least costs are those of a curve.
    solver.facts();
    let shortest = solver.shortest();
    let longest = solver.longest();
    let direct = cost_at(solver, length, steps);
    // At any time a solver's slope is at most the sum of the last slopes, and its lower end is in the range.
    solver.facts();
    let time = time_cost(terms, length);
    Best {
        length,
        direct,
        time,
        total: direct as i64 + time,
        below: below_at(terms, shortest, length, slope),
        above: above_at(terms, longest, length, gain),
    }
}

/// By how much the total is higher one unit shorter, where a unit less costs the slope; none at the shortest length.
pub(crate) fn below_at(terms: &TimeTerms, shortest: u64, length: u64, slope: u64) -> Option<i64>
    requires terms { AreTimeTerms terms.now }
    requires small { slope < 10 ^ 18 }
    ensures none { IfNone result (length ≤ shortest) }
    ensures above { IfSome result (λ _. shortest < length) }
    ensures differs { IfSome result (λ more. more +ℤ pos (unit_cost terms.now length) ≡ pos slope) }
{
    if length > shortest {
        Some(slope as i64 - unit_cost(terms, length) as i64)
    } else {
        None
    }
}

/// By how much the total is higher one unit longer, where a unit more saves the gain; none at the longest length.
pub(crate) fn above_at(terms: &TimeTerms, longest: u64, length: u64, gain: u64) -> Option<i64>
    requires terms { AreTimeTerms terms.now }
    requires length { length ≤ MAX_LENGTH }
    requires small { gain < 10 ^ 18 }
    ensures none { IfNone result (longest ≤ length) }
    ensures below { IfSome result (λ _. length < longest) }
    ensures differs { IfSome result (λ more. more +ℤ pos gain ≡ pos (unit_cost terms.now (length + 1))) }
{
    if length < longest {
        Some(unit_cost(terms, length + 1) as i64 - gain as i64)
    } else {
        None
    }
}

/// The length in a segment down to which each unit less saves at least as much of the time's cost as it costs, and
/// below which it does not: one of the segment's two ends, or the target between them, since what a unit of time costs
/// changes only there.
pub(crate) fn stop_in(terms: &TimeTerms, lower: u64, upper: u64, slope: u64) -> u64
    requires terms { AreTimeTerms terms.now }
    requires ordered { lower ≤ upper }
    ensures { IsStop terms.now lower upper slope result }
{
    if slope <= terms.overhead + terms.bonus {
        lower
    } else if slope <= terms.overhead + terms.penalty {
        terms.target.clamp(lower, upper)
    } else {
        upper
    }
}
