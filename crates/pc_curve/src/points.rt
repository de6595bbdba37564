//! A schedule of least cost for a length, and the reading of the segment of a solver that holds the length.
ghost use Rattle.std.specs.Prelude.{◌≡◌, ◌+◌, ◌<◌, ◌≤◌, ℕ, length, slice_index, ◌↔◌, true, false, IsTrue};
ghost use Rattle.pc_model.specs.Schedule.{IsSchedule, lesser_of};
ghost use Rattle.pc_model.specs.Walk.{from_of, to_of};
ghost use Rattle.pc_model.specs.Cost.{cost_of};
ghost use Rattle.pc_crash.specs.Priced.{knees_in};
ghost use Rattle.pc_flow.specs.Courses.{IsSameCurve, IsFurther, most_looks, lower_of, IsLevel};
ghost use Rattle.pc_flow.specs.inside.Courses.{present, IsOnCurve};
ghost use Rattle.pc_flow.specs.search.Labelling.{slopes_in};
ghost use Rattle.pc_curve.specs.Points.{curve_in};
ghost use Rattle.pc_curve.specs.inside.Points.{IsToCome, IsThere, HasPlaces, AreTimesRead, AreDurationsRead};
ghost use Rattle.pc_laws.specs.Segment.{cost_for};

use pc_crash::{CrashNet, SegmentView, Steps};
use pc_flow::Solver;
use std::sync::ledger::Ledger;

/// Computes a cheapest schedule for a length, in units, and returns its cost.
///
/// The solver advances until its present segment holds the length. `times` gets one time per event and `durations` one
/// duration per activity, in card order: those of the upper end, with each event that moves earlier by as much as the
/// length is shorter, and each activity as long as this allows, up to its normal duration. It takes at most four looks
/// at each activity for each unit that the slope rises or the lower end decreases, and is then linear in events and
/// activities. Allocates nothing.
///
/// # Examples
///
/// `net` is a `CrashNet` of three activities: A can be cut from 4 units to 2 at 3 per unit, B, after it, from 5 to 3 at
/// 5 per unit, and C, alongside both, from 7 to 5 at 2 per unit. `blank` is a `Blank` of the ledger `L`, in which the
/// steps are counted.
///
/// ```
/// let region = Region::with_cells(alloc, cells_needed(3, 3, 0)).ok()?;
/// let mut solver = Solver::begin(region, net);
/// let mut steps = Steps::<L>::new(blank);
/// if solver.shortest() > 8 || solver.longest() < 8 {
///     return None;
/// }
/// let (mut times, mut durations) = ([0; 3], [0; 3]);
/// let cost = point_at(&mut solver, 8, &mut times, &mut durations, &mut steps);
/// // A lasts 3 units in place of 4, for 3 more.
/// Some((cost == 48) & (times == [0, 3, 8]) & (durations == [3, 5, 7]))
/// ```
///
/// These are the lines of `pc_tests::examples::read_a_point`. A test sees that it returns `Some(true)`.
pub fn point_at<L: Ledger>(
    solver: &mut Solver<'_>,
    length: u64,
    times: &mut [u64],
    durations: &mut [u64],
    steps: &mut Steps<L>,
) -> u64
    requires to_come { IsToCome solver.old length }
    requires places { HasPlaces solver.old.net times.old durations.old }
    ensures schedule { IsSchedule solver.old.net.network solver.old.net.terms length (slice_index durations.new)
        (slice_index times.new) }
    ensures ends { slice_index times.new solver.old.net.network.end ≡ length }
    ensures costs { result ≡ cost_of solver.old.net.terms (knees_in solver.old.net) (slice_index durations.new) }
    ensures least { curve_in solver.old.net length result }
    ensures there { IsThere solver.new length }
    ensures times { AreTimesRead solver.old.net (present solver.new) length times.new }
    ensures durations { AreDurationsRead solver.old.net (present solver.new) length durations.new }
    ensures same { IsSameCurve solver.old solver.new }
    ensures further { IsFurther solver.old solver.new }
    ensures gentle { solver.new.slope ≤ slopes_in solver.new.net }
    ensures counted { steps.new ≤ steps.old + most_looks solver.old solver.new }
{
    let net = solver.net();
    // What holds of the network implies that the reading is a cheapest schedule.
    net.facts();
    let cost = cost_at(solver, length, steps);
    read_times(net, solver, length, times);
    read_durations(net, times, durations);
    cost
}

// Reads the time of each event.
fn read_times(net: &CrashNet<'_>, solver: &Solver<'_>, limit: u64, times: &mut [u64])
    requires net { solver.now.net ≡ net.now }
    requires there { IsThere solver.now limit }
    requires places { length times.old ≡ net.now.network.events }
    ensures { AreTimesRead net.now (present solver.now) limit times.new }
{
    // The network is priced, so that no time falls below 0.
    net.facts();
    let fall = solver.upper() - limit;
    for e in 0..net.net().events() {
        let time = solver.time(e);
        times[e as usize] = if solver.moves(e) { time - fall } else { time };
    }
}

// The longest durations that these times allow.
fn read_durations(net: &CrashNet<'_>, times: &[u64], durations: &mut [u64])
    requires times { length times.now ≡ net.now.network.events }
    requires durations { length durations.old ≡ length net.now.network.arcs }
    requires fit { (a : ℕ) → a < length net.now.network.arcs →
        slice_index times.now (from_of net.now.network.arcs a)
        ≤ slice_index times.now (to_of net.now.network.arcs a) }
    ensures { (a : ℕ) → a < length net.now.network.arcs →
        slice_index durations.new a ≡ lesser_of net.now.network net.now.terms (slice_index times.now) a }
{
    let shape = net.net();
    for a in 0..shape.activities() {
        let gap = times[shape.to(a) as usize] - times[shape.from(a) as usize];
        durations[a as usize] = net.term(a).normal.min(gap);
    }
}

/// Returns the least cost of a schedule for a length, in units.
///
/// The solver advances until its present segment holds the length. It takes at most four looks at each activity for
/// each unit that the slope rises or the lower end decreases. Allocates nothing.
pub fn cost_at<L: Ledger>(solver: &mut Solver<'_>, length: u64, steps: &mut Steps<L>) -> u64
    requires { IsToCome solver.old length }
    ensures least { curve_in solver.old.net length result }
    ensures read { result ≡ cost_for (present solver.new) length }
    ensures there { IsThere solver.new length }
    ensures same { IsSameCurve solver.old solver.new }
    ensures further { IsFurther solver.old solver.new }
    ensures gentle { solver.new.slope ≤ slopes_in solver.new.net }
    ensures counted { steps.new ≤ steps.old + most_looks solver.old solver.new }
{
    come_to(solver, length, steps);
    least_cost_for(solver, length)
}

/// The cost of the schedule for a length: that at the upper end, and the slope for each unit that the length is
/// shorter.
pub(crate) fn least_cost_for(solver: &Solver<'_>, length: u64) -> u64
    requires { IsThere solver.now length }
    ensures read { result ≡ cost_for (present solver.now) length }
    ensures least { curve_in solver.now.net length result }
{
    // What is known of the network says that no cost is too large.
    solver.facts();
    solver.cost() + solver.slope() * (solver.upper() - length)
}

// Goes on until the present segment holds a length.
fn come_to<L: Ledger>(solver: &mut Solver<'_>, length: u64, steps: &mut Steps<L>)
    requires { IsToCome solver.old length }
    ensures there { IsThere solver.new length }
    ensures same { IsSameCurve solver.old solver.new }
    ensures further { IsFurther solver.old solver.new }
    ensures gentle { solver.new.slope ≤ slopes_in solver.new.net }
    ensures counted { steps.new ≤ steps.old + most_looks solver.old solver.new }
{
    while !is_as_low(solver, length) {
        solver.next_segment(steps);
    }
}

// Whether there is a segment that reaches down to a length.
fn is_as_low(solver: &Solver<'_>, length: u64) -> bool
    ensures low { IsTrue result ↔ ((solver.now.given ≡ true) × (lower_of solver.now ≤ length)) }
    ensures level { solver.now.given ≡ false → IsLevel solver.now }
    ensures whole { solver.now.given ≡ true → IsOnCurve solver.now }
    ensures gentle { solver.now.slope ≤ slopes_in solver.now.net }
{
    solver.facts();
    solver.given() && solver.lower() <= length
}
