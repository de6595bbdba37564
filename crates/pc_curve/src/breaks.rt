//! The breakpoints of the curve, one after another, and why they are the complete list.
ghost use Rattle.std.specs.Prelude.{
  ◌≡◌,
  ◌+◌,
  ◌<◌,
  ◌≤◌,
  ◌≢◌,
  ◌↔◌,
  Some,
  None,
  true,
  IsNone,
  IfSome,
  IfNone,
  ℕ,
  List,
  [],
  ◌∷◌,
  ◌++◌,
  Option,
};
ghost use Rattle.pc_laws.specs.Segment.{cost_for};
ghost use Rattle.pc_flow.specs.Courses.{lower_of, IsSameCurve, IsFurther, most_looks};
ghost use Rattle.pc_flow.specs.inside.Courses.{present};
ghost use Rattle.pc_flow.specs.search.Labelling.{slopes_in};
ghost use Rattle.pc_curve.specs.inside.Points.{IsThere};
ghost use Rattle.pc_curve.specs.inside.Breaks.{IsNextBreak, StandsAt, StandsBy};
ghost use Rattle.pc_laws.specs.Curve.{Breakpoint, AreBreakpoints};
ghost use Rattle.pc_crash.specs.Priced.{PricedNetwork};
ghost use Rattle.pc_curve.specs.Points.{curve_in};
ghost use Rattle.pc_curve.specs.Breaks.{IsNextBreakpoint, AreBreakpointsTo};

use crate::points::least_cost_for;
use pc_crash::{SegmentView, Steps};
use pc_flow::Solver;
use std::marker::Model;
use std::sync::ledger::Ledger;

/// A breakpoint of the time-cost curve: a length at which the slope changes, or an end of the range.
#[derive(Clone, Copy, Debug, PartialEq, Eq)]
pub struct Break {
    /// The length, in units.
    pub length: u64,
    /// The least cost for this length.
    pub cost: u64,
    /// The extra cost of one unit less; `None` at the all-crash length.
    pub slope: Option<u64>,
}

/// The breakpoints of the curve of a solver, from the all-normal length down to the all-crash length. It keeps only the
/// length of the last one.
#[derive(Drop)]
pub struct Breaks {
    last: Option<u64>,
}

impl Model for Breaks {
    ghost use Rattle.std.specs.Prelude.{ℕ, Option};

    ghost Value = { Option ℕ };

    ghost view = { λ breaks. breaks.last };
}

impl Breaks {
    /// Creates the breakpoints of a solver, before the first one.
    pub fn new() -> Breaks
        ensures { result ≡ None }
    {
        Breaks { last: None }
    }

    /// Returns the length of the last breakpoint, or `None` before the first.
    pub fn last(&self) -> Option<u64>
        ensures { result ≡ self.now }
    {
        self.last
    }

    /// Returns the next breakpoint: the first one, or the longest that is shorter than the last. After the one at the
    /// all-crash length it returns `None` and changes nothing.
    ///
    /// The solver advances until its present segment begins or ends there; consecutive segments of the same slope have
    /// no breakpoint between them. It takes at most four looks at each activity for each unit that the slope rises or
    /// the lower end decreases. Allocates nothing.
    ///
    /// # Examples
    ///
    /// `net` is a `CrashNet` of three activities: A can be cut from 4 units to 2 at 3 per unit, B, after it, from 5 to
    /// 3 at 5 per unit, and C, alongside both, from 7 to 5 at 2 per unit. `blank` is a `Blank` of the ledger `L`, in
    /// which the steps are counted.
    ///
    /// ```
    /// let region = Region::with_cells(alloc, cells_needed(3, 3, 0)).ok()?;
    /// let mut solver = Solver::begin(region, net);
    /// let mut steps = Steps::<L>::new(blank);
    /// let mut breaks = Breaks::new();
    /// let first = breaks.next(&mut solver, &mut steps)?;
    /// let second = breaks.next(&mut solver, &mut steps)?;
    /// let third = breaks.next(&mut solver, &mut steps)?;
    /// let lengths = [first.length, second.length, third.length];
    /// let costs = [first.cost, second.cost, third.cost];
    /// let is_last = breaks.next(&mut solver, &mut steps).is_none();
    /// Some((lengths == [9, 7, 5]) & (costs == [45, 51, 65]) & is_last)
    /// ```
    ///
    /// These are the lines of `pc_tests::examples::take_breaks`. A test sees that it returns `Some(true)`.
    pub fn next<L: Ledger>(
        &mut self,
        solver: &mut Solver<'_>,
        steps: &mut Steps<L>,
    ) -> Option<Break>
        requires place { StandsBy self.old solver.old }
        ensures ended { IsNone result ↔ (self.old ≡ Some solver.old.shortest) }
        ensures unchanged { IfNone result (self.new ≡ self.old) }
        ensures still { IfNone result (solver.new ≡ solver.old) }
        ensures next { IfSome result (λ b. IsNextBreak solver.old self.old b) }
        ensures last { IfSome result (λ b. self.new ≡ Some b.length) }
        ensures place { StandsBy self.new solver.new }
        ensures same { IsSameCurve solver.old solver.new }
        ensures further { IsFurther solver.old solver.new }
        ensures gentle { solver.new.slope ≤ slopes_in solver.new.net }
        ensures counted { steps.new ≤ steps.old + most_looks solver.old solver.new }
    {
        let point = break_after(self.last, solver, steps)?;
        self.last = Some(point.length);
        Some(point)
    }
}

// The breakpoint after the one of this length, or the first one.
fn break_after<L: Ledger>(
    last: Option<u64>,
    solver: &mut Solver<'_>,
    steps: &mut Steps<L>,
) -> Option<Break>
    requires place { StandsBy last solver.old }
    ensures ended { IsNone result ↔ (last ≡ Some solver.old.shortest) }
    ensures still { IfNone result (solver.new ≡ solver.old) }
    ensures next { IfSome result (λ b. IsNextBreak solver.old last b) }
    ensures place { IfSome result (λ b. StandsAt b.length solver.new) }
    ensures same { IsSameCurve solver.old solver.new }
    ensures further { IsFurther solver.old solver.new }
    ensures gentle { solver.new.slope ≤ slopes_in solver.new.net }
    ensures counted { steps.new ≤ steps.old + most_looks solver.old solver.new }
{
    match last {
        None => {
            // What is known of the network says that the least costs are those of a curve.
            solver.facts();
            solver.next_segment(steps);
            Some(break_at_upper(solver))
        }
        Some(last) => break_below(solver, last, steps),
    }
}

// The next breakpoint below a length.
fn break_below<L: Ledger>(solver: &mut Solver<'_>, last: u64, steps: &mut Steps<L>) -> Option<Break>
    requires place { StandsAt last solver.old }
    ensures ended { IsNone result ↔ (last ≡ solver.old.shortest) }
    ensures still { IfNone result (solver.new ≡ solver.old) }
    ensures next { IfSome result (λ b. IsNextBreak solver.old (Some last) b) }
    ensures place { IfSome result (λ b. StandsAt b.length solver.new) }
    ensures same { IsSameCurve solver.old solver.new }
    ensures further { IsFurther solver.old solver.new }
    ensures gentle { solver.new.slope ≤ slopes_in solver.new.net }
    ensures counted { steps.new ≤ steps.old + most_looks solver.old solver.new }
{
    // At any time a solver's slope is at most the sum of the last slopes.
    solver.facts();
    if last == solver.shortest() {
        None
    } else {
        Some(next_turn(solver, last, steps))
    }
}

// The next length below one at which the slope changes or the curve ends.
fn next_turn<L: Ledger>(solver: &mut Solver<'_>, last: u64, steps: &mut Steps<L>) -> Break
    requires place { StandsAt last solver.old }
    requires above { last ≢ solver.old.shortest }
    ensures next { IsNextBreak solver.old (Some last) result }
    ensures place { StandsAt result.length solver.new }
    ensures same { IsSameCurve solver.old solver.new }
    ensures further { IsFurther solver.old solver.new }
    ensures gentle { solver.new.slope ≤ slopes_in solver.new.net }
    ensures counted { steps.new ≤ steps.old + most_looks solver.old solver.new }
{
    // What is known of the network says that the least costs are those of a curve, and the present segment is on it.
    solver.facts();
    let mut slope = solver.slope();
    while solver.next_segment(steps) {
        if solver.slope() != slope && solver.upper() < last {
            return break_at_upper(solver);
        }
        slope = solver.slope();
    }
    break_at_lower(solver)
}

// The upper end of the present segment; without a slope if the curve has only one length.
fn break_at_upper(solver: &Solver<'_>) -> Break
    requires { solver.now.given ≡ true }
    ensures length { result.length ≡ (present solver.now).upper }
    ensures cost { result.cost ≡ (present solver.now).cost }
    ensures slope { solver.now.shortest < (present solver.now).upper → result.slope ≡ Some (present solver.now).slope }
    ensures flat { (present solver.now).upper ≤ solver.now.shortest → result.slope ≡ None }
{
    let length = solver.upper();
    let slope = (length > solver.shortest()).then_some(solver.slope());
    Break {
        length,
        cost: solver.cost(),
        slope,
    }
}

// The lower end of the present segment, at which the curve ends.
fn break_at_lower(solver: &Solver<'_>) -> Break
    requires { IsThere solver.now (lower_of solver.now) }
    ensures length { result.length ≡ (present solver.now).lower }
    ensures cost { result.cost ≡ cost_for (present solver.now) (present solver.now).lower }
    ensures slope { result.slope ≡ None }
{
    let length = solver.lower();
    Break {
        length,
        cost: least_cost_for(solver, length),
        slope: None,
    }
}

/// States that the breakpoints which were given are the list of breakpoints down to the last one.
///
/// Before the first one the list is empty, each next one extends it, and down to the all-crash length it has all
/// breakpoints of the curve.
pub fn breaks_make_the_list()
    ensures begins { (net : PricedNetwork) (shortest longest : ℕ) →
        AreBreakpointsTo (curve_in net) shortest longest None [] }
    ensures grows { (net : PricedNetwork) (shortest longest : ℕ) (last : Option ℕ) (points : List Breakpoint)
        (point : Breakpoint) →
        AreBreakpointsTo (curve_in net) shortest longest last points →
        IsNextBreakpoint (curve_in net) shortest longest last point →
        AreBreakpointsTo (curve_in net) shortest longest (Some point.limit) (points ++ point ∷ []) }
    ensures whole { (net : PricedNetwork) (shortest longest : ℕ) (points : List Breakpoint) →
        shortest ≤ longest → AreBreakpointsTo (curve_in net) shortest longest (Some shortest) points →
        AreBreakpoints (curve_in net) shortest longest points }
{}
