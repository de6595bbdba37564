//! A solver: one segment of the curve after another, and what it gives away of itself.
ghost use Rattle.std.specs.Prelude.{◌≡◌, ◌+◌, ◌*◌, ◌≤◌, true, false, length, ◌<◌, ◌↔◌, IsTrue, IsFalse, ℕ};
ghost use Rattle.pc_model.specs.declared.limits.TheConstants.{MAX_EVENTS, MAX_ACTIVITIES, MAX_PIECES};
ghost use Rattle.pc_model.specs.Sums.{sum_to};
ghost use Rattle.pc_model.specs.Cost.{IsPriced};
ghost use Rattle.pc_model.specs.Pieces.{ArePieces};
ghost use Rattle.pc_model.specs.Schedule.{base_cost_of, IsAllNormalLength, IsAllCrashLength};
ghost use Rattle.pc_flow.specs.declared.early.TheConstants.{MAX_LENGTH};
ghost use Rattle.pc_cells.specs.inside.Spans.{free_of};
ghost use Rattle.pc_flow.specs.search.Labelling.{slopes_in};
ghost use Rattle.pc_flow.specs.Courses.{IsLevel, lower_of, IsSameCurve, IsFurther, most_looks};
ghost use Rattle.pc_flow.specs.inside.Courses.{IsOnCurve, IsNext, HasEnded, present};
ghost use Rattle.pc_flow.specs.inside.search.Growing.{AreDueLater};
ghost use Rattle.pc_flow.specs.inside.search.Labelling.{IsBetweenLabellings, MayFall};
ghost use Rattle.pc_flow.specs.inside.Descents.{HasDescended, HasSearched};
ghost use Rattle.pc_laws.specs.Stair.{stair_of, knee_flow, crash_flow};
ghost use Rattle.pc_crash.specs.Priced.{knees_in, ArePiecesWithinLimits};
ghost use Rattle.pc_crash.specs.Terms.{AreWithinLimits};

use crate::board::Board;
use crate::early::MAX_LENGTH;
use crate::opening::open_board;
use crate::search::Labelling;
use crate::stair::{beside, flow_at};
use pc_cells::Region;
use pc_crash::{CrashNet, SegmentView, Steps};
use std::marker::Model;
use std::sync::ledger::Ledger;

/// The segments of the time-cost curve of a network, one after another, from the all-normal length down to the
/// all-crash length.
///
/// It keeps a time for each event and a flow along each activity, which show that the durations that these times allow
/// are a cheapest schedule for the present length. Each segment is computed from the one before: the last labels of a
/// search stay after the times have moved.
///
/// # Source
///
/// Kelley 1961; Fulkerson 1961.
pub struct Solver<'n> {
    net: &'n CrashNet<'n>,
    board: Board,
    longest: u64,
    shortest: u64,
    cost: u64,
    slope: u64,
    fall: u64,
    given: bool,
}

impl<'n> Drop for Solver<'n> {
    // Written by hand so that the proof of dropping it is done once, here.
    fn drop(self) {
        let Solver {
            net: _net,
            board: _board,
            longest: _longest,
            shortest: _shortest,
            cost: _cost,
            slope: _slope,
            fall: _fall,
            given: _given,
        } = self;
    }
}

impl<'n> Model for Solver<'n> {
    ghost use Rattle.pc_flow.specs.Courses.{Course};

    ghost Value = { Course };

    ghost use Rattle.pc_flow.specs.inside.Solvers.{course_of, IsOnCourseInside};

    ghost view = { course_of };

    ghost invariant = { IsOnCourseInside };
}

/// Returns how many cells a solver needs for this many events, activities and pieces of their costs.
pub fn cells_needed(events: usize, activities: usize, pieces: usize) -> usize
    requires events { events ≤ MAX_EVENTS }
    requires activities { activities ≤ MAX_ACTIVITIES }
    requires pieces { pieces ≤ MAX_PIECES }
    ensures { result ≡ 8 * events + 6 * activities + 2 * pieces + 16 }
{
    8 * events + 6 * activities + 2 * pieces + 16
}

impl<'n> Solver<'n> {
    /// Creates a solver before its first segment, in the free cells of a region. Allocates nothing. Linear in events
    /// and activities.
    ///
    /// # Examples
    ///
    /// Takes the segments of a curve one after another. `net` is a `CrashNet` of three activities: A can be cut from 4
    /// units to 2 at 3 per unit, B, after it, from 5 to 3 at 5 per unit, and C, alongside both, from 7 to 5 at 2 per
    /// unit. `blank` is a `Blank` of the ledger `L`, in which the steps are counted.
    ///
    /// ```
    /// let region = Region::with_cells(alloc, cells_needed(3, 3, 0)).ok()?;
    /// let mut solver = Solver::begin(region, net);
    /// let mut steps = Steps::<L>::new(blank);
    /// let mut segments = [[0; 4]; 3];
    /// for segment in &mut segments {
    ///     if !solver.next_segment(&mut steps) {
    ///         break;
    ///     }
    ///     *segment = [
    ///         solver.upper(),
    ///         solver.lower(),
    ///         solver.cost(),
    ///         solver.slope(),
    ///     ];
    /// }
    /// // From 9 to 7 units each unit less costs 3, from 7 to 5 units 7.
    /// Some(segments == [[9, 7, 45, 3], [7, 5, 51, 7], [0; 4]])
    /// ```
    ///
    /// These are the lines of `pc_low_tests::examples::take_segments`. A test sees that it returns `Some(true)`.
    pub fn begin(region: Region, net: &'n CrashNet<'n>) -> Solver<'n>
        requires { 8 * net.now.network.events + 6 * length net.now.network.arcs + 2 * length net.now.pieces + 16
            ≤ free_of region }
        ensures net { result.net ≡ net.now }
        ensures home { result.board.home ≡ region }
        ensures given { result.given ≡ false }
        ensures level { IsLevel result }
        ensures longest { IsAllNormalLength net.now.network net.now.terms result.longest }
        ensures shortest { IsAllCrashLength net.now.network net.now.terms result.shortest }
    {
        net.facts();
        // The order of the events says that no activity has more flow than its value.
        net.net().facts();
        let opening = open_board(region, net);
        Solver {
            net,
            board: opening.board,
            longest: opening.longest,
            shortest: opening.shortest,
            cost: normal_cost(net),
            slope: 0,
            fall: 0,
            given: false,
        }
    }

    /// Goes on to the next segment, and returns whether there is one. At most four looks at each activity for each unit
    /// that the slope rises or the lower end decreases. Allocates nothing.
    pub fn next_segment<L: Ledger>(&mut self, steps: &mut Steps<L>) -> bool
        ensures ended { IsFalse result ↔ HasEnded self.old }
        ensures unchanged { IsFalse result → self.new ≡ self.old }
        ensures same { IsSameCurve self.old self.new }
        ensures further { IsFurther self.old self.new }
        ensures gentle { self.new.slope ≤ slopes_in self.new.net }
        ensures next { IsTrue result → IsNext self.old self.new }
        ensures counted { steps.new ≤ steps.old + most_looks self.old self.new }
    {
        if self.has_ended() {
            return false;
        }
        descend(&mut self.board, self.net, self.fall);
        let labelling = search_on(&mut self.board, self.net, self.shortest, steps);
        self.cost += self.slope * self.fall;
        self.slope += labelling.rise;
        self.fall = labelling.fall;
        self.given = true;
        true
    }

    /// Returns the network whose curve it is.
    pub fn net(&self) -> &'n CrashNet<'n>
        ensures { result.now ≡ self.now.net }
    {
        self.net
    }

    /// Returns the all-normal length, in units: how long the project takes if each activity has its normal duration.
    pub fn longest(&self) -> u64
        ensures longest { result ≡ self.now.longest }
        ensures all_normal { IsAllNormalLength self.now.net.network self.now.net.terms result }
        ensures limit { result ≤ MAX_LENGTH }
    {
        self.longest
    }

    /// Returns the all-crash length, in units: how long the project takes if each activity has its crash duration.
    pub fn shortest(&self) -> u64
        ensures shortest { result ≡ self.now.shortest }
        ensures all_crash { IsAllCrashLength self.now.net.network self.now.net.terms result }
        ensures range { result ≤ self.now.longest }
    {
        self.shortest
    }

    /// Does nothing. Says what is known of every solver and its network, for a proof that needs it and asks for nothing
    /// else.
    pub fn facts(&self)
        ensures priced { IsPriced self.now.net.network self.now.net.terms (knees_in self.now.net) }
        ensures limits { AreWithinLimits self.now.net.terms }
        ensures pieces { ArePieces self.now.net.terms self.now.net.pieces }
        ensures piece_limits { ArePiecesWithinLimits self.now.net.pieces }
        ensures all_normal { IsAllNormalLength self.now.net.network self.now.net.terms self.now.longest }
        ensures all_crash { IsAllCrashLength self.now.net.network self.now.net.terms self.now.shortest }
        ensures level { self.now.given ≡ false → IsLevel self.now }
        ensures whole { self.now.given ≡ true → IsOnCurve self.now }
        ensures range { self.now.shortest ≤ lower_of self.now }
        ensures gentle { self.now.slope ≤ slopes_in self.now.net }
    {
        self.net.facts();
    }

    /// Returns whether a segment was given.
    pub fn given(&self) -> bool
        ensures { result ≡ self.now.given }
    {
        self.given
    }

    /// Returns the sum of the flows along an activity.
    ///
    /// It determines them all: in order, each knee takes as much as it can, and what is left flows beyond them.
    pub fn whole_flow(&self, a: u32) -> u64
        requires present { self.now.given ≡ true }
        requires activity { a < length self.now.net.network.arcs }
        ensures at_knees { (k : ℕ) → k < (knees_in self.now.net).count a → (present self.now).flow a k
            ≡ knee_flow (stair_of self.now.net.terms (knees_in self.now.net) a) result k }
        ensures beside { (present self.now).beside a
            ≡ crash_flow (stair_of self.now.net.terms (knees_in self.now.net) a) result }
    {
        self.board.flow(a)
    }

    /// Returns the region as it was before.
    pub fn close(self) -> Region
        ensures { result ≡ self.entry.board.home }
    {
        let Solver {
            net: _net,
            board,
            longest: _longest,
            shortest: _shortest,
            cost: _cost,
            slope: _slope,
            fall: _fall,
            given: _given,
        } = self;
        board.close()
    }

    // Whether a segment was given that reaches down to the all-crash length.
    fn has_ended(&self) -> bool
        ensures { IsTrue result ↔ HasEnded self.now }
    {
        self.given && self.lower() == self.shortest
    }
}

impl<'n> SegmentView for Solver<'n> {
    ghost IsPresent = { λ solver. solver.given ≡ true };

    ghost net = { λ solver. solver.net };

    ghost segment = { present };

    fn upper(&self) -> u64 {
        self.board.time(self.net.net().end())
    }

    fn lower(&self) -> u64 {
        self.upper() - self.fall
    }

    fn cost(&self) -> u64 {
        self.cost
    }

    fn slope(&self) -> u64 {
        self.slope
    }

    fn time(&self, e: u32) -> u64 {
        self.board.time(e)
    }

    fn moves(&self, e: u32) -> bool {
        self.fall > 0 && self.board.rank(e) == 0
    }

    fn duration(&self, a: u32) -> u64 {
        let net = self.net;
        let begins = self.time(net.net().from(a));
        let ends = self.time(net.net().to(a));
        net.term(a).normal.min(ends - begins)
    }

    fn flow(&self, a: u32, k: u32) -> u64 {
        let knees = self.net.knees(a);
        let flow = self.board.flow(a);
        if k < knees.len() {
            flow_at(knees.as_slice(), flow, k as usize)
        } else {
            beside(knees.as_slice(), flow)
        }
    }
}

// Has the events without a label fall to the lower end of the present segment, if it has one.
fn descend(board: &mut Board, net: &CrashNet<'_>, fall: u64)
    requires between { IsBetweenLabellings net.now board.old }
    requires listed { AreDueLater net.now board.old }
    requires falls { 0 < fall → MayFall net.now board.old fall }
    ensures { HasDescended net.now board.old board.new fall }
{
    if fall > 0 {
        // The network is priced, so that no time falls below 0.
        net.facts();
        board.fall(fall);
    }
}

// Raises the flow and seeks the next fall, where the length is above the all-crash length.
fn search_on<L: Ledger>(
    board: &mut Board,
    net: &CrashNet<'_>,
    shortest: u64,
    steps: &mut Steps<L>,
) -> Labelling
    requires between { IsBetweenLabellings net.now board.old }
    requires listed { AreDueLater net.now board.old }
    requires shortest { IsAllCrashLength net.now.network net.now.terms shortest }
    ensures counted { steps.new ≤ steps.old + 4 * length net.now.network.arcs * (result.rise + result.fall) }
    ensures searched { HasSearched net.now board.old board.new shortest result.rise
        result.fall }
{
    // The network is priced, so that each fall is by some units, which pay for the first looks.
    net.facts();
    let end = net.net().end();
    if board.time(end) > shortest {
        board.label(net, steps)
    } else {
        Labelling { rise: 0, fall: 0 }
    }
}

// What the activities cost at their normal durations.
fn normal_cost(net: &CrashNet<'_>) -> u64
    ensures { result ≡ sum_to (length net.now.terms) (base_cost_of net.now.terms) }
{
    // No more activities, and none dearer, than a project may have, so that the sum fits.
    net.facts();
    let mut cost = 0;
    for a in 0..net.net().activities() {
        cost += net.term(a).cost;
    }
    cost
}
