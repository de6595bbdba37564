//! What a what-if session works in: one region of memory, taken at the opening.
//!
//! The current times of the project are in its first spans. A trial takes the cells that it needs after them and gives
//! them back, so nothing here takes memory between two lines, and any number of trials finds its cells.
ghost use Rattle.std.specs.Prelude.{◌≡◌, ◌+◌, ◌-◌, ◌*◌, ◌<◌, ◌≤◌, ◌↔◌, ℕ, List, length, Some, IfOk, IfSome, IsSome, []};
ghost use Rattle.pc_curve.specs.CurveText.{IsCurveText};
ghost use Rattle.pc_curve.specs.Points.{curve_in};
ghost use Rattle.pc_edges.specs.inside.Writes.{Writes};
ghost use Rattle.pc_model.specs.declared.limits.TheConstants.{
  MAX_PIECES,
  MAX_UNIT_DAYS,
  MAX_VARIANCE,
};
ghost use Rattle.pc_edges.specs.inside.page.Page.{fresh};
ghost use Rattle.pc_project.specs.Project.{Project as Plan};
ghost use Rattle.pc_reports.specs.TimesText.{IsTimesText};
ghost use Rattle.pc_times.specs.Times.{AreLengths};
ghost use Rattle.pc_times.specs.declared.TheConstants.{MAX_ACTIVITY_LENGTH, MAX_TIME};
ghost use Rattle.pc_whatif.specs.inside.edits.Plans.{AreEstimates};
ghost use Rattle.pc_whatif.specs.inside.trials.Laid.{AreAtMost, AreSpansTaken, AreRenewed, IsLaidIn, span_list};
ghost use Rattle.pc_whatif.specs.inside.trials.SessionRegion.{
  IsChangedTo,
  IsRegionFor,
  IsStanding,
  IsStandingOf,
  path_in,
  with_estimates,
  with_times,
};
ghost use Rattle.pc_curve.specs.Range.{IsRange, IsLengthInRange};
ghost use Rattle.pc_whatif.specs.inside.trials.Trials.{HasTrialCells, looks_over, trial_cells};

mod trial;

use crate::trials::trial::{trial_cost, trial_curve};
use pc_cells::{Region, Span};
use pc_crash::{CrashNet, Steps};
use pc_edges::page::Page;
use pc_edges::{Failed, Sink};
use pc_flow::cells_needed;
use pc_net::Net;
use pc_project::{Estimates, Project};
use pc_reports::{TimesView, end_to_meet, write_times_on};
use pc_times::{
    critical_path_into, early_into, expected_sixths, so_long_before, tails_into, variance_36,
};
use std::alloc::{AllocError, Global};
use std::marker::Model;
use std::sync::ledger::Ledger;

/// All memory that a session needs between two lines, taken at its opening: a region with the standing times in its
/// first spans, and after them the cells that a trial works in.
///
/// The spans hold for each activity its expected time, in sixths of a day, and its variance; for each event its
/// earliest time and the greatest sum of expected times over the walks from it to the end; and the critical path.
#[derive(Drop)]
pub(crate) struct SessionRegion {
    /// `None` only while a trial has it.
    region: Option<Region>,
    spans: Spans,
    /// The number of activities on the critical path.
    path_len: usize,
    /// An entry for each event, which the passes over the network write into.
    room: Vec<u64>,
}

impl Model for SessionRegion {
    ghost use Rattle.pc_whatif.specs.inside.trials.SessionRegion.{SessionRegion};

    ghost Value = { SessionRegion };

    ghost use Rattle.pc_whatif.specs.inside.trials.Laid.{IsLaid, session_region_of};

    ghost view = { session_region_of };

    ghost invariant = { IsLaid };
}

impl SessionRegion {
    /// Returns the region for a project, with its times in it. No other call takes memory.
    ///
    /// Linear in events, activities and pieces.
    pub(crate) fn build(alloc: Global, project: &Project) -> Result<SessionRegion, AllocError>
        ensures fits { IfOk result (IsRegionFor project.now.network) }
        ensures standing { IfOk result (IsStandingOf project.now) }
        ensures free { IfOk result (λ r. r.free ≡
            trial_cells project.now.network.events (length project.now.network.arcs) (length project.now.pieces)) }
    {
        let pieces = project.pieces().len();
        SessionRegion::build_from(
            alloc,
            project.net(),
            pieces,
            project.expected(),
            project.variances(),
        )
    }

    // Returns the region for a network with this many pieces, with these expected times and variances.
    fn build_from(
        alloc: Global,
        net: &Net,
        pieces: usize,
        expected: &[u64],
        variances: &[u64],
    ) -> Result<SessionRegion, AllocError>
        requires lengths { AreLengths net.now expected.now }
        requires variance_each { length variances.now ≡ length net.now.arcs }
        requires variances { AreAtMost MAX_VARIANCE variances.now }
        requires pieces { pieces ≤ MAX_PIECES }
        ensures fits { IfOk result (IsRegionFor net.now) }
        ensures standing { IfOk result (IsStanding net.now) }
        ensures expected { IfOk result (λ r. r.expected ≡ expected.now) }
        ensures variances { IfOk result (λ r. r.variances ≡ variances.now) }
        ensures free { IfOk result (λ r. r.free ≡ trial_cells net.now.events (length net.now.arcs) pieces) }
    {
        net.facts();
        let events = net.events() as usize;
        let activities = net.activities() as usize;
        // The cells of the standing times, and those that a trial works in.
        let cells = 2 * activities + 3 * events + cells_needed(events, activities, pieces);
        let mut region = Region::with_cells(alloc, cells)?;
        let room = vec![in alloc; 0; events]?;
        let spans = take_spans(&mut region, events, activities);
        region.write(spans.expected, expected);
        region.write(spans.variances, variances);
        let mut taken = SessionRegion {
            region: Some(region),
            spans,
            path_len: 0,
            room,
        };
        taken.renew(net);
        Ok(taken)
    }

    /// Returns the number of free cells.
    pub(crate) fn cells(&self) -> usize
        ensures { result ≡ self.now.free }
    {
        present(&self.region).free()
    }

    /// Returns the expected times of the activities, in sixths of a day, in card order.
    pub(crate) fn expected(&self) -> &[u64]
        ensures list { result.now ≡ self.now.expected }
        ensures limit { AreAtMost MAX_ACTIVITY_LENGTH result.now }
    {
        present(&self.region).list(self.spans.expected)
    }

    /// Returns the variances of the activities, in thirty-sixths of a square day, in card order.
    pub(crate) fn variances(&self) -> &[u64]
        ensures list { result.now ≡ self.now.variances }
        ensures limit { AreAtMost MAX_VARIANCE result.now }
    {
        present(&self.region).list(self.spans.variances)
    }

    /// Returns the earliest times of the events, in sixths of a day, in card order.
    pub(crate) fn early(&self) -> &[u64]
        ensures list { result.now ≡ self.now.early }
        ensures limit { AreAtMost MAX_TIME result.now }
    {
        present(&self.region).list(self.spans.early)
    }

    /// Returns for each event the greatest sum of expected times over the walks from it to the end.
    pub(crate) fn tails(&self) -> &[u64]
        ensures list { result.now ≡ self.now.tails }
        ensures limit { AreAtMost MAX_TIME result.now }
    {
        present(&self.region).list(self.spans.tails)
    }

    /// Returns the activities of the critical path, from the start event to the end event.
    pub(crate) fn path(&self) -> &[u64]
        ensures path { result.now ≡ path_in self.now }
        ensures short { length result.now ≤ length self.now.path_cells }
    {
        &present(&self.region).list(self.spans.path_cells)[..self.path_len]
    }

    /// Sets the expected time and the variance of an activity from these estimates, in units of `unit_days` days.
    ///
    /// The times of events stay: call `renew` before you read them.
    pub(crate) fn set_estimates(&mut self, a: u32, estimates: &Estimates, unit_days: u64)
        requires activity { a < length self.old.expected }
        requires estimates { AreEstimates estimates.now }
        requires unit { unit_days ≤ MAX_UNIT_DAYS }
        ensures { self.new ≡ with_estimates self.old a estimates.now unit_days }
    {
        let opt = estimates.optimistic;
        let pess = estimates.pessimistic;
        let expected = expected_sixths(opt, estimates.likely, pess, unit_days);
        let variance = variance_36(opt, pess, unit_days);
        let Some(region) = &mut self.region else {
            unreachable!()
        };
        region.set(self.spans.expected, a as usize, expected);
        region.set(self.spans.variances, a as usize, variance);
    }

    /// Computes the times of events and the critical path from the expected times. Takes a few passes over the network.
    pub(crate) fn renew(&mut self, net: &Net)
        requires { IsRegionFor net.now self.old }
        ensures standing { IsStanding net.now self.new }
        ensures fits { IsRegionFor net.now self.new }
        ensures rest { self.new ≡ with_times self.old self.new.early self.new.tails self.new.path_cells
            self.new.path_len }
    {
        let Some(region) = &mut self.region else {
            unreachable!()
        };
        self.path_len = renew_times(region, &self.spans, net, &mut self.room);
    }

    /// Writes the report of event times and flushes the sink: that of the deck's project, with the expected times and
    /// variances of this region. Linear in events and activities.
    pub(crate) fn write_times<O: Sink>(
        &self,
        page: &mut Page,
        sink: &mut O,
        project: &Project,
    ) -> Result<(), Failed>
        requires fresh { page.old ≡ fresh }
        requires fits { IsRegionFor project.now.network self.now }
        requires standing { IsStanding project.now.network self.now }
        ensures text { (changed : Plan) → IsChangedTo project.now self.now changed →
            (text : List ℕ) × IsTimesText changed text
            × Writes result (O.taken sink.old) (O.taken sink.new) (O.faults sink.old) (O.faults sink.new) text }
        ensures fresh { page.new ≡ fresh }
    {
        let net = project.net();
        net.facts();
        let early = self.early();
        let by = end_to_meet(project.directed(), early[net.end() as usize]);
        let view = StandingTimes {
            expected: self.expected(),
            variances: self.variances(),
            early,
            tails: self.tails(),
            path: self.path(),
            by,
        };
        write_times_on(page, sink, project, &view)
    }

    /// Writes the curve of a network and flushes the sink. Works in the free cells, which are free again afterwards.
    pub(crate) fn write_curve<O: Sink, L: Ledger>(
        &mut self,
        page: &mut Page,
        sink: &mut O,
        net: &CrashNet<'_>,
        steps: &mut Steps<L>,
    ) -> Result<(), Failed>
        requires fresh { page.old ≡ fresh }
        requires room { HasTrialCells net.now self.old }
        ensures text { (text : List ℕ) × IsCurveText net.now text
            × Writes result (O.taken sink.old) (O.taken sink.new) (O.faults sink.old) (O.faults sink.new) text }
        ensures fresh { page.new ≡ fresh }
        ensures kept { self.new ≡ self.old }
        ensures counted { (shortest longest : ℕ) → IsRange net.now shortest longest →
            steps.new ≤ steps.old + looks_over net.now (longest - shortest) }
    {
        trial_curve(&mut self.region, page, sink, net, steps)
    }

    /// Returns the least cost of a schedule of this length, in units, or `None` if the length is outside the network's
    /// range. Works in the free cells, which are free again afterwards.
    pub(crate) fn least_cost<L: Ledger>(
        &mut self,
        net: &CrashNet<'_>,
        limit: u64,
        steps: &mut Steps<L>,
    ) -> Option<u64>
        requires room { HasTrialCells net.now self.old }
        ensures least { IfSome result (curve_in net.now limit) }
        ensures within { IsSome result ↔ IsLengthInRange net.now limit }
        ensures kept { self.new ≡ self.old }
        ensures counted { (shortest longest : ℕ) → IsRange net.now shortest longest →
            steps.new ≤ steps.old + looks_over net.now (longest - shortest) }
    {
        trial_cost(&mut self.region, net, limit, steps)
    }
}

// Returns the region, which is there between two calls.
fn present(region: &Option<Region>) -> &Region
    requires { IsSome region.now }
    ensures { region.now ≡ Some result.now }
{
    region.as_ref().unwrap()
}

/// The span of each list of the standing times.
#[derive(Clone, Copy, Debug)]
struct Spans {
    expected: Span,
    variances: Span,
    early: Span,
    tails: Span,
    path_cells: Span,
}

/// Takes the spans for this many events and activities from a region that has none yet.
fn take_spans(region: &mut Region, events: usize, activities: usize) -> Spans
    requires events { 0 < events }
    requires activities { 0 < activities }
    requires none { region.old.spans ≡ [] }
    requires room { 2 * activities + 3 * events ≤ region.old.capacity }
    ensures { AreSpansTaken region.old region.new events activities result }
{
    Spans {
        expected: region.take_free(activities),
        variances: region.take_free(activities),
        early: region.take_free(events),
        tails: region.take_free(events),
        path_cells: region.take_free(events),
    }
}

/// Computes the times and the critical path from the expected times, and returns how many activities the path has.
///
/// The passes write into `room`, which has an entry for each event, and from there into the spans. Takes no memory.
fn renew_times(region: &mut Region, spans: &Spans, net: &Net, room: &mut [u64]) -> usize
    requires laid { IsLaidIn region.old spans.now }
    requires lengths { AreLengths net.now (span_list region.old 0) }
    requires early { length (span_list region.old 2) ≡ net.now.events }
    requires tails { length (span_list region.old 3) ≡ net.now.events }
    requires path_cells { length (span_list region.old 4) ≡ net.now.events }
    requires room { length room.old ≡ net.now.events }
    ensures renewed { AreRenewed net.now spans.now region.old region.new result }
    ensures room { length room.new ≡ length room.old }
{
    early_into(net, region.list(spans.expected), room);
    region.write(spans.early, room);
    tails_into(net, region.list(spans.expected), room);
    region.write(spans.tails, room);
    let expected = region.list(spans.expected);
    let early = region.list(spans.early);
    let tails = region.list(spans.tails);
    let path_len = critical_path_into(net, expected, early, tails, room);
    region.write(spans.path_cells, room);
    path_len
}

/// The lists of a session's region, and when the end event must be reached, in sixths of a day. Contracts see what it
/// shows.
#[derive(Drop)]
struct StandingTimes<'a> {
    expected: &'a [u64],
    variances: &'a [u64],
    early: &'a [u64],
    tails: &'a [u64],
    path: &'a [u64],
    by: i64,
}

impl<'a> Model for StandingTimes<'a> {
    ghost use Rattle.pc_reports.specs.inside.View.{Shown};

    ghost Value = { Shown };

    ghost use Rattle.pc_whatif.specs.inside.trials.Shown.{shown_of, IsSmallView};

    ghost view = { shown_of };

    ghost invariant = { IsSmallView };
}

impl<'a> TimesView for StandingTimes<'a> {
    ghost shown = { λ v. v };

    fn expected(&self, a: u32) -> u64 {
        self.expected[a as usize]
    }

    fn variance(&self, a: u32) -> u64 {
        self.variances[a as usize]
    }

    fn early(&self, e: u32) -> u64 {
        self.early[e as usize]
    }

    fn late(&self, e: u32) -> i64 {
        so_long_before(self.by, self.tails[e as usize])
    }

    fn on_path(&self, k: u32) -> Option<u32> {
        let a = *self.path.get(k as usize)?;
        Some(a as u32)
    }
}
