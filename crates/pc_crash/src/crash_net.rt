//! A network whose activities can be shortened at a price: what one look at an activity returns, what durations cost,
//! what makes durations and times a schedule, and another term for one activity.
ghost use Rattle.std.specs.Prelude.{
  ◌≡◌,
  ◌≢◌,
  ℕ,
  ◌+◌,
  ◌<◌,
  length,
  IsTrue,
  ◌↔◌,
  IfOk,
  IfSome,
  IfNone,
  ◌*◌,
  ◌-◌,
  ◌≤◌,
  slice_index,
  ◌^◌,
  length as length_of,
  pos,
  ◌-ℤ◌,
  slice_set,
};
ghost use Rattle.pc_model.specs.Codes.{text_at};
ghost use Rattle.pc_model.specs.Cost.{IsPriced, activity_cost, cost_of};
ghost use Rattle.pc_model.specs.Greatest.{places};
ghost use Rattle.pc_model.specs.inside.Greatest.{IsListed};
ghost use Rattle.pc_model.specs.Pieces.{ArePieces};
ghost use Rattle.pc_model.specs.Schedule.{AreTerms, term_at, IsSchedule};
ghost use Rattle.pc_model.specs.Walk.{from_of, to_of};
ghost use Rattle.pc_net.specs.Networks.{events_from, events_to};
ghost use Rattle.pc_crash.specs.inside.KneeLists.{AreKneesOf, AreSmallKnees};
ghost use Rattle.pc_crash.specs.inside.Links.{activities_of, link_at};
ghost use Rattle.pc_crash.specs.inside.Looks.{IsLookAt};
ghost use Rattle.pc_crash.specs.Priced.{knees_in, ArePiecesWithinLimits};
ghost use Rattle.pc_crash.specs.inside.Priced.{AreNames, AreDurations, FitsActivity};
ghost use Rattle.pc_crash.specs.Terms.{AreWithinLimits};
ghost use Rattle.pc_model.specs.inside.Pieces.{knee_at};
ghost use Rattle.pc_model.specs.Sums.{sum_to};
ghost use Rattle.pc_crash.specs.inside.Moved.{AreMoved, IsMovable, moved_knee};

use crate::knee_list::KneeList;
use crate::link_table::{Link, LinkTable, linked};
use crate::net_codes::NetCodes;
use crate::price_table::{PriceTable, laid_out};
use crate::steps::Steps;
use pc_model::{Knee, MAX_ACTIVITIES, MAX_EVENTS, PieceRow, Term};
use pc_net::Net;
use pc_text::Code;
use std::alloc::{AllocError, Global};
use std::marker::Model;
use std::sync::ledger::Ledger;

/// A sound network with the durations and costs of its activities, and the codes of its events and activities.
///
/// Events and activities are numbered from 0 in card order.
pub struct CrashNet<'n> {
    pub(crate) net: &'n Net,
    pub(crate) layout: PriceTable,
    links: LinkTable,
    pieces: Vec<PieceRow>,
    codes: NetCodes<'n>,
}

impl<'n> Drop for CrashNet<'n> {
    // Written by hand so that the proof of dropping a network is done once, here.
    fn drop(self) {
        let CrashNet {
            net: _net,
            layout: _layout,
            links: _links,
            pieces: _pieces,
            codes: _codes,
        } = self;
    }
}

impl<'n> Model for CrashNet<'n> {
    ghost use Rattle.pc_crash.specs.Priced.{PricedNetwork};

    ghost Value = { PricedNetwork };

    ghost use Rattle.pc_crash.specs.inside.CrashNets.{priced_network, IsWholeInside};

    ghost view = { priced_network };

    ghost invariant = { IsWholeInside };
}

impl<'n> CrashNet<'n> {
    /// Builds the network from one term and one code per activity, one code per event, and pieces; the pieces of an
    /// activity follow one another in order. Copies the codes: [`CrashNet::with_codes`] borrows them. Linear in events,
    /// activities and pieces.
    ///
    /// # Errors
    ///
    /// Returns `AllocError` if memory runs out.
    ///
    /// # Examples
    ///
    /// ```
    /// let net = Net::build(alloc, 2, 0, 1, &[Arc { from: 0, to: 1 }]).ok()?;
    /// // The activity lasts 4 units and costs 10. The first unit less costs 3, the second 6.
    /// let terms = [Term {
    ///     normal: 4,
    ///     crash: 2,
    ///     cost: 10,
    ///     slope: 3,
    /// }];
    /// let pieces = [PieceRow {
    ///     activity: 0,
    ///     units: 1,
    ///     slope: 6,
    /// }];
    /// let (s, t, dig) = (Code::read(b"S")?, Code::read(b"T")?, Code::read(b"DIG")?);
    /// let project = Code::read(b"E1")?;
    /// let priced = CrashNet::build(alloc, &net, &terms, &pieces, project, &[s, t], &[dig]).ok()?;
    /// Some(priced.knees(0).len() == 2)
    /// ```
    ///
    /// These are the lines of `pc_low_tests::examples::build_crash_net`. A test sees that it returns `Some(true)`.
    pub fn build(
        alloc: Global,
        net: &'n Net,
        terms: &[Term],
        pieces: &[PieceRow],
        project: Code,
        events: &[Code],
        activities: &[Code],
    ) -> Result<CrashNet<'n>, AllocError>
        requires terms { AreTerms net.now terms.now }
        requires limits { AreWithinLimits terms.now }
        requires pieces { ArePieces terms.now pieces.now }
        requires piece_limits { ArePiecesWithinLimits pieces.now }
        requires events { AreNames net.now.events events.now }
        requires activities { AreNames (length net.now.arcs) activities.now }
        ensures network { IfOk result (λ priced. priced.network ≡ net.now) }
        ensures terms { IfOk result (λ priced. priced.terms ≡ terms.now) }
        ensures pieces { IfOk result (λ priced. priced.pieces ≡ pieces.now) }
        ensures project { IfOk result (λ priced. priced.project ≡ project) }
        ensures events { IfOk result (λ priced. priced.events ≡ events.now) }
        ensures activities { IfOk result (λ priced. priced.activities ≡ activities.now) }
    {
        let codes = NetCodes::build(alloc, project, events, activities)?;
        CrashNet::with_codes(alloc, net, terms, pieces, codes)
    }

    /// Builds the network as [`CrashNet::build`] does, with codes that may be stored elsewhere.
    ///
    /// # Errors
    ///
    /// Returns `AllocError` if memory runs out.
    pub fn with_codes(
        alloc: Global,
        net: &'n Net,
        terms: &[Term],
        pieces: &[PieceRow],
        codes: NetCodes<'n>,
    ) -> Result<CrashNet<'n>, AllocError>
        requires terms { AreTerms net.now terms.now }
        requires limits { AreWithinLimits terms.now }
        requires pieces { ArePieces terms.now pieces.now }
        requires piece_limits { ArePiecesWithinLimits pieces.now }
        requires events { AreNames net.now.events codes.events }
        requires activities { AreNames (length net.now.arcs) codes.activities }
        ensures network { IfOk result (λ priced. priced.network ≡ net.now) }
        ensures terms { IfOk result (λ priced. priced.terms ≡ terms.now) }
        ensures pieces { IfOk result (λ priced. priced.pieces ≡ pieces.now) }
        ensures project { IfOk result (λ priced. priced.project ≡ codes.entry.project) }
        ensures events { IfOk result (λ priced. priced.events ≡ codes.entry.events) }
        ensures activities { IfOk result (λ priced. priced.activities ≡ codes.entry.activities) }
    {
        Ok(CrashNet {
            net,
            layout: laid_out(alloc, net, terms, pieces)?,
            links: linked(alloc, net)?,
            pieces: Vec::from_slice(alloc, pieces)?,
            codes,
        })
    }

    /// Does nothing. Says what is known of every network with prices, for a proof that needs it and asks for nothing
    /// else.
    pub fn facts(&self)
        ensures events { self.now.network.events ≤ MAX_EVENTS }
        ensures activities { length self.now.network.arcs ≤ MAX_ACTIVITIES }
        ensures priced { IsPriced self.now.network self.now.terms (knees_in self.now) }
        ensures limits { AreWithinLimits self.now.terms }
        ensures pieces { ArePieces self.now.terms self.now.pieces }
        ensures piece_limits { ArePiecesWithinLimits self.now.pieces }
        ensures event_names { AreNames self.now.network.events self.now.events }
        ensures activity_names { AreNames (length self.now.network.arcs) self.now.activities }
    {
        self.net.facts();
    }

    /// Returns the network.
    pub fn net(&self) -> &Net
        ensures network { result.now ≡ self.now.network }
    {
        self.net
    }

    /// Returns the durations, in units, and the cost of an activity.
    pub fn term(&self, a: u32) -> Term
        requires { a < length self.now.network.arcs }
        ensures { result ≡ term_at self.now.terms a }
    {
        self.layout.rows[a as usize].term
    }

    /// Returns whether the cost of any activity has further pieces.
    pub fn has_pieces(&self) -> bool
        ensures { IsTrue result ↔ (0 < length self.now.pieces) }
    {
        !self.pieces.is_empty()
    }

    /// Returns the project's code.
    pub fn project(&self) -> Code
        ensures { result ≡ self.now.project }
    {
        self.codes.project()
    }

    /// Returns the code of each event, in card order.
    pub fn event_codes(&self) -> &[Code]
        ensures { result.now ≡ self.now.events }
    {
        self.codes.events()
    }

    /// Returns the code of each activity, in card order.
    pub fn activity_codes(&self) -> &[Code]
        ensures { result.now ≡ self.now.activities }
    {
        self.codes.activities().as_slice()
    }

    /// Returns the code of an event.
    pub fn event_code(&self, e: u32) -> Code
        requires { e < self.now.network.events }
        ensures { result ≡ text_at self.now.events e }
    {
        self.codes.events()[e as usize]
    }

    /// Returns the code of an activity.
    pub fn activity_code(&self, a: u32) -> Code
        requires { a < length self.now.network.arcs }
        ensures { result ≡ text_at self.now.activities a }
    {
        self.codes.activities().as_slice()[a as usize]
    }

    /// Returns the activity with this code, or `None` if no activity has it. One look-up.
    pub fn activity_named(&self, code: &Code) -> Option<u32>
        ensures known { IfSome result (λ a. a < length self.now.network.arcs) }
        ensures named { IfSome result (λ a. text_at self.now.activities a ≡ code.now) }
        ensures unknown { IfNone result ((a : ℕ) → a < length self.now.network.arcs →
            text_at self.now.activities a ≢ code.now) }
    {
        let a = self.codes.activities().place_of(code)?;
        Some(a as u32)
    }

    /// Returns the knees of an activity's cost.
    pub fn knees(&self, a: u32) -> KneeList<'_>
        requires { a < length self.now.network.arcs }
        ensures { AreKneesOf (knees_in self.now) a result }
    {
        self.layout.knees_of(a)
    }

    /// Returns the activities that begin at the event, in card order, each with the event where it ends.
    pub fn out_links(&self, e: u32) -> &[Link]
        requires { e < self.now.network.events }
        ensures listed { IsListed (λ a. from_of self.now.network.arcs a ≡ e) (length self.now.network.arcs)
            (activities_of result.now) }
        ensures places { activities_of result.now ≡ places e 0 (events_from self.now.network.arcs) }
        ensures others { (k : ℕ) → k < length result.now →
            (link_at result.now k).other ≡ to_of self.now.network.arcs (link_at result.now k).activity }
    {
        self.links.begun(e)
    }

    /// Returns the activities that end at the event, in card order, each with the event where it begins.
    pub fn in_links(&self, e: u32) -> &[Link]
        requires { e < self.now.network.events }
        ensures listed { IsListed (λ a. to_of self.now.network.arcs a ≡ e) (length self.now.network.arcs)
            (activities_of result.now) }
        ensures places { activities_of result.now ≡ places e 0 (events_to self.now.network.arcs) }
        ensures others { (k : ℕ) → k < length result.now →
            (link_at result.now k).other ≡ from_of self.now.network.arcs (link_at result.now k).activity }
    {
        self.links.ended(e)
    }

    /// Returns what a search along the network needs of an activity, and counts one step.
    #[inline(always)]
    pub fn look<L: Ledger>(&self, a: u32, steps: &mut Steps<L>) -> Look<'_>
        requires { a < length self.now.network.arcs }
        ensures counted { steps.new ≡ steps.old + 1 }
        ensures look { IsLookAt self.now a result }
    {
        steps.tick();
        let row = self.layout.rows[a as usize];
        Look {
            from: row.arc.from,
            to: row.arc.to,
            normal: row.term.normal,
            crash: row.term.crash,
            slope: row.term.slope,
            knees: self.layout.knees_of(a),
        }
    }

    /// Returns what the activities cost at these durations, given in units and in card order. Linear in activities and
    /// pieces.
    pub fn cost_of(&self, durations: &[u64]) -> u64
        requires { AreDurations self.now.terms durations.now }
        ensures cost { result ≡ cost_of self.now.terms (knees_in self.now) (slice_index durations.now) }
        ensures limit { result ≤ MAX_PROJECT_COST }
    {
        let mut cost = 0;
        for a in 0..self.net.activities() {
            cost += self.activity_cost(a, durations[a as usize]);
        }
        cost
    }

    /// Returns what one activity costs at a duration, in units.
    pub fn activity_cost(&self, a: u32, duration: u64) -> u64
        requires { a < length self.now.network.arcs }
        ensures cost { result ≡ activity_cost self.now.terms (knees_in self.now) a duration }
        ensures limit { result ≤ MAX_ACTIVITY_COST }
    {
        let row = &self.layout.rows[a as usize];
        row.term.cost + price_of(self.layout.part(row), duration)
    }

    /// Returns the time between the two events of an activity, negative if it ends before it begins.
    pub fn gap(&self, times: &[u64], a: u32) -> i64
        requires activity { a < length self.now.network.arcs }
        requires one_each { length times.now ≡ self.now.network.events }
        requires small { (e : ℕ) → e < length times.now → slice_index times.now e < 10 ^ 18 }
        ensures { result ≡ pos (slice_index times.now (to_of self.now.network.arcs a)) -ℤ pos
            (slice_index times.now (from_of self.now.network.arcs a)) }
    {
        let arc = self.layout.rows[a as usize].arc;
        times[arc.to as usize] as i64 - times[arc.from as usize] as i64
    }

    /// Returns whether `durations` and `times` are a schedule for the length `length`: each duration is from crash to
    /// normal and fits between the times of the activity's events, the start is at 0, and the end is at `length` or
    /// earlier.
    pub fn is_schedule(&self, durations: &[u64], times: &[u64], length: u64) -> bool
        requires durations { length_of durations.now ≡ length_of self.now.network.arcs }
        requires times { length_of times.now ≡ self.now.network.events }
        ensures { IsTrue result ↔ IsSchedule self.now.network self.now.terms length (slice_index durations.now)
            (slice_index times.now) }
    {
        if times[self.net.start() as usize] != 0 || times[self.net.end() as usize] > length {
            return false;
        }
        for a in 0..self.net.activities() {
            if !self.fits(a, durations[a as usize], times) {
                return false;
            }
        }
        true
    }

    /// Whether an activity may last so long and has that time between its events.
    fn fits(&self, a: u32, duration: u64, times: &[u64]) -> bool
        requires activity { a < length self.now.network.arcs }
        requires times { length times.now ≡ self.now.network.events }
        ensures { IsTrue result ↔ FitsActivity self.now a duration (slice_index times.now) }
    {
        let row = self.layout.rows[a as usize];
        let begins = times[row.arc.from as usize];
        let ends = times[row.arc.to as usize];
        let lasts = row.term.crash <= duration && duration <= row.term.normal;
        lasts && begins <= ends && duration <= ends - begins
    }

    /// Replaces the term of an activity, and leaves its pieces as they are. Linear in the pieces of the activity.
    pub fn set_term(&mut self, a: u32, term: Term)
        requires activity { a < length self.old.network.arcs }
        requires terms { AreTerms self.old.network (slice_set self.old.terms a term) }
        requires limits { AreWithinLimits (slice_set self.old.terms a term) }
        requires pieces { ArePieces (slice_set self.old.terms a term) self.old.pieces }
        ensures { self.new ≡ record self.old { terms = slice_set self.old.terms a term } }
    {
        let row = self.layout.rows[a as usize];
        let first = row.first as usize;
        let knees = &mut self.layout.knees[first..first + row.count as usize];
        move_knees(knees, &row.term, &term);
        self.layout.rows[a as usize].term = term;
    }
}

/// The events of an activity, its durations in units, the cost of the first unit saved, and its
/// knees.
#[derive(Drop)]
pub struct Look<'n> {
    pub from: u32,
    pub to: u32,
    pub normal: u64,
    pub crash: u64,
    pub slope: u64,
    pub knees: KneeList<'n>,
}

/// The greatest cost of an activity: its cost at its normal duration, and all of that duration at the greatest slope.
pub const MAX_ACTIVITY_COST: u64 = 11_000_000_000_000;

/// The greatest cost of a project: that of the greatest number of activities.
pub const MAX_PROJECT_COST: u64 = 220_000_000_000_000_000;

/// What it costs to shorten an activity with these knees to a duration.
fn price_of(knees: &[Knee], duration: u64) -> u64
    requires { AreSmallKnees knees.now }
    ensures { result ≡ sum_to (length knees.now)
        (λ k. (knee_at knees.now k).rise * ((knee_at knees.now k).at - duration)) }
{
    let mut price = 0;
    for knee in knees {
        price += knee.rise * knee.at.saturating_sub(duration);
    }
    price
}

/// Moves the knees of an activity from where its old term had them to where its new term has them.
fn move_knees(knees: &mut [Knee], old: &Term, new: &Term)
    requires { (k : ℕ) → k < length knees.old → IsMovable old.now new.now k (knee_at knees.old k) }
    ensures { AreMoved old.now new.now knees.old knees.new }
{
    for k in 0..knees.len() {
        knees[k] = moved_knee(old, new, k, &knees[k]);
    }
}

/// The knee with this number, from 0, where the new term has it.
fn moved_knee(old: &Term, new: &Term, k: usize, knee: &Knee) -> Knee
    requires { IsMovable old.now new.now k knee.now }
    ensures { result ≡ moved_knee old.now new.now k knee.now }
{
    let at = if k == 0 {
        new.normal
    } else {
        knee.at - old.crash + new.crash
    };
    let rise = match k {
        0 => new.slope,
        1 => knee.rise + old.slope - new.slope,
        _ => knee.rise,
    };
    Knee { at, rise }
}
