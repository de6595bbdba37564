//! A project as one value.
ghost use Rattle.std.specs.Prelude.{◌≡◌, ◌^◌, ◌<◌, ◌≤◌, length, slice_index_or, IfOk, []};
ghost use Rattle.pc_model.specs.Cost.{activity_cost};
ghost use Rattle.pc_model.specs.Pieces.{knees_of};
ghost use Rattle.pc_model.specs.declared.limits.TheConstants.{MAX_UNIT_DAYS};
ghost use Rattle.pc_accounts.specs.status.Statuses.{IsSixths};
ghost use Rattle.pc_times.specs.Forecast.{state_at};
ghost use Rattle.pc_deck.specs.Deck.{account_codes};
ghost use Rattle.pc_project.specs.inside.Kept.{account_titles, act_titles, estimates_at, event_titles, resource_titles};
ghost use Rattle.pc_project.specs.Planned.{IsPlanned};
ghost use Rattle.pc_project.specs.inside.Project.{activity_at};

use crate::activity::{Activity, Estimates};
use crate::placed::LoadItem;
use crate::statuses::as_of;
use pc_accounts::{AcctRow, Book};
use pc_crash::{CrashNet, MAX_ACTIVITY_COST, NetCodes, cost_of_one};
use pc_days::{Day, days_between};
use pc_deck::Cards;
use pc_model::{PieceRow, Term};
use pc_net::Net;
use pc_text::{Code, Title};
use pc_times::ActState;
use pc_wbs::Tree;
use std::alloc::{AllocError, Global};
use std::marker::Model;

/// A project: what a deck says, with numbers in place of codes.
///
/// Events, activities, items, accounts and resources are counted in card order from 0, and each list has one entry per
/// card of its kind, in card order. The project keeps the cards themselves, so that nothing that they say is lost.
pub struct Project {
    pub(crate) cards: Cards,
    pub(crate) frame: Frame,
    pub(crate) pieces: Vec<PieceRow>,
    pub(crate) loads: Vec<LoadItem>,
    pub(crate) accounts: Vec<AcctRow>,
}

impl Drop for Project {
    // Written by hand so that the proof of dropping a project, with all its lists, is done once, here.
    fn drop(self) {
        let Project {
            cards: _,
            frame: _,
            pieces: _,
            loads: _,
            accounts: _,
        } = self;
    }
}

/// What a project has beyond its cards and what they name: the tree and the network of its activities, its book, and
/// one entry per activity in each list.
#[derive(Drop)]
pub(crate) struct Frame {
    pub(crate) tree: Tree,
    pub(crate) net: Net,
    pub(crate) book: Book,
    pub(crate) states: Vec<ActState>,
    /// The number of each activity's item.
    pub(crate) places: Vec<u32>,
    pub(crate) terms: Vec<Term>,
    /// The expected times of the activities, in sixths of a day.
    pub(crate) expected: Vec<u64>,
    /// The variances of these times, in thirty-sixths of a squared day.
    pub(crate) variances: Vec<u64>,
}

impl Model for Project {
    ghost use Rattle.pc_project.specs.Project.{Project};

    ghost Value = { Project };

    ghost use Rattle.pc_project.specs.inside.Parts.{project_from, IsPlannedInside};

    ghost view = { project_from };

    ghost invariant = { IsPlannedInside };
}

impl Project {
    /// Does nothing. Says what is known of every project, for a proof that needs it and asks for nothing else.
    pub fn facts(&self)
        ensures planned { IsPlanned self.now }
    {
        let _ = &self.cards;
    }

    /// Returns the cards of the deck.
    pub fn cards(&self) -> &Cards
        ensures cards { result.now ≡ self.now.deck }
        ensures planned { IsPlanned self.now }
    {
        &self.cards
    }

    /// Returns the project's code.
    pub fn code(&self) -> Code
        ensures { result ≡ self.now.heading.code }
    {
        self.cards.project().code
    }

    /// Returns the project's title.
    pub fn title(&self) -> &Title
        ensures { result.now ≡ self.now.deck.project.title }
    {
        &self.cards.project().title
    }

    /// Returns the day on which the project starts.
    pub fn start_day(&self) -> Day
        ensures { result ≡ self.now.heading.start_day }
    {
        self.cards.project().start_day
    }

    /// Returns the as-of day: the ASOF card's, or the start day if there is no such card.
    pub fn as_of(&self) -> Day
        ensures { result ≡ self.now.heading.as_of }
    {
        as_of(&self.cards)
    }

    /// Returns the number of days in a unit, 1 to 7.
    pub fn unit_days(&self) -> u64
        ensures unit { result ≡ self.now.heading.unit_days }
        ensures within { result ≤ MAX_UNIT_DAYS }
    {
        self.cards.project().unit_days
    }

    /// Returns the directed end, in days from the start, if the deck gives one.
    pub fn directed(&self) -> Option<u64>
        ensures directed { result ≡ self.now.heading.directed }
        ensures planned { IsPlanned self.now }
    {
        self.cards.project().directed
    }

    /// Returns the network of the activities.
    pub fn net(&self) -> &Net
        ensures network { result.now ≡ self.now.network }
        ensures planned { IsPlanned self.now }
    {
        &self.frame.net
    }

    /// Returns the tree of the items.
    pub fn tree(&self) -> &Tree
        ensures tree { result.now ≡ self.now.tree }
        ensures planned { IsPlanned self.now }
    {
        &self.frame.tree
    }

    /// Returns the number of cards of each kind.
    pub fn counts(&self) -> Counts
        ensures { result ≡ self.now.counts }
    {
        let cards = &self.cards;
        Counts {
            events: cards.events().len() as u64,
            activities: cards.acts().len() as u64,
            items: cards.items().len() as u64,
            accounts: cards.accounts().len() as u64,
            charges: cards.charges().len() as u64,
            togos: cards.togos().len() as u64,
            statuses: cards.statuses().len() as u64,
        }
    }

    /// Returns the code of an event.
    pub fn event_code(&self, e: u32) -> Code
        requires { e < self.now.network.events }
        ensures { result ≡ slice_index_or self.now.events e [] }
    {
        self.cards.event_codes()[e as usize]
    }

    /// Returns the title of an event.
    pub fn event_title(&self, e: u32) -> &Title
        requires { e < self.now.network.events }
        ensures { result.now ≡ slice_index_or (event_titles self.now.deck) e [] }
    {
        &self.cards.events()[e as usize].title
    }

    /// Returns an activity's codes, numbers, durations and costs.
    pub fn activity(&self, a: u32) -> Activity
        requires { a < length self.now.network.arcs }
        ensures { result ≡ activity_at self.now a }
    {
        let term = self.frame.terms[a as usize];
        Activity {
            code: self.cards.act_codes()[a as usize],
            from: self.frame.net.from(a),
            to: self.frame.net.to(a),
            item: self.frame.places[a as usize],
            expected: self.frame.expected[a as usize],
            variance: self.frame.variances[a as usize],
            normal: term.normal,
            crash: term.crash,
            cost: term.cost,
            slope: term.slope,
        }
    }

    /// Returns the title of an activity.
    pub fn activity_title(&self, a: u32) -> &Title
        requires { a < length self.now.network.arcs }
        ensures { result.now ≡ slice_index_or (act_titles self.now.deck) a [] }
    {
        &self.cards.acts()[a as usize].title
    }

    /// Returns the three estimates of an activity, in units.
    pub fn estimates(&self, a: u32) -> Estimates
        requires { a < length self.now.network.arcs }
        ensures { result ≡ estimates_at self.now.deck a }
    {
        let act = &self.cards.acts()[a as usize];
        Estimates {
            optimistic: act.opt,
            likely: act.likely,
            pessimistic: act.pess,
        }
    }

    /// Returns the code of an item.
    pub fn item_code(&self, i: u32) -> Code
        requires { i < length self.now.tree }
        ensures { result ≡ slice_index_or self.now.items i [] }
    {
        self.cards.item_codes()[i as usize]
    }

    /// Returns the title of an item.
    pub fn item_title(&self, i: u32) -> &Title
        requires { i < length self.now.tree }
        ensures { result.now ≡ slice_index_or self.now.titles i [] }
    {
        &self.cards.items()[i as usize].title
    }

    /// Returns the code of each event, in card order.
    pub fn event_codes(&self) -> &[Code]
        ensures codes { result.now ≡ self.now.events }
        ensures each { length result.now ≡ self.now.network.events }
        ensures planned { IsPlanned self.now }
    {
        self.cards.event_codes()
    }

    /// Returns the code of each activity, in card order.
    pub fn activity_codes(&self) -> &[Code]
        ensures codes { result.now ≡ self.now.activities }
        ensures each { length result.now ≡ length self.now.network.arcs }
        ensures planned { IsPlanned self.now }
    {
        self.cards.act_codes()
    }

    /// Returns what each activity may last, in units, and costs, in card order.
    pub fn activity_terms(&self) -> &[Term]
        ensures terms { result.now ≡ self.now.terms }
        ensures planned { IsPlanned self.now }
    {
        &self.frame.terms
    }

    /// Returns the expected time of each activity, in sixths of a day, in card order.
    pub fn expected(&self) -> &[u64]
        ensures expected { result.now ≡ self.now.expected }
        ensures planned { IsPlanned self.now }
    {
        &self.frame.expected
    }

    /// Returns the variance of each activity's time, in thirty-sixths of a squared day, in card order.
    pub fn variances(&self) -> &[u64]
        ensures variances { result.now ≡ self.now.variances }
        ensures each { length result.now ≡ length self.now.network.arcs }
        ensures planned { IsPlanned self.now }
    {
        &self.frame.variances
    }

    /// Returns the number of each activity's item, in card order.
    pub fn places(&self) -> &[u32]
        ensures places { result.now ≡ self.now.places }
        ensures planned { IsPlanned self.now }
    {
        &self.frame.places
    }

    /// Returns the further pieces of the activities' costs, one per PIECE card, in card order.
    pub fn pieces(&self) -> &[PieceRow]
        ensures pieces { result.now ≡ self.now.pieces }
        ensures planned { IsPlanned self.now }
    {
        &self.pieces
    }

    /// Returns the cost of an activity at a duration in units.
    ///
    /// Takes no memory. Linear in the pieces of all activities: for the costs of many activities, use
    /// [`Project::priced`].
    pub fn cost_at(&self, a: u32, duration: u64) -> u64
        requires { a < length self.now.network.arcs }
        ensures cost { result ≡ activity_cost self.now.terms (knees_of self.now.terms self.now.pieces) a duration }
        ensures limit { result ≤ MAX_ACTIVITY_COST }
    {
        cost_of_one(&self.frame.terms, &self.pieces, a, duration)
    }

    /// Returns the network with what its activities may last and cost, for everything about the time-cost curve.
    ///
    /// Linear in events, activities and pieces.
    ///
    /// # Errors
    /// Out of memory.
    pub fn priced(&self, alloc: Global) -> Result<CrashNet<'_>, AllocError>
        ensures network { IfOk result (λ priced. priced.network ≡ self.now.network) }
        ensures terms { IfOk result (λ priced. priced.terms ≡ self.now.terms) }
        ensures pieces { IfOk result (λ priced. priced.pieces ≡ self.now.pieces) }
        ensures project { IfOk result (λ priced. priced.project ≡ self.now.heading.code) }
        ensures events { IfOk result (λ priced. priced.events ≡ self.now.events) }
        ensures activities { IfOk result (λ priced. priced.activities ≡ self.now.activities) }
    {
        let cards = &self.cards;
        let codes = NetCodes::of(cards.project().code, cards.event_codes(), cards.act_names());
        CrashNet::with_codes(
            alloc,
            &self.frame.net,
            &self.frame.terms,
            &self.pieces,
            codes,
        )
    }

    /// Returns the terms of time: the cost of each unit of the project's length, the target in units, the bonus for
    /// each unit before the target, and the penalty for each unit after it. All are 0 if the deck has no TERMS card.
    pub fn terms(&self) -> (u64, u64, u64, u64)
        ensures overhead { result.0 ≡ self.now.time_terms.overhead }
        ensures target { result.1 ≡ self.now.time_terms.target }
        ensures bonus { result.2 ≡ self.now.time_terms.bonus }
        ensures penalty { result.3 ≡ self.now.time_terms.penalty }
        ensures planned { IsPlanned self.now }
    {
        match self.cards.terms() {
            Some(card) => (card.overhead, card.target, card.bonus, card.penalty),
            None => (0, 0, 0, 0),
        }
    }

    /// Returns the number of resources.
    pub fn resource_count(&self) -> u32
        ensures count { result ≡ length self.now.resources }
        ensures planned { IsPlanned self.now }
    {
        self.cards.resources().len() as u32
    }

    /// Returns the code of a resource.
    pub fn resource_code(&self, r: u32) -> Code
        requires { r < length self.now.resources }
        ensures { result ≡ slice_index_or self.now.resources r [] }
    {
        self.cards.resource_codes()[r as usize]
    }

    /// Returns the title of a resource.
    pub fn resource_title(&self, r: u32) -> &Title
        requires { r < length self.now.resources }
        ensures { result.now ≡ slice_index_or (resource_titles self.now.deck) r [] }
    {
        &self.cards.resources()[r as usize].title
    }

    /// Returns the loads of activities on resources, one per LOAD card, in card order.
    pub fn loads(&self) -> &[LoadItem]
        ensures loads { result.now ≡ self.now.loads }
        ensures planned { IsPlanned self.now }
    {
        &self.loads
    }

    /// Returns the cost accounts, each with its leaf of the tree, in card order.
    pub fn accounts(&self) -> &[AcctRow]
        ensures accounts { result.now ≡ self.now.accounts }
        ensures planned { IsPlanned self.now }
    {
        &self.accounts
    }

    /// Returns the code of an account.
    pub fn account_code(&self, a: u32) -> Code
        requires { a < length self.now.accounts }
        ensures { result ≡ slice_index_or (account_codes self.now.deck) a [] }
    {
        self.cards.account_codes()[a as usize]
    }

    /// Returns the title of an account.
    pub fn account_title(&self, a: u32) -> &Title
        requires { a < length self.now.accounts }
        ensures { result.now ≡ slice_index_or (account_titles self.now.deck) a [] }
    {
        &self.cards.accounts()[a as usize].title
    }

    /// Returns what each account has spent up to as-of, and its amount to go.
    pub fn book(&self) -> &Book
        ensures entries { result.now ≡ self.now.entries }
        ensures planned { IsPlanned self.now }
    {
        &self.frame.book
    }

    /// Returns how far each activity is, in sixths of a day from the start, in card order.
    pub fn states(&self) -> &[ActState]
        ensures states { result.now ≡ self.now.states }
        ensures planned { IsPlanned self.now }
    {
        &self.frame.states
    }

    /// Returns how far an activity is, in sixths of a day from the start.
    pub fn state(&self, a: u32) -> ActState
        requires { a < length self.now.network.arcs }
        ensures { result ≡ state_at self.now.states a }
    {
        self.frame.states[a as usize]
    }

    /// Returns the as-of day, in sixths of a day from the start.
    pub fn as_of_time(&self) -> u64
        ensures time { IsSixths self.now.heading.start_day self.now.heading.as_of result }
        ensures small { result < 2 ^ 25 }
    {
        let start = self.cards.project().start_day;
        6 * days_between(start, as_of(&self.cards)) as u64
    }
}

/// The number of cards of each kind in a deck.
#[derive(Clone, Copy)]
pub struct Counts {
    pub events: u64,
    pub activities: u64,
    pub items: u64,
    pub accounts: u64,
    pub charges: u64,
    pub togos: u64,
    pub statuses: u64,
}
