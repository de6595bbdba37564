//! The kinds of cards, a file for each or for two whose cards have the same fields, and the table of them: the word of
//! each kind, its list, and its limit in decks of each sort.
ghost use Rattle.std.specs.Prelude.{◌≡◌};
ghost use Rattle.pc_deck.specs.Kinds.{kind_of, kind_among, first_kinds, work_kinds, further_kinds, limit_of};

use crate::limits::{
    MAX_AFTERS, MAX_TASK_ITEMS, MAX_TASKS, SMALL_ACTIVITIES, SMALL_CHARGES, SMALL_EVENTS,
    SMALL_PIECES, SMALL_STATUSES,
};
use pc_cards::lists::{Listed, Named, Once};
use pc_cards::sort::{Sort, by_sort, by_version};
use pc_faults::Kind;
use pc_model::{
    MAX_ACCOUNTS, MAX_ACTIVITIES, MAX_CHARGES, MAX_EVENTS, MAX_ITEMS, MAX_LOADS, MAX_PIECES,
    MAX_RESOURCES, MAX_STATUSES, MAX_TOGOS,
};
use std::alloc::Global;

mod acct;
mod act;
mod after;
mod as_of;
mod load;
mod money;
mod piece;
mod project;
mod status;
mod task;
mod terms;
mod titled;
mod wbs;

pub use acct::AcctCard;
pub use act::ActCard;
pub use after::AfterCard;
pub use as_of::AsOfCard;
pub use load::LoadCard;
pub use money::MoneyCard;
pub use piece::PieceCard;
pub use project::ProjectCard;
pub use status::StatusCard;
pub use task::TaskCard;
pub use terms::TermsCard;
pub use titled::TitledCard;
pub use wbs::ItemCard;

/// The cards of a deck by kind, except its PROJECT card. A kind that decks of this sort do not have has no cards.
pub struct CardLists {
    pub as_of: Once<AsOfCard>,
    pub terms: Once<TermsCard>,
    pub items: Named<ItemCard>,
    pub events: Named<TitledCard>,
    pub acts: Named<ActCard>,
    pub tasks: Named<TaskCard>,
    pub afters: Listed<AfterCard>,
    pub pieces: Listed<PieceCard>,
    pub accounts: Named<AcctCard>,
    pub charges: Listed<MoneyCard>,
    pub togos: Listed<MoneyCard>,
    pub statuses: Listed<StatusCard>,
    pub resources: Named<TitledCard>,
    pub loads: Listed<LoadCard>,
}

impl Drop for CardLists {
    // Written by hand so that the proof of dropping all these lists is done once, here.
    fn drop(self) {
        let CardLists {
            as_of: _as_of,
            terms: _terms,
            items: _items,
            events: _events,
            acts: _acts,
            tasks: _tasks,
            afters: _afters,
            pieces: _pieces,
            accounts: _accounts,
            charges: _charges,
            togos: _togos,
            statuses: _statuses,
            resources: _resources,
            loads: _loads,
        } = self;
    }
}

impl CardLists {
    ghost use Rattle.pc_deck.specs.inside.Kinds.{no_lists};

    /// Creates empty lists. `key` is the key of the hash that looks up cards by their codes.
    pub fn new(alloc: Global, key: u128) -> CardLists
        ensures { result ≡ no_lists }
    {
        CardLists {
            as_of: Once::new(),
            terms: Once::new(),
            items: Named::new(alloc, key),
            events: Named::new(alloc, key),
            acts: Named::new(alloc, key),
            tasks: Named::new(alloc, key),
            afters: Listed::new(alloc),
            pieces: Listed::new(alloc),
            accounts: Named::new(alloc, key),
            charges: Listed::new(alloc),
            togos: Listed::new(alloc),
            statuses: Listed::new(alloc),
            resources: Named::new(alloc, key),
            loads: Listed::new(alloc),
        }
    }
}

/// Returns the kind of cards of the sort that a card's first field names, in capital letters, or `None` if it names
/// none.
pub(crate) fn kind_of(sort: Sort, field: &[u8]) -> Option<Kind>
    ensures { result ≡ kind_of sort field.now }
{
    if let Some(kind) = first_kind(field) {
        return Some(kind);
    }
    if let Some(kind) = work_kind(sort, field) {
        return Some(kind);
    }
    further_kind(field)
}

/// The kind that a field names, of those that come first in decks of both sorts.
fn first_kind(field: &[u8]) -> Option<Kind>
    ensures { result ≡ kind_among first_kinds field.now }
{
    if field == b"PROJECT".as_slice() {
        Some(Kind::Project)
    } else if field == b"ASOF".as_slice() {
        Some(Kind::AsOf)
    } else if field == b"TERMS".as_slice() {
        Some(Kind::Terms)
    } else if field == b"WBS".as_slice() {
        Some(Kind::Wbs)
    } else {
        None
    }
}

/// The kind that a field names, of those that only decks of the sort have.
fn work_kind(sort: Sort, field: &[u8]) -> Option<Kind>
    ensures { result ≡ kind_among (work_kinds sort) field.now }
{
    match sort {
        Sort::Plan if field == b"EVENT".as_slice() => Some(Kind::Event),
        Sort::Plan if field == b"ACT".as_slice() => Some(Kind::Act),
        Sort::Tasks if field == b"TASK".as_slice() => Some(Kind::Task),
        Sort::Tasks if field == b"AFTER".as_slice() => Some(Kind::After),
        _ => None,
    }
}

/// Returns the kind that a field names, among the later kinds that decks of both sorts have.
fn further_kind(field: &[u8]) -> Option<Kind>
    ensures { result ≡ kind_among further_kinds field.now }
{
    if field == b"PIECE".as_slice() {
        Some(Kind::Piece)
    } else if field == b"ACCT".as_slice() {
        Some(Kind::Acct)
    } else if field == b"CHARGE".as_slice() {
        Some(Kind::Charge)
    } else if field == b"TOGO".as_slice() {
        Some(Kind::ToGo)
    } else if field == b"STATUS".as_slice() {
        Some(Kind::Status)
    } else if field == b"RES".as_slice() {
        Some(Kind::Res)
    } else if field == b"LOAD".as_slice() {
        Some(Kind::Load)
    } else if field == b"END".as_slice() {
        Some(Kind::End)
    } else {
        None
    }
}

/// Returns how many cards of the kind a deck of the sort and version may have, or `None` if there is no such limit.
///
/// A deck may have no card of a kind that its sort does not have. A deck of tasks counts as version 2, whatever it
/// says.
pub(crate) fn limit_of(sort: Sort, version: u64, kind: Kind) -> Option<usize>
    ensures { result ≡ limit_of sort version kind }
{
    let version = match sort {
        Sort::Plan => version,
        Sort::Tasks => 2,
    };
    let limit = match kind {
        Kind::Wbs => by_sort(sort, MAX_ITEMS, MAX_TASK_ITEMS),
        Kind::Event => by_sort(sort, by_version(version, SMALL_EVENTS, MAX_EVENTS), 0),
        Kind::Act => by_sort(
            sort,
            by_version(version, SMALL_ACTIVITIES, MAX_ACTIVITIES),
            0,
        ),
        Kind::Task => by_sort(sort, 0, MAX_TASKS),
        Kind::After => by_sort(sort, 0, MAX_AFTERS),
        Kind::Piece => by_version(version, SMALL_PIECES, MAX_PIECES),
        Kind::Acct => MAX_ACCOUNTS,
        Kind::Charge => by_version(version, SMALL_CHARGES, MAX_CHARGES),
        Kind::ToGo => MAX_TOGOS,
        Kind::Status => by_version(version, SMALL_STATUSES, MAX_STATUSES),
        Kind::Res => MAX_RESOURCES,
        Kind::Load => MAX_LOADS,
        Kind::Project | Kind::AsOf | Kind::Terms | Kind::End => return None,
    };
    Some(limit as usize)
}
