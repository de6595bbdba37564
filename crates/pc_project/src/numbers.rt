//! The numbers of everything that the cards name, or the first fault of any card.
ghost use Rattle.std.specs.Prelude.{◌≡◌, None, IfOk, IfErr, OnOk, []};
ghost use Rattle.pc_cards.specs.declared.sort.Sort.TheVariants.{Plan};
ghost use Rattle.pc_deck.specs.Within.{IsWithinLimits};
ghost use Rattle.pc_deck.specs.Misfit.{HasMisfit};
ghost use Rattle.pc_faults.specs.First.{IsFirstFault};
ghost use Rattle.pc_faults.specs.inside.First.{IsFirstIn, Refuses};
ghost use Rattle.pc_project.specs.inside.Numbered.{AreListsOf, AreNumbersOf, HasListedFault};

use crate::placed::{LoadItem, Placement, ends_of};
use crate::refers::{first_of_further, look_up_all};
use pc_accounts::status::StatusRow;
use pc_accounts::{AcctRow, MoneyRow};
use pc_deck::Cards;
use pc_faults::{DeckError, Fault, earlier_of, earliest};
use pc_model::PieceRow;
use pc_wbs::ItemRow;
use std::alloc::{AllocError, Global};

/// What the cards of a deck name, by numbers: each list has one entry per card of its kind, in card order.
#[derive(Drop)]
pub(crate) struct Numbers {
    /// The event where the project starts.
    pub start: u32,
    /// The event where the project ends.
    pub end: u32,
    pub rows: Vec<ItemRow>,
    pub placements: Vec<Placement>,
    pub pieces: Vec<PieceRow>,
    pub loads: Vec<LoadItem>,
    pub accounts: Vec<AcctRow>,
    pub charges: Vec<MoneyRow>,
    pub togos: Vec<MoneyRow>,
    pub statuses: Vec<StatusRow>,
}

/// Looks up once what each card names.
///
/// # Errors
/// The first fault of any card (F13 to F19, F41), or out of memory.
pub(crate) fn numbers_of(alloc: Global, cards: &Cards) -> Result<Numbers, DeckError>
    ensures numbers { IfOk result (AreNumbersOf cards.now) }
    ensures first { IfErr result (Refuses (IsFirstFault (HasMisfit Plan cards.now))) }
{
    let mut numbers = Numbers {
        start: 0,
        end: 0,
        rows: Vec::new(alloc),
        placements: Vec::new(alloc),
        pieces: Vec::new(alloc),
        loads: Vec::new(alloc),
        accounts: Vec::new(alloc),
        charges: Vec::new(alloc),
        togos: Vec::new(alloc),
        statuses: Vec::new(alloc),
    };
    let of_lists = numbers.look_up_lists(cards)?;
    match (ends_of(cards), of_lists) {
        (Ok(ends), None) => {
            numbers.start = ends.0;
            numbers.end = ends.1;
            Ok(numbers)
        }
        (Ok(_), Some(fault)) => Err(DeckError::Fault(fault)),
        (Err(first), fault) => Err(DeckError::Fault(earlier_of(first, fault))),
    }
}

impl Numbers {
    /// Looks up what each card of a list names, and returns the first fault of these cards.
    ///
    /// The numbers are complete only if there is no fault.
    fn look_up_lists(&mut self, cards: &Cards) -> Result<Option<Fault>, AllocError>
        requires rows { self.old.rows.items ≡ [] }
        requires placements { self.old.placements.items ≡ [] }
        requires pieces { self.old.pieces.items ≡ [] }
        requires loads { self.old.loads.items ≡ [] }
        requires accounts { self.old.accounts.items ≡ [] }
        requires charges { self.old.charges.items ≡ [] }
        requires togos { self.old.togos.items ≡ [] }
        requires statuses { self.old.statuses.items ≡ [] }
        ensures first { IfOk result (IsFirstIn (HasListedFault cards.now)) }
        ensures lists { IfOk result (λ fault. fault ≡ None → AreListsOf cards.now self.new) }
        ensures within { OnOk result (IsWithinLimits cards.now) }
    {
        let item = look_up_all(cards, cards.items(), &mut self.rows)?;
        let act = look_up_all(cards, cards.acts(), &mut self.placements)?;
        let piece = look_up_all(cards, cards.pieces(), &mut self.pieces)?;
        let load = look_up_all(cards, cards.loads(), &mut self.loads)?;
        let account = look_up_all(cards, cards.accounts(), &mut self.accounts)?;
        let charge = look_up_all(cards, cards.charges(), &mut self.charges)?;
        let togo = look_up_all(cards, cards.togos(), &mut self.togos)?;
        let status = look_up_all(cards, cards.statuses(), &mut self.statuses)?;
        let of_further = first_of_further(piece, account, charge, togo, status, load);
        let of_works = earliest(act, of_further);
        Ok(earliest(item, of_works))
    }
}
