//! What the cards of a deck of tasks name, looked up, and the first fault of all cards.
ghost use Rattle.std.specs.Prelude.{◌≡◌, IfOk, IfErr, OnOk};
ghost use Rattle.pc_cards.specs.declared.sort.Sort.TheVariants.{Tasks};
ghost use Rattle.pc_deck.specs.Misfit.{HasMisfit, HasNoMisfit};
ghost use Rattle.pc_deck.specs.inside.Misfit.{HasFaultOf};
ghost use Rattle.pc_deck.specs.Project.{HasProjectFlaw};
ghost use Rattle.pc_faults.specs.First.{IsFirstFault};
ghost use Rattle.pc_faults.specs.declared.kind.Kind.TheVariants.{After};
ghost use Rattle.pc_faults.specs.inside.First.{IsFirstIn, Refuses};
ghost use Rattle.pc_tasks.specs.Lists.{afters_in};

use pc_deck::TaskCards;
use pc_faults::{DeckError, Detail, Fault, earliest};
use pc_project::{AfterRow, first_fault, first_of_further, look_up_all};
use std::alloc::Global;

/// Looks up once what each card names, and returns which task comes after which.
///
/// # Errors
/// The first fault of any card (F14 to F19, F41), or out of memory.
pub(crate) fn look_up(alloc: Global, cards: &TaskCards) -> Result<Vec<AfterRow>, DeckError>
    ensures sound { OnOk result (HasNoMisfit Tasks cards.now) }
    ensures afters { IfOk result (λ rows. rows.items ≡ afters_in cards.now) }
    ensures first { IfErr result (Refuses (IsFirstFault (HasMisfit Tasks cards.now))) }
{
    let mut rows = Vec::new(alloc);
    let after = look_up_all(cards, cards.afters(), &mut rows)?;
    match first_misfit(cards, after) {
        Some(fault) => Err(DeckError::Fault(fault)),
        None => Ok(rows),
    }
}

/// Returns the first fault of any card, from that of the AFTER cards.
fn first_misfit(cards: &TaskCards, after: Option<Fault>) -> Option<Fault>
    requires { IsFirstIn (HasFaultOf Tasks cards.now After) after }
    ensures { IsFirstIn (HasMisfit Tasks cards.now) result }
{
    let of_ends = ends_fault(cards);
    let item = first_fault(cards, cards.items());
    let task = first_fault(cards, cards.tasks());
    let piece = first_fault(cards, cards.pieces());
    let account = first_fault(cards, cards.accounts());
    let charge = first_fault(cards, cards.charges());
    let togo = first_fault(cards, cards.togos());
    let status = first_fault(cards, cards.statuses());
    let load = first_fault(cards, cards.loads());
    let of_further = first_of_further(piece, account, charge, togo, status, load);
    let of_afters = earliest(after, of_further);
    let of_works = earliest(task, of_afters);
    let of_lists = earliest(item, of_works);
    earliest(of_ends, of_lists)
}

/// Returns the fault of the PROJECT card, if the start is the end.
fn ends_fault(cards: &TaskCards) -> Option<Fault>
    ensures { IsFirstIn (HasProjectFlaw cards.now.project) result }
{
    let card = cards.project();
    if card.start == card.end {
        Some(Fault::new(card.row, 17, Detail::Name(card.start)))
    } else {
        None
    }
}
