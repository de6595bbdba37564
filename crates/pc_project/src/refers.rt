//! Cards that name other cards by their codes, in decks of either sort.
ghost use Rattle.std.specs.Prelude.{◌≡◌, IfOk, IfErr, OnOk, None, map, []};
ghost use Rattle.std.specs.List.{Any};
ghost use Rattle.pc_cards.specs.declared.sort.Sort.{Sort};
ghost use Rattle.pc_deck.specs.Deck.{Deck};
ghost use Rattle.pc_faults.specs.First.{IsFirstFault};
ghost use Rattle.pc_faults.specs.declared.fault.Fault.{Fault};
ghost use Rattle.pc_faults.specs.inside.First.{IsFirstIn, earliest};

use pc_deck::{CardsOf, DeckSort};
use pc_faults::{Fault, earliest};
use std::alloc::AllocError;

/// A card that names other cards by their codes.
pub trait Refers: Copy {
    /// What the card says, with numbers for codes.
    type Found: Copy;

    ghost found_in: { Sort → Deck → Self → Self.Found };

    ghost HasFault: { Sort → Deck → Self → Fault → Type 0 };

    /// Looks up what the card names in a deck of a sort.
    ///
    /// # Errors
    ///
    /// The card's first fault (F13 to F19, F41).
    fn look_up<S: DeckSort>(&self, cards: &CardsOf<S>) -> Result<Self::Found, Fault>
        ensures found { IfOk result (λ found. found ≡ found_in S.sort cards.now self.now) }
        ensures faultless { OnOk result ((fault : Fault) → HasFault S.sort cards.now self.now fault → ⊥) }
        ensures first { IfErr result (IsFirstFault (HasFault S.sort cards.now self.now)) };
}

/// Looks up what each of the cards names, and returns the first fault of these cards.
///
/// The numbers are complete only if there is no fault.
///
/// # Errors
///
/// `AllocError` if there is not enough memory.
pub fn look_up_all<S: DeckSort, C: Refers>(
    cards: &CardsOf<S>,
    list: &[C],
    numbers: &mut Vec<C::Found>,
) -> Result<Option<Fault>, AllocError>
    requires { numbers.old.items ≡ [] }
    ensures first { IfOk result (λ first. IsFirstIn
        (λ fault. Any (λ card. C.HasFault S.sort cards.now card fault) list.now) first) }
    ensures numbers { IfOk result (λ first. first ≡ None
        → numbers.new.items ≡ map (C.found_in S.sort cards.now) list.now) }
{
    numbers.reserve(list.len())?;
    let mut fault = None;
    for card in list {
        match card.look_up(cards) {
            Ok(found) => numbers.push(found)?,
            Err(found) => fault = earliest(fault, Some(found)),
        }
    }
    Ok(fault)
}

/// Returns the first fault of the cards.
pub fn first_fault<S: DeckSort, C: Refers>(cards: &CardsOf<S>, list: &[C]) -> Option<Fault>
    ensures { IsFirstIn (λ fault. Any (λ card. C.HasFault S.sort cards.now card fault) list.now) result }
{
    let mut fault = None;
    for card in list {
        if let Err(found) = card.look_up(cards) {
            fault = earliest(fault, Some(found));
        }
    }
    fault
}

/// Returns the first of the faults of the cards that come last in decks of both sorts, from the first of each kind.
pub fn first_of_further(
    piece: Option<Fault>,
    account: Option<Fault>,
    charge: Option<Fault>,
    togo: Option<Fault>,
    status: Option<Fault>,
    load: Option<Fault>,
) -> Option<Fault>
    ensures { result
        ≡ earliest piece (earliest account (earliest charge (earliest togo (earliest status load)))) }
{
    let first = earliest(status, load);
    let first = earliest(togo, first);
    let first = earliest(charge, first);
    let first = earliest(account, first);
    earliest(piece, first)
}
