//! The cards of one kind: a single one, several, or several that other cards name by their codes.
//!
//! Each takes the next card of its kind, or returns the fault of that card. After a fault the list must not be used.
ghost use Rattle.std.specs.Prelude.{
  ◌≡◌,
  [],
  ◌∷◌,
  ◌++◌,
  None,
  Some,
  true,
  not,
  nat_eq,
  length,
  map,
  position,
  IfOk,
  OnOk,
  IfErr,
};
ghost use Rattle.std.specs.Cmp.Lexicographic.{pointwise};
ghost use Rattle.std.specs.Option.{option_or};
ghost use Rattle.pc_faults.specs.inside.First.{Refuses};
ghost use Rattle.pc_cards.specs.inside.Findings.{fault_of_listed, fault_of_named, not_alone};
ghost use Rattle.pc_cards.specs.inside.Named.{count_once, has_code};
ghost use Rattle.pc_model.specs.Codes.{IsNamedOnce};

use crate::card::{Card, Coded};
use crate::place::CardPlace;
use crate::reading::read_card;
use pc_faults::{DeckError, Detail, Fault};
use pc_names::Names;
use pc_records::Fields;
use pc_text::Code;
use std::alloc::{AllocError, Global};
use std::marker::Model;

/// The card of a kind that a deck has at most once, if it was read.
#[derive(Drop)]
pub struct Once<C: Card> {
    card: Option<C>,
}

impl<C: Card> Model for Once<C> {
    ghost use Rattle.std.specs.Prelude.{Option};

    ghost Value = { Option C };

    ghost view = { λ once. once.card };
}

impl<C: Card> Once<C> {
    /// Returns a list without a card.
    pub fn new() -> Self
        ensures { result ≡ None }
    {
        Once { card: None }
    }

    /// Returns a list of this card, or of none.
    pub fn of(card: Option<C>) -> Self
        ensures { result ≡ card }
    {
        Once { card }
    }

    /// Reads the card of a record and adds it.
    ///
    /// # Errors
    ///
    /// The fault of the card, or out of memory. The list must not be used after an error.
    pub fn take<F: Fields>(&mut self, place: &CardPlace, fields: &F) -> Result<(), DeckError>
        ensures kept { OnOk result (self.new ≡ Some (C.spelled place.now.row (F.fields fields.now))) }
        ensures sound { OnOk result (option_or (not_alone place.now (count_once self.old))
            (fault_of_listed place.now (count_once self.old) C.least C.most (C.slots place.now.sort)
            (F.fields fields.now))
            ≡ None) }
        ensures fault { IfErr result (Refuses
            (λ fault. option_or (not_alone place.now (count_once self.old))
            (fault_of_listed place.now (count_once self.old) C.least C.most (C.slots place.now.sort)
            (F.fields fields.now))
            ≡ Some fault)) }
    {
        let before = self.count();
        if let Some(fault) = place.second(before) {
            return Err(DeckError::Fault(fault));
        }
        let card = read_card(place, fields)?;
        if let Some(fault) = place.fault(before) {
            return Err(DeckError::Fault(fault));
        }
        self.card = Some(card);
        Ok(())
    }

    /// How many cards there are.
    fn count(&self) -> usize
        ensures { result ≡ count_once self.now }
    {
        match self.card {
            Some(_) => 1,
            None => 0,
        }
    }

    /// Returns the card.
    pub fn get(&self) -> Option<C>
        ensures { result ≡ self.now }
    {
        self.card
    }
}

/// Cards of one kind in card order.
#[derive(Drop)]
pub struct Listed<C: Card> {
    cards: Vec<C>,
}

impl<C: Card> Model for Listed<C> {
    ghost use Rattle.std.specs.Prelude.{List};

    ghost Value = { List C };

    ghost view = { λ listed. listed.cards.items };
}

impl<C: Card> Listed<C> {
    /// Returns an empty list.
    pub fn new(alloc: Global) -> Self
        ensures { result ≡ [] }
    {
        Listed {
            cards: Vec::new(alloc),
        }
    }

    /// Reads the card of a record and adds it.
    ///
    /// # Errors
    ///
    /// The fault of the card, or out of memory. The list must not be used after an error.
    pub fn take<F: Fields>(&mut self, place: &CardPlace, fields: &F) -> Result<(), DeckError>
        ensures kept { OnOk result (self.new ≡ self.old ++ C.spelled place.now.row (F.fields fields.now) ∷ []) }
        ensures sound { OnOk result (fault_of_listed place.now (length self.old) C.least C.most
            (C.slots place.now.sort) (F.fields fields.now) ≡ None) }
        ensures fault { IfErr result (Refuses
            (λ fault. fault_of_listed place.now (length self.old) C.least C.most (C.slots place.now.sort)
            (F.fields fields.now) ≡ Some fault)) }
    {
        let card = read_card(place, fields)?;
        let before = self.count();
        if let Some(fault) = place.fault(before) {
            return Err(DeckError::Fault(fault));
        }
        if self.cards.push(card).is_err() {
            return Err(DeckError::OutOfMemory);
        }
        Ok(())
    }

    /// Adds these cards in their order.
    ///
    /// # Errors
    ///
    /// `AllocError` if there is not enough memory. The list must not be used after it.
    pub fn add_all(&mut self, cards: &[C]) -> Result<(), AllocError>
        ensures { OnOk result (self.new ≡ self.old ++ cards.now) }
    {
        self.cards.extend_from_slice(cards)
    }

    /// How many cards there are.
    fn count(&self) -> usize
        ensures { result ≡ length self.now }
    {
        self.cards.len()
    }

    /// Returns the cards.
    pub fn as_slice(&self) -> &[C]
        ensures { result.now ≡ self.now }
    {
        self.cards.as_slice()
    }
}

/// Cards of one kind in card order, no two of them with the same code.
///
/// The names are the codes of the cards in the same order, so that the index of a code is that of its card.
pub struct Named<C: Coded> {
    cards: Vec<C>,
    names: Names,
}

impl<C: Coded> Drop for Named<C> {
    // Written by hand so that the proof of dropping a list is done once, here.
    fn drop(self) {
        let Named {
            cards: _cards,
            names: _names,
        } = self;
    }
}

impl<C: Coded> Model for Named<C> {
    ghost use Rattle.std.specs.Prelude.{◌≡◌, List, map};

    ghost Value = { List C };

    ghost view = { λ named. named.cards.items };

    ghost invariant = { λ named. named.names ≡ map C.own_code named.cards.items };
}

impl<C: Coded> Named<C> {
    /// Returns an empty list. The key is that of the hash by which codes are looked up.
    pub fn new(alloc: Global, key: u128) -> Self
        ensures { result ≡ [] }
    {
        Named {
            cards: Vec::new(alloc),
            names: Names::new(alloc, key),
        }
    }

    /// Reads the card of a record and adds it.
    ///
    /// # Errors
    ///
    /// The fault of the card, or out of memory. The list must not be used after an error.
    pub fn take<F: Fields>(&mut self, place: &CardPlace, fields: &F) -> Result<(), DeckError>
        ensures kept { OnOk result (self.new ≡ self.old ++ C.spelled place.now.row (F.fields fields.now) ∷ []) }
        ensures sound { OnOk result (fault_of_named place.now (map C.own_code self.old)
            (length self.old) C.least C.most (C.slots place.now.sort) (F.fields fields.now) ≡ None) }
        ensures fault { IfErr result (Refuses
            (λ fault. fault_of_named place.now (map C.own_code self.old) (length self.old) C.least C.most
            (C.slots place.now.sort) (F.fields fields.now) ≡ Some fault)) }
    {
        let card = read_card(place, fields)?;
        let before = self.count();
        if !self.add(card)? {
            let detail = Detail::Name(*card.code());
            return Err(DeckError::Fault(Fault::new(place.row, 9, detail)));
        }
        match place.fault(before) {
            Some(fault) => Err(DeckError::Fault(fault)),
            None => Ok(()),
        }
    }

    /// Adds these cards in their order. Afterwards no two of the cards may have the same code.
    ///
    /// # Errors
    ///
    /// `AllocError` if there is not enough memory. The list must not be used after it.
    pub fn add_all(&mut self, cards: &[C]) -> Result<(), AllocError>
        requires { IsNamedOnce (map C.own_code (self.old ++ cards.now)) }
        ensures { OnOk result (self.new ≡ self.old ++ cards.now) }
    {
        for card in cards {
            self.add(*card)?;
        }
        Ok(())
    }

    /// Adds the card, and says whether its code is a new one.
    fn add(&mut self, card: C) -> Result<bool, AllocError>
        ensures added { IfOk result (λ is_new. is_new ≡ not (has_code C.own_code self.old (C.own_code card))) }
        ensures kept { IfOk result (λ is_new. is_new ≡ true → self.new ≡ self.old ++ card ∷ []) }
    {
        self.cards.reserve(1)?;
        let is_new = self.names.add(card.code())?;
        if is_new {
            self.cards.push(card).unwrap();
        }
        Ok(is_new)
    }

    /// How many cards there are.
    fn count(&self) -> usize
        ensures { result ≡ length self.now }
    {
        self.cards.len()
    }

    /// Returns the cards.
    pub fn as_slice(&self) -> &[C]
        ensures { result.now ≡ self.now }
    {
        self.cards.as_slice()
    }

    /// Returns the codes of the cards, in card order.
    pub fn codes(&self) -> &[Code]
        ensures codes { result.now ≡ map C.own_code self.now }
        ensures apart { IsNamedOnce result.now }
    {
        self.names.as_slice()
    }

    /// Returns the codes of the cards, in card order, with the index that finds them. A caller that looks up codes
    /// borrows it, so that nothing is hashed again.
    pub fn names(&self) -> &Names
        ensures { result.now ≡ map C.own_code self.now }
    {
        &self.names
    }

    /// Returns the index of the card with a code, from 0.
    pub fn place_of(&self, code: &Code) -> Option<usize>
        ensures { result ≡ position (pointwise nat_eq code.now) (map C.own_code self.now) }
    {
        self.names.place_of(code)
    }

    /// Returns the key of the hash by which codes are looked up.
    pub fn key(&self) -> u128 {
        self.names.key()
    }
}
