//! The cards so far, while a deck is read.
ghost use Rattle.std.specs.Prelude.{◌≡◌, [], true, None, Some, Err, IfOk, OnOk, IfErr};
ghost use Rattle.pc_cards.specs.inside.Findings.{fault_of_listed};
ghost use Rattle.pc_deck.specs.inside.Judged.{no_kind};
ghost use Rattle.pc_faults.specs.declared.kind.Kind.TheVariants as kind;
ghost use Rattle.pc_faults.specs.inside.First.{Refuses};

use crate::cards::DeckCards;
use crate::kinds::{CardLists, ProjectCard, kind_of, limit_of};
use pc_cards::lists::Once;
use pc_cards::place::CardPlace;
use pc_cards::reading::wrong_fields;
use pc_cards::sort::Sort;
use pc_faults::{DeckError, Detail, Fault, Kind};
use pc_records::Row;
use std::alloc::Global;

/// The cards so far of a deck of a sort, and whether the END card was among them.
#[derive(Drop)]
pub struct Draft {
    pub sort: Sort,
    pub project: Once<ProjectCard>,
    pub lists: CardLists,
    pub has_ended: bool,
}

impl Draft {
    ghost use Rattle.pc_deck.specs.inside.Judged.{fault_at, judge, card_place_of};
    ghost use Rattle.pc_deck.specs.inside.Reading.{
      KeepsCard,
      codes_in,
      no_cards,
      closed,
      count_in,
      seen_in,
      project_version,
      with_card,
    };
    ghost use Rattle.pc_deck.specs.Within.{IsWithin};
    ghost use Rattle.pc_deck.specs.inside.Within.{IsDraftWithin};

    /// Creates a draft without cards. `key` is the key of the hash that looks up cards by their codes.
    pub fn new(alloc: Global, key: u128, sort: Sort) -> Draft
        ensures { result ≡ no_cards sort }
    {
        Draft {
            sort,
            project: Once::new(),
            lists: CardLists::new(alloc, key),
            has_ended: false,
        }
    }

    /// The version of the deck, as its PROJECT card says.
    fn version(&self) -> u64
        ensures { result ≡ project_version self.now.project }
    {
        match self.project.get() {
            Some(project) => project.version,
            None => 1,
        }
    }

    /// Returns the place of a card of the kind after the cards so far.
    fn place(&self, kind: Kind, row: u32) -> CardPlace
        ensures { result ≡ card_place_of (seen_in self.now) kind row }
    {
        CardPlace {
            sort: self.sort,
            kind,
            row,
            limit: limit_of(self.sort, self.version(), kind),
            has_ended: self.has_ended,
        }
    }

    /// Takes the card of the next record. After an error, do not use the draft again.
    ///
    /// # Errors
    ///
    /// Returns the fault of the card, or `DeckError::OutOfMemory` if memory runs out.
    pub fn take(&mut self, row: u32, fields: &Row) -> Result<(), DeckError>
        ensures kept { OnOk result (KeepsCard self.old row fields.now self.new) }
        ensures fault { IfErr result (Refuses (λ fault. judge (seen_in self.old) row fields.now ≡ Err fault)) }
    {
        let is_first = self.project.get().is_none();
        let Some(kind) = kind_of(self.sort, fields.field(0)) else {
            return Err(DeckError::Fault(no_kind(is_first, row)));
        };
        if is_first && kind != Kind::Project {
            return Err(DeckError::Fault(Fault::new(row, 3, Detail::Plain)));
        }
        let place = self.place(kind, row);
        self.keep(&place, fields)
    }

    /// Takes the next card, of a kind that is known, or returns its fault.
    fn keep(&mut self, place: &CardPlace, fields: &Row) -> Result<(), DeckError>
        ensures kept { OnOk result (self.new ≡ with_card self.old place.now.kind place.now.row fields.now) }
        ensures sound { OnOk result (fault_at place.now (count_in self.old place.now.kind)
            (codes_in self.old place.now.kind) fields.now ≡ None) }
        ensures fault { IfErr result (Refuses
            (λ fault. fault_at place.now (count_in self.old place.now.kind)
            (codes_in self.old place.now.kind) fields.now ≡ Some fault)) }
    {
        // With `return`, each result is built in its final place and not copied there.
        match place.kind {
            Kind::Project => return self.project.take(place, fields),
            Kind::AsOf => return self.lists.as_of.take(place, fields),
            Kind::Terms => return self.lists.terms.take(place, fields),
            Kind::Wbs => return self.lists.items.take(place, fields),
            Kind::Event => return self.lists.events.take(place, fields),
            Kind::Act => return self.lists.acts.take(place, fields),
            Kind::Task => return self.lists.tasks.take(place, fields),
            Kind::After => return self.lists.afters.take(place, fields),
            Kind::Piece => return self.lists.pieces.take(place, fields),
            Kind::Acct => return self.lists.accounts.take(place, fields),
            Kind::Charge => return self.lists.charges.take(place, fields),
            Kind::ToGo => return self.lists.togos.take(place, fields),
            Kind::Status => return self.lists.statuses.take(place, fields),
            Kind::Res => return self.lists.resources.take(place, fields),
            Kind::Load => return self.lists.loads.take(place, fields),
            Kind::End => return self.end(place, fields),
        }
    }

    /// Takes the END card, or returns its fault.
    fn end(&mut self, place: &CardPlace, fields: &Row) -> Result<(), DeckError>
        requires { place.now.kind ≡ kind.End }
        ensures kept { OnOk result (self.new ≡ record self.old { has_ended = true }) }
        ensures sound { OnOk result (fault_of_listed place.now (count_in self.old kind.End) 1 1 [] fields.now ≡ None) }
        ensures fault { IfErr result (Refuses
            (λ fault. fault_of_listed place.now (count_in self.old kind.End) 1 1 [] fields.now ≡ Some fault)) }
    {
        if let Some(fault) = wrong_fields(place, 1, 1, fields) {
            return Err(DeckError::Fault(fault));
        }
        let before = self.ends();
        if let Some(fault) = place.fault(before) {
            return Err(DeckError::Fault(fault));
        }
        self.has_ended = true;
        Ok(())
    }

    /// How many END cards there are.
    fn ends(&self) -> usize
        ensures { result ≡ count_in self.now kind.End }
    {
        if self.has_ended { 1 } else { 0 }
    }

    /// Returns the cards of the deck; `end` is the number after its last record.
    ///
    /// # Errors
    ///
    /// Returns F12 if there was no END card.
    pub fn close(self, end: u32) -> Result<DeckCards, Fault>
        requires { IsDraftWithin self }
        ensures cards { result ≡ closed self end }
        ensures within { IfOk result (IsWithin self.sort) }
    {
        let Draft {
            sort: _,
            project,
            lists,
            has_ended,
        } = self;
        match project.get() {
            Some(project) if has_ended => Ok(DeckCards { project, lists }),
            _ => Err(Fault::new(end, 12, Detail::Plain)),
        }
    }
}

/// Returns the fault of a card of no kind that its deck has: F3 for the first card, F4 for any other.
fn no_kind(is_first: bool, row: u32) -> Fault
    ensures { result ≡ no_kind is_first row }
{
    let number = if is_first { 3 } else { 4 };
    Fault::new(row, number, Detail::Plain)
}
