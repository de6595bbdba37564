//! What each kind of card has: how its fields are read and written, and what they must be.
ghost use Rattle.std.specs.Prelude.{
  ◌≡◌,
  ◌++◌,
  ◌∷◌,
  [],
  ℕ,
  List,
  map,
  IfOk,
  OnOk,
  IfErr,
  OnErr,
  option_to_list,
};
ghost use Rattle.pc_model.specs.Codes.{text_at};
ghost use Rattle.pc_records.specs.Text.{record_text, records_text};
ghost use Rattle.pc_faults.specs.Kinds.{word_of};
ghost use Rattle.pc_cards.specs.Forms.{AllFit, Slot};
ghost use Rattle.pc_cards.specs.inside.Forms.{IsFirstMisfit};
ghost use Rattle.pc_cards.specs.declared.sort.Sort.{Sort};

use crate::field::Misfit;
use crate::form::Slot;
use crate::sort::Sort;
use pc_faults::Kind;
use pc_records::{Fields, Records, RowWriter};
use pc_text::Code;
use std::alloc::AllocError;

/// The layout of the cards of a kind in decks of a sort.
#[derive(Drop)]
pub struct Layout {
    /// What the fields after the kind must be.
    pub slots: &'static [Slot],
    /// How many fields a card must have, including the kind.
    pub least: usize,
    /// How many fields it may have. Additional ones must be empty.
    pub most: usize,
}

/// A card of some kind, as plain data.
pub trait Card: Copy {
    ghost slots: { Sort → List Slot };

    ghost least: { ℕ };

    ghost most: { ℕ };

    ghost spelled: { ℕ → List (List ℕ) → Self };

    ghost written: { Self → List (List ℕ) };

    /// Returns the layout of a card in decks of the sort.
    fn layout(sort: Sort) -> Layout
        ensures slots { result.slots.now ≡ slots sort }
        ensures least { result.least ≡ least }
        ensures most { result.most ≡ most };

    /// Reads the card of a record in a deck of the sort.
    ///
    /// # Errors
    ///
    /// The first field that is not what it must be in such a deck.
    fn read<F: Fields>(sort: Sort, row: u32, fields: &F) -> Result<Self, Misfit>
        ensures card { IfOk result (λ card. card ≡ spelled row (F.fields fields.now)) }
        ensures fit { OnOk result (AllFit (slots sort) (F.fields fields.now)) }
        ensures misfit { IfErr result (IsFirstMisfit (slots sort) (F.fields fields.now)) };

    /// Appends the record of the card, which is of the kind, to a text.
    ///
    /// # Errors
    ///
    /// `AllocError` if there is not enough memory. The text is then empty.
    fn put<R: Records>(self, kind: Kind, text: &mut R) -> Result<(), AllocError>
        ensures put { OnOk result (R.text text.new ≡ R.text text.old ++ record_text (word_of kind ∷ written self)) }
        ensures stopped { OnErr result (R.text text.new ≡ []) };
}

/// A card with a code of its own, which is in its second field.
pub trait Coded: Card {
    ghost own_code: { Self → List ℕ };

    fn code(&self) -> &Code
        ensures { result.now ≡ own_code self.now };

    ghost second_field: { (row : ℕ) (fields : List (List ℕ)) → own_code (Self.spelled row fields) ≡ text_at fields 1 };
}

/// Appends the record of a card, if there is one, of a kind that a deck has at most once.
///
/// # Errors
///
/// `AllocError` if there is not enough memory. The text is then empty.
pub fn put_card<C: Card>(
    card: Option<C>,
    kind: Kind,
    text: &mut RowWriter,
) -> Result<(), AllocError>
    ensures put { OnOk result (text.new
        ≡ text.old ++ records_text (map (λ card. word_of kind ∷ C.written card) (option_to_list card))) }
    ensures stopped { OnErr result (text.new ≡ []) }
{
    match card {
        Some(card) => card.put(kind, text),
        None => Ok(()),
    }
}

/// Appends the records of cards of one kind to a text, in card order.
///
/// # Errors
///
/// `AllocError` if there is not enough memory. The text is then empty.
pub fn put_cards<C: Card>(cards: &[C], kind: Kind, text: &mut RowWriter) -> Result<(), AllocError>
    ensures put { OnOk result (text.new
        ≡ text.old ++ records_text (map (λ card. word_of kind ∷ C.written card) cards.now)) }
    ensures stopped { OnErr result (text.new ≡ []) }
{
    for card in cards {
        card.put(kind, text)?;
    }
    Ok(())
}
