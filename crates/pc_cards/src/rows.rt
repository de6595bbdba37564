//! The cards of a deck among its records.
ghost use Rattle.std.specs.Prelude.{◌≡◌, ◌≤◌, ◌+◌, length, IfOk};
ghost use Rattle.pc_records.specs.Deck.{deck_records};
ghost use Rattle.pc_cards.specs.Cards.{deck_cards};
ghost use Rattle.pc_cards.specs.inside.Cards.{Follows};
ghost use Rattle.pc_cards.specs.Limits.{longest_deck};

use pc_records::{Row, RowReader};
use std::alloc::{AllocError, Global};
use std::marker::Model;

/// The cards of a deck that are left to read: its records that are not blank, with their numbers.
pub struct CardRows<'a> {
    rows: RowReader<'a>,
    /// The number of the record that was read last.
    number: u32,
}

impl<'a> Drop for CardRows<'a> {
    // Written by hand so that the proof of dropping them is done once, here.
    fn drop(self) {
        let CardRows {
            rows: _rows,
            number: _number,
        } = self;
    }
}

impl<'a> Model for CardRows<'a> {
    ghost use Rattle.std.specs.Prelude.{◌+◌, ◌<◌, ◌^◌, length};
    ghost use Rattle.pc_cards.specs.Cards.{cards_from};
    ghost use Rattle.pc_cards.specs.inside.Cards.{CardsLeft};

    ghost Value = { CardsLeft };

    ghost view = { λ s. record { cards = cards_from (s.number + 1) s.rows; end = s.number + length s.rows + 1 } };

    ghost invariant = { λ s. s.number + length s.rows + 1 < 2 ^ 32 };
}

/// What comes next in a deck.
#[derive(Clone, Copy)]
pub enum NextCard {
    /// A card, with the number of its record.
    Card(u32),
    /// Nothing, with the number after that of the last record.
    End(u32),
}

impl<'a> CardRows<'a> {
    /// Returns the cards of a deck.
    pub fn new(alloc: Global, bytes: &'a [u8]) -> CardRows<'a>
        requires { length bytes.now ≤ longest_deck }
        ensures cards { result.cards ≡ deck_cards bytes.now }
        ensures end { result.end ≡ length (deck_records bytes.now) + 1 }
    {
        CardRows {
            rows: RowReader::new(alloc, bytes),
            number: 0,
        }
    }

    /// Reads the fields of the next card, if a card is left.
    ///
    /// # Errors
    ///
    /// `AllocError` if there is not enough memory for the fields.
    pub fn next(&mut self, fields: &mut Row) -> Result<NextCard, AllocError>
        ensures { IfOk result (λ next. Follows next self.old self.new fields.new) }
    {
        'rows: while self.rows.next_row(fields)? {
            self.number += 1;
            if !fields.is_blank() {
                return Ok(NextCard::Card(self.number));
            }
        }
        Ok(NextCard::End(self.number + 1))
    }
}
