//! The cards that a refusal names by their numbers.
ghost use Rattle.std.specs.Prelude.{◌≡◌, ◌<◌, All, length, slice_index, IfOk};
ghost use Rattle.pc_model.specs.Codes.{text_at};
ghost use Rattle.pc_deck.specs.Deck.{act_codes, event_codes};
ghost use Rattle.pc_project.specs.Records.{act_records, codes_among, codes_at, event_records, records_among};

use pc_deck::{Cards, ItemCard};
use pc_text::{Code, Codes};
use std::alloc::{AllocError, Global};

/// The record and the code of a card that a fault names.
#[derive(Clone, Copy)]
pub(crate) struct NamedCard {
    pub row: u32,
    pub code: Code,
}

/// Returns the record and the code of an item.
pub(crate) fn item_card(items: &[ItemCard], item: u32) -> NamedCard
    requires { item < length items.now }
    ensures row { result.row ≡ slice_index (records_among items.now) item }
    ensures code { result.code ≡ text_at (codes_among items.now) item }
{
    let card = items[item as usize];
    NamedCard {
        row: card.row,
        code: card.code,
    }
}

/// Returns the record and the code of an event.
pub(crate) fn event_card(cards: &Cards, event: u32) -> NamedCard
    requires { event < length cards.now.events }
    ensures row { result.row ≡ slice_index (event_records cards.now) event }
    ensures code { result.code ≡ text_at (event_codes cards.now) event }
{
    let card = cards.events()[event as usize];
    NamedCard {
        row: card.row,
        code: card.code,
    }
}

/// Returns the record and the code of an activity.
pub(crate) fn act_card(cards: &Cards, act: u32) -> NamedCard
    requires { act < length cards.now.acts }
    ensures row { result.row ≡ slice_index (act_records cards.now) act }
    ensures code { result.code ≡ text_at (act_codes cards.now) act }
{
    let card = cards.acts()[act as usize];
    NamedCard {
        row: card.row,
        code: card.code,
    }
}

/// Returns the codes with these numbers, in their order.
///
/// # Errors
/// Out of memory.
pub fn codes_at(alloc: Global, codes: &[Code], numbers: &[u32]) -> Result<Codes, AllocError>
    requires { All (λ number. number < length codes.now) numbers.now }
    ensures { IfOk result (λ picked. picked ≡ codes_at codes.now numbers.now) }
{
    let mut picked = Vec::with_capacity(alloc, numbers.len())?;
    for &number in numbers {
        picked.push(codes[number as usize])?;
    }
    Codes::of(alloc, &picked)
}
