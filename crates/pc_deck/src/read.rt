//! Reads the cards of a deck, or finds its first fault.
ghost use Rattle.std.specs.Prelude.{◌≡◌, true, ◌≤◌, ◌+◌, length, Ok, Err, IfOk, IfErr, OnOk};
ghost use Rattle.std.specs.Str.{is_utf8};
ghost use Rattle.pc_records.specs.Deck.{deck_records};
ghost use Rattle.pc_faults.specs.inside.First.{Refuses};
ghost use Rattle.pc_cards.specs.Limits.{longest_deck};
ghost use Rattle.pc_cards.specs.declared.sort.Sort.TheVariants as sorts;
ghost use Rattle.pc_deck.specs.inside.Reading.{cards_of, closed, read_from};
ghost use Rattle.pc_cards.specs.Cards.{deck_cards};
ghost use Rattle.pc_deck.specs.Read.{IsDeckOf, IsReadAs};
ghost use Rattle.pc_deck.specs.Refusal.{IsCardRefusal, IsRefusalAs};
ghost use Rattle.pc_deck.specs.inside.Titles.{AreTitlesText};
ghost use Rattle.pc_deck.specs.Within.{IsWithin, IsWithinLimits};
ghost use Rattle.pc_deck.specs.inside.Within.{IsDraftWithin};

use crate::cards::{Cards, DeckCards, TaskCards};
use crate::draft::Draft;
use crate::limits::DECK_LIMIT;
use pc_cards::rows::{CardRows, NextCard};
use pc_cards::sort::Sort;
use pc_faults::{DeckError, NOT_UTF8};
use pc_names::key_of_bytes;
use pc_records::Row;
use std::alloc::Global;
use std::str;

/// The capacity of a row when it is made: as many bytes as are read from the deck at once, so that a record is copied
/// in one piece, and more fields than a card has.
const ROW_BYTES: usize = 8192;

const ROW_FIELDS: usize = 64;

/// Reads the cards of a plan.
///
/// One pass reads the deck up to the first fault, and another makes the key of the hash by which cards are looked up: a
/// digest of the bytes. [`read_cards_by`] saves that pass if you have a key.
///
/// # Errors
///
/// - `DeckError::Fault` with the first fault of the deck: that it is not UTF-8 (F2), or else the fault with the least
///   number at the earliest record. A missing END card is a fault of the record after the last one.
/// - `DeckError::OutOfMemory` if memory runs out.
///
/// # Examples
///
/// ```
/// let deck = b"PROJECT,E1,S,T,2024-01-01,1,,\nWBS,1,,\nEVENT,S,\nEVENT,T,\n\
/// ACT,DIG,S,T,1,3,4,5,4,2,10,3,\nACCT,X,1,10,\nEND\n";
/// let cards = read_cards(alloc, deck).ok()?;
/// Some((cards.events().len() == 2) & (cards.acts().len() == 1))
/// ```
///
/// These are the lines of `pc_tests::examples::read_a_deck`. A test sees that it returns `Some(true)`.
pub fn read_cards(alloc: Global, bytes: &[u8]) -> Result<Cards, DeckError>
    requires { length bytes.now ≤ longest_deck }
    ensures accepted { IfOk result (IsDeckOf bytes.now) }
    ensures within { IfOk result IsWithinLimits }
    ensures titles { IfOk result AreTitlesText }
    ensures first { IfErr result (Refuses (IsCardRefusal bytes.now)) }
{
    read_cards_by(alloc, key_of_bytes(bytes), bytes)
}

/// Reads the cards of a plan as [`read_cards`] does, with this key of the hash by which cards are looked up.
///
/// The key changes only the time that look-ups take. Choose it at random if others write the deck.
///
/// # Errors
///
/// The first fault of the deck, or out of memory.
pub fn read_cards_by(alloc: Global, key: u128, bytes: &[u8]) -> Result<Cards, DeckError>
    requires { length bytes.now ≤ longest_deck }
    ensures accepted { IfOk result (IsDeckOf bytes.now) }
    ensures within { IfOk result IsWithinLimits }
    ensures titles { IfOk result AreTitlesText }
    ensures first { IfErr result (Refuses (IsCardRefusal bytes.now)) }
{
    let deck = read_deck(alloc, key, Sort::Plan, bytes)?;
    Ok(Cards::of(deck))
}

/// Reads the cards of a deck of tasks, as [`read_cards`] does for a plan.
///
/// # Errors
///
/// The first fault of the deck, or out of memory.
pub fn read_tasks(alloc: Global, bytes: &[u8]) -> Result<TaskCards, DeckError>
    requires { length bytes.now ≤ longest_deck }
    ensures accepted { IfOk result (IsReadAs sorts.Tasks bytes.now) }
    ensures within { IfOk result (IsWithin sorts.Tasks) }
    ensures titles { IfOk result AreTitlesText }
    ensures first { IfErr result (Refuses (IsRefusalAs sorts.Tasks bytes.now)) }
{
    read_tasks_by(alloc, key_of_bytes(bytes), bytes)
}

/// Reads the cards of a deck of tasks as [`read_tasks`] does, with a key as in [`read_cards_by`].
///
/// # Errors
///
/// The first fault of the deck, or out of memory.
pub fn read_tasks_by(alloc: Global, key: u128, bytes: &[u8]) -> Result<TaskCards, DeckError>
    requires { length bytes.now ≤ longest_deck }
    ensures accepted { IfOk result (IsReadAs sorts.Tasks bytes.now) }
    ensures within { IfOk result (IsWithin sorts.Tasks) }
    ensures titles { IfOk result AreTitlesText }
    ensures first { IfErr result (Refuses (IsRefusalAs sorts.Tasks bytes.now)) }
{
    let deck = read_deck(alloc, key, Sort::Tasks, bytes)?;
    Ok(TaskCards::of(deck))
}

/// Reads the cards of a deck of the sort, or answers its first fault.
fn read_deck(alloc: Global, key: u128, sort: Sort, bytes: &[u8]) -> Result<DeckCards, DeckError>
    requires { length bytes.now ≤ longest_deck }
    ensures accepted { IfOk result (IsReadAs sort bytes.now) }
    ensures within { IfOk result (IsWithin sort) }
    ensures titles { IfOk result AreTitlesText }
    ensures first { IfErr result (Refuses (IsRefusalAs sort bytes.now)) }
{
    if !is_utf8(bytes) {
        return Err(DeckError::Fault(NOT_UTF8));
    }
    cards_of(alloc, key, sort, bytes)
}

fn is_utf8(bytes: &[u8]) -> bool
    ensures { result ≡ is_utf8 bytes.now }
{
    str::from_utf8(bytes).is_ok()
}

/// The cards of a deck of the sort that is UTF-8, or its first fault.
fn cards_of(alloc: Global, key: u128, sort: Sort, bytes: &[u8]) -> Result<DeckCards, DeckError>
    requires short { length bytes.now ≤ DECK_LIMIT }
    requires utf8 { is_utf8 bytes.now ≡ true }
    ensures cards { IfOk result (λ cards. cards_of sort bytes.now ≡ Ok cards) }
    ensures within { IfOk result (IsWithin sort) }
    ensures fault { IfErr result (Refuses (λ fault. cards_of sort bytes.now ≡ Err fault)) }
{
    let mut draft = Draft::new(alloc, key, sort);
    let end = take_all(alloc, bytes, &mut draft)?;
    let cards = draft.close(end)?;
    Ok(cards)
}

/// Takes the cards of a deck one by one, up to the first fault, and returns the number after that of the last record.
fn take_all(alloc: Global, bytes: &[u8], draft: &mut Draft) -> Result<u32, DeckError>
    requires short { length bytes.now ≤ DECK_LIMIT }
    requires utf8 { is_utf8 bytes.now ≡ true }
    requires within { IsDraftWithin draft.old }
    ensures cards { IfOk result (λ end. closed draft.new end
        ≡ read_from draft.old (length (deck_records bytes.now) + 1) (deck_cards bytes.now)) }
    ensures within { OnOk result (IsDraftWithin draft.new) }
    ensures sort { OnOk result (draft.new.sort ≡ draft.old.sort) }
    ensures fault { IfErr result (Refuses
        (λ fault. read_from draft.old (length (deck_records bytes.now) + 1) (deck_cards bytes.now) ≡ Err fault)) }
{
    let mut rows = CardRows::new(alloc, bytes);
    let mut fields = Row::with_capacity(alloc, ROW_BYTES, ROW_FIELDS)?;
    'cards: loop {
        let row = match rows.next(&mut fields)? {
            NextCard::Card(row) => row,
            NextCard::End(end) => return Ok(end),
        };
        draft.take(row, &fields)?;
    }
}
