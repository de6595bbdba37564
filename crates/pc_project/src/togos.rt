//! The book of the accounts, or the first second amount to go.
ghost use Rattle.std.specs.Prelude.{IfOk, IfErr, OnOk};
ghost use Rattle.pc_accounts.specs.Amounts.{AreEntriesOf};
ghost use Rattle.pc_accounts.specs.Entries.{AreEntriesWithinLimits};
ghost use Rattle.pc_accounts.specs.inside.Second.{IsRefusal};
ghost use Rattle.pc_faults.specs.inside.First.{Refuses};
ghost use Rattle.pc_project.specs.DisorderFaults.{as_of_in};
ghost use Rattle.pc_project.specs.inside.Numbered.{AreNumbersOf};
ghost use Rattle.pc_project.specs.Project.{accounts_in, charges_in, togos_in};
ghost use Rattle.pc_project.specs.Refusal.{HasNoSecondToGo};
ghost use Rattle.pc_project.specs.ToGoFaults.{IsFirstSecondToGo};

use crate::numbers::Numbers;
use crate::statuses::as_of;
use pc_accounts::{Book, BookError};
use pc_deck::Cards;
use pc_faults::{DeckError, Detail, Fault};
use std::alloc::Global;

/// Returns the book of the accounts.
///
/// # Errors
/// The fault of the first TOGO card whose account and day an earlier one has (F31), or out of memory.
pub(crate) fn book_of(alloc: Global, cards: &Cards, numbers: &Numbers) -> Result<Book, DeckError>
    requires { AreNumbersOf cards.now numbers.now }
    ensures entries { IfOk result (λ book. AreEntriesOf (accounts_in cards.now) (charges_in cards.now)
        (togos_in cards.now) (as_of_in cards.now) book) }
    ensures small { IfOk result AreEntriesWithinLimits }
    ensures once { OnOk result (HasNoSecondToGo cards.now) }
    ensures first { IfErr result (Refuses (IsFirstSecondToGo cards.now)) }
{
    let as_of = as_of(cards);
    Book::build(
        alloc,
        &numbers.accounts,
        &numbers.charges,
        &numbers.togos,
        as_of,
    )
    .map_err(|error| fault_of(cards, error))
}

/// Returns the fault that reports a second amount to go.
fn fault_of(cards: &Cards, error: BookError) -> DeckError
    requires { IsRefusal (togos_in cards.now) error }
    ensures { Refuses (IsFirstSecondToGo cards.now) result }
{
    match error {
        BookError::SecondToGo { second, .. } => {
            let card = cards.togos()[second as usize];
            let detail = Detail::ToGo {
                account: card.account,
                day: card.day,
            };
            DeckError::Fault(Fault::new(card.row, 31, detail))
        }
        BookError::OutOfMemory => DeckError::OutOfMemory,
    }
}
