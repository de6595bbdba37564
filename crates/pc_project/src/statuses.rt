//! How far the activities are, or the first STATUS card in disorder.
ghost use Rattle.std.specs.Prelude.{◌≡◌, length, IfOk, IfErr, OnOk};
ghost use Rattle.pc_faults.specs.First.{IsFirstFault};
ghost use Rattle.pc_faults.specs.inside.First.{IsFirstIn, Refuses};
ghost use Rattle.pc_accounts.specs.status.Statuses.{AreInOrder};
ghost use Rattle.pc_project.specs.DisorderFaults.{HasDisorder, HasNoDisorder, HasStatusDisorder, IsEarlyAsOf, as_of_in};
ghost use Rattle.pc_project.specs.Figures.{AreStatesOf};
ghost use Rattle.pc_project.specs.inside.Numbered.{AreNumbersOf};
ghost use Rattle.pc_project.specs.Project.{statuses_in};

use crate::numbers::Numbers;
use pc_accounts::status::Log;
use pc_days::Day;
use pc_deck::Cards;
use pc_faults::{DeckError, Detail, Fault, StatusFault, earliest};
use pc_times::ActState;
use std::alloc::{AllocError, Global};

/// Returns the as-of day: the ASOF card's, or the start day if there is no such card.
pub(crate) fn as_of(cards: &Cards) -> Day
    ensures { result ≡ as_of_in cards.now }
{
    match cards.as_of() {
        Some(card) => card.day,
        None => cards.project().start_day,
    }
}

/// Returns how far each activity is.
///
/// # Errors
/// The first fault of statuses and as-of (F30), or out of memory.
pub(crate) fn states_of(
    alloc: Global,
    cards: &Cards,
    numbers: &Numbers,
) -> Result<Vec<ActState>, DeckError>
    requires { AreNumbersOf cards.now numbers.now }
    ensures states { IfOk result (λ states. AreStatesOf cards.now.project.start_day (statuses_in cards.now)
        (length cards.now.acts) states.items) }
    ensures ordered { OnOk result (HasNoDisorder cards.now) }
    ensures first { IfErr result (Refuses (IsFirstFault (HasDisorder cards.now))) }
{
    let activities = cards.acts().len() as u32;
    let statuses = Vec::from_slice(alloc, &numbers.statuses)?;
    let log = Log::build(alloc, activities, statuses)?;
    match earliest(as_of_fault(cards), status_fault(cards, &log)) {
        Some(fault) => Err(DeckError::Fault(fault)),
        None => Ok(states(alloc, cards, &log)?),
    }
}

/// Returns the fault of the ASOF card, if its day is before the start.
fn as_of_fault(cards: &Cards) -> Option<Fault>
    ensures { IsFirstIn (IsEarlyAsOf cards.now) result }
{
    match cards.as_of() {
        Some(card) if card.day < cards.project().start_day => {
            let detail = Detail::Status(StatusFault::Early);
            Some(Fault::new(card.row, 30, detail))
        }
        _ => None,
    }
}

fn status_fault(cards: &Cards, log: &Log) -> Option<Fault>
    requires { log.now.statuses ≡ statuses_in cards.now }
    ensures { IsFirstIn (HasStatusDisorder cards.now) result }
{
    let start = cards.project().start_day;
    let as_of = as_of(cards);
    let mut fault = None;
    for (k, card) in cards.statuses().iter().enumerate() {
        if let Some(reason) = log.disorder(start, as_of, k as u32) {
            let told = Fault::new(card.row, 30, Detail::Status(reason));
            fault = earliest(fault, Some(told));
        }
    }
    fault
}

/// Returns how far each activity is, by a log in order.
fn states(alloc: Global, cards: &Cards, log: &Log) -> Result<Vec<ActState>, AllocError>
    requires activities { log.now.activities ≡ length cards.now.acts }
    requires in_order { AreInOrder cards.now.project.start_day (as_of_in cards.now) log.now.statuses }
    ensures { IfOk result (λ states. AreStatesOf cards.now.project.start_day log.now.statuses
        (length cards.now.acts) states.items) }
{
    let start = cards.project().start_day;
    let as_of = as_of(cards);
    let activities = cards.acts().len();
    let mut states = Vec::with_capacity(alloc, activities)?;
    for a in 0..activities as u32 {
        states.push(log.state(start, as_of, a))?;
    }
    Ok(states)
}
