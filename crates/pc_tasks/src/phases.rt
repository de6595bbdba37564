//! The phases in which a deck of tasks is judged.
ghost use Rattle.std.specs.Prelude.{◌≡◌, ◌<◌, All, length, slice_index, IfOk, IfErr, MatchOption, OnOk};
ghost use Rattle.pc_tasks.specs.network.Cycles.{HasNoTaskCycle};
ghost use Rattle.pc_cards.specs.declared.sort.Sort.TheVariants.{Tasks};
ghost use Rattle.pc_deck.specs.Deck.{task_codes};
ghost use Rattle.pc_deck.specs.Misfit.{HasNoMisfit};
ghost use Rattle.pc_faults.specs.Faults.{task_cycle};
ghost use Rattle.pc_faults.specs.declared.fault.Fault.{Fault as ADeckFault};
ghost use Rattle.pc_project.specs.Records.{codes_at};
ghost use Rattle.pc_faults.specs.inside.First.{Refuses};
ghost use Rattle.pc_tasks.specs.Lists.{afters_in};
ghost use Rattle.pc_tasks.specs.Refusal.{
  HasLoneTop,
  HasSoundItems,
  HasSoundTasks,
  IsCycleFault,
  IsTasksRefusedWith,
  task_records,
};

use crate::card_faults::look_up;
use crate::circle::first_circle;
use crate::tree::tree_of;
use pc_deck::TaskCards;
use pc_faults::{DeckError, Detail, Fault};
use pc_project::{AfterRow, codes_at};
use std::alloc::{AllocError, Global};

/// Returns which tasks come after which, by their numbers.
///
/// # Errors
/// The first fault of the tasks, or out of memory.
pub(crate) fn sound_rows(alloc: Global, cards: &TaskCards) -> Result<Vec<AfterRow>, DeckError>
    ensures rows { IfOk result (λ rows. rows.items ≡ afters_in cards.now) }
    ensures sound { OnOk result (HasSoundTasks cards.now) }
    ensures refused { IfErr result (Refuses (IsTasksRefusedWith cards.now)) }
{
    let afters = look_up(alloc, cards)?;
    check_items(alloc, cards)?;
    check_tasks(alloc, cards, &afters)?;
    Ok(afters)
}

/// Checks the tree of the items, and then that an item is below its top (F20 to F23, F37).
fn check_items(alloc: Global, cards: &TaskCards) -> Result<(), DeckError>
    requires { HasNoMisfit Tasks cards.now }
    ensures sound { OnOk result (HasSoundItems cards.now) }
    ensures refused { IfErr result (Refuses (IsTasksRefusedWith cards.now)) }
{
    tree_of(alloc, cards)?;
    match lone_top(cards) {
        Some(fault) => Err(DeckError::Fault(fault)),
        None => Ok(()),
    }
}

/// Checks that there is a task, and then that no tasks wait for each other in a circle (F39, F38).
fn check_tasks(alloc: Global, cards: &TaskCards, afters: &[AfterRow]) -> Result<(), DeckError>
    requires items { HasSoundItems cards.now }
    requires afters { afters.now ≡ afters_in cards.now }
    ensures sound { OnOk result (HasSoundTasks cards.now) }
    ensures refused { IfErr result (Refuses (IsTasksRefusedWith cards.now)) }
{
    if cards.tasks().is_empty() {
        return Err(DeckError::Fault(Fault::new(0, 39, Detail::Plain)));
    }
    match circle_fault(alloc, cards, afters)? {
        Some(fault) => Err(DeckError::Fault(fault)),
        None => Ok(()),
    }
}

/// Returns the fault of a top that is the only item (F37).
fn lone_top(cards: &TaskCards) -> Option<Fault>
    ensures { MatchOption result ((fault : ADeckFault) → HasLoneTop cards.now fault → ⊥) (HasLoneTop cards.now) }
{
    let items = cards.items();
    if items.len() == 1 {
        Some(Fault::new(items[0].row, 37, Detail::Plain))
    } else {
        None
    }
}

/// Returns the fault of the first tasks that wait for each other in a circle, if there are any (F38).
fn circle_fault(
    alloc: Global,
    cards: &TaskCards,
    afters: &[AfterRow],
) -> Result<Option<Fault>, AllocError>
    requires faultless { HasNoMisfit Tasks cards.now }
    requires some { 0 < length cards.now.tasks }
    requires afters { afters.now ≡ afters_in cards.now }
    ensures { IfOk result (λ found. MatchOption found
        (HasNoTaskCycle (afters_in cards.now))
        (IsCycleFault cards.now)) }
{
    let tasks = cards.tasks();
    match first_circle(alloc, tasks.len() as u32, afters)? {
        Some(circle) => Ok(Some(told(alloc, cards, &circle)?)),
        None => Ok(None),
    }
}

/// Returns the fault that reports a circle of tasks.
fn told(alloc: Global, cards: &TaskCards, circle: &[u32]) -> Result<Fault, AllocError>
    requires some { 0 < length circle.now }
    requires known { All (λ task. task < length cards.now.tasks) circle.now }
    ensures { IfOk result (λ fault. fault
        ≡ task_cycle (slice_index (task_records cards.now) (slice_index circle.now 0))
        (codes_at (task_codes cards.now) circle.now)) }
{
    let row = task_row(cards, circle[0]);
    let names = codes_at(alloc, cards.task_codes(), circle)?;
    Ok(Fault::new(row, 38, Detail::Names(names)))
}

fn task_row(cards: &TaskCards, task: u32) -> u32
    requires { task < length cards.now.tasks }
    ensures { result ≡ slice_index (task_records cards.now) task }
{
    let card = &cards.tasks()[task as usize];
    card.row
}
