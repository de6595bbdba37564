//! The plan of arrows that is generated from a deck of tasks, or the first fault of the tasks.
ghost use Rattle.std.specs.Prelude.{◌≡◌, IfOk, IfErr};
ghost use Rattle.pc_faults.specs.inside.First.{Refuses};
ghost use Rattle.pc_tasks.specs.Drawn.{arrows_deck};
ghost use Rattle.pc_tasks.specs.Lists.{afters_in};
ghost use Rattle.pc_tasks.specs.Refusal.{HasSoundTasks, IsTasksRefusedWith};
ghost use Rattle.pc_tasks.specs.Text.{IsDrawnProject};
ghost use Rattle.pc_tasks.specs.inside.Text.{IsArrowsText};
ghost use Rattle.pc_cards.specs.declared.sort.Sort.TheVariants.{Tasks};
ghost use Rattle.pc_deck.specs.Within.{IsWithin};

use crate::draw::{acts_of, events_of, items_of};
use crate::laws::drawn_deck_keeps_least_costs;
use crate::phases::sound_rows;
use pc_deck::{Cards, TaskCards};
use pc_faults::DeckError;
use pc_project::{AfterRow, Project, deck_text_of, project_of};
use std::alloc::{AllocError, Global};

/// Generates the plan of the tasks and makes its project.
///
/// Linear in the cards.
///
/// # Errors
/// The first fault of the first phase that has one, or out of memory. The phases are: the cards one by one (F14 to F19,
/// F41), the tree of the items (F20 to F23), a top without an item below it (F37), no task (F39), tasks that wait for
/// each other in a circle (F38), and the generated plan (F28 to F31, F33 to F36).
pub fn drawn_project(alloc: Global, cards: &TaskCards) -> Result<Project, DeckError>
    ensures project { IfOk result (IsDrawnProject cards.now) }
    ensures refused { IfErr result (Refuses (IsTasksRefusedWith cards.now)) }
{
    let afters = sound_rows(alloc, cards)?;
    let plan = drawn_of(alloc, cards, &afters)?;
    drawn_deck_keeps_least_costs();
    let project = project_of(alloc, plan)?;
    Ok(project)
}

/// Returns the text of the generated plan, in canonical form.
///
/// # Errors
/// As [`drawn_project`].
pub fn arrows_of(alloc: Global, cards: &TaskCards) -> Result<Vec<u8>, DeckError>
    ensures text { IfOk result (λ text. IsArrowsText cards.now text.items) }
    ensures refused { IfErr result (Refuses (IsTasksRefusedWith cards.now)) }
{
    let project = drawn_project(alloc, cards)?;
    Ok(deck_text_of(alloc, &project)?)
}

/// Returns the plan generated from tasks without a fault.
fn drawn_of(alloc: Global, cards: &TaskCards, afters: &[AfterRow]) -> Result<Cards, AllocError>
    requires sound { HasSoundTasks cards.now }
    requires afters { afters.now ≡ afters_in cards.now }
    ensures drawn { IfOk result (λ plan. plan ≡ arrows_deck cards.now) }
    ensures within { IsWithin Tasks cards.now }
{
    cards.facts();
    let items = items_of(alloc, cards)?;
    let events = events_of(alloc, cards)?;
    let acts = acts_of(alloc, cards, afters)?;
    Cards::build_drawn(alloc, cards, &items, &events, &acts)
}
