//! The items, the events and the activities of the plan that is generated from tasks.
ghost use Rattle.std.specs.Prelude.{◌≡◌, ◌++◌, ◌<◌, ◌≤◌, [], ◌∷◌, All, length, map, IfOk, OnOk};
ghost use Rattle.pc_tasks.specs.network.Tasks.{AreAmong};
ghost use Rattle.pc_tasks.specs.Drawn.{
  after_links,
  drawn_event,
  drawn_events,
  first_link,
  last_link,
  link,
  links_item,
  drawn_links,
  task_act,
  task_acts,
  top_code,
};
ghost use Rattle.pc_tasks.specs.Lists.{afters_in};

use crate::codes::{after_code, begin_code, end_code, first_code, last_code, links_code, no_title};
use crate::links::{firsts, lasts};
use pc_deck::{ActCard, ItemCard, TaskCard, TaskCards, TitledCard};
use pc_project::AfterRow;
use pc_text::Code;
use std::alloc::{AllocError, Global};

/// Returns the items, and one below the top for the links.
pub(crate) fn items_of(alloc: Global, cards: &TaskCards) -> Result<Vec<ItemCard>, AllocError>
    ensures { IfOk result (λ items. items.items ≡ cards.now.items ++ links_item cards.now ∷ []) }
{
    let mut items = Vec::from_slice(alloc, cards.items())?;
    items.push(ItemCard {
        row: 0,
        code: links_code(),
        parent: top_code(cards),
        title: no_title(),
    })?;
    Ok(items)
}

/// Returns the code of the first item without a parent.
fn top_code(cards: &TaskCards) -> Option<Code>
    ensures { result ≡ top_code cards.now }
{
    match cards.items().iter().find(|item| item.parent.is_none()) {
        Some(item) => Some(item.code),
        None => None,
    }
}

/// Returns the events: the start, two for each task, and the end.
pub(crate) fn events_of(alloc: Global, cards: &TaskCards) -> Result<Vec<TitledCard>, AllocError>
    ensures { IfOk result (λ events. events.items ≡ drawn_events cards.now) }
{
    let tasks = cards.tasks().len() as u32;
    let mut events = Vec::with_capacity(alloc, 2 * tasks as usize + 2)?;
    events.push(drawn_event(cards.project().start))?;
    for i in 0..tasks {
        events.push(drawn_event(begin_code(i)))?;
        events.push(drawn_event(end_code(i)))?;
    }
    events.push(drawn_event(cards.project().end))?;
    Ok(events)
}

fn drawn_event(code: Code) -> TitledCard
    ensures { result ≡ drawn_event code }
{
    TitledCard {
        row: 0,
        code,
        title: no_title(),
    }
}

/// Returns the tasks as activities, and then the links.
pub(crate) fn acts_of(
    alloc: Global,
    cards: &TaskCards,
    afters: &[AfterRow],
) -> Result<Vec<ActCard>, AllocError>
    requires afters { afters.now ≡ afters_in cards.now }
    requires among { AreAmong (length cards.now.tasks) afters.now }
    ensures { IfOk result (λ acts. acts.items ≡ task_acts 0 cards.now.tasks ++ drawn_links cards.now) }
{
    let tasks = cards.tasks().len() as u32;
    let heads = firsts(alloc, tasks, afters)?;
    let tails = lasts(alloc, tasks, afters)?;
    let room = cards.tasks().len() + afters.len() + heads.len() + tails.len();
    let mut acts = Vec::with_capacity(alloc, room)?;
    put_acts(&mut acts, cards, afters, &heads, &tails)?;
    Ok(acts)
}

/// Appends the tasks as activities, and then the links.
fn put_acts(
    acts: &mut Vec<ActCard>,
    cards: &TaskCards,
    afters: &[AfterRow],
    heads: &[u32],
    tails: &[u32],
) -> Result<(), AllocError>
    requires few { length afters.now ≤ 20_000 }
    requires among { AreAmong 4_000 afters.now }
    requires heads { All (λ i. i < 20_000) heads.now }
    requires tails { All (λ i. i < 20_000) tails.now }
    ensures { OnOk result (acts.new.items ≡ acts.old.items ++ (task_acts 0 cards.now.tasks
        ++ (after_links 0 afters.now
        ++ (map (first_link cards.now) heads.now ++ map (last_link cards.now) tails.now)))) }
{
    put_tasks(acts, cards.tasks())?;
    put_afters(acts, afters)?;
    put_firsts(acts, cards, heads)?;
    put_lasts(acts, cards, tails)
}

/// Returns the activity of a task.
fn task_act(i: u32, task: &TaskCard) -> ActCard
    requires { i < 20_000 }
    ensures { result ≡ task_act i task.now }
{
    ActCard {
        row: task.row,
        code: task.code,
        from: begin_code(i),
        to: end_code(i),
        item: task.item,
        opt: task.opt,
        likely: task.likely,
        pess: task.pess,
        normal: task.normal,
        crash: task.crash,
        cost: task.cost,
        slope: task.slope,
        title: task.title,
    }
}

/// Returns a link, which lasts and costs nothing.
fn link(code: Code, from: Code, to: Code) -> ActCard
    ensures { result ≡ link code from to }
{
    ActCard {
        row: 0,
        code,
        from,
        to,
        item: links_code(),
        opt: 0,
        likely: 0,
        pess: 0,
        normal: 0,
        crash: 0,
        cost: 0,
        slope: 0,
        title: no_title(),
    }
}

/// Appends the activity of each task.
fn put_tasks(acts: &mut Vec<ActCard>, tasks: &[TaskCard]) -> Result<(), AllocError>
    requires { length tasks.now ≤ 20_000 }
    ensures { OnOk result (acts.new.items ≡ acts.old.items ++ task_acts 0 tasks.now) }
{
    for (i, task) in tasks.iter().enumerate() {
        acts.push(task_act(i as u32, task))?;
    }
    Ok(())
}

/// Appends a link for each row.
fn put_afters(acts: &mut Vec<ActCard>, afters: &[AfterRow]) -> Result<(), AllocError>
    requires few { length afters.now ≤ 20_000 }
    requires among { AreAmong 4_000 afters.now }
    ensures { OnOk result (acts.new.items ≡ acts.old.items ++ after_links 0 afters.now) }
{
    for (j, after) in afters.iter().enumerate() {
        acts.push(link(
            after_code(j as u32),
            end_code(after.before),
            begin_code(after.task),
        ))?;
    }
    Ok(())
}

/// Appends a link from the start to each of these tasks.
fn put_firsts(acts: &mut Vec<ActCard>, cards: &TaskCards, tasks: &[u32]) -> Result<(), AllocError>
    requires { All (λ i. i < 20_000) tasks.now }
    ensures { OnOk result (acts.new.items ≡ acts.old.items ++ map (first_link cards.now) tasks.now) }
{
    let start = cards.project().start;
    for i in tasks {
        acts.push(link(first_code(*i), start, begin_code(*i)))?;
    }
    Ok(())
}

/// Appends a link from each of these tasks to the end.
fn put_lasts(acts: &mut Vec<ActCard>, cards: &TaskCards, tasks: &[u32]) -> Result<(), AllocError>
    requires { All (λ i. i < 20_000) tasks.now }
    ensures { OnOk result (acts.new.items ≡ acts.old.items ++ map (last_link cards.now) tasks.now) }
{
    let end = cards.project().end;
    for i in tasks {
        acts.push(link(last_code(*i), end_code(*i), end))?;
    }
    Ok(())
}
