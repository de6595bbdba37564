//! Labels that name the strongly connected components of a network (Kosaraju; Sharir 1981): a search against the
//! activities finds an order of the events, and a search along them from each event in turn, the last one first, labels
//! those that it reaches.
ghost use Rattle.std.specs.Prelude.{◌≡◌, ◌+◌, ◌<◌, IfOk, OnOk, length, vec_len};
ghost use Rattle.pc_net.specs.inside.Labels.{AreSpreadLabels, NeverFalls};
ghost use Rattle.pc_net.specs.inside.Turns.{AreEvents, AreTurns};

use crate::graph::Graph;
use std::alloc::{AllocError, Global};

/// A label for each event. Labels never fall along an activity, so that all events of a cycle have the same. Linear
/// in events and activities.
///
/// They name the strongly connected components (Kosaraju; Sharir 1981): events have the same label just where ways
/// lead from each to the other. That labels never fall is proved, and would hold by any order of the roots; that
/// events of different components have different labels is tested, and not proved.
pub(crate) fn labels_of(alloc: Global, graph: &Graph) -> Result<Vec<u32>, AllocError>
    ensures sized { IfOk result (λ labels. vec_len labels ≡ graph.now.events) }
    ensures never_falls { IfOk result (λ labels. NeverFalls graph.now.arcs labels.items) }
{
    let mut roots = finished(alloc, graph)?;
    let mut labels = vec![in alloc; 0; graph.events() as usize]?;
    let mut reached = Vec::with_capacity(alloc, graph.events() as usize)?;
    spread_all(graph, &mut roots, &mut reached, &mut labels)?;
    Ok(labels)
}

/// Gives each event a label: a round for each root from the last one on, with a smaller label each.
fn spread_all(
    graph: &Graph,
    roots: &mut Vec<u32>,
    reached: &mut Vec<u32>,
    labels: &mut Vec<u32>,
) -> Result<(), AllocError>
    requires roots { AreEvents graph.now.events roots.old.items }
    requires spread { AreSpreadLabels graph.now (graph.now.events + 1) reached.old.items labels.old.items
        (length reached.old.items) }
    ensures sized { OnOk result (vec_len labels.new ≡ graph.now.events) }
    ensures never_falls { OnOk result (NeverFalls graph.now.arcs labels.new.items) }
{
    for round in (0..graph.events()).rev() {
        spread_next(graph, round + 1, roots, reached, labels)?;
    }
    Ok(())
}

/// Gives the label to the events of the last root, if there is one.
fn spread_next(
    graph: &Graph,
    label: u32,
    roots: &mut Vec<u32>,
    reached: &mut Vec<u32>,
    labels: &mut Vec<u32>,
) -> Result<(), AllocError>
    requires roots { AreEvents graph.now.events roots.old.items }
    requires spread { AreSpreadLabels graph.now label reached.old.items labels.old.items (length reached.old.items) }
    ensures roots { AreEvents graph.now.events roots.new.items }
    ensures spread { OnOk result (AreSpreadLabels graph.now label reached.new.items labels.new.items
        (length reached.new.items)) }
{
    match roots.pop() {
        Some(root) => spread(graph, root, label, reached, labels),
        None => Ok(()),
    }
}

/// Gives the label to each event without one to which a way leads from the root, unless the root has one.
fn spread(
    graph: &Graph,
    root: u32,
    label: u32,
    reached: &mut Vec<u32>,
    labels: &mut Vec<u32>,
) -> Result<(), AllocError>
    requires known { root < graph.now.events }
    requires spread { AreSpreadLabels graph.now label reached.old.items labels.old.items (length reached.old.items) }
    ensures { OnOk result (AreSpreadLabels graph.now label reached.new.items labels.new.items
        (length reached.new.items)) }
{
    if labels[root as usize] != 0 {
        return Ok(());
    }
    let mut at = reached.len();
    labels[root as usize] = label;
    reached.push(root)?;
    while at < reached.len() {
        cross(graph, label, at, reached, labels)?;
        at += 1;
    }
    Ok(())
}

/// Crosses the activities that begin at the event at a place among those reached.
fn cross(
    graph: &Graph,
    label: u32,
    at: usize,
    reached: &mut Vec<u32>,
    labels: &mut Vec<u32>,
) -> Result<(), AllocError>
    requires queued { at < length reached.old.items }
    requires spread { AreSpreadLabels graph.now label reached.old.items labels.old.items at }
    ensures spread { OnOk result (AreSpreadLabels graph.now label reached.new.items labels.new.items (at + 1)) }
{
    for a in graph.out_arcs(reached[at]) {
        let next = graph.to(*a);
        if labels[next as usize] == 0 {
            labels[next as usize] = label;
            reached.push(next)?;
        }
    }
    Ok(())
}

/// What a search does next: it enters an event, or finishes one that it entered.
#[derive(Clone, Copy)]
pub(crate) enum Turn {
    Enter(u32),
    Finish(u32),
}

/// The events in the order in which a depth-first search against the activities finishes them. Linear in events and
/// activities.
///
/// The turns suffice to finish all: each event is entered as a root and finished, and each activity leads to one more
/// turn. That each event is finished once is tested, and not proved.
pub(crate) fn finished(alloc: Global, graph: &Graph) -> Result<Vec<u32>, AllocError>
    ensures { IfOk result (λ order. AreEvents graph.now.events order.items) }
{
    let turns = 2 * graph.events() + graph.activities();
    let mut entered = vec![in alloc; false; graph.events() as usize]?;
    let mut order = Vec::with_capacity(alloc, graph.events() as usize)?;
    let mut stack = roots(alloc, graph, turns)?;
    take_turns(graph, turns, &mut entered, &mut order, &mut stack)?;
    Ok(order)
}

/// A stack with capacity for this many turns, on which each event is to be entered.
fn roots(alloc: Global, graph: &Graph, turns: u32) -> Result<Vec<Turn>, AllocError>
    ensures { IfOk result (λ stack. AreTurns graph.now.events stack.items) }
{
    let mut stack = Vec::with_capacity(alloc, turns as usize)?;
    for root in 0..graph.events() {
        stack.push(Turn::Enter(root))?;
    }
    Ok(stack)
}

/// Takes this many turns from the stack.
fn take_turns(
    graph: &Graph,
    turns: u32,
    entered: &mut Vec<bool>,
    order: &mut Vec<u32>,
    stack: &mut Vec<Turn>,
) -> Result<(), AllocError>
    requires sized { vec_len entered.old ≡ graph.now.events }
    requires order { AreEvents graph.now.events order.old.items }
    requires turns { AreTurns graph.now.events stack.old.items }
    ensures { OnOk result (AreEvents graph.now.events order.new.items) }
{
    for _ in 0..turns {
        take_turn(graph, entered, order, stack)?;
    }
    Ok(())
}

/// Takes the turn on top of the stack, if there is one.
fn take_turn(
    graph: &Graph,
    entered: &mut Vec<bool>,
    order: &mut Vec<u32>,
    stack: &mut Vec<Turn>,
) -> Result<(), AllocError>
    requires sized { vec_len entered.old ≡ graph.now.events }
    requires order { AreEvents graph.now.events order.old.items }
    requires turns { AreTurns graph.now.events stack.old.items }
    ensures sized { vec_len entered.new ≡ vec_len entered.old }
    ensures order { OnOk result (AreEvents graph.now.events order.new.items) }
    ensures turns { OnOk result (AreTurns graph.now.events stack.new.items) }
{
    match stack.pop() {
        Some(Turn::Enter(event)) => enter(graph, event, entered, stack),
        Some(Turn::Finish(event)) => Ok(order.push(event)?),
        None => Ok(()),
    }
}

/// Enters an event, unless it was entered before: it is to be finished after all from which an activity leads there.
fn enter(
    graph: &Graph,
    event: u32,
    entered: &mut Vec<bool>,
    stack: &mut Vec<Turn>,
) -> Result<(), AllocError>
    requires known { event < graph.now.events }
    requires sized { vec_len entered.old ≡ graph.now.events }
    requires turns { AreTurns graph.now.events stack.old.items }
    ensures sized { vec_len entered.new ≡ vec_len entered.old }
    ensures turns { OnOk result (AreTurns graph.now.events stack.new.items) }
{
    if entered[event as usize] {
        return Ok(());
    }
    entered[event as usize] = true;
    stack.push(Turn::Finish(event))?;
    for a in graph.in_arcs(event) {
        stack.push(Turn::Enter(graph.from(*a)))?;
    }
    Ok(())
}
