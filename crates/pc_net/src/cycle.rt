//! The first activity on any cycle, and a cycle that begins with it.
ghost use Rattle.std.specs.Prelude.{◌≡◌, ◌≢◌, ℕ, ◌+◌, ◌<◌, ◌≤◌, IfOk, MatchOption, OnOk, length, slice_index, vec_len};
ghost use Rattle.pc_model.specs.Walk.{to_of};
ghost use Rattle.pc_net.specs.Cycles.{LiesOnCycle, IsFirstCycle};
ghost use Rattle.pc_net.specs.inside.Cycles.{IsRound, IsSearchBack};

use crate::components::labels_of;
use crate::graph::Graph;
use pc_model::MAX_EVENTS;
use std::alloc::{AllocError, Global};

/// A cycle through no event twice that begins with the first activity on any cycle; none if there is no cycle.
///
/// Linear in events and activities: only an activity between events of the same label is searched from, and with the
/// labels of strongly connected components the first such search finds a cycle.
pub(crate) fn first_cycle(alloc: Global, graph: &Graph) -> Result<Option<Vec<u32>>, AllocError>
    ensures { IfOk result (λ found. MatchOption found
        ((a : ℕ) → LiesOnCycle graph.now.arcs a → ⊥)
        (λ cycle. IsFirstCycle graph.now.arcs cycle.items)) }
{
    let labels = labels_of(alloc, graph)?;
    let mut ranks = vec![in alloc; 0; graph.events() as usize]?;
    let mut steps = Vec::with_capacity(alloc, graph.events() as usize)?;
    for a in 0..graph.activities() {
        if labels[graph.from(a) as usize] != labels[graph.to(a) as usize] {
            continue;
        }
        search(graph, a, &mut steps, &mut ranks)?;
        if ranks[graph.to(a) as usize] != 0 {
            let cycle = round(alloc, graph, a, &steps, &ranks)?;
            return Ok(Some(cycle));
        }
    }
    Ok(None)
}

/// Searches backwards from the event where the activity begins for the events from which a walk leads there.
///
/// For each event found, `steps` gets the activity by which its walk leaves it, the given activity first. `ranks` gets
/// for each event its place among those found, counted from 1, or 0 if it was not found.
fn search(
    graph: &Graph,
    a: u32,
    steps: &mut Vec<u32>,
    ranks: &mut Vec<u32>,
) -> Result<(), AllocError>
    requires known { a < length graph.now.arcs }
    requires sized { vec_len ranks.old ≡ graph.now.events }
    requires few { vec_len ranks.old ≤ MAX_EVENTS }
    ensures sized { vec_len ranks.new ≡ graph.now.events }
    ensures searched { OnOk result (IsSearchBack graph.now a steps.new.items ranks.new.items (length steps.new.items)) }
{
    clear(ranks);
    steps.clear();
    steps.push(a)?;
    ranks[graph.from(a) as usize] = 1;
    let mut at = 0;
    while at < steps.len() {
        visit(graph, a, at, steps, ranks)?;
        at += 1;
    }
    Ok(())
}

/// Writes 0 into each element.
fn clear(ranks: &mut Vec<u32>)
    ensures sized { vec_len ranks.new ≡ vec_len ranks.old }
    ensures cleared { (v : ℕ) → slice_index ranks.new.items v ≡ 0 }
{
    for rank in ranks.iter_mut() {
        *rank = 0;
    }
}

/// Finds the events from which an activity leads to the event at a place of the search.
fn visit(
    graph: &Graph,
    a: u32,
    at: usize,
    steps: &mut Vec<u32>,
    ranks: &mut Vec<u32>,
) -> Result<(), AllocError>
    requires queued { at < length steps.old.items }
    requires few { vec_len ranks.old ≤ MAX_EVENTS }
    requires searched { IsSearchBack graph.now a steps.old.items ranks.old.items at }
    ensures sized { vec_len ranks.new ≡ vec_len ranks.old }
    ensures searched { OnOk result (IsSearchBack graph.now a steps.new.items ranks.new.items (at + 1)) }
    ensures queued { OnOk result (at < length steps.new.items) }
{
    for step in graph.in_arcs(graph.from(steps[at])) {
        let before = graph.from(*step) as usize;
        if ranks[before] == 0 {
            steps.push(*step)?;
            ranks[before] = steps.len() as u32;
        }
    }
    Ok(())
}

/// The cycle by the activity and the way back from its end that was found.
fn round(
    alloc: Global,
    graph: &Graph,
    a: u32,
    steps: &[u32],
    ranks: &[u32],
) -> Result<Vec<u32>, AllocError>
    requires known { a < length graph.now.arcs }
    requires searched { IsSearchBack graph.now a steps.now ranks.now (length steps.now) }
    requires found { slice_index ranks.now (to_of graph.now.arcs a) ≢ 0 }
    ensures { IfOk result (λ cycle. IsRound graph.now.arcs a cycle.items) }
{
    let mut cycle = Vec::with_capacity(alloc, steps.len())?;
    cycle.push(a)?;
    let mut rank = ranks[graph.to(a) as usize];
    while rank > 1 {
        let step = steps[rank as usize - 1];
        cycle.push(step)?;
        rank = ranks[graph.to(step) as usize];
    }
    Ok(cycle)
}
