//! Why there is no network, and the search for all causes besides cycles: the start entered, the end left, an event
//! that dangles.
ghost use Rattle.std.specs.Prelude.{◌<◌, IfErr, IsErrOf, MatchBool, OnOk};
ghost use Rattle.pc_model.specs.Network.{IsDangling};
ghost use Rattle.pc_net.specs.Firmness.{EntersStart, LeavesEnd, Dangles, IsUnentered, IsFirm};
ghost use Rattle.pc_net.specs.inside.Firmness.{IsFirstOrNone, IsUnleft};
ghost use Rattle.pc_net.specs.Refusals.{IsNetError};

use crate::graph::Graph;
use pc_model::Indices;
use std::alloc::AllocError;

/// Why there is no network. A cause is named only if none of those before it applies. Memory may run out at any time.
#[derive(Debug, Drop)]
pub enum NetError {
    /// The first activity that ends at the start.
    StartEntered { arc: u32 },
    /// The first activity that begins at the end.
    EndLeft { arc: u32 },
    /// The first event other than the start that no activity enters, or other than the end that none leaves. `entered`
    /// is false if the event is not the start and no activity enters it.
    Dangling { event: u32, entered: bool },
    /// Activities in a cycle, each followed by one that begins where it ends, through no event twice. The first one is
    /// the first activity that is on any cycle.
    Cycle(Indices),
    /// Memory ran out.
    OutOfMemory,
}

impl From<AllocError> for NetError {
    ghost use Rattle.std.specs.Prelude.{◌≡◌};
    ghost use Rattle.pc_net.specs.declared.refusal.NetError.TheVariants.{OutOfMemory};

    ghost from_gives = { λ _ e. e ≡ OutOfMemory };

    fn from(_e: AllocError) -> NetError {
        NetError::OutOfMemory
    }
}

/// Refuses a network where an activity enters the start or leaves the end, or where an event dangles.
pub(crate) fn check(graph: &Graph) -> Result<(), NetError>
    ensures firm { OnOk result (IsFirm graph.now) }
    ensures refused { IfErr result (IsNetError graph.now) }
    ensures in_memory { IsErrOf result NetError.OutOfMemory → ⊥ }
{
    if let Some(arc) = entering_start(graph) {
        return Err(NetError::StartEntered { arc });
    }
    if let Some(arc) = leaving_end(graph) {
        return Err(NetError::EndLeft { arc });
    }
    if let Some(event) = dangling(graph) {
        let entered = !is_unentered(graph, event);
        return Err(NetError::Dangling { event, entered });
    }
    Ok(())
}

/// The first activity that ends at the start.
fn entering_start(graph: &Graph) -> Option<u32>
    ensures { IsFirstOrNone (EntersStart graph.now) result }
{
    match graph.in_arcs(graph.start()) {
        [] => None,
        [first, ..] => Some(*first),
    }
}

/// The first activity that begins at the end.
fn leaving_end(graph: &Graph) -> Option<u32>
    ensures { IsFirstOrNone (LeavesEnd graph.now) result }
{
    match graph.out_arcs(graph.end()) {
        [] => None,
        [first, ..] => Some(*first),
    }
}

/// The first event that dangles.
fn dangling(graph: &Graph) -> Option<u32>
    ensures { IsFirstOrNone (Dangles graph.now) result }
{
    for event in 0..graph.events() {
        if is_dangling(graph, event) {
            return Some(event);
        }
    }
    None
}

/// Whether the event is on no walk from the start to the end because nothing enters it or nothing leaves it.
fn is_dangling(graph: &Graph, event: u32) -> bool
    requires { event < graph.now.events }
    ensures { MatchBool result (IsDangling graph.now event) (IsDangling graph.now event → ⊥) }
{
    is_unentered(graph, event) || is_unleft(graph, event)
}

/// Whether no activity enters the event and it is not the start.
fn is_unentered(graph: &Graph, event: u32) -> bool
    requires { event < graph.now.events }
    ensures { MatchBool result (IsUnentered graph.now event) (IsUnentered graph.now event → ⊥) }
{
    event != graph.start() && graph.in_arcs(event).is_empty()
}

/// Whether no activity leaves the event and it is not the end.
fn is_unleft(graph: &Graph, event: u32) -> bool
    requires { event < graph.now.events }
    ensures { MatchBool result (IsUnleft graph.now event) (IsUnleft graph.now event → ⊥) }
{
    event != graph.end() && graph.out_arcs(event).is_empty()
}
