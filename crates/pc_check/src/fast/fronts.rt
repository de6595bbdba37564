//! How the lines of each event begin.
ghost use Rattle.std.specs.Prelude.{IfOk};
ghost use Rattle.pc_check.specs.inside.fast.Fronts.{AreFronts};

use pc_cert::EventFront;
use pc_crash::CrashNet;
use std::alloc::{AllocError, Global};

/// How the lines of each event of the network begin.
pub(crate) fn fronts_of(alloc: Global, net: &CrashNet<'_>) -> Result<Vec<EventFront>, AllocError>
    ensures { IfOk result (λ fronts. AreFronts net.now fronts.items) }
{
    let mut fronts = Vec::with_capacity(alloc, net.net().events() as usize)?;
    for e in 0..net.net().events() {
        fronts.push(EventFront::of(net.event_code(e)))?;
    }
    Ok(fronts)
}
