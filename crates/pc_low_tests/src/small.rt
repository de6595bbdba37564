//! The small network: activities 0 and 1 follow one another over event 1, and activity 2 runs alongside them.
ghost use Rattle.std.specs.Prelude.{◌≡◌, length, IfSome};

use pc_net::{Arc, Net};
use std::alloc::Global;

const ARCS: [Arc; 3] = [
    Arc { from: 0, to: 1 },
    Arc { from: 1, to: 2 },
    Arc { from: 0, to: 2 },
];

/// The network.
pub(crate) fn small_net(alloc: Global) -> Option<Net>
    ensures events { IfSome result (λ net. net.events ≡ 3) }
    ensures activities { IfSome result (λ net. length net.arcs ≡ 3) }
{
    Net::build(alloc, 3, 0, 2, &ARCS).ok()
}
