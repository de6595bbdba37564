//! Which way labels may cross an activity. The calls that need a complete state of a search are made by a solver in the
//! tests of `curves`.
ghost use Rattle.std.specs.Prelude.{◌≡◌, length};
ghost use Rattle.pc_crash.specs.inside.Steps.{IsBlankOf};

use crate::small::{small_net, small_priced};
use pc_cells::Region;
use pc_crash::{CrashNet, Steps};
use pc_flow::board::Board;
use pc_flow::search::Way;
use std::alloc::{AllocError, Global};
use std::marker::Brand;
use std::sync::ledger::{Blank, Ledger};

/// Which way labels may cross activities 0 and 1 where the start alone has one.
fn ways<L: Ledger>(
    alloc: Global,
    net: &CrashNet<'_>,
    blank: Blank,
) -> Result<[Option<Way>; 2], AllocError>
    requires blank { IsBlankOf L.name L.parts blank.name blank.parts }
    requires events { net.now.network.events ≡ 3 }
    requires activities { length net.now.network.arcs ≡ 3 }
{
    let mut steps = Steps::<L>::new(blank);
    // For the fact that each activity goes between two events of the network.
    net.facts();
    let mut board = Board::new(Region::with_cells(alloc, 42)?, 3, 3);
    board.start_at(0);
    let (first, second) = (net.look(0, &mut steps), net.look(1, &mut steps));
    Ok([board.way(net, 0, &first), board.way(net, 1, &second)])
}

fn small_ways(alloc: Global) -> Option<[Option<Way>; 2]> {
    let net = small_net(alloc)?;
    let priced = small_priced(alloc, &net)?;
    ways::<Brand>(alloc, &priced, Blank::new(1)).ok()
}

#[test]
fn ways_from_the_start(rt: HostRuntime) {
    assert!(rt; small_ways(rt.alloc()) == Some([Some(Way::Along), None]));
}
