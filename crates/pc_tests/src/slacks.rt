//! How long the work of each item can wait, on the small network.
ghost use Rattle.std.specs.Prelude.{◌≡◌, length, IfSome};

use crate::small::small_net;
use pc_rollup::figures::least_slacks;
use pc_times::ActState::{Finished, Started, Waiting};
use pc_times::forecast;
use pc_wbs::{ItemRow, Tree};
use std::alloc::Global;

/// A top item with three items below it.
fn tree(alloc: Global) -> Option<Tree>
    ensures { IfSome result (λ tree. length tree ≡ 4) }
{
    let rows = [
        ItemRow { parent: None },
        ItemRow { parent: Some(0) },
        ItemRow { parent: Some(0) },
        ItemRow { parent: Some(0) },
    ];
    Tree::build(alloc, &rows).ok()
}

/// Whether these are the least slacks if activities 0 and 2 are on item 1 and activity 1 on item 2, the latest times
/// are those for an end at 84, and the activities are expected to be finished at 30, 78 and 48.
fn are_least(alloc: Global, slacks: &[Option<i64>]) -> Option<bool> {
    let net = small_net(alloc)?;
    let tree = tree(alloc)?;
    let states = [Finished(30), Waiting, Started(6)];
    let expected = forecast(alloc, &net, &[24, 36, 42], &states, 42).ok()?;
    let found = least_slacks(alloc, &tree, &[1, 2, 1], &net, &[24, 48, 84], &expected).ok()?;
    Some(found.as_slice() == slacks)
}

#[test]
fn least_slacks_of_items(rt: HostRuntime) {
    let slacks = [Some(6), Some(18), Some(6), None];
    assert!(rt; are_least(rt.alloc(), &slacks) == Some(true));
}
