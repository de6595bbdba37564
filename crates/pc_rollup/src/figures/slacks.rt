//! How long the work of each item can wait: the least slack at or below it.
ghost use Rattle.std.specs.Prelude.{◌≡◌, ℕ, ◌<◌, ◌≤◌, unsigned_abs, length, slice_index, IfOk};
ghost use Rattle.std.specs.List.{All};
ghost use Rattle.pc_model.specs.Network.{IsInRange};
ghost use Rattle.pc_times.specs.declared.TheConstants.{MAX_TIME};
ghost use Rattle.pc_rollup.specs.figures.Slacks.{AreLeastSlacks, slack_at};
ghost use Rattle.pc_rollup.specs.inside.figures.Slacks.{ArePlacedSlacks};
ghost use Rattle.pc_rollup.specs.inside.Totals.{placed_item};
ghost use Rattle.pc_rollup.specs.inside.Least.{AreLeastOf, AreLeastOn, lesser_amount};

use crate::Placed;
use pc_net::Net;
use pc_times::{Forecast, slack};
use pc_wbs::Tree;
use std::alloc::{AllocError, Global};

/// Returns for each item the least forecast slack of the activities at or below it, or `None` if there are none. Linear
/// in activities and items.
///
/// The activities are on the items `places`; `late` has the latest time of each event, in sixths of a day.
///
/// # Errors
///
/// Returns `AllocError` if memory runs out.
pub fn least_slacks(
    alloc: Global,
    tree: &Tree,
    places: &[u32],
    net: &Net,
    late: &[i64],
    expected: &Forecast,
) -> Result<Vec<Option<i64>>, AllocError>
    requires known { (a : ℕ) → a < length places.now → slice_index places.now a < length tree.now }
    requires in_range { IsInRange net.now }
    requires place_each { length places.now ≡ length net.now.arcs }
    requires finish_each { length expected.now.finishes ≡ length net.now.arcs }
    requires late_each { length late.now ≡ net.now.events }
    requires limit { All (λ time. unsigned_abs time ≤ MAX_TIME) late.now }
    ensures { IfOk result (λ slacks. AreLeastSlacks tree.now places.now
        (slack_at net.now late.now expected.now.finishes) slacks.items) }
{
    let placed = placed_slacks(alloc, places, net, late, expected)?;
    least_of(alloc, tree, &placed)
}

/// The forecast slack of each activity, on the activity's item.
fn placed_slacks(
    alloc: Global,
    places: &[u32],
    net: &Net,
    late: &[i64],
    expected: &Forecast,
) -> Result<Vec<Placed>, AllocError>
    requires in_range { IsInRange net.now }
    requires place_each { length places.now ≡ length net.now.arcs }
    requires finish_each { length expected.now.finishes ≡ length net.now.arcs }
    requires late_each { length late.now ≡ net.now.events }
    requires limit { All (λ time. unsigned_abs time ≤ MAX_TIME) late.now }
    ensures { IfOk result (λ placed. ArePlacedSlacks places.now (slack_at net.now late.now expected.now.finishes)
        (length places.now) placed.items) }
{
    let mut placed = Vec::with_capacity(alloc, places.len())?;
    for a in 0..net.activities() {
        let item = places[a as usize];
        let amount = activity_slack(net, late, expected, a);
        placed.push(Placed { item, amount })?;
    }
    Ok(placed)
}

/// How long an activity can wait: the latest time of the event where it ends, less when it is expected to be finished.
fn activity_slack(net: &Net, late: &[i64], expected: &Forecast, a: u32) -> i64
    requires in_range { IsInRange net.now }
    requires known { a < length net.now.arcs }
    requires finish_each { length expected.now.finishes ≡ length net.now.arcs }
    requires late_each { length late.now ≡ net.now.events }
    requires limit { All (λ time. unsigned_abs time ≤ MAX_TIME) late.now }
    ensures { result ≡ slack_at net.now late.now expected.now.finishes a }
{
    slack(late[net.to(a) as usize], expected.finish(a))
}

/// Returns for each item the least of the amounts at or below it, or `None` if there is no amount. Linear in amounts
/// and items.
///
/// # Errors
///
/// Returns `AllocError` if memory runs out.
fn least_of(alloc: Global, tree: &Tree, placed: &[Placed]) -> Result<Vec<Option<i64>>, AllocError>
    requires known { (k : ℕ) → k < length placed.now → placed_item placed.now k < length tree.now }
    ensures { IfOk result (λ least. AreLeastOf tree.now placed.now least.items) }
{
    let mut least = least_by_item(alloc, tree.len(), placed)?;
    for &item in tree.preorder().iter().rev() {
        if let Some(parent) = tree.parent(item) {
            least[parent as usize] = lesser(least[parent as usize], least[item as usize]);
        }
    }
    Ok(least)
}

/// The least of the amounts on each of `items` items.
fn least_by_item(
    alloc: Global,
    items: u32,
    placed: &[Placed],
) -> Result<Vec<Option<i64>>, AllocError>
    requires known { (k : ℕ) → k < length placed.now → placed_item placed.now k < items }
    ensures { IfOk result (λ least. AreLeastOn items placed.now (length placed.now) least.items) }
{
    let mut least = vec![in alloc; None; items as usize]?;
    for p in placed {
        least[p.item as usize] = lesser(least[p.item as usize], Some(p.amount));
    }
    Ok(least)
}

/// The lesser of two amounts, one of which may be missing.
fn lesser(a: Option<i64>, b: Option<i64>) -> Option<i64>
    ensures { result ≡ lesser_amount a b }
{
    match (a, b) {
        (Some(a), Some(b)) => { if b < a { Some(b) } else { Some(a) } }
        (None, b) => b,
        (a, None) => a,
    }
}
