//! What passed last of each activity, so that a repeated line is not checked completely again.
ghost use Rattle.std.specs.Prelude.{◌≡◌, ◌≢◌, ℕ, ◌+◌, ◌^◌, ◌<◌, ◌≤◌, min, true, IsTrue, IfOk, length};
ghost use Rattle.pc_crash.specs.Priced.{knees_in};
ghost use Rattle.pc_model.specs.Schedule.{normal_of};
ghost use Rattle.pc_check.specs.Conditions.{is_within_capacity};
ghost use Rattle.pc_check.specs.inside.fast.Rows.{across_at};
ghost use Rattle.pc_check.specs.inside.Kept.{known_by};
ghost use Rattle.pc_check.specs.inside.fast.Passed.{
  IsLineOf,
  HasPassed,
  ArePassed,
  IsNothing,
  FitsWithin,
  IsGapWithin,
  ComesAgain,
};

use crate::acts::flow_sum;
use crate::cut::Cut;
use crate::gaps::Gap;
use crate::kept::{Kept, known_bit, known_number};
use pc_cert::{Flows, KnownLine, LineText};
use pc_crash::CrashNet;
use pc_model::Knee;
use std::alloc::{AllocError, Global};

/// What passed last of an activity: the bytes of its line, which are not stored if nothing has passed, its duration and
/// its flows.
///
/// After the first segment the line passes again if the gap at the upper end is from `low` to `high` and the gap at the
/// lower end is from `least` to `most`. If the activity does not cross the cut, its two gaps are the same, and the
/// first test is enough.
#[derive(Clone, Copy)]
pub struct Passed {
    pub(crate) text: LineText,
    pub(crate) duration: u64,
    pub(crate) flows: Flows,
    /// what the activity costs at that duration, and the sum of the flows
    pub(crate) cost: u64,
    pub(crate) flow: u128,
    /// the least and the greatest gap at which conditions 6 and 11 hold with these flows
    pub(crate) least: u64,
    pub(crate) most: u64,
    /// the gaps among those at which the activity has this duration
    pub(crate) low: u64,
    pub(crate) high: u64,
}

/// Gaps from a least to a greatest one.
#[derive(Clone, Copy)]
pub struct Gaps {
    pub(crate) low: u64,
    pub(crate) high: u64,
}

/// Nothing has passed of any activity.
pub(crate) fn none_passed(alloc: Global, net: &CrashNet<'_>) -> Result<Vec<Passed>, AllocError>
    ensures passed { IfOk result (λ passed. ArePassed net.now passed.items) }
    ensures nothing { IfOk result (λ passed. IsNothing net.now passed.items) }
{
    let nothing = Passed {
        text: LineText::new(),
        duration: 0,
        flows: Flows::new(),
        flow: 0,
        cost: 0,
        least: 0,
        most: 0,
        low: 0,
        high: 0,
    };
    let activities = net.net().activities() as usize;
    let rows = vec![in alloc; nothing; activities]?;
    Ok(rows)
}

/// Returns what has passed of an activity with this known line, duration and flows. No flow is above its rise.
pub(crate) fn passed_of(
    net: &CrashNet<'_>,
    a: u32,
    line: &KnownLine,
    duration: u64,
    flows: &Flows,
) -> Passed
    requires known { a < length net.now.network.arcs }
    requires line { IsLineOf net.now a duration flows.now line.now.line }
    requires flows { length flows.now ≡ (knees_in net.now).count a + 1 }
    requires capacity { is_within_capacity net.now a flows.now ≡ true }
    requires lasts { duration ≤ normal_of net.now.terms a }
    ensures passed { HasPassed net.now a result }
    ensures duration { result.duration ≡ duration }
    ensures flows { result.flows ≡ flows.now }
{
    let list = net.knees(a);
    let fitting = gaps_of(net.term(a).crash, list.as_slice(), flows.as_slice());
    let gaps = lasting(fitting, net.term(a).normal, duration);
    Passed {
        text: line.text(),
        duration,
        flows: *flows,
        flow: flow_sum(flows.as_slice()),
        cost: net.activity_cost(a, duration),
        least: fitting.low,
        most: fitting.high,
        low: gaps.low,
        high: gaps.high,
    }
}

/// The gaps that are at least crash and that the flows fit.
fn gaps_of(crash: u64, knees: &[Knee], flows: &[u64]) -> Gaps
    requires { length flows.now ≡ length knees.now + 1 }
    ensures { FitsWithin crash knees.now flows.now (length knees.now) result.low result.high }
{
    let mut low = crash;
    let mut high = if flows[knees.len()] == 0 {
        u64::MAX
    } else {
        crash
    };
    for k in 0..knees.len() {
        low = raised(low, knees[k], flows[k]);
        high = lowered(high, knees[k], flows[k]);
    }
    Gaps { low, high }
}

/// The gaps among those at which an activity has this duration.
fn lasting(gaps: Gaps, normal: u64, duration: u64) -> Gaps
    requires { duration ≤ normal }
    ensures above { gaps.low ≤ result.low }
    ensures below { result.high ≤ gaps.high }
    ensures lasts { (gap : ℕ) → result.low ≤ gap → gap ≤ result.high → duration ≡ min normal gap }
{
    let low = gaps.low.max(duration);
    if duration == normal {
        return Gaps {
            low,
            high: gaps.high,
        };
    }
    Gaps {
        low,
        high: gaps.high.min(duration),
    }
}

/// The least gap of those from `low` on that a flow at a knee fits: not below the knee where the flow is not its rise.
fn raised(low: u64, knee: Knee, flow: u64) -> u64
    ensures within { low ≤ result }
    ensures knee { flow ≢ knee.rise → knee.at ≤ result }
{
    if flow == knee.rise {
        low
    } else {
        low.max(knee.at)
    }
}

/// The greatest gap of those up to `high` that a flow at a knee fits: not above the knee if something flows.
fn lowered(high: u64, knee: Knee, flow: u64) -> u64
    ensures within { result ≤ high }
    ensures knee { flow ≢ 0 → result ≤ knee.at }
{
    if flow == 0 { high } else { high.min(knee.at) }
}

/// Whether what passed last of an activity passes again in a later segment with two ends: the activity does not cross
/// the cut, and the flows and the duration fit its gap.
#[inline(always)]
pub(crate) fn passes_again(net: &CrashNet<'_>, kept: &Kept, a: u32, passed: &Passed) -> bool
    requires known { a < length net.now.network.arcs }
    requires times { net.now.network.events ≤ length kept.now.tally.times.items }
    requires moves { net.now.network.events ≤ length kept.now.tally.moves.items }
    requires later { kept.now.segments ≢ 0 }
    requires long { kept.now.tally.lower ≢ kept.now.tally.upper }
    ensures { (cut : Cut) → IsTrue result → ComesAgain net.now (known_by (across_at kept.now a cut)) passed.now }
{
    let tally = &kept.tally;
    let from = net.net().from(a);
    let to = net.net().to(a);
    known_bit(&tally.moves, from) == known_bit(&tally.moves, to)
        && is_within(
            known_number(&tally.times, to),
            known_number(&tally.times, from),
            passed,
        )
}

/// Whether the gap is from the least to the greatest.
pub(crate) fn has_gap(gap: Gap, low: u64, high: u64) -> bool
    requires { gap.tail < 2 ^ 65 }
    ensures { IsTrue result → IsGapWithin low high gap.head gap.tail }
{
    gap.tail + u128::from(low) <= gap.head && gap.head <= gap.tail + u128::from(high)
}

/// Whether the gap between two times is from the least to the greatest.
fn is_within(head: u64, tail: u64, passed: &Passed) -> bool
    ensures { IsTrue result → IsGapWithin passed.now.low passed.now.high head tail }
{
    tail <= head && passed.low <= head - tail && head - tail <= passed.high
}
