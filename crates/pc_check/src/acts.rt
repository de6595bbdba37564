//! What is asked of an activity's duration and flows, over the list of its knees.
ghost use Rattle.std.specs.Prelude.{◌≡◌, ◌+◌, ◌^◌, ◌<◌, ◌≤◌, length};
ghost use Rattle.pc_check.specs.KneeTests.{is_slack_at_knee};
ghost use Rattle.pc_check.specs.inside.KneeTests.{
  is_within_capacity_over,
  is_slack_over,
  is_still_over,
  knee_rises_over,
  stops_over,
  stops_at_knee_over,
  flow_sum,
};

use crate::gaps::{Crossing, Gap};
use pc_model::Knee;

/// Whether the flow at each knee is at most its capacity, the rise.
pub(crate) fn is_within_capacity(knees: &[Knee], flows: &[u64]) -> bool
    requires { length flows.now ≡ length knees.now + 1 }
    ensures { result ≡ is_within_capacity_over knees.now flows.now }
{
    for k in 0..knees.len() {
        if flows[k] > knees[k].rise {
            return false;
        }
    }
    true
}

/// Whether the flows fit the gap: at each knee, and if the gap is above crash there is no flow on the crash duration.
pub(crate) fn is_slack(gap: Gap, crash: u64, knees: &[Knee], flows: &[u64]) -> bool
    requires flows { length flows.now ≡ length knees.now + 1 }
    requires small { gap.tail < 2 ^ 65 }
    ensures { result ≡ is_slack_over gap.head gap.tail crash knees.now flows.now }
{
    for k in 0..knees.len() {
        if !is_slack_at_knee(gap, knees[k], flows[k]) {
            return false;
        }
    }
    gap.tail + u128::from(crash) >= gap.head || flows[knees.len()] == 0
}

/// Whether the flow at a knee is 0 where the gap is above it, and its rise where the gap is below it.
fn is_slack_at_knee(gap: Gap, knee: Knee, flow: u64) -> bool
    requires { gap.tail < 2 ^ 65 }
    ensures { result ≡ is_slack_at_knee gap.head gap.tail knee.at knee.rise flow }
{
    let at = gap.tail + u128::from(knee.at);
    (at >= gap.head || flow == 0) && (gap.head >= at || flow == knee.rise)
}

/// Whether nothing flows.
pub(crate) fn is_still(flows: &[u64]) -> bool
    ensures { result ≡ is_still_over flows.now }
{
    for k in 0..flows.len() {
        if flows[k] != 0 {
            return false;
        }
    }
    true
}

pub(crate) fn flow_sum(flows: &[u64]) -> u128
    requires { length flows.now ≤ 6 }
    ensures sum { result ≡ flow_sum flows.now }
    ensures small { result < 2 ^ 67 }
{
    let mut sum = 0;
    for flow in flows {
        sum += u128::from(*flow);
    }
    sum
}

/// The rises of the knees above the gap.
pub(crate) fn rises_over(gap: Gap, knees: &[Knee]) -> u128
    requires few { length knees.now ≤ 5 }
    requires small { gap.tail < 2 ^ 65 }
    ensures sum { result ≡ knee_rises_over gap.head gap.tail knees.now }
    ensures small { result < 2 ^ 67 }
{
    let mut sum = 0;
    for knee in knees {
        if gap.head < gap.tail + u128::from(knee.at) {
            sum += u128::from(knee.rise);
        }
    }
    sum
}

/// Whether an activity stops at the lower end of its segment: it is forward and its gap there is crash, or it stops at
/// a knee.
pub(crate) fn stops(crossing: &Crossing, crash: u64, knees: &[Knee]) -> bool
    requires upper { crossing.now.upper.tail < 2 ^ 65 }
    requires lower { crossing.now.lower.tail < 2 ^ 65 }
    ensures { result ≡ stops_over crossing.now crash knees.now }
{
    if !crossing.crosses() {
        return false;
    }
    let lower = crossing.lower;
    if crossing.forward && lower.head == lower.tail + u128::from(crash) {
        return true;
    }
    for knee in knees {
        if stops_at_knee(crossing, knee.at) {
            return true;
        }
    }
    false
}

/// Whether the gap is at the knee at the lower end, and above it or below it at the upper end as the activity is
/// forward or backward.
fn stops_at_knee(crossing: &Crossing, knee: u64) -> bool
    requires upper { crossing.now.upper.tail < 2 ^ 65 }
    requires lower { crossing.now.lower.tail < 2 ^ 65 }
    ensures { result ≡ stops_at_knee_over crossing.now knee }
{
    let knee = u128::from(knee);
    let upper = crossing.upper;
    crossing.lower.head == crossing.lower.tail + knee
        && ((crossing.forward && upper.tail + knee < upper.head)
            || (crossing.backward && upper.head < upper.tail + knee))
}
