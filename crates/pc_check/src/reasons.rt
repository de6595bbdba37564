//! The reason for which a line fails, if it does: the first condition that is reported there and does not hold.
ghost use Rattle.std.specs.Prelude.{◌≡◌, ℕ, ◌+◌, ◌^◌, ◌<◌, ◌&&◌, List, [], ◌∷◌, IsTrue, length};
ghost use Rattle.pc_check.specs.inside.Additions.{IsAct};
ghost use Rattle.pc_check.specs.Conditions.{
  condition,
  conditions,
  has_head,
  has_joined_ends,
  is_code_at,
  has_act_code,
  has_duration,
  has_room,
  is_within_capacity,
  is_slack,
  is_slack_in,
};
ghost use Rattle.pc_check.specs.Failures.{first_failing};
ghost use Rattle.pc_check.specs.inside.Reasons.{reason_of};
ghost use Rattle.pc_laws.specs.Segment.{span};
ghost use Rattle.pc_crash.specs.Priced.{knees_in};
ghost use Rattle.pc_check.specs.inside.Crossings.{IsCrossing};
ghost use Rattle.pc_check.specs.inside.Kept.{known_by, stretch_of};
ghost use Rattle.pc_check.specs.inside.Safe.{IsSafe};
ghost use Rattle.pc_cert.specs.declared.line.CertLine.TheVariants.{Segment, Event, Act};

use crate::acts::{self, is_slack, is_still};
use crate::closing::reason_at_close;
use crate::condition::Condition;
use crate::gaps::{Crossing, Gap, has_room};
use crate::kept::{Kept, Tally, number_at};
use crate::walk::is_through;
use pc_cert::{CertLine, Flows};
use pc_crash::CrashNet;
use pc_text::Code;

/// The first condition that is reported at the line and does not hold, if it is not the line of an activity.
pub(crate) fn reason(net: &CrashNet<'_>, kept: &Kept, line: &CertLine) -> Option<Condition>
    requires safe { IsSafe net.now kept.now.tally }
    requires other { IsAct line.now → ⊥ }
    ensures { reason_of result ≡ first_failing (conditions net.now (known_by kept.now) line.now) }
{
    match line {
        CertLine::Head {
            version,
            project,
            events,
            activities,
        } => reason_at_head(net, *version, project, *events, *activities),
        CertLine::Segment {
            upper,
            lower,
            cost: _,
            slope,
        } => reason_at_segment(net, kept, *upper, *lower, *slope),
        CertLine::Event { code, time, moves } => reason_at_event(net, kept, code, *time, *moves),
        CertLine::Act { .. } => unreachable!(),
        CertLine::Close => reason_at_close(net, kept),
        CertLine::End => {
            if is_through(net, kept.tally.lower, kept.crash) {
                None
            } else {
                Some(Condition::CrashWalk)
            }
        }
        _ => None,
    }
}

fn reason_at_head(
    net: &CrashNet<'_>,
    version: u64,
    project: &Code,
    events: u64,
    activities: u64,
) -> Option<Condition>
    ensures { reason_of result ≡
        first_failing (condition 1 (has_head net.now version project.now events activities) ∷ []) }
{
    let has_head = version == pc_cert::version(net)
        && *project == net.project()
        && events == u64::from(net.net().events())
        && activities == u64::from(net.net().activities());
    if has_head {
        None
    } else {
        Some(Condition::Head)
    }
}

fn reason_at_segment(
    net: &CrashNet<'_>,
    kept: &Kept,
    upper: u64,
    lower: u64,
    slope: u64,
) -> Option<Condition>
    ensures { reason_of result ≡ first_failing (conditions net.now (known_by kept.now) (Segment upper lower 0 slope)) }
{
    if kept.segments == 0 && !is_through(net, upper, kept.normal) {
        return Some(Condition::NormalWalk);
    }
    if !has_joined_ends(kept, upper, lower, slope) {
        return Some(Condition::Cover);
    }
    None
}

/// Whether the ends of a segment are in order, and join those of the segment before.
fn has_joined_ends(kept: &Kept, upper: u64, lower: u64, slope: u64) -> bool
    ensures { result ≡ has_joined_ends (known_by kept.now) upper lower slope }
{
    let before = &kept.tally;
    if kept.segments == 0 {
        lower < upper || (lower == upper && slope == 0)
    } else {
        upper == before.lower && before.lower < before.upper && lower < upper
    }
}

fn reason_at_event(
    net: &CrashNet<'_>,
    kept: &Kept,
    code: &Code,
    time: u64,
    moves: bool,
) -> Option<Condition>
    ensures { reason_of result ≡ first_failing (conditions net.now (known_by kept.now) (Event code.now time moves)) }
{
    let e = kept.tally.times.len();
    if !has_event_code(net, e, code) {
        return Some(Condition::Codes);
    }
    let is_one_length = kept.tally.upper == kept.tally.lower;
    let starts = e != net.net().start() as usize || (time == 0 && !moves);
    let ends = e != net.net().end() as usize
        || (time == kept.tally.upper && (moves || is_one_length));
    if !(starts && ends) {
        return Some(Condition::Ends);
    }
    if is_one_length && moves {
        return Some(Condition::Cover);
    }
    None
}

fn has_event_code(net: &CrashNet<'_>, e: usize, code: &Code) -> bool
    ensures { result ≡ is_code_at net.now.network.events net.now.events e code.now }
{
    e < net.net().events() as usize && *code == net.event_code(e as u32)
}

/// The first condition on the gaps and the flows of the next activity that does not hold, if its line has its code
/// and as many flows as it should.
pub(crate) fn reason_at_act(
    net: &CrashNet<'_>,
    kept: &Kept,
    crossing: &Crossing,
    duration: u64,
    flows: &Flows,
) -> Option<Condition>
    requires known { kept.now.tally.acts < length net.now.network.arcs }
    requires crossing { IsCrossing net.now.network.arcs (stretch_of kept.now.tally) kept.now.tally.acts crossing.now }
    requires flows { length flows.now ≡ (knees_in net.now).count kept.now.tally.acts + 1 }
    ensures { (code : List ℕ) → IsTrue (has_act_code net.now kept.now.tally.acts code flows.now)
        → reason_of result ≡ first_failing (conditions net.now (known_by kept.now) (Act code duration flows.now)) }
{
    let tally = &kept.tally;
    let a = tally.acts;
    if !has_gaps(net, tally, a, crossing) {
        return Some(Condition::Gaps);
    }
    if !has_duration(net, kept, a, duration) {
        return Some(Condition::Duration);
    }
    if !is_within_capacity(net, a, flows) {
        return Some(Condition::Capacity);
    }
    if !fits_gaps(net, tally, a, crossing, flows) {
        return Some(Condition::Slackness);
    }
    if tally.upper == tally.lower && !is_still(flows.as_slice()) {
        return Some(Condition::Cover);
    }
    None
}

/// Whether the gaps at the two ends are at least crash.
fn has_gaps(net: &CrashNet<'_>, tally: &Tally, a: u32, crossing: &Crossing) -> bool
    requires known { a < length net.now.network.arcs }
    requires crossing { IsCrossing net.now.network.arcs (stretch_of tally.now) a crossing.now }
    ensures { result ≡ (has_room net.now (stretch_of tally.now) 0 a && has_room net.now (stretch_of tally.now)
        (span (stretch_of tally.now)) a) }
{
    let crash = net.term(a).crash;
    if !crossing.crosses() {
        return has_room(crossing.upper, crash);
    }
    has_room(crossing.upper, crash) && has_room(crossing.lower, crash)
}

/// Whether the flow at each knee is at most its capacity, the rise.
fn is_within_capacity(net: &CrashNet<'_>, a: u32, flows: &Flows) -> bool
    requires known { a < length net.now.network.arcs }
    requires flows { length flows.now ≡ (knees_in net.now).count a + 1 }
    ensures { result ≡ is_within_capacity net.now a flows.now }
{
    let list = net.knees(a);
    acts::is_within_capacity(list.as_slice(), flows.as_slice())
}

/// Whether the flows fit the gaps at the two ends.
fn fits_gaps(net: &CrashNet<'_>, tally: &Tally, a: u32, crossing: &Crossing, flows: &Flows) -> bool
    requires known { a < length net.now.network.arcs }
    requires crossing { IsCrossing net.now.network.arcs (stretch_of tally.now) a crossing.now }
    requires flows { length flows.now ≡ (knees_in net.now).count a + 1 }
    ensures { result ≡ (is_slack net.now (stretch_of tally.now) 0 a flows.now && is_slack net.now
        (stretch_of tally.now) (span (stretch_of tally.now)) a flows.now) }
{
    if !crossing.crosses() {
        return fits_gap(net, a, crossing.upper, flows);
    }
    fits_gap(net, a, crossing.upper, flows) && fits_gap(net, a, crossing.lower, flows)
}

/// Whether the flows fit a gap.
fn fits_gap(net: &CrashNet<'_>, a: u32, gap: Gap, flows: &Flows) -> bool
    requires known { a < length net.now.network.arcs }
    requires flows { length flows.now ≡ (knees_in net.now).count a + 1 }
    requires small { gap.tail < 2 ^ 65 }
    ensures { result ≡ is_slack_in net.now gap.head gap.tail a flows.now }
{
    let list = net.knees(a);
    is_slack(gap, net.term(a).crash, list.as_slice(), flows.as_slice())
}

/// Whether the code is that of an activity, and there is a flow for each of its knees and one on its crash duration.
pub(crate) fn has_act_code(net: &CrashNet<'_>, a: u32, code: &Code, flows: &Flows) -> bool
    ensures { result ≡ has_act_code net.now a code.now flows.now }
{
    a < net.net().activities()
        && *code == net.activity_code(a)
        && flows.as_slice().len() == net.knees(a).as_slice().len() + 1
}

/// Whether the duration is the lesser of normal and the gap at the upper end, and in the first segment normal.
pub(crate) fn has_duration(net: &CrashNet<'_>, kept: &Kept, a: u32, duration: u64) -> bool
    requires { a < length net.now.network.arcs }
    ensures { result ≡ has_duration net.now (known_by kept.now) a duration }
{
    let begins = number_at(&kept.tally.times, net.net().from(a));
    let ends = number_at(&kept.tally.times, net.net().to(a));
    let normal = net.term(a).normal;
    duration == normal.min(ends.saturating_sub(begins))
        && (kept.segments != 0 || duration == normal)
}
