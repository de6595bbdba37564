//! Moving past one line, and adding it to the state of a segment.
ghost use Rattle.std.specs.Prelude.{
  ◌≡◌,
  ◌^◌,
  ◌<◌,
  None,
  Some,
  IfNone,
  OnSome,
  ◌+◌,
  ◌≤◌,
  ◌++◌,
  ◌∷◌,
  [],
  length,
  slice_index,
  vec_len,
};
ghost use Rattle.pc_cert.specs.Grammar.{next};
ghost use Rattle.pc_cert.specs.declared.line.CertLine.TheVariants.{Step, Act};
ghost use Rattle.pc_check.specs.inside.Advances.{AddsToKept, AddsStep, Advances};
ghost use Rattle.pc_check.specs.inside.Bounds.{IsBounded, lines_left};
ghost use Rattle.pc_check.specs.Conditions.{conditions};
ghost use Rattle.pc_check.specs.Failures.{first_failing};
ghost use Rattle.pc_check.specs.inside.Reasons.{reason_of};
ghost use Rattle.pc_check.specs.inside.Kept.{known_by, stretch_of};
ghost use Rattle.pc_check.specs.inside.Additions.{IsAct, MayBeAdded};
ghost use Rattle.pc_check.specs.inside.Safe.{IsSafe, IsBegun, IsExchanged, IsRenewed, AddsAct};
ghost use Rattle.pc_check.specs.inside.Crossings.{IsCrossing};
ghost use Rattle.pc_check.specs.inside.fast.Passed.{HasPassed};

use crate::condition::Condition;
use crate::cut::{Cut, cut_of};
use crate::fast::{Passed, passed_of};
use crate::gaps::{Crossing, crossing_of};
use crate::kept::{Kept, Tally};
use crate::reasons::{has_act_code, reason, reason_at_act};
use crate::walk::stepped;
use pc_cert::{CertLine, Flows, KnownLine, Place};
use pc_crash::CrashNet;
use pc_text::Code;

/// Takes a line that is allowed here; `behind` is the place after it.
///
/// Adds the line to the state, or returns the first condition that is reported at this line and does not hold.
pub(crate) fn advance(
    net: &CrashNet<'_>,
    kept: &mut Kept,
    known: &KnownLine,
    line: &CertLine,
    behind: Place,
) -> Option<Condition>
    requires safe { IsSafe net.now kept.old.tally }
    requires bounded { IsBounded net.now kept.old }
    requires known { known.now.line ≡ Some line.now }
    requires goes { next kept.old.place line.now ≡ Some behind }
    ensures reason { reason_of result ≡ first_failing (conditions net.now (known_by kept.old) line.now) }
    ensures advances { IfNone result (Advances net.now line.now kept.old kept.new) }
    ensures same { OnSome result (kept.new ≡ kept.old) }
    ensures bounded { IsBounded net.now kept.new }
    ensures few { kept.new.lines < 2 ^ 63 }
    ensures safe { IsSafe net.now kept.new.tally }
    ensures left { IfNone result (lines_left net.now kept.new < lines_left net.now kept.old) }
{
    // The limits on a project's events and activities keep every count of lines and every sum in range.
    net.facts();
    match judge(net, kept, known, line) {
        Some(condition) => Some(condition),
        None => {
            kept.place = behind;
            kept.lines += 1;
            None
        }
    }
}

/// Adds a line to the state, or returns the first condition that is reported there and does not hold.
fn judge(
    net: &CrashNet<'_>,
    kept: &mut Kept,
    known: &KnownLine,
    line: &CertLine,
) -> Option<Condition>
    requires safe { IsSafe net.now kept.old.tally }
    requires known { known.now.line ≡ Some line.now }
    requires fits { first_failing (conditions net.now (known_by kept.old) line.now) ≡ None →
        MayBeAdded net.now line.now kept.old }
    ensures reason { reason_of result ≡ first_failing (conditions net.now (known_by kept.old) line.now) }
    ensures added { IfNone result (AddsToKept net.now line.now kept.old kept.new) }
    ensures same { OnSome result (kept.new ≡ kept.old) }
    ensures safe { IsSafe net.now kept.new.tally }
{
    match line {
        CertLine::Act {
            code,
            duration,
            flows,
        } => judge_act(net, kept, known, code, *duration, flows),
        _ => match reason(net, kept, line) {
            Some(condition) => Some(condition),
            None => {
                add(net, kept, line);
                None
            }
        },
    }
}

/// The same of the line of an activity: its gaps are looked up once for all that is asked of it and all that it adds.
/// Its bytes are stored, so that little is checked if they occur again.
fn judge_act(
    net: &CrashNet<'_>,
    kept: &mut Kept,
    known: &KnownLine,
    code: &Code,
    duration: u64,
    flows: &Flows,
) -> Option<Condition>
    requires safe { IsSafe net.now kept.old.tally }
    requires known { known.now.line ≡ Some (Act code.now duration flows.now) }
    ensures reason { reason_of result ≡
        first_failing (conditions net.now (known_by kept.old) (Act code.now duration flows.now)) }
    ensures added { IfNone result (AddsToKept net.now (Act code.now duration flows.now) kept.old kept.new) }
    ensures same { OnSome result (kept.new ≡ kept.old) }
    ensures safe { IsSafe net.now kept.new.tally }
{
    let a = kept.tally.acts;
    if !has_act_code(net, a, code, flows) {
        return Some(Condition::Codes);
    }
    let crossing = crossing_of(net, &kept.tally, a);
    match reason_at_act(net, kept, &crossing, duration, flows) {
        Some(condition) => Some(condition),
        None => {
            let passed = passed_of(net, a, known, duration, flows);
            add_act(net, &mut kept.tally, &crossing, passed);
            None
        }
    }
}

/// Adds a line of another kind to the state.
fn add(net: &CrashNet<'_>, kept: &mut Kept, line: &CertLine)
    requires safe { IsSafe net.now kept.old.tally }
    requires other { IsAct line.now → ⊥ }
    requires fits { MayBeAdded net.now line.now kept.old }
    ensures added { AddsToKept net.now line.now kept.old kept.new }
    ensures safe { IsSafe net.now kept.new.tally }
{
    match line {
        CertLine::Step(code) => add_step(net, kept, code),
        CertLine::Crash => kept.crash_walk_started = true,
        CertLine::Segment {
            upper,
            lower,
            cost,
            slope,
        } => begin_segment(net, &mut kept.tally, *upper, *lower, *cost, *slope),
        CertLine::Event {
            code: _,
            time,
            moves,
        } => add_event(net, &mut kept.tally, *time, *moves),
        CertLine::Act { .. } => unreachable!(),
        CertLine::Close => kept.segments += 1,
        _ => {}
    }
}

/// Adds a step to the walk that has begun.
fn add_step(net: &CrashNet<'_>, kept: &mut Kept, code: &Code)
    requires { MayBeAdded net.now (Step code.now) kept.old }
    ensures { AddsStep net.now code.now kept.old kept.new }
{
    if kept.crash_walk_started {
        kept.crash = stepped(net, kept.crash, code, true);
    } else {
        kept.normal = stepped(net, kept.normal, code, false);
    }
}

/// Begins a segment. The state of the activities, and the sums over all of them, remain until their lines come.
pub(crate) fn begin_segment(
    net: &CrashNet<'_>,
    tally: &mut Tally,
    upper: u64,
    lower: u64,
    cost: u64,
    slope: u64,
)
    requires { IsSafe net.now tally.old }
    ensures begun { IsBegun upper lower cost slope tally.new }
    ensures safe { IsSafe net.now tally.new }
{
    tally.upper = upper;
    tally.lower = lower;
    tally.cost = cost;
    tally.slope = slope;
    tally.times.clear();
    tally.moves.clear();
    tally.acts = 0;
    tally.cut = Cut::none();
}

/// Adds an event, with its time and whether it moves.
#[inline(always)]
pub(crate) fn add_event(net: &CrashNet<'_>, tally: &mut Tally, time: u64, moves: bool)
    requires safe { IsSafe net.now tally.old }
    requires times { vec_len tally.old.times < net.now.network.events }
    requires moves { vec_len tally.old.moves < net.now.network.events }
    ensures times { tally.new.times.items ≡ tally.old.times.items ++ time ∷ [] }
    ensures moves { tally.new.moves.items ≡ tally.old.moves.items ++ moves ∷ [] }
    ensures rest { tally.new ≡ record tally.old { times = tally.new.times; moves = tally.new.moves } }
    ensures safe { IsSafe net.now tally.new }
{
    tally.times.push_reserved(time);
    tally.moves.push_reserved(moves);
}

/// Adds an activity with these gaps and the values of its line, which passed.
pub(crate) fn add_act(net: &CrashNet<'_>, tally: &mut Tally, crossing: &Crossing, passed: Passed)
    requires safe { IsSafe net.now tally.old }
    requires known { tally.old.acts < length net.now.network.arcs }
    requires crossing { IsCrossing net.now.network.arcs (stretch_of tally.old) tally.old.acts crossing.now }
    requires passed { HasPassed net.now tally.old.acts passed }
    ensures added { AddsAct net.now tally.old passed.duration passed.flows tally.new }
    ensures safe { IsSafe net.now tally.new }
{
    let more = cut_of(net, tally, tally.acts, crossing);
    renew(net, tally, passed);
    // There are so few activities that the sums over a cut fit.
    net.facts();
    tally.cut.add(&more);
    tally.acts += 1;
}

/// Stores what has passed of the next activity, in place of what passed of it before, and updates the sums.
fn renew(net: &CrashNet<'_>, tally: &mut Tally, passed: Passed)
    requires safe { IsSafe net.now tally.old }
    requires known { tally.old.acts < length net.now.network.arcs }
    requires passed { HasPassed net.now tally.old.acts passed }
    ensures row { IsRenewed tally.old.rows.items tally.new.rows.items tally.old.acts passed.flow passed.cost }
    ensures rest { tally.new ≡ record tally.old {
      rows = tally.new.rows;
      inflow = tally.new.inflow;
      outflow = tally.new.outflow;
      spent = tally.new.spent;
    } }
    ensures safe { IsSafe net.now tally.new }
{
    let a = tally.acts;
    let to = net.net().to(a);
    let from = net.net().from(a);
    // There are so few activities that the sums at an event fit.
    net.facts();
    let flow = tally.rows[a as usize].flow;
    let cost = tally.rows[a as usize].cost;
    exchange(&mut tally.inflow, to, flow, passed.flow);
    exchange(&mut tally.outflow, from, flow, passed.flow);
    tally.spent = tally.spent - cost + passed.cost;
    tally.rows[a as usize] = passed;
}

/// Takes a number out of the sum of an event, and another into it.
fn exchange(sums: &mut Vec<u128>, event: u32, before: u128, now: u128)
    requires known { event < vec_len sums.old }
    requires there { before ≤ slice_index sums.old.items event }
    requires small { slice_index sums.old.items event + now < 2 ^ 128 }
    ensures { IsExchanged sums.old.items sums.new.items event before now }
{
    sums[event as usize] = sums[event as usize] - before + now;
}
