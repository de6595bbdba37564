//! What is asked of a segment at its end.
ghost use Rattle.std.specs.Prelude.{◌≡◌, ◌<◌, ◌||◌, ◌==◌};
ghost use Rattle.pc_cert.specs.declared.line.CertLine.TheVariants.{Close};
ghost use Rattle.pc_check.specs.Conditions.{conditions, is_conserved, has_cut_gain, has_stop};
ghost use Rattle.pc_check.specs.Failures.{first_failing};
ghost use Rattle.pc_check.specs.inside.Reasons.{reason_of};
ghost use Rattle.pc_check.specs.inside.Kept.{known_by};
ghost use Rattle.pc_check.specs.inside.Safe.{IsSafe};

use crate::condition::Condition;
use crate::kept::Kept;
use pc_crash::CrashNet;

/// The first condition that is reported at the end of a segment and does not hold.
pub(crate) fn reason_at_close(net: &CrashNet<'_>, kept: &Kept) -> Option<Condition>
    requires { IsSafe net.now kept.now.tally }
    ensures { reason_of result ≡ first_failing (conditions net.now (known_by kept.now) Close) }
{
    if !is_conserved(net, kept) {
        return Some(Condition::Conservation);
    }
    if !leaves_start(net, kept) {
        return Some(Condition::Outflow);
    }
    if kept.tally.spent != kept.tally.cost {
        return Some(Condition::Cost);
    }
    if !has_cut_gain(net, kept) {
        return Some(Condition::CutGain);
    }
    if !has_stop(kept) {
        return Some(Condition::Stop);
    }
    None
}

/// Whether the slope leaves the start.
fn leaves_start(net: &CrashNet<'_>, kept: &Kept) -> bool
    requires { IsSafe net.now kept.now.tally }
    ensures { result ≡ ((known_by kept.now).outflow net.now.network.start == (known_by kept.now).slope) }
{
    kept.tally.outflow[net.net().start() as usize] == u128::from(kept.tally.slope)
}

/// Whether the cut gain is the slope, unless the segment has one length.
fn has_cut_gain(net: &CrashNet<'_>, kept: &Kept) -> bool
    requires { IsSafe net.now kept.now.tally }
    ensures { result ≡ has_cut_gain (known_by kept.now) }
{
    // The limit on a project's activities keeps the sum of the gains in range.
    net.facts();
    let tally = &kept.tally;
    tally.upper == tally.lower || tally.cut.forward == tally.cut.backward + u128::from(tally.slope)
}

/// Whether some activity stops at the lower end, unless the segment has one length.
fn has_stop(kept: &Kept) -> bool
    ensures { result ≡ has_stop (known_by kept.now) }
{
    kept.tally.upper == kept.tally.lower || kept.tally.cut.stops
}

/// Whether what enters each event but the start and the end leaves it.
fn is_conserved(net: &CrashNet<'_>, kept: &Kept) -> bool
    requires { IsSafe net.now kept.now.tally }
    ensures { result ≡ is_conserved net.now.network (known_by kept.now) }
{
    for e in 0..net.net().events() {
        if !is_conserved_at(net, kept, e) {
            return false;
        }
    }
    true
}

/// Whether an event is the start or the end, or what enters it leaves it.
fn is_conserved_at(net: &CrashNet<'_>, kept: &Kept, e: u32) -> bool
    requires safe { IsSafe net.now kept.now.tally }
    requires known { e < net.now.network.events }
    ensures { result ≡ (e == net.now.network.start || (e == net.now.network.end || (known_by kept.now).inflow e ==
        (known_by kept.now).outflow e)) }
{
    let tally = &kept.tally;
    // asked first, since it mostly holds
    if tally.inflow[e as usize] == tally.outflow[e as usize] {
        return true;
    }
    e == net.net().start() || e == net.net().end()
}
