//! The two walks of a certificate, step by step.
ghost use Rattle.std.specs.Prelude.{◌≡◌, ◌+◌, ◌^◌, ◌<◌, ◌≤◌, length};
ghost use Rattle.pc_model.specs.declared.limits.TheConstants.{MAX_DURATION};
ghost use Rattle.pc_check.specs.Walks.{length_in, further, stepped, is_through};
ghost use Rattle.pc_check.specs.inside.Walks.{sum_of_reached};

use pc_crash::CrashNet;
use pc_model::MAX_DURATION;
use pc_text::Code;

/// How far a walk leads: the event that it has reached, and the sum of the lengths of its activities, in units.
#[derive(Clone, Copy)]
pub struct Reached {
    pub event: u32,
    pub sum: u64,
}

/// One step further: along the activity with this code, if it begins at the event that the walk has reached. In the
/// crash walk an activity counts with its crash duration, else with its normal one.
pub(crate) fn stepped(
    net: &CrashNet<'_>,
    at: Option<Reached>,
    code: &Code,
    is_crash: bool,
) -> Option<Reached>
    requires { sum_of_reached at + MAX_DURATION < 2 ^ 64 }
    ensures step { result ≡ stepped net.now (length_in net.now is_crash) at code.now }
    ensures short { sum_of_reached result ≤ sum_of_reached at + MAX_DURATION }
{
    let here = at?;
    // Each activity has one code, and no two have the same.
    net.facts();
    let a = net.activity_named(code)?;
    further(net, here, a, is_crash)
}

fn further(net: &CrashNet<'_>, here: Reached, a: u32, is_crash: bool) -> Option<Reached>
    requires known { a < length net.now.network.arcs }
    requires short { here.sum + MAX_DURATION < 2 ^ 64 }
    ensures step { result ≡ further net.now.network (length_in net.now is_crash) here a }
    ensures short { sum_of_reached result ≤ here.sum + MAX_DURATION }
{
    if net.net().from(a) != here.event {
        return None;
    }
    Some(Reached {
        event: net.net().to(a),
        sum: here.sum + length_in(net, a, is_crash),
    })
}

/// Returns the length of an activity in one of the walks: its crash duration in the crash walk, and its normal duration
/// in the normal walk.
pub fn length_in(net: &CrashNet<'_>, a: u32, is_crash: bool) -> u64
    requires known { a < length net.now.network.arcs }
    ensures length { result ≡ length_in net.now is_crash a }
    ensures short { result ≤ MAX_DURATION }
{
    // For the limit of a duration.
    net.facts();
    let term = net.term(a);
    if is_crash { term.crash } else { term.normal }
}

/// Whether a walk leads to the end of the network with this sum.
pub(crate) fn is_through(net: &CrashNet<'_>, sum: u64, at: Option<Reached>) -> bool
    ensures { result ≡ is_through net.now.network sum at }
{
    match at {
        None => false,
        Some(here) => here.event == net.net().end() && here.sum == sum,
    }
}
