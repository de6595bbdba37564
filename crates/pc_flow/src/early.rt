//! The times of the events on a board, from the durations of the activities.
ghost use Rattle.std.specs.Prelude.{◌≡◌, ◌<◌, length, slice_index, ◌≤◌, ℕ};
ghost use Rattle.pc_flow.specs.inside.Paces.{durations_at, HasSmallTimes, HasEarlyPredecessors};
ghost use Rattle.pc_model.specs.Network.{IsEarly};
ghost use Rattle.pc_flow.specs.board.Sheets.{kept_time};
ghost use Rattle.pc_flow.specs.inside.board.Labelling.{IsFor};

use crate::board::Board;
use pc_crash::CrashNet;

/// How fast the activities are done: each in its crash duration, or each in its normal one.
#[derive(Clone, Copy, Debug, PartialEq, Eq)]
pub(crate) enum Pace {
    Crash,
    Normal,
}

impl Pace {
    /// The duration of an activity, in units.
    pub(crate) fn duration(self, net: &CrashNet<'_>, a: u32) -> u64
        requires { a < length net.now.network.arcs }
        ensures { result ≡ slice_index (durations_at net.now.terms self) a }
    {
        let term = net.term(a);
        match self {
            Pace::Crash => term.crash,
            Pace::Normal => term.normal,
        }
    }
}

/// The greatest length of a project, in units: no walk has more than 10,000 activities, each of at most 100,000 units.
pub const MAX_LENGTH: u64 = 1_000_000_000;

/// Keeps for each event the greatest sum of durations over the walks from the start to it. One pass in the order.
pub(crate) fn keep_early_times(board: &mut Board, net: &CrashNet<'_>, pace: Pace)
    requires { IsFor net.now.network board.old }
    ensures rest { board.new ≡ record board.old { time = board.new.time } }
    ensures times { (e : ℕ) → e < net.now.network.events →
        IsEarly net.now.network (durations_at net.now.terms pace) e (kept_time board.new e) }
    ensures limit { (e : ℕ) → e < net.now.network.events → kept_time board.new e ≤ MAX_LENGTH }
{
    // No more events than a project may have, so that no time is above the greatest length.
    net.facts();
    for &e in net.net().order() {
        let time = latest_arrival(board, net, pace, e);
        board.set_time(e, time);
    }
}

// The time of an event, from the stored times of the events where the activities that enter it begin.
fn latest_arrival(board: &Board, net: &CrashNet<'_>, pace: Pace, e: u32) -> u64
    requires fits { IsFor net.now.network board.now }
    requires small { HasSmallTimes net.now.network (durations_at net.now.terms pace) }
    requires before { HasEarlyPredecessors net.now.network (durations_at net.now.terms pace) (kept_time board.now) e }
    ensures { IsEarly net.now.network (durations_at net.now.terms pace) e result }
{
    let shape = net.net();
    let mut latest = 0;
    for &a in shape.in_arcs(e) {
        latest = latest.max(board.kept_time(shape.from(a)) + pace.duration(net, a));
    }
    latest
}
