//! The cut of a segment: the sums over the activities that cross it, and what an activity adds to them.
ghost use Rattle.std.specs.Prelude.{◌≡◌, ◌+◌, ◌^◌, ◌<◌, ◌≤◌, length, if◌then◌else◌};
ghost use Rattle.pc_check.specs.inside.Kept.{stretch_of};
ghost use Rattle.pc_check.specs.inside.Safe.{IsCutOf, joined_cuts, no_cut};
ghost use Rattle.pc_check.specs.inside.KneeTests.{knee_rises_over};
ghost use Rattle.pc_check.specs.inside.Crossings.{IsCrossing};

use crate::acts::{rises_over, stops};
use crate::gaps::{Crossing, Gap};
use crate::kept::Tally;
use pc_crash::CrashNet;
use pc_model::Knee;

/// The sums and the stop of the cut, or what an activity adds to them.
#[derive(Clone, Copy)]
pub(crate) struct Cut {
    pub(crate) forward: u128,
    pub(crate) backward: u128,
    pub(crate) stops: bool,
}

impl Cut {
    /// The cut before any activity.
    pub(crate) fn none() -> Cut
        ensures { result ≡ no_cut }
    {
        Cut {
            forward: 0,
            backward: 0,
            stops: false,
        }
    }

    /// Adds what an activity adds to the cut.
    pub(crate) fn add(&mut self, more: &Cut)
        requires forward { self.old.forward + more.now.forward < 2 ^ 128 }
        requires backward { self.old.backward + more.now.backward < 2 ^ 128 }
        ensures { self.new ≡ joined_cuts self.old more.now }
    {
        self.forward += more.forward;
        self.backward += more.backward;
        self.stops = self.stops || more.stops;
    }
}

/// What an activity adds to the cut: the rises of its knees above its gap, at the lower end if it is forward and at
/// the upper end if it is backward, and whether it stops at the lower end.
pub(crate) fn cut_of(net: &CrashNet<'_>, tally: &Tally, a: u32, crossing: &Crossing) -> Cut
    requires known { a < length net.now.network.arcs }
    requires crossing { IsCrossing net.now.network.arcs (stretch_of tally.now) a crossing.now }
    ensures { IsCutOf net.now (stretch_of tally.now) a result }
{
    let list = net.knees(a);
    let knees = list.as_slice();
    Cut {
        forward: rises_if(crossing.forward, crossing.lower, knees),
        backward: rises_if(crossing.backward, crossing.upper, knees),
        stops: stops(crossing, net.term(a).crash, knees),
    }
}

/// The rises of the knees above the gap, where they count.
fn rises_if(counts: bool, gap: Gap, knees: &[Knee]) -> u128
    requires few { length knees.now ≤ 5 }
    requires small { gap.tail < 2 ^ 65 }
    ensures sum { result ≡ (if counts then knee_rises_over gap.head gap.tail knees.now else 0) }
    ensures small { result < 2 ^ 67 }
{
    if counts { rises_over(gap, knees) } else { 0 }
}
