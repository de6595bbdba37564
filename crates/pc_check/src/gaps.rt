//! The gaps of activities, and the cut between the resting and the moving events.
ghost use Rattle.std.specs.Prelude.{◌≡◌, ◌+◌, ◌^◌, ◌<◌, ◌||◌, nat_le, length, if◌then◌else◌};
ghost use Rattle.pc_check.specs.inside.Kept.{stretch_of};
ghost use Rattle.pc_check.specs.inside.Crossings.{IsCrossing};

use crate::kept::{Tally, bit_at, number_at};
use pc_crash::CrashNet;

/// A gap is its head less its tail.
#[derive(Clone, Copy)]
pub struct Gap {
    pub(crate) head: u128,
    pub(crate) tail: u128,
}

/// An activity across the cut: its gaps at the upper and at the lower end of the segment, and whether it leads from a
/// resting to a moving event or the other way round.
#[derive(Clone, Copy)]
pub struct Crossing {
    pub(crate) upper: Gap,
    pub(crate) lower: Gap,
    pub(crate) forward: bool,
    pub(crate) backward: bool,
}

impl Crossing {
    /// Whether the activity crosses the cut. Where it does not, its two ends move alike, and its gap is the same at
    /// both ends of the segment.
    pub(crate) fn crosses(&self) -> bool
        ensures { result ≡ (self.now.forward || self.now.backward) }
    {
        self.forward || self.backward
    }
}

/// The gaps of an activity and how it crosses the cut.
pub(crate) fn crossing_of(net: &CrashNet<'_>, tally: &Tally, a: u32) -> Crossing
    requires { a < length net.now.network.arcs }
    ensures { IsCrossing net.now.network.arcs (stretch_of tally.now) a result }
{
    let from = net.net().from(a);
    let to = net.net().to(a);
    let from_moves = bit_at(&tally.moves, from);
    let to_moves = bit_at(&tally.moves, to);
    let upper = Gap {
        head: u128::from(number_at(&tally.times, to)),
        tail: u128::from(number_at(&tally.times, from)),
    };
    let span = tally.upper.saturating_sub(tally.lower);
    Crossing {
        upper,
        lower: fallen(upper, span, from_moves, to_moves),
        forward: !from_moves && to_moves,
        backward: from_moves && !to_moves,
    }
}

/// The gap when the events that move have fallen.
fn fallen(gap: Gap, fall: u64, from_moves: bool, to_moves: bool) -> Gap
    requires head { gap.head < 2 ^ 64 }
    requires tail { gap.tail < 2 ^ 64 }
    ensures head { result.head ≡ gap.head + (if from_moves then fall else 0) }
    ensures tail { result.tail ≡ gap.tail + (if to_moves then fall else 0) }
    ensures small { result.tail < 2 ^ 65 }
{
    Gap {
        head: gap.head + if from_moves { u128::from(fall) } else { 0 },
        tail: gap.tail + if to_moves { u128::from(fall) } else { 0 },
    }
}

/// Whether the gap is at least crash.
pub(crate) fn has_room(gap: Gap, crash: u64) -> bool
    requires { gap.tail < 2 ^ 65 }
    ensures { result ≡ nat_le (gap.tail + crash) gap.head }
{
    gap.tail + u128::from(crash) <= gap.head
}
