//! An amount that is spread over time.
ghost use Rattle.std.specs.Prelude.{◌≡◌, ◌+◌, ◌^◌, ◌<◌, ◌≤◌};
ghost use Rattle.pc_load.specs.Share.{part, share};
ghost use Rattle.pc_load.specs.inside.Share.{IsSpread};

/// An amount that is spread evenly over some time. All times are in sixths of a day from the project's start.
#[derive(Clone, Copy)]
pub struct Spread {
    /// The time at which it begins.
    pub begin: u64,
    /// How long it lasts: 0 if the complete amount comes at once.
    pub length: u64,
    pub amount: u64,
}

/// Returns the part of an amount that comes between two times: its share by the later time less its share by the
/// earlier one.
///
/// Shares are rounded down, and parts are differences of shares. So the parts of consecutive periods add up to the
/// amount.
pub fn part(s: &Spread, from: u64, to: u64) -> u64
    requires spread { IsSpread s.now }
    requires order { from ≤ to }
    requires time { to < 2 ^ 40 }
    ensures part { result ≡ part s.now from to }
    ensures nothing_lost { share s.now from + result ≡ share s.now to }
{
    share(s, to) - share(s, from)
}

/// The share of an amount up to a time.
pub(crate) fn share(s: &Spread, time: u64) -> u64
    requires spread { IsSpread s.now }
    requires time { time < 2 ^ 40 }
    ensures share { result ≡ share s.now time }
    ensures most { result ≤ s.now.amount }
{
    if time <= s.begin {
        0
    } else if s.begin + s.length <= time {
        s.amount
    } else {
        s.amount * (time - s.begin) / s.length
    }
}
