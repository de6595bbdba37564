//! The expected time of an activity and its variance, from the estimates of its duration.
ghost use Rattle.std.specs.Prelude.{◌≡◌, ◌*◌, ◌≤◌};
ghost use Rattle.pc_times.specs.Estimates.{expected_time, variance_of};

use crate::MAX_ACTIVITY_LENGTH;
use pc_model::{MAX_DURATION, MAX_UNIT_DAYS};

/// Returns the expected time of an activity, in sixths of a day: `(opt + 4·likely + pess) · unit_days`.
///
/// The estimates are in units of `unit_days` days.
pub fn expected_sixths(opt: u64, likely: u64, pess: u64, unit_days: u64) -> u64
    requires opt { opt ≤ likely }
    requires likely { likely ≤ pess }
    requires pess { pess ≤ MAX_DURATION }
    requires unit { unit_days ≤ MAX_UNIT_DAYS }
    ensures value { result ≡ expected_time opt likely pess unit_days }
    ensures least { 6 * (opt * unit_days) ≤ result }
    ensures most { result ≤ 6 * (pess * unit_days) }
    ensures limit { result ≤ MAX_ACTIVITY_LENGTH }
{
    (opt + 4 * likely + pess) * unit_days
}

/// Returns the variance of an activity's time, in thirty-sixths of a square day: `(pess - opt)² · unit_days²`.
///
/// The estimates are in units of `unit_days` days. Their range counts as six standard deviations.
pub fn variance_36(opt: u64, pess: u64, unit_days: u64) -> u64
    requires opt { opt ≤ pess }
    requires pess { pess ≤ MAX_DURATION }
    requires unit { unit_days ≤ MAX_UNIT_DAYS }
    ensures { result ≡ variance_of opt pess unit_days }
{
    let range = (pess - opt) * unit_days;
    range * range
}
