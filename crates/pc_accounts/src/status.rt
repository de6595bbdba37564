//! Status: when activities were begun and ended, which of these dates are in disorder, and how far each activity is.
ghost use Rattle.std.specs.Prelude.{◌≡◌, ◌^◌, ◌<◌, ◌≤◌, ◌≤ℤ◌, length, IfOk, IfSome, IfNone, false};
ghost use Rattle.pc_model.specs.declared.limits.TheConstants.{MAX_ACTIVITIES, MAX_STATUSES};
ghost use Rattle.pc_times.specs.Forecast.{IsSmallState};
ghost use Rattle.pc_accounts.specs.status.Statuses.{
  AreKnown,
  AreInOrder,
  IsInOrder,
  IsReason,
  IsSixths,
  IsStateOf,
  status_at,
};
ghost use Rattle.pc_accounts.specs.inside.status.Firsts.{AreFirsts, first_or_this, FirstBelow};

use pc_days::{Day, days_between};
use pc_faults::StatusFault;
use pc_times::ActState;
use std::alloc::{AllocError, Global};
use std::marker::Model;

/// What a STATUS card says: the number of its activity, the day, and whether the activity began or, if `finished`,
/// ended on that day.
#[derive(Clone, Copy)]
pub struct StatusRow {
    pub activity: u32,
    pub finished: bool,
    pub day: Day,
}

/// The statuses of a project's activities, in card order.
#[derive(Drop)]
pub struct Log {
    activities: u32,
    statuses: Vec<StatusRow>,
    begun: Vec<Option<u32>>,
    ended: Vec<Option<u32>>,
}

impl Model for Log {
    ghost use Rattle.pc_accounts.specs.inside.status.Statuses.{StatusLog};

    ghost Value = { StatusLog };

    ghost use Rattle.pc_accounts.specs.inside.status.Parts.{log_from, AreLogParts};

    ghost view = { log_from };

    ghost invariant = { AreLogParts };
}

impl Log {
    /// Builds the log of these statuses. Linear in activities and statuses.
    ///
    /// # Errors
    ///
    /// Returns `AllocError` if memory runs out.
    pub fn build(
        alloc: Global,
        activities: u32,
        statuses: Vec<StatusRow>,
    ) -> Result<Log, AllocError>
        requires few_activities { activities ≤ MAX_ACTIVITIES }
        requires few { length statuses.items ≤ MAX_STATUSES }
        requires known { AreKnown activities statuses.items }
        ensures activities { IfOk result (λ log. log.activities ≡ activities) }
        ensures statuses { IfOk result (λ log. log.statuses ≡ statuses.items) }
    {
        let begun = firsts_of(alloc, activities, &statuses, false)?;
        let ended = firsts_of(alloc, activities, &statuses, true)?;
        Ok(Log {
            activities,
            statuses,
            begun,
            ended,
        })
    }

    /// Returns the statuses, in card order.
    pub fn statuses(&self) -> &[StatusRow]
        ensures { result.now ≡ self.now.statuses }
    {
        &self.statuses
    }

    /// Returns the first reason why status `k` is in disorder, or `None` if it is in order.
    pub fn disorder(&self, start: Day, as_of: Day, k: u32) -> Option<StatusFault>
        requires { k < length self.now.statuses }
        ensures told { IfSome result (IsReason start as_of self.now.statuses k) }
        ensures none { IfNone result (IsInOrder start as_of self.now.statuses k) }
    {
        let status = self.statuses[k as usize];
        let begun = self.begun[status.activity as usize];
        let same = if status.finished {
            self.ended[status.activity as usize]
        } else {
            begun
        };
        reason(start, as_of, &self.statuses, k, same, begun)
    }

    /// Returns the progress of activity `a`, in sixths of a day from `start`, if all statuses are in order.
    pub fn state(&self, start: Day, as_of: Day, a: u32) -> ActState
        requires known { a < self.now.activities }
        requires in_order { AreInOrder start as_of self.now.statuses }
        ensures state { IsStateOf start self.now.statuses a result }
        ensures small { IsSmallState result }
    {
        if let Some(k) = self.ended[a as usize] {
            return ActState::Finished(sixths(start, self.statuses[k as usize].day));
        }
        match self.begun[a as usize] {
            Some(k) => ActState::Started(sixths(start, self.statuses[k as usize].day)),
            None => ActState::Waiting,
        }
    }
}

/// The sixths of a day from the start to a day that is not before it.
fn sixths(start: Day, day: Day) -> u64
    requires { start ≤ℤ day }
    ensures sixths { IsSixths start day result }
    ensures small { result < 2 ^ 40 }
{
    6 * days_between(start, day) as u64
}

/// For each activity the first status that says that it was ended, or that it was begun, if there is one.
fn firsts_of(
    alloc: Global,
    activities: u32,
    statuses: &[StatusRow],
    ended: bool,
) -> Result<Vec<Option<u32>>, AllocError>
    requires few { length statuses.now ≤ MAX_STATUSES }
    requires known { AreKnown activities statuses.now }
    ensures { IfOk result (λ firsts. AreFirsts activities statuses.now ended (length statuses.now) firsts.items) }
{
    let mut firsts = vec![in alloc; None; activities as usize]?;
    for k in 0..statuses.len() as u32 {
        let status = statuses[k as usize];
        let activity = status.activity as usize;
        firsts[activity] = first_or(firsts[activity], status.finished == ended, k);
    }
    Ok(firsts)
}

/// The first so far, or this one if there is none and it counts.
fn first_or(first: Option<u32>, counts: bool, k: u32) -> Option<u32>
    ensures { result ≡ first_or_this first counts k }
{
    match first {
        None if counts => Some(k),
        other => other,
    }
}

/// Why the `k`-th status is in disorder, if it is, where `same` is the first status that says the same of its activity
/// and `begun` the first that says that it was begun.
fn reason(
    start: Day,
    as_of: Day,
    statuses: &[StatusRow],
    k: u32,
    same: Option<u32>,
    begun: Option<u32>,
) -> Option<StatusFault>
    requires known { k < length statuses.now }
    requires same { FirstBelow statuses.now (status_at statuses.now k).finished (status_at statuses.now k).activity
        (length statuses.now) same }
    requires begun { FirstBelow statuses.now false (status_at statuses.now k).activity (length statuses.now) begun }
    ensures told { IfSome result (IsReason start as_of statuses.now k) }
    ensures none { IfNone result (IsInOrder start as_of statuses.now k) }
{
    let status = statuses[k as usize];
    if same != Some(k) {
        return Some(StatusFault::Second);
    }
    if status.day < start {
        return Some(StatusFault::Early);
    }
    if as_of < status.day {
        return Some(StatusFault::Late);
    }
    if !status.finished {
        return None;
    }
    match begun {
        None => Some(StatusFault::NoStart),
        Some(begun) if status.day < statuses[begun as usize].day => Some(StatusFault::FinishFirst),
        Some(_) => None,
    }
}
