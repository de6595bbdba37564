//! The forecasts of events, and the least forecast slack of each item.
ghost use Rattle.std.specs.Prelude.{
  ◌≡◌,
  ◌<◌,
  ◌≤◌,
  ◌^◌,
  pos,
  unsigned_abs,
  length,
  slice_index,
  slice_index_or,
  IfOk,
  [],
};
ghost use Rattle.std.specs.List.{All};
ghost use Rattle.pc_times.specs.declared.TheConstants.{MAX_TIME};
ghost use Rattle.pc_rollup.specs.Least.{least_at};
ghost use Rattle.pc_reports.specs.Earned.{AreForecasts, AreLateFor};
ghost use Rattle.pc_reports.specs.inside.Earned.{IsForecastOf};

use crate::dates::{DATE_LENGTH, dates_of};
use crate::times::late_to_meet;
use pc_project::Project;
use pc_rollup::figures::least_slacks;
use pc_times::{Forecast, early, forecast};
use std::alloc::{AllocError, Global};
use std::marker::Model;

/// For each event its forecast with the date, and its latest time; for each item the least forecast slack of the
/// activities on it or below it.
///
/// Times are in sixths of a day from the project's start.
#[derive(Drop)]
pub(crate) struct Forecasts {
    times: Vec<u64>,
    late: Vec<i64>,
    dates: Vec<[u8; DATE_LENGTH]>,
    slacks: Vec<Option<i64>>,
}

impl Model for Forecasts {
    ghost use Rattle.pc_reports.specs.Earned.{Forecasts};

    ghost Value = { Forecasts };

    ghost use Rattle.pc_reports.specs.inside.EarnedInside.{forecasts_from, AreSoonInside};

    ghost view = { forecasts_from };

    ghost invariant = { AreSoonInside };
}

impl Forecasts {
    /// Returns the forecasts of the project. Linear in events, activities and items.
    pub(crate) fn build(alloc: Global, project: &Project) -> Result<Forecasts, AllocError>
        ensures { IfOk result (AreForecasts project.now) }
    {
        let expected = forecast_of(alloc, project)?;
        let late = late_times(alloc, project)?;
        let times = event_times(alloc, project, &expected)?;
        let (tree, places) = (project.tree(), project.places());
        Ok(Forecasts {
            dates: dates_of(alloc, project.start_day(), &times)?,
            slacks: least_slacks(alloc, tree, places, project.net(), &late, &expected)?,
            times,
            late,
        })
    }

    /// Returns the forecast of an event.
    pub(crate) fn time(&self, e: u32) -> u64
        requires { e < length self.now.times }
        ensures time { result ≡ slice_index self.now.times e }
        ensures limit { result < 2 ^ 40 }
    {
        self.times[e as usize]
    }

    /// Returns the latest time of an event.
    pub(crate) fn late(&self, e: u32) -> i64
        requires { e < length self.now.late }
        ensures time { result ≡ slice_index_or self.now.late e (pos 0) }
        ensures limit { unsigned_abs result ≤ MAX_TIME }
    {
        self.late[e as usize]
    }

    /// Returns the date of the forecast of an event, or ten hyphens if it is past the days that are printed.
    pub(crate) fn date(&self, e: u32) -> &[u8; DATE_LENGTH]
        requires { e < length self.now.dates }
        ensures { result.now ≡ slice_index_or self.now.dates e [] }
    {
        &self.dates[e as usize]
    }

    /// Returns the least forecast slack of the activities on an item or below it, or `None` if there are none.
    pub(crate) fn slack(&self, item: u32) -> Option<i64>
        requires { item < length self.now.slacks }
        ensures { result ≡ least_at self.now.slacks item }
    {
        self.slacks[item as usize]
    }
}

fn forecast_of(alloc: Global, project: &Project) -> Result<Forecast, AllocError>
    ensures { IfOk result (IsForecastOf project.now) }
{
    let as_of = project.as_of_time();
    let (net, lengths) = (project.net(), project.expected());
    forecast(alloc, net, lengths, project.states(), as_of)
}

/// Returns the latest time of each event at which the end can still be met.
fn late_times(alloc: Global, project: &Project) -> Result<Vec<i64>, AllocError>
    ensures late { IfOk result (λ late. AreLateFor project.now late.items) }
    ensures limit { IfOk result (λ late. All (λ time. unsigned_abs time ≤ MAX_TIME) late.items) }
{
    let net = project.net();
    let reached = early(alloc, net, project.expected())?;
    late_to_meet(alloc, project, reached[net.end() as usize])
}

/// Returns the forecast of each event, in card order.
fn event_times(
    alloc: Global,
    project: &Project,
    expected: &Forecast,
) -> Result<Vec<u64>, AllocError>
    requires { IsForecastOf project.now expected.now }
    ensures times { IfOk result (λ times. times.items ≡ expected.now.times) }
    ensures soon { IfOk result (λ times. All (λ time. time < 2 ^ 40) times.items) }
{
    let net = project.net();
    let mut times = Vec::with_capacity(alloc, net.order().len())?;
    for e in 0..net.events() {
        times.push(expected.time(e))?;
    }
    Ok(times)
}
