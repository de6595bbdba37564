//! The lists of a project, each in card order.
ghost use Rattle.std.specs.Prelude.{◌≡◌, ◌≤◌, All, map, IfOk};
ghost use Rattle.pc_model.specs.declared.limits.TheConstants.{MAX_UNIT_DAYS};
ghost use Rattle.pc_times.specs.Estimates.{expected_time, variance_of};
ghost use Rattle.pc_deck.specs.inside.Act.{IsActWithin};
ghost use Rattle.pc_deck.specs.Durations.{HasOrderedEstimates};
ghost use Rattle.pc_project.specs.Project.{term_of};

use crate::placed::Placement;
use pc_deck::ActCard;
use pc_model::{Arc, Term};
use pc_times::{expected_sixths, variance_36};
use std::alloc::{AllocError, Global};

/// Returns the number of each activity's item, in card order.
pub(crate) fn places(alloc: Global, placements: &[Placement]) -> Result<Vec<u32>, AllocError>
    ensures { IfOk result (λ places. places.items ≡ map (λ placement. placement.item) placements.now) }
{
    placements
        .iter()
        .map(|placement| placement.item)
        .collect(alloc)
}

/// Returns the events where each activity begins and ends, in card order.
pub(crate) fn arcs(alloc: Global, placements: &[Placement]) -> Result<Vec<Arc>, AllocError>
    ensures { IfOk result (λ arcs. arcs.items ≡ map (λ placement. placement.arc) placements.now) }
{
    placements
        .iter()
        .map(|placement| placement.arc)
        .collect(alloc)
}

/// Returns what each activity may last and costs, in card order.
pub(crate) fn terms(alloc: Global, acts: &[ActCard]) -> Result<Vec<Term>, AllocError>
    ensures { IfOk result (λ terms. terms.items ≡ map term_of acts.now) }
{
    acts.iter()
        .map(|act| Term {
            normal: act.normal,
            crash: act.crash,
            cost: act.cost,
            slope: act.slope,
        })
        .collect(alloc)
}

/// Returns the expected time of each activity, in sixths of a day.
pub(crate) fn expected_times(
    alloc: Global,
    acts: &[ActCard],
    unit_days: u64,
) -> Result<Vec<u64>, AllocError>
    requires unit { unit_days ≤ MAX_UNIT_DAYS }
    requires ordered { All (λ act. HasOrderedEstimates act.opt act.likely act.pess) acts.now }
    requires within { All IsActWithin acts.now }
    ensures { IfOk result (λ times. times.items
        ≡ map (λ act. expected_time act.opt act.likely act.pess unit_days) acts.now) }
{
    let mut times = Vec::with_capacity(alloc, acts.len())?;
    for act in acts {
        times.push(expected_sixths(act.opt, act.likely, act.pess, unit_days))?;
    }
    Ok(times)
}

/// Returns the variance of each activity's time, in thirty-sixths of a squared day.
pub(crate) fn variances(
    alloc: Global,
    acts: &[ActCard],
    unit_days: u64,
) -> Result<Vec<u64>, AllocError>
    requires unit { unit_days ≤ MAX_UNIT_DAYS }
    requires ordered { All (λ act. HasOrderedEstimates act.opt act.likely act.pess) acts.now }
    requires within { All IsActWithin acts.now }
    ensures { IfOk result (λ variances. variances.items
        ≡ map (λ act. variance_of act.opt act.pess unit_days) acts.now) }
{
    let mut variances = Vec::with_capacity(alloc, acts.len())?;
    for act in acts {
        variances.push(variance_36(act.opt, act.pess, unit_days))?;
    }
    Ok(variances)
}
