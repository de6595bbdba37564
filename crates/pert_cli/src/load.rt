//! `load P`: what is spent by item and used by resource in each period of P days.
ghost use Rattle.std.specs.Prelude.{◌≡◌, ◌≤◌, IfErr, IfOk};
ghost use Rattle.pc_load.specs.Loading.{IsLoading};
ghost use Rattle.pc_load.specs.LoadText.{load_text};
ghost use Rattle.pc_load.specs.declared.loading.TheConstants.{MAX_DAYS};
ghost use Rattle.pc_load.specs.inside.Loading.{IsReadyToLoad};
ghost use Rattle.pert_cli.specs.Load.{HasTooManyPeriods};
ghost use Rattle.pert_cli.specs.inside.Handing.{IsNoReport};

use crate::deliver::NoAnswer;
use pc_edges::Sink;
use pc_edges::page::Page;
use pc_faults::{Detail, Fault};
use pc_load::{Loading, MAX_DAYS, NoLoad, put_loading};
use pc_project::Project;
use pc_reports::Report;
use std::alloc::Global;

/// The report of a project's loads.
#[derive(Drop)]
pub(crate) struct LoadReport {
    loading: Loading,
}

impl LoadReport {
    /// Returns the report with periods of `days` days.
    ///
    /// # Errors
    ///
    /// `Refused` if the project takes too many periods.
    pub(crate) fn build(alloc: Global, project: &Project, days: u64) -> Result<LoadReport, NoAnswer>
        requires least { 1 ≤ days }
        requires most { days ≤ MAX_DAYS }
        ensures loading { IfOk result (λ report. IsLoading project.now days report.loading) }
        ensures ready { IfOk result (λ report. IsReadyToLoad project.now report.loading) }
        ensures none { IfErr result (IsNoReport (HasTooManyPeriods project.now days)) }
    {
        match Loading::build(alloc, project, days) {
            Ok(loading) => Ok(LoadReport { loading }),
            Err(NoLoad::TooMany(have)) => {
                let fault = Fault::new(0, 40, Detail::Periods { have });
                Err(NoAnswer::Refused(fault))
            }
            Err(NoLoad::OutOfMemory) => Err(NoAnswer::OutOfMemory),
        }
    }
}

impl Report for LoadReport {
    ghost IsFor = { λ report project. IsReadyToLoad project report.loading };

    ghost IsText = { λ report project text. text ≡ load_text project report.loading };

    fn put_on<O: Sink>(self, page: &mut Page, sink: &mut O, project: &Project) {
        put_loading(page, sink, project, &self.loading);
    }
}
