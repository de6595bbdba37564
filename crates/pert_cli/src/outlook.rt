//! `outlook L`: a schedule of least cost for the length L, and what each item costs by it.
ghost use Rattle.std.specs.Prelude.{◌≡◌, ◌++◌, IfErr, IfOk};
ghost use Rattle.pc_reports.specs.OutlookText.{IsOutlook, outlook_text};
ghost use Rattle.pc_reports.specs.inside.OutlookText.{IsOutlookFor, TellsTop};
ghost use Rattle.pc_project.specs.shell.Priced.{priced_in};
ghost use Rattle.pert_cli.specs.Normal.{printed_text};
ghost use Rattle.pert_cli.specs.Point.{IsCheapest, IsCheapestFor, IsOutside};
ghost use Rattle.pert_cli.specs.inside.Handing.{IsNoReport};

use crate::cheapest::cheapest_schedule;
use crate::deliver::NoAnswer;
use crate::printed::PrintedSchedule;
use crate::solving::priced_net;
use pc_edges::Sink;
use pc_edges::page::Page;
use pc_project::Project;
use pc_reports::{OutlookReport, Report};
use std::alloc::Global;

/// A cheapest schedule for a length, and what each item costs by it.
#[derive(Drop)]
pub(crate) struct OutlookAnswer {
    schedule: PrintedSchedule,
    report: OutlookReport,
}

impl Report for OutlookAnswer {
    ghost IsFor = { λ answer project. IsCheapest (priced_in project) answer.schedule
        × IsOutlookFor project answer.report };

    ghost IsText = { λ answer project text. text
        ≡ printed_text project answer.schedule ++ outlook_text project answer.report };

    fn put_on<O: Sink>(self, page: &mut Page, sink: &mut O, project: &Project) {
        let OutlookAnswer { schedule, report } = self;
        schedule.put_on(page, sink, project);
        report.put_on(page, sink, project);
    }
}

/// Returns a schedule of least cost for a length, with what each item costs by it. Both read the same priced network.
///
/// # Errors
///
/// `Refused` if the length is outside the project's range.
pub(crate) fn outlook_for(
    alloc: Global,
    project: &Project,
    limit: u64,
) -> Result<OutlookAnswer, NoAnswer>
    ensures cheapest { IfOk result (λ answer. IsCheapestFor (priced_in project.now) limit answer.schedule) }
    ensures outlook { IfOk result (λ answer. IsOutlook project.now answer.schedule.durations answer.report) }
    ensures top { IfOk result (λ answer. TellsTop project.now answer.schedule.durations answer.report) }
    ensures none { IfErr result (IsNoReport (IsOutside (priced_in project.now) limit)) }
{
    let net = priced_net(alloc, project)?;
    let schedule = cheapest_schedule(alloc, project, &net, limit)?;
    let report = OutlookReport::build_priced(alloc, project, &net, &schedule.durations)?;
    Ok(OutlookAnswer { schedule, report })
}
