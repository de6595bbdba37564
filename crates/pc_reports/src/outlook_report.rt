//! The outlook: what the items will cost at given durations of the activities.
ghost use Rattle.std.specs.Prelude.{◌≡◌, ◌≤◌, ◌^◌, length, slice_index, IfOk};
ghost use Rattle.pc_model.specs.Sums.{sum_to};
ghost use Rattle.pc_edges.specs.inside.Writes.{Writes};
ghost use Rattle.pc_edges.specs.inside.page.Puts.{Puts};
ghost use Rattle.pc_reports.specs.OutlookText.{IsOutlook, outlook_text};
ghost use Rattle.pc_reports.specs.inside.OutlookText.{AreCostsIn, IsOutlookFor, IsPricedNetOf, TellsTop};

use crate::outlook_rows::{COLUMNS, OutlookRows, WORDS};
use crate::report::Report;
use pc_crash::CrashNet;
use pc_edges::page::{Page, put_head, put_rows};
use pc_edges::{Failed, Sink};
use pc_project::Project;
use pc_rollup::figures::Outlook;
use std::alloc::{AllocError, Global};
use std::marker::Model;

/// The outlook of a project: what its items will cost if its activities have given durations.
///
/// It takes all its memory when it is built; writing takes none. Contracts see it as the figures that it prints.
#[derive(Drop)]
pub struct OutlookReport {
    outlook: Outlook,
}

impl Model for OutlookReport {
    ghost use Rattle.pc_rollup.specs.figures.Outlook.{Outlook};

    ghost Value = { Outlook };

    ghost view = { λ report. report.outlook };
}

impl OutlookReport {
    /// Returns the outlook of the project at these durations, which are in units, one per activity in card order.
    /// Linear in activities, pieces, accounts and items.
    ///
    /// # Errors
    ///
    /// `AllocError` if there is no memory for it.
    pub fn build(
        alloc: Global,
        project: &Project,
        durations: &[u64],
    ) -> Result<OutlookReport, AllocError>
        requires { length durations.now ≡ length project.now.network.arcs }
        ensures outlook { IfOk result (IsOutlook project.now durations.now) }
        ensures top { IfOk result (TellsTop project.now durations.now) }
    {
        let net = project.priced(alloc)?;
        OutlookReport::build_priced(alloc, project, &net, durations)
    }

    /// Returns the outlook of the project at these durations, as `build` does, for a caller that has the project's
    /// priced network.
    ///
    /// # Errors
    ///
    /// `AllocError` if there is no memory for it.
    pub fn build_priced(
        alloc: Global,
        project: &Project,
        net: &CrashNet<'_>,
        durations: &[u64],
    ) -> Result<OutlookReport, AllocError>
        requires priced { IsPricedNetOf project.now net.now }
        requires one_each { length durations.now ≡ length project.now.network.arcs }
        ensures outlook { IfOk result (IsOutlook project.now durations.now) }
        ensures top { IfOk result (TellsTop project.now durations.now) }
    {
        let costs = costs_in(alloc, net, durations)?;
        let (tree, places) = (project.tree(), project.places());
        let entries = project.book().entries();
        Ok(OutlookReport {
            outlook: Outlook::build(alloc, tree, places, &costs, project.accounts(), entries)?,
        })
    }

    /// Writes the outlook, a row for each item in preorder, and flushes the sink.
    ///
    /// # Errors
    ///
    /// `Failed` if a push or the flush failed. The sink has taken the first bytes of the text then, or none.
    pub fn write<O: Sink>(&mut self, project: &Project, sink: &mut O) -> Result<(), Failed>
        requires { IsOutlookFor project.now self.old }
        ensures text { Writes result (O.taken sink.old) (O.taken sink.new) (O.faults sink.old) (O.faults sink.new)
            (outlook_text project.now self.old) }
        ensures same { self.new ≡ self.old }
    {
        let mut page = Page::without_buffer();
        self.put(&mut page, sink, project);
        page.finish(sink)
    }

    /// Puts the text of the report on a page.
    fn put<O: Sink>(&self, page: &mut Page, sink: &mut O, project: &Project)
        requires { IsOutlookFor project.now self.now }
        ensures { Puts O.taken O.faults page.old sink.old page.new sink.new (outlook_text project.now self.now) }
    {
        let outlook = &self.outlook;
        put_head(page, sink, &COLUMNS, &WORDS);
        put_rows(page, sink, &OutlookRows { project, outlook });
    }
}

impl Report for OutlookReport {
    ghost IsFor = { λ report project. IsOutlookFor project report };

    ghost IsText = { λ report project text. text ≡ outlook_text project report };

    fn put_on<O: Sink>(self, page: &mut Page, sink: &mut O, project: &Project) {
        self.put(page, sink, project);
    }
}

/// Returns what each activity costs at its duration. Durations are in units, one per activity in card order. Linear in
/// activities and pieces.
fn costs_in(alloc: Global, net: &CrashNet<'_>, durations: &[u64]) -> Result<Vec<u64>, AllocError>
    requires { length durations.now ≡ length net.now.network.arcs }
    ensures costs { IfOk result (λ costs. AreCostsIn net.now durations.now (length net.now.network.arcs) costs.items) }
    ensures fit { IfOk result (λ costs. sum_to (length costs.items) (slice_index costs.items) ≤ 2 ^ 60) }
{
    let mut costs = Vec::with_capacity(alloc, durations.len())?;
    for a in 0..net.net().activities() {
        costs.push(net.activity_cost(a, durations[a as usize]))?;
    }
    Ok(costs)
}
