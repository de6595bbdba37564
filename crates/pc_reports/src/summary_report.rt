//! The management summary.
ghost use Rattle.std.specs.Prelude.{◌≡◌, IfOk};
ghost use Rattle.pc_edges.specs.inside.Writes.{Writes};
ghost use Rattle.pc_edges.specs.inside.page.Puts.{Puts};
ghost use Rattle.pc_reports.specs.SummaryText.{IsSummary, ChargesCountOnce, summary_text};

use crate::dates::put_dated;
use crate::report::Report;
use crate::summary_rows::{COLUMNS, ItemRows, LevelRows, WORDS};
use pc_edges::page::{Page, put_head, put_rows};
use pc_edges::{Failed, Sink};
use pc_project::Project;
use pc_rollup::figures::Summary;
use std::alloc::{AllocError, Global};
use std::marker::Model;

/// The management summary of a project: budget, actual cost, cost to go, latest estimate and overrun of each item and
/// level.
///
/// It takes all its memory when it is built; writing takes none. Contracts see it as the figures that it prints.
#[derive(Drop)]
pub struct SummaryReport {
    summary: Summary,
}

impl Model for SummaryReport {
    ghost use Rattle.pc_rollup.specs.figures.Summary.{Summary};

    ghost Value = { Summary };

    ghost view = { λ report. report.summary };
}

impl SummaryReport {
    /// Returns the summary of the project. Linear in its accounts and items.
    ///
    /// # Errors
    ///
    /// `AllocError` if there is no memory for it.
    pub fn build(alloc: Global, project: &Project) -> Result<SummaryReport, AllocError>
        ensures summary { IfOk result (IsSummary project.now) }
        ensures once { IfOk result (ChargesCountOnce project.now) }
    {
        let entries = project.book().entries();
        Ok(SummaryReport {
            summary: Summary::build(alloc, project.tree(), project.accounts(), entries)?,
        })
    }

    /// Writes the summary, a row for each item in preorder and for each level, and flushes the sink.
    ///
    /// # Errors
    ///
    /// `Failed` if a push or the flush failed. The sink has taken the first bytes of the text then, or none.
    pub fn write<O: Sink>(&mut self, project: &Project, sink: &mut O) -> Result<(), Failed>
        requires { IsSummary project.now self.old }
        ensures text { Writes result (O.taken sink.old) (O.taken sink.new) (O.faults sink.old) (O.faults sink.new)
            (summary_text project.now self.old) }
        ensures same { self.new ≡ self.old }
    {
        let mut page = Page::without_buffer();
        self.put(&mut page, sink, project);
        page.finish(sink)
    }

    /// Puts the text of the report on a page.
    fn put<O: Sink>(&self, page: &mut Page, sink: &mut O, project: &Project)
        requires { IsSummary project.now self.now }
        ensures { Puts O.taken O.faults page.old sink.old page.new sink.new (summary_text project.now self.now) }
    {
        let summary = &self.summary;
        put_dated(page, sink, b"SUMMARY ", &project.code(), project.as_of());
        put_head(page, sink, &COLUMNS, &WORDS);
        put_rows(page, sink, &ItemRows { project, summary });
        put_rows(page, sink, &LevelRows { project, summary });
    }
}

impl Report for SummaryReport {
    ghost IsFor = { λ report project. IsSummary project report };

    ghost IsText = { λ report project text. text ≡ summary_text project report };

    fn put_on<O: Sink>(self, page: &mut Page, sink: &mut O, project: &Project) {
        self.put(page, sink, project);
    }
}
