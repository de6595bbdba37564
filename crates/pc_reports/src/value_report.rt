//! The report of the value of work.
ghost use Rattle.std.specs.Prelude.{◌≡◌, ◌<◌, length, IfOk};
ghost use Rattle.pc_edges.specs.inside.Writes.{Writes};
ghost use Rattle.pc_edges.specs.inside.page.Puts.{Puts};
ghost use Rattle.pc_reports.specs.Earned.{IsEarned};
ghost use Rattle.pc_reports.specs.ValueText.{value_text};
ghost use Rattle.pc_rollup.specs.figures.Outline.{outline_row_at};

use crate::dates::put_dated;
use crate::forecasts::Forecasts;
use crate::report::Report;
use crate::value_rows::{
    FORECAST_COLUMNS, FORECAST_WORDS, ForecastRows, WORTH_COLUMNS, WORTH_WORDS, WorthRows,
};
use pc_edges::page::{Page, put_head, put_rows};
use pc_edges::{Failed, Sink};
use pc_project::Project;
use pc_rollup::figures::{OutlineRow, Worth, outline_of};
use std::alloc::{AllocError, Global};
use std::marker::Model;

/// The report of a project's forecast and of the value of its work: the forecast of each event, and for each item the
/// value of its work and its slack.
///
/// It takes all its memory when it is built; writing takes none. Contracts see it as the figures that it prints.
#[derive(Drop)]
pub struct ValueReport {
    forecasts: Forecasts,
    outline: Vec<OutlineRow>,
    worth: Worth,
}

impl Model for ValueReport {
    ghost use Rattle.pc_reports.specs.Earned.{Earned};

    ghost Value = { Earned };

    ghost view = { λ r. record { forecasts = r.forecasts; outline = r.outline.items; worth = r.worth } };
}

impl ValueReport {
    /// Returns the report of the project. Linear in its events, activities, accounts and items.
    ///
    /// # Errors
    ///
    /// `AllocError` if there is no memory for it.
    pub fn build(alloc: Global, project: &Project) -> Result<ValueReport, AllocError>
        ensures { IfOk result (IsEarned project.now) }
    {
        let entries = project.book().entries();
        let (tree, places, states) = (project.tree(), project.places(), project.states());
        Ok(ValueReport {
            outline: outline_of(alloc, tree)?,
            forecasts: Forecasts::build(alloc, project)?,
            worth: Worth::build(alloc, tree, places, states, project.accounts(), entries)?,
        })
    }

    /// Writes the report, a row for each event and for each item in preorder, and flushes the sink.
    ///
    /// # Errors
    ///
    /// `Failed` if a push or the flush failed. The sink has taken the first bytes of the text then, or none.
    pub fn write<O: Sink>(&mut self, project: &Project, sink: &mut O) -> Result<(), Failed>
        requires { IsEarned project.now self.old }
        ensures text { Writes result (O.taken sink.old) (O.taken sink.new) (O.faults sink.old) (O.faults sink.new)
            (value_text project.now self.old) }
        ensures same { self.new ≡ self.old }
    {
        let mut page = Page::without_buffer();
        self.put(&mut page, sink, project);
        page.finish(sink)
    }

    /// Puts the text of the report on a page.
    fn put<O: Sink>(&self, page: &mut Page, sink: &mut O, project: &Project)
        requires { IsEarned project.now self.now }
        ensures { Puts O.taken O.faults page.old sink.old page.new sink.new (value_text project.now self.now) }
    {
        put_dated(page, sink, b"VALUE ", &project.code(), project.as_of());
        put_head(page, sink, &FORECAST_COLUMNS, &FORECAST_WORDS);
        let forecasts = self.forecasts();
        put_rows(page, sink, &ForecastRows { project, forecasts });
        put_head(page, sink, &WORTH_COLUMNS, &WORTH_WORDS);
        let report = self;
        put_rows(page, sink, &WorthRows { project, report });
    }

    /// Returns the forecasts of events and the slacks of items.
    pub(crate) fn forecasts(&self) -> &Forecasts
        ensures { result.now ≡ self.now.forecasts }
    {
        &self.forecasts
    }

    /// Returns the value of the work of each item.
    pub(crate) fn worth(&self) -> &Worth
        ensures { result.now ≡ self.now.worth }
    {
        &self.worth
    }

    pub(crate) fn items(&self) -> usize
        ensures { result ≡ length self.now.outline }
    {
        self.outline.len()
    }

    /// Returns the `k`-th item in preorder, with its level.
    pub(crate) fn row(&self, k: usize) -> OutlineRow
        requires { k < length self.now.outline }
        ensures { result ≡ outline_row_at self.now.outline k }
    {
        self.outline[k]
    }
}

impl Report for ValueReport {
    ghost IsFor = { λ report project. IsEarned project report };

    ghost IsText = { λ report project text. text ≡ value_text project report };

    fn put_on<O: Sink>(self, page: &mut Page, sink: &mut O, project: &Project) {
        self.put(page, sink, project);
    }
}
