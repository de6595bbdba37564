//! The report of event times.
ghost use Rattle.std.specs.Prelude.{◌≡◌, IfOk};
ghost use Rattle.pc_edges.specs.inside.Writes.{Writes};
ghost use Rattle.pc_edges.specs.inside.page.Page.{fresh};
ghost use Rattle.pc_edges.specs.inside.page.Puts.{Puts};
ghost use Rattle.pc_reports.specs.Times.{IsTimes};
ghost use Rattle.pc_reports.specs.TimesText.{times_text};
ghost use Rattle.pc_reports.specs.inside.View.{IsShownOf, as_shown};

use crate::report::Report;
use crate::times::late_to_meet;
use crate::times_rows::{put_activities, put_events, put_path};
use crate::view::{Reported, TimesView};
use pc_edges::page::{Page, put_code};
use pc_edges::{Failed, Sink};
use pc_project::Project;
use pc_times::{Longest, longest};
use std::alloc::{AllocError, Global};
use std::marker::Model;

/// The report of a project's event times: earliest and latest times, slacks and the critical path.
///
/// Times are in sixths of a day from the project's start. It takes all its memory when it is built; writing takes none.
/// Contracts see it as the figures that it prints.
#[derive(Drop)]
pub struct TimesReport {
    longest: Longest,
    late: Vec<i64>,
}

impl Model for TimesReport {
    ghost use Rattle.pc_reports.specs.Times.{Times};

    ghost Value = { Times };

    ghost use Rattle.pc_reports.specs.inside.TimesInside.{times_from, AreSmallInside};

    ghost view = { times_from };

    ghost invariant = { AreSmallInside };
}

impl TimesReport {
    /// Returns the report of the project. Linear in its events and activities.
    ///
    /// # Errors
    ///
    /// `AllocError` if there is no memory for it.
    pub fn build(alloc: Global, project: &Project) -> Result<TimesReport, AllocError>
        ensures { IfOk result (IsTimes project.now) }
    {
        let longest = longest(alloc, project.net(), project.expected())?;
        let late = late_to_meet(alloc, project, longest.length())?;
        Ok(TimesReport { longest, late })
    }

    /// Writes the report, a row for each event and for each activity and the critical path with its variance, and
    /// flushes the sink.
    ///
    /// # Errors
    ///
    /// `Failed` if a push or the flush failed. The sink has taken the first bytes of the text then, or none.
    pub fn write<O: Sink>(&mut self, project: &Project, sink: &mut O) -> Result<(), Failed>
        requires { IsTimes project.now self.old }
        ensures text { Writes result (O.taken sink.old) (O.taken sink.new) (O.faults sink.old) (O.faults sink.new)
            (times_text project.now self.old) }
        ensures same { self.new ≡ self.old }
    {
        let mut page = Page::without_buffer();
        self.put(&mut page, sink, project);
        page.finish(sink)
    }

    /// Puts the text of the report on a page.
    fn put<O: Sink>(&self, page: &mut Page, sink: &mut O, project: &Project)
        requires { IsTimes project.now self.now }
        ensures { Puts O.taken O.faults page.old sink.old page.new sink.new (times_text project.now self.now) }
    {
        // How many events and activities there are, and which numbers of them may be.
        project.facts();
        let view = Reported {
            project,
            longest: &self.longest,
            late: &self.late,
        };
        put_times(page, sink, project, &view);
    }
}

impl Report for TimesReport {
    ghost IsFor = { λ report project. IsTimes project report };

    ghost IsText = { λ report project text. text ≡ times_text project report };

    fn put_on<O: Sink>(self, page: &mut Page, sink: &mut O, project: &Project) {
        self.put(page, sink, project);
    }
}

/// Writes the report of event times from a view: a row for each event and for each activity, in card order, and the
/// critical path with its variance.
///
/// Each piece of the text is pushed as it comes. So it takes no memory, and it does not flush the sink. With a page at
/// hand, [`write_times_on`] pushes less often.
///
/// # Errors
///
/// `Failed` if a push failed. The sink has taken the first bytes of the text then, or none.
pub fn write_times<O: Sink, V: TimesView>(
    sink: &mut O,
    project: &Project,
    view: &V,
) -> Result<(), Failed>
    requires { IsShownOf project.now (V.shown view.now) }
    ensures { Writes result (O.taken sink.old) (O.taken sink.new) (O.faults sink.old) (O.faults sink.new)
        (times_text (as_shown project.now (V.shown view.now)) (V.shown view.now).times) }
{
    let mut page = Page::without_buffer();
    put_times(&mut page, sink, project, view);
    page.push_out(sink)
}

/// Writes the report of event times on a page, from a view, and flushes the sink: a row for each event and for each
/// activity, in card order, and the critical path with its variance. It takes no memory.
///
/// # Errors
///
/// `Failed` if a push or the flush failed.
pub fn write_times_on<O: Sink, V: TimesView>(
    page: &mut Page,
    sink: &mut O,
    project: &Project,
    view: &V,
) -> Result<(), Failed>
    requires fresh { page.old ≡ fresh }
    requires view { IsShownOf project.now (V.shown view.now) }
    ensures text { Writes result (O.taken sink.old) (O.taken sink.new) (O.faults sink.old) (O.faults sink.new)
        (times_text (as_shown project.now (V.shown view.now)) (V.shown view.now).times) }
    ensures fresh { page.new ≡ fresh }
{
    put_times(page, sink, project, view);
    page.finish(sink)
}

fn put_times<O: Sink, V: TimesView>(page: &mut Page, sink: &mut O, project: &Project, view: &V)
    requires { IsShownOf project.now (V.shown view.now) }
    ensures { Puts O.taken O.faults page.old sink.old page.new sink.new
        (times_text (as_shown project.now (V.shown view.now)) (V.shown view.now).times) }
{
    put_code(page, sink, b"TIMES ", &project.code());
    put_events(page, sink, project, view);
    put_activities(page, sink, project, view);
    put_path(page, sink, project, view);
}
