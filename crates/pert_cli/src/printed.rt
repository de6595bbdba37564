//! A schedule as it is printed.
ghost use Rattle.std.specs.Prelude.{◌≡◌};
ghost use Rattle.pc_curve.specs.inside.Points.{HasPlaces};
ghost use Rattle.pc_reports.specs.Schedule.{plan_text};
ghost use Rattle.pc_reports.specs.inside.Schedule.{plan_text_of, schedule_text_of, IsWholeSchedule};
ghost use Rattle.pc_project.specs.shell.Priced.{priced_in};
ghost use Rattle.pert_cli.specs.Normal.{printed_text};

use pc_edges::Sink;
use pc_edges::page::Page;
use pc_project::Project;
use pc_reports::{Report, Schedule, put_schedule};
use std::marker::Model;

/// A schedule of a project: its length in units, its cost, a time for each event and a duration for each activity, in
/// card order.
#[derive(Drop)]
pub(crate) struct PrintedSchedule {
    pub(crate) total: u64,
    pub(crate) cost: u64,
    pub(crate) times: Vec<u64>,
    pub(crate) durations: Vec<u64>,
}

impl Model for PrintedSchedule {
    ghost use Rattle.pert_cli.specs.Normal.{Printed};

    ghost Value = { Printed };

    ghost view = { λ s. record {
      length = s.total;
      cost = s.cost;
      times = s.times.items;
      durations = s.durations.items;
    } };
}

impl PrintedSchedule {
    /// Returns the schedule with the codes of the project's events and activities.
    pub(crate) fn with_codes<'a>(&'a self, project: &'a Project) -> Schedule<'a>
        requires { HasPlaces (priced_in project.now) self.now.times self.now.durations }
        ensures whole { IsWholeSchedule result }
        ensures text { schedule_text_of result ≡ printed_text project.now self.now }
        ensures plan { plan_text_of result ≡ plan_text project.now.events self.now.times project.now.activities
            self.now.durations }
    {
        Schedule {
            length: self.total,
            cost: self.cost,
            events: project.event_codes(),
            times: &self.times,
            activities: project.activity_codes(),
            durations: &self.durations,
        }
    }
}

impl Report for PrintedSchedule {
    ghost IsFor = { λ printed project. HasPlaces (priced_in project) printed.times printed.durations };

    ghost IsText = { λ printed project text. text ≡ printed_text project printed };

    fn put_on<O: Sink>(self, page: &mut Page, sink: &mut O, project: &Project) {
        put_schedule(page, sink, &self.with_codes(project));
    }
}
