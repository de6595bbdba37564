//! The text of a schedule.
ghost use Rattle.std.specs.Prelude.{◌≡◌, length, length as length_of};
ghost use Rattle.pc_edges.specs.inside.Writes.{Writes};
ghost use Rattle.pc_edges.specs.inside.page.Puts.{Puts};
ghost use Rattle.pc_reports.specs.Lines.{named_line_at};
ghost use Rattle.pc_reports.specs.Schedule.{schedule_text};
ghost use Rattle.pc_reports.specs.inside.Schedule.{plan_text_of, schedule_text_of, IsWholeSchedule};

use pc_crash::CrashNet;
use pc_edges::page::{Page, Rows, put_named, put_number, put_rows};
use pc_edges::{Failed, Sink};
use pc_text::Code;

/// A schedule as it is printed: its length and its cost, a time for each event, and a duration for each activity, in
/// card order. Length, times and durations are in units.
#[derive(Clone, Copy)]
pub struct Schedule<'a> {
    pub length: u64,
    pub cost: u64,
    pub events: &'a [Code],
    pub times: &'a [u64],
    pub activities: &'a [Code],
    pub durations: &'a [u64],
}

/// Writes a schedule of a network: its length and its cost, the time of each event and the duration of each activity,
/// in card order.
///
/// Each piece of the text is pushed as it comes. So it takes no memory, and it does not flush the sink. With a page at
/// hand, [`put_schedule`] pushes less often.
///
/// # Errors
///
/// `Failed` if a push failed. The sink has taken the first bytes of the text then, or none.
pub fn write_schedule<O: Sink>(
    sink: &mut O,
    net: &CrashNet<'_>,
    length: u64,
    cost: u64,
    times: &[u64],
    durations: &[u64],
) -> Result<(), Failed>
    requires times { length_of times.now ≡ net.now.network.events }
    requires durations { length_of durations.now ≡ length_of net.now.network.arcs }
    ensures { Writes result (O.taken sink.old) (O.taken sink.new) (O.faults sink.old) (O.faults sink.new)
        (schedule_text length cost net.now.events times.now net.now.activities durations.now) }
{
    // There is a code for each event and each activity.
    net.facts();
    let schedule = Schedule {
        length,
        cost,
        events: net.event_codes(),
        times,
        activities: net.activity_codes(),
        durations,
    };
    let mut page = Page::without_buffer();
    put_schedule(&mut page, sink, &schedule);
    page.push_out(sink)
}

/// Puts a schedule on a page: its length and its cost, the time of each event and the duration of each activity, in
/// card order.
pub fn put_schedule<O: Sink>(page: &mut Page, sink: &mut O, schedule: &Schedule<'_>)
    requires { IsWholeSchedule schedule.now }
    ensures { Puts O.taken O.faults page.old sink.old page.new sink.new (schedule_text_of schedule.now) }
{
    put_number(page, sink, b"LENGTH ", schedule.length);
    put_number(page, sink, b"COST ", schedule.cost);
    put_plan(page, sink, schedule);
}

/// Puts only the lines of the events and activities of a schedule on a page.
pub fn put_plan<O: Sink>(page: &mut Page, sink: &mut O, schedule: &Schedule<'_>)
    requires { IsWholeSchedule schedule.now }
    ensures { Puts O.taken O.faults page.old sink.old page.new sink.new (plan_text_of schedule.now) }
{
    let events = Numbered {
        word: b"EVENT ",
        names: schedule.events,
        numbers: schedule.times,
    };
    put_rows(page, sink, &events);
    let activities = Numbered {
        word: b"ACT ",
        names: schedule.activities,
        numbers: schedule.durations,
    };
    put_rows(page, sink, &activities);
}

/// A line for each code and its number.
#[derive(Clone, Copy)]
struct Numbered<'a> {
    word: &'a [u8],
    names: &'a [Code],
    numbers: &'a [u64],
}

impl<'a> Rows for Numbered<'a> {
    ghost row_count = { λ t. length t.names.now };

    ghost row_text = { λ t. named_line_at t.word.now t.names.now t.numbers.now };

    ghost IsReady = { λ t. length t.names.now ≡ length t.numbers.now };

    fn count(&self) -> usize {
        self.names.len()
    }

    fn put<O: Sink>(&self, i: usize, page: &mut Page, sink: &mut O) {
        put_named(page, sink, self.word, &self.names[i], self.numbers[i]);
    }
}
