//! The dates of times, and the line of a date.
ghost use Rattle.std.specs.Prelude.{◌≡◌, ◌<◌, ◌^◌, IfOk};
ghost use Rattle.std.specs.List.{All};
ghost use Rattle.pc_edges.specs.inside.page.Puts.{Puts};
ghost use Rattle.pc_reports.specs.Lines.{dated_line};
ghost use Rattle.pc_reports.specs.Times.{IsDate, AreDates, date_of};

use pc_days::{Day, date_of_sixths, day_text};
use pc_edges::Sink;
use pc_edges::page::{Page, put_pair};
use pc_text::Code;
use std::alloc::{AllocError, Global};

/// How many bytes a date has.
pub(crate) const DATE_LENGTH: usize = 10;

/// Returns the date of each of the times.
pub(crate) fn dates_of(
    alloc: Global,
    start: Day,
    times: &[u64],
) -> Result<Vec<[u8; DATE_LENGTH]>, AllocError>
    requires { All (λ time. time < 2 ^ 40) times.now }
    ensures { IfOk result (λ dates. AreDates start times.now dates.items) }
{
    let mut dates = Vec::with_capacity(alloc, times.len())?;
    for &time in times {
        dates.push(date_text(start, time))?;
    }
    Ok(dates)
}

/// Returns the date this many sixths of a day after the start, or ten hyphens if it is past the days that are printed.
pub(crate) fn date_text(start: Day, sixths: u64) -> [u8; DATE_LENGTH]
    requires { sixths < 2 ^ 40 }
    ensures date { IsDate start sixths result }
    ensures value { result ≡ date_of start sixths }
{
    match date_of_sixths(start, sixths as i64) {
        Some(day) => day_text(day),
        None => *b"----------",
    }
}

/// Puts the word, the code, a space, the date of the day, and the end of the line.
pub(crate) fn put_dated<O: Sink>(page: &mut Page, sink: &mut O, word: &[u8], name: &Code, day: Day)
    ensures { Puts O.taken O.faults page.old sink.old page.new sink.new (dated_line word.now name.now day) }
{
    put_pair(page, sink, word, name.bytes(), &day_text(day));
}
