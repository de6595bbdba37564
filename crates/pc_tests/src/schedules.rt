//! A schedule as it is printed, and what a sink that is full or fails leaves of it.
use crate::cases::expect_none;
use pc_edges::page::Page;
use pc_edges::{Failed, MemSink};
use pc_reports::{Schedule, put_schedule};
use pc_text::Code;
use std::alloc::Global;

const TEXT: &[u8] =
    b"LENGTH 9\nCOST 45\nEVENT S 0\nEVENT M 4\nEVENT T 9\nACT A 4\nACT B 5\nACT C 7\n";

/// What a write of the schedule on such a page to such a sink returns, and how much of the text the sink took: none if
/// it took something else.
fn written(
    alloc: Global,
    room: usize,
    page_room: usize,
    failing: &[u64],
) -> Option<(Result<(), Failed>, usize)> {
    let events = [Code::read(b"S")?, Code::read(b"M")?, Code::read(b"T")?];
    let activities = [Code::read(b"A")?, Code::read(b"B")?, Code::read(b"C")?];
    let schedule = Schedule {
        length: 9,
        cost: 45,
        events: &events,
        times: &[0, 4, 9],
        activities: &activities,
        durations: &[4, 5, 7],
    };
    let mut page = Page::with_capacity(alloc, page_room).ok()?;
    let mut sink = MemSink::new(alloc, room, 1000, failing).ok()?;
    put_schedule(&mut page, &mut sink, &schedule);
    let answer = page.finish(&mut sink);
    if !TEXT.starts_with(sink.bytes()) {
        return None;
    }
    Some((answer, sink.bytes().len()))
}

/// Capacity of the sink, capacity of the page, the calls that fail, the result, and how much of the text is written. A
/// page of 64 bytes is pushed when it has 63, then with the other 8, and then the sink is flushed.
const CASES: &[(usize, usize, &[u64], Result<(), Failed>, usize)] = &[
    (200, 1000, &[], Ok(()), 71),
    (200, 1000, &[2], Err(Failed), 71),
    (200, 1000, &[3], Ok(()), 71),
    (200, 64, &[], Ok(()), 71),
    (200, 64, &[1], Err(Failed), 0),
    (200, 64, &[2], Err(Failed), 63),
    (200, 64, &[3], Err(Failed), 71),
    (5, 1000, &[], Err(Failed), 5),
];

/// The first of these cases that ends otherwise, or none.
fn first_wrong(alloc: Global) -> Option<usize> {
    for (i, &(room, page_room, failing, answer, taken)) in CASES.iter().enumerate() {
        if written(alloc, room, page_room, failing) != Some((answer, taken)) {
            return Some(i);
        }
    }
    None
}

#[test]
fn schedule_is_written(rt: HostRuntime) {
    expect_none(&rt, first_wrong(rt.alloc()));
}
