//! The dates of a deck as day numbers, and texts that are no date.
use crate::cases::expect_none;
use pc_days::{DayError, date_of_sixths, day_text, days_between, read_day};

/// Whether the day of this date has this text.
fn is_spelled(date: &[u8]) -> Option<bool> {
    let day = read_day(date).ok()?;
    Some(day_text(day).as_slice() == date)
}

/// How many days are between two dates, and whether the first one is the earlier one.
fn between(first: &[u8], second: &[u8]) -> Option<(i64, bool)> {
    let (first, second) = (read_day(first).ok()?, read_day(second).ok()?);
    Some((days_between(first, second), first < second))
}

// Two dates, how many days are between them, and whether the first is the earlier one.
const SPANS: &[(&[u8], &[u8], (i64, bool))] = &[
    (b"1970-01-01", b"2024-02-29", (19_782, true)),
    (b"2024-02-29", b"1970-01-01", (-19_782, false)),
    (b"1900-01-01", b"1970-01-01", (25_567, true)),
    (b"1900-01-01", b"2024-02-29", (45_349, true)),
    (b"2024-02-29", b"2199-12-31", (64_223, true)),
];

/// The first of these spans that is another, or none.
fn first_wrong_span() -> Option<usize> {
    for (i, &(first, second, span)) in SPANS.iter().enumerate() {
        if between(first, second) != Some(span) {
            return Some(i);
        }
    }
    None
}

#[test]
fn reads_the_days_of_a_deck(rt: HostRuntime) {
    assert!(rt; is_spelled(b"2024-02-29") == Some(true));
    assert!(rt; is_spelled(b"2199-12-31") == Some(true));
    expect_none(&rt, first_wrong_span());
}

// Fields that are no date.
const MISSHAPEN: &[&[u8]] = &[
    b"",
    b"2024-1-01",
    b"2024-01-01 ",
    b"2024/01/01",
    b"20x4-01-01",
    b"2024-00-10",
    b"2023-02-29",
    b"2100-02-29",
];

// Dates that no deck may name.
const OUTSIDE: &[&[u8]] = &[b"0000-01-01", b"0000-02-29", b"1899-12-31", b"2200-01-01"];

/// The first of these fields that is not refused for this, or none.
fn first_other(fields: &[&[u8]], error: DayError) -> Option<usize> {
    for i in 0..fields.len() {
        if read_day(fields[i]) != Err(error) {
            return Some(i);
        }
    }
    None
}

#[test]
fn refuses_other_fields(rt: HostRuntime) {
    expect_none(&rt, first_other(MISSHAPEN, DayError::Shape));
    expect_none(&rt, first_other(OUTSIDE, DayError::Years));
}

/// How many days after its start a date of this many sixths is, or none if it is not printed.
fn days_of_sixths(sixths: i32) -> Option<Option<i64>> {
    let start = read_day(b"2024-02-28").ok()?;
    match date_of_sixths(start, i64::from(sixths)) {
        Some(day) => Some(Some(days_between(start, day))),
        None => Some(None),
    }
}

// Sixths of a day after 2024-02-28, and how many complete days that is, or none if the date is not printed.
const SIXTHS: &[(i32, Option<i64>)] = &[
    (-6, Some(-1)),
    (-5, Some(0)),
    (0, Some(0)),
    (1, Some(1)),
    (6, Some(1)),
    (7, Some(2)),
    (13, Some(3)),
    (18_000_000, None),
    (-300_000, None),
];

/// The first of these numbers of sixths that is rounded otherwise, or none.
fn first_wrong_sixths() -> Option<usize> {
    for (i, &(sixths, days)) in SIXTHS.iter().enumerate() {
        if days_of_sixths(sixths) != Some(days) {
            return Some(i);
        }
    }
    None
}

#[test]
fn rounds_sixths_up_to_days(rt: HostRuntime) {
    expect_none(&rt, first_wrong_sixths());
}
