//! The text of lines, and the order in which they come.
use crate::cases::expect_none;
use pc_cert::{CertLine, Place};
use pc_edges::lines::line_len;

/// The numbers that a line says, in order, and 0 where it says fewer than six; a bit is 0 or 1.
fn numbers(line: &CertLine) -> [u64; 6] {
    match line {
        CertLine::Head {
            version,
            events,
            activities,
            ..
        } => [*version, *events, *activities, 0, 0, 0],
        CertLine::Segment {
            upper,
            lower,
            cost,
            slope,
        } => [*upper, *lower, *cost, *slope, 0, 0],
        CertLine::Event { time, moves, .. } => [*time, *moves as u64, 0, 0, 0, 0],
        CertLine::Act {
            duration,
            flows,
            ..
        } => match flows.as_slice() {
            [first, second] => [*duration, *first, *second, 0, 0, 0],
            [first, second, third] => [*duration, *first, *second, *third, 0, 0],
            _ => [*duration, 0, 0, 0, 0, 0],
        },
        _ => [0; 6],
    }
}

/// The code that a line says, or none.
fn code(line: &CertLine) -> Option<&[u8]> {
    match line {
        CertLine::Head { project, .. } => Some(project.bytes()),
        CertLine::Step(code) | CertLine::Event { code, .. } | CertLine::Act { code, .. } => {
            Some(code.bytes())
        }
        _ => None,
    }
}

// Lines, with the code and the numbers of each.
const LINES_READ: &[(&[u8], Option<&[u8]>, &[u64])] = &[
    (b"CERT 2 E1 3 4", Some(b"E1"), &[2, 3, 4, 0, 0, 0]),
    (b"NORMAL", None, &[0; 6]),
    (b"STEP A.9_z-", Some(b"A.9_z-"), &[0; 6]),
    (b"SEGMENT 9 7 45 3", None, &[9, 7, 45, 3, 0, 0]),
    (b"EVENT M 4 1", Some(b"M"), &[4, 1, 0, 0, 0, 0]),
    (b"ACT A 2 3 0", Some(b"A"), &[2, 3, 0, 0, 0, 0]),
    (
        b"ACT B 5 5 10 999999999999999999",
        Some(b"B"),
        &[5, 5, 10, 999_999_999_999_999_999, 0, 0],
    ),
    (b"END", None, &[0; 6]),
];

// Whether these bytes are a line with this code and these numbers.
fn is_read(bytes: &[u8], word: Option<&[u8]>, says: &[u64]) -> bool {
    match CertLine::read(bytes) {
        Some(line) => code(&line) == word && numbers(&line).as_slice() == says,
        None => false,
    }
}

// The first of these lines that is read otherwise, or none.
fn first_misread() -> Option<usize> {
    for (i, &(bytes, word, says)) in LINES_READ.iter().enumerate() {
        if !is_read(bytes, word, says) {
            return Some(i);
        }
    }
    None
}

#[test]
fn lines_are_read(rt: HostRuntime) {
    expect_none(&rt, first_misread());
}

// Texts, and whether each is a line.
const TEXTS: &[(&[u8], bool)] = &[
    (b"", false),
    (b"ACT A 4 3", false),
    (b"ACT A 4 3 0", true),
    (b"ACT A 4 1 2 3 4 5 6", true),
    (b"ACT A 4 1 2 3 4 5 6 7", false),
    (b"ACT  A 4 3 0", false),
    (b"ACT A 04 3 0", false),
    (b"ACT A 4 3 0 ", false),
    (b"ACT A 4 3\t0", false),
    (b"act A 4 3 0", false),
    (b"EVENT M 4 0", true),
    (b"EVENT M 4 2", false),
    (b"EVENT M -4 1", false),
    (b"CERT 1 E1 3 3", true),
    (b"CERT 3 E1 3 3", false),
    (b"SEGMENT 1000000000000000000 7 45 3", false),
    (b"CLOSE", true),
    (b"CLOSE ", false),
    (b"END\r", false),
    (b"STEP A B", false),
];

// The first of these texts that is taken for the other, or none.
fn first_mistaken() -> Option<usize> {
    for (i, &(bytes, is)) in TEXTS.iter().enumerate() {
        if CertLine::read(bytes).is_some() != is {
            return Some(i);
        }
    }
    None
}

#[test]
fn nothing_else_is_a_line(rt: HostRuntime) {
    expect_none(&rt, first_mistaken());
}

// Where the first line of a hundred bytes ends: if no byte ends a line, if the last one does, the thirty-sixth and the
// first; and of no bytes.
fn ends() -> [usize; 5] {
    let mut text = [b'x'; 100];
    let open = line_len(&text);
    text[99] = b'\n';
    let last = line_len(&text);
    text[35] = b'\n';
    let middle = line_len(&text);
    text[0] = b'\n';
    [open, last, middle, line_len(&text), line_len(b"")]
}

#[test]
fn a_line_ends_at_its_first_end(rt: HostRuntime) {
    assert!(rt; ends() == [100, 99, 35, 0, 0]);
}

// A line after those before it, and whether it may be there.
const LINES: &[(&[u8], bool)] = &[
    (b"NORMAL", false),
    (b"CERT 1 E 2 1", true),
    (b"NORMAL", true),
    (b"STEP A", true),
    (b"SEGMENT 4 4 1 0", false),
    (b"CRASH", true),
    (b"STEP A", true),
    (b"SEGMENT 4 4 1 0", true),
    (b"ACT A 4 0 0", false),
    (b"EVENT S 0 0", true),
    (b"EVENT T 4 0", true),
    (b"CLOSE", false),
    (b"ACT A 4 0 0 0", false),
    (b"ACT A 4 0 0", true),
    (b"CLOSE", true),
    (b"END", true),
    (b"END", false),
];

// Whether these bytes are a line that may be at this place, which then moves past it; none if they are no line.
fn stands(place: &mut Place, bytes: &[u8]) -> Option<bool> {
    let line = CertLine::read(bytes)?;
    let Some(behind) = place.next(&line) else {
        return Some(false);
    };
    *place = behind;
    Some(true)
}

// The first of these lines for which this place and the ones after it give another result, or none.
fn first_wrong(place: &mut Place, lines: &[(&[u8], bool)]) -> Option<usize> {
    for i in 0..lines.len() {
        let (bytes, may) = lines[i];
        if stands(place, bytes) != Some(may) {
            return Some(i);
        }
    }
    None
}

// The same for all these lines, and their number if the place after them is not the last.
fn first_wrong_of_all() -> Option<usize> {
    let mut place = Place::Start;
    let wrong = first_wrong(&mut place, LINES);
    match place {
        Place::Ended => wrong,
        _ => Some(LINES.len()),
    }
}

#[test]
fn lines_come_in_order(rt: HostRuntime) {
    expect_none(&rt, first_wrong_of_all());
}
