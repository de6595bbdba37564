//! The certificate of three activities, cut into pieces in several ways, and others that are malformed.
ghost use Rattle.std.specs.Prelude.{◌≤◌};

use crate::cases::expect_ok_none;
use pc_cert::{CertLine, CertReader, Fed, KnownLine, LineText, Place};
use std::alloc::{AllocError, Global};

const HEAD: &[u8] = b"CERT 1 E1 3 3\nNORMAL\nSTEP A\nSTEP B\nCRASH\nSTEP A\nSTEP B\n";

const FIRST: &[u8] = b"SEGMENT 9 7 45 3\nEVENT S 0 0\nEVENT M 4 1\nEVENT T 9 1\n\
ACT A 4 3 0\nACT B 5 3 0\nACT C 7 0 0\nCLOSE\n";

const SECOND: &[u8] = b"SEGMENT 7 5 51 7\nEVENT S 0 0\nEVENT M 2 0\nEVENT T 7 1\n\
ACT A 2 3 2\nACT B 5 5 0\nACT C 7 2 0\nCLOSE\n";

// The text of these parts.
pub(crate) fn joined(alloc: Global, parts: &[&[u8]]) -> Result<Vec<u8>, AllocError> {
    let mut text = Vec::new(alloc);
    for part in parts {
        text.extend_from_slice(part)?;
    }
    Ok(text)
}

// How many lines a text gives in pulls of `pull` bytes, and which one is malformed or missing; 0 for none.
fn read(text: &[u8], pull: usize) -> (u64, u64)
    requires { pull ≤ 4096 }
{
    let mut reader = CertReader::begin();
    let mut known = KnownLine::new();
    let mut at = 0usize;
    let mut left = pull;
    let mut lines = 0u64;
    for _ in 0..1000u64 {
        if at == text.len() {
            break;
        }
        let size = left.min(text.len() - at);
        match reader.feed_known(&text[at..at + size], &mut known) {
            Err(malformed) => return (lines, malformed.line),
            Ok(used) => {
                at += used;
                left -= used;
                if left == 0 {
                    left = pull;
                }
                if known.line().is_some() {
                    lines = lines.saturating_add(1);
                }
            }
        }
    }
    match reader.finish() {
        Ok(()) => (lines, 0),
        Err(malformed) => (lines, malformed.line),
    }
}

// The second segment with a line of an event in a wrong form, though it begins as that of the first does.
const PADDED: &[u8] = b"SEGMENT 7 5 51 7\nEVENT S 0 0\nEVENT M 02 0\nEVENT T 7 1\n";

const OPEN: &[u8] = b"SEGMENT 7 5 51 7\nEVENT S 0 0\nEVENT M 2 00\nEVENT T 7 1\n";

// The parts of a text, how many lines it gives, and which one is malformed or missing.
const TEXTS: &[(&[&[u8]], (u64, u64))] = &[
    (&[HEAD, FIRST, SECOND, b"END\n"], (24, 0)),
    (&[HEAD, FIRST, b"END\n"], (16, 0)),
    (&[HEAD, FIRST, SECOND], (23, 24)),
    (&[HEAD, FIRST, SECOND, b"EN"], (23, 24)),
    (&[HEAD, FIRST, SECOND, b"END\nx"], (24, 25)),
    (&[HEAD, FIRST, SECOND, b"\nEND\n"], (23, 24)),
    (&[HEAD, FIRST, PADDED], (17, 18)),
    (&[HEAD, FIRST, OPEN], (17, 18)),
    (&[HEAD, b"EVENT S 0 0\n"], (7, 8)),
    (&[b"CERT 1 E1 03 3\n"], (0, 1)),
];

// Whether the text of these parts is read so in pulls of `pull` bytes.
fn is_read(
    alloc: Global,
    parts: &[&[u8]],
    pull: usize,
    found: (u64, u64),
) -> Result<bool, AllocError>
    requires { pull ≤ 4096 }
{
    let text = joined(alloc, parts)?;
    Ok(read(&text, pull) == found)
}

// The first of these texts that is read otherwise in pulls of `pull` bytes, or none.
fn first_misread(alloc: Global, pull: usize) -> Result<Option<usize>, AllocError>
    requires { pull ≤ 4096 }
{
    for (i, &(parts, found)) in TEXTS.iter().enumerate() {
        if !is_read(alloc, parts, pull, found)? {
            return Ok(Some(i));
        }
    }
    Ok(None)
}

#[test]
fn texts_come_in_pulls(rt: HostRuntime) {
    expect_ok_none(&rt, first_misread(rt.alloc(), 1));
    expect_ok_none(&rt, first_misread(rt.alloc(), 2));
    expect_ok_none(&rt, first_misread(rt.alloc(), 7));
    expect_ok_none(&rt, first_misread(rt.alloc(), 4096));
}

// Whether each of these lines is read, where the same comes twice.
fn read_again() -> [bool; 5] {
    let mut known = KnownLine::new();
    [
        known.read(b"CLOSE").is_some(),
        known.read(b"CLOSE").is_some(),
        known.read(b"CLOSF").is_some(),
        known.read(b"CLOSF").is_some(),
        known.read(b"END").is_some(),
    ]
}

#[test]
fn a_known_line_is_read_again(rt: HostRuntime) {
    assert!(rt; read_again() == [true, true, false, false, true]);
}

// How many bytes of two texts are a known line again, and of one where none is known; none where the line is not read.
fn told_again() -> Option<[usize; 3]> {
    let mut known = KnownLine::new();
    if known.read(b"ACT A 4 3 0").is_none() {
        return None;
    }
    let text = known.text();
    Some([
        text.again(b"ACT A 4 3 0\nACT B 5 3 0\n"),
        text.again(b"ACT A 4 3 01\nACT B 5 3 0\n"),
        LineText::new().again(b"CLOSE\n"),
    ])
}

#[test]
fn a_line_is_told_by_its_bytes(rt: HostRuntime) {
    assert!(rt; told_again() == Some([12, 0, 0]));
}

// Whether the first line of a text is read, and the reader is then after it.
fn is_fed() -> bool {
    let mut reader = CertReader::begin();
    let fed = reader.feed(b"CERT 1 E1 3 3\nNORMAL\n");
    let is_head = matches!(
        fed,
        Ok(Fed {
            used: 14,
            line: Some(CertLine::Head { version: 1, .. })
        })
    );
    is_head & matches!(reader.place(), Place::AfterHead(_))
}

#[test]
fn a_reader_is_fed(rt: HostRuntime) {
    assert!(rt; is_fed());
}
