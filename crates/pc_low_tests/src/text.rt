//! Codes, titles, numbers and lines: each public function once, on values worked out by hand.
ghost use Rattle.std.specs.Prelude.{◌≡◌, []};

use crate::cases::expect_none;
use pc_text::{
    Code, Codes, Line, Title, digits, is_code, is_title_shape, read_number, signed, wide,
};
use std::alloc::{AllocError, Global};
use std::collections::HashSet;

/// Whether a code has its bytes, whether it is before another and differs from it, and the number of a third.
fn two_codes() -> Option<(bool, bool, bool, u128)> {
    let (code, later) = (Code::read(b"A.9_z-")?, Code::read(b"A.9_z-0")?);
    let number = Code::read(b"AB")?.number();
    Some((
        code.bytes() == b"A.9_z-".as_slice(),
        code < later,
        code != later,
        number,
    ))
}

/// Whether codes are listed in their order.
fn are_listed(alloc: Global, codes: &[Code]) -> Result<bool, AllocError> {
    Ok(Codes::of(alloc, codes)?.as_slice() == codes)
}

/// Whether each of two codes is new to a set, and the first is in it then.
fn are_kept(alloc: Global, first: Code, second: Code) -> Result<bool, AllocError> {
    let mut seen = HashSet::new(alloc);
    Ok(seen.insert(first)? & seen.insert(second)? & seen.contains(&first))
}

/// Whether two codes are listed with the later one first, and in a set.
fn are_together(alloc: Global, code: Code, later: Code) -> Result<bool, AllocError> {
    Ok(are_listed(alloc, &[later, code])? & are_kept(alloc, code, later)?)
}

fn codes_together(alloc: Global) -> Option<bool> {
    let (code, later) = (Code::read(b"A.9_z-")?, Code::read(b"A.9_z-0")?);
    are_together(alloc, code, later).ok()
}

#[test]
fn codes(rt: HostRuntime) {
    // 65 and 66 are the bytes
    assert!(rt; two_codes() == Some((true, true, true, 65 + 66 * 256)));
    assert!(rt; codes_together(rt.alloc()) == Some(true));
}

/// Fields, and whether each is a code.
const FIELDS: &[(&[u8], bool)] = &[
    (b"", false),
    (b"x", true),
    (b"0123456789abcdef", true),
    (b"0123456789abcdefg", false),
    (b"a b", false),
    (b"\xc3\xa4", false),
];

/// The first field that is read otherwise, or none.
fn first_wrong_code() -> Option<usize> {
    for (i, &(field, is)) in FIELDS.iter().enumerate() {
        if is_code(field) != is || Code::read(field).is_some() != is {
            return Some(i);
        }
    }
    None
}

#[test]
fn fields_of_codes(rt: HostRuntime) {
    expect_none(&rt, first_wrong_code());
}

/// Fields, whether each is a title, and whether it has a title's shape.
const TITLES: &[(&[u8], bool, bool)] = &[
    (b"", true, true),
    (b"Frame, north", true, true),
    (&[b'x'; 80], true, true),
    (&[b'x'; 81], false, true),
    (b"\x1f", false, false),
    (b"\x7f", false, false),
];

/// Whether a field is read as the title with these bytes, which equals itself.
fn is_read(field: &[u8]) -> bool {
    match Title::read(field) {
        Some(title) => title.bytes() == field && title == title,
        None => false,
    }
}

/// The first field that is read otherwise, or none.
fn first_wrong_title() -> Option<usize> {
    for (i, &(field, is, is_shape)) in TITLES.iter().enumerate() {
        if is_read(field) != is || is_title_shape(field) != is_shape {
            return Some(i);
        }
    }
    None
}

#[test]
fn titles(rt: HostRuntime) {
    expect_none(&rt, first_wrong_title());
}

const NUMBERS: &[(&[u8], Option<u64>)] = &[
    (b"0", Some(0)),
    (b"17", Some(17)),
    (b"9999999999999", Some(9_999_999_999_999)),
    (b"10000000000000", None),
    (b"", None),
    (b"06", None),
    (b"-1", None),
    (b"+1", None),
    (b"1x", None),
];

/// The first field that is read as another number, or none.
fn first_wrong_number() -> Option<usize> {
    for (i, &(field, number)) in NUMBERS.iter().enumerate() {
        if read_number(field) != number {
            return Some(i);
        }
    }
    None
}

const SIGNS: &[(i64, &[u8])] = &[
    (0, b"0"),
    (37, b"37"),
    (-6, b"-6"),
    (i64::MAX, b"9223372036854775807"),
    (i64::MIN, b"-9223372036854775808"),
];

/// The first number that is written otherwise, or none.
fn first_wrong_sign() -> Option<usize> {
    for (i, &(number, text)) in SIGNS.iter().enumerate() {
        if signed(number).bytes() != text {
            return Some(i);
        }
    }
    None
}

/// Whether the least and the greatest number are written as they must be.
fn are_digits() -> bool {
    (digits(0).bytes() == b"0".as_slice())
        & (digits(u64::MAX).bytes() == b"18446744073709551615".as_slice())
}

#[test]
fn numbers(rt: HostRuntime) {
    expect_none(&rt, first_wrong_number());
    expect_none(&rt, first_wrong_sign());
    assert!(rt; are_digits());
}

const WIDE: &[(u128, &[u8])] = &[
    (0, b"0"),
    (1_000_000_000_000_000_000_000, b"1000000000000000000000"),
    (u128::MAX, b"340282366920938463463374607431768211455"),
];

/// The first wide number that is written otherwise, or none.
fn first_wrong_wide() -> Option<usize> {
    for (i, &(number, text)) in WIDE.iter().enumerate() {
        if wide(number).bytes() != text {
            return Some(i);
        }
    }
    None
}

#[test]
fn wide_numbers(rt: HostRuntime) {
    expect_none(&rt, first_wrong_wide());
}

/// Whether two pieces are on a line, with this capacity left after them and, without them, at first.
fn takes_pieces(line: &mut Line) -> bool
    requires bytes { line.old.bytes ≡ [] }
    requires room { line.old.room ≡ 16 }
    ensures bytes { line.new.bytes ≡ [] }
    ensures room { line.new.room ≡ 16 }
{
    line.text(b"ACT ");
    line.text(b"A");
    let (is_put, left) = (line.bytes() == b"ACT A".as_slice(), line.room_left());
    line.clear();
    is_put & (left == 11) & (line.room_left() == 16)
}

/// Whether four cells are on a line.
fn takes_cells(line: &mut Line) -> bool
    requires bytes { line.old.bytes ≡ [] }
    requires room { line.old.room ≡ 16 }
{
    line.cell_left(b"AB", 4);
    line.cell_right(b"C", 3);
    line.cell_left(b"DEFG", 2);
    line.cell_right(b"HI", 1);
    line.bytes() == b"AB    CDEFGHI".as_slice()
}

fn lines_written(alloc: Global) -> Option<bool> {
    let mut line = Line::with_room(alloc, 16).ok()?;
    Some(takes_pieces(&mut line) & takes_cells(&mut line))
}

#[test]
fn lines(rt: HostRuntime) {
    assert!(rt; lines_written(rt.alloc()) == Some(true));
}
