//! Decks that are read record by record, and records that are written.
use crate::cases::{expect_ok_none, first_false};
use pc_records::{Row, RowReader, RowWriter};
use std::alloc::{AllocError, Global};

// Appends a record in square brackets, its fields between strokes, as `[a|b]`.
fn spell_row(text: &mut Vec<u8>, row: &Row) -> Result<(), AllocError> {
    text.push(b'[')?;
    for i in 0..row.len() {
        if i > 0 {
            text.push(b'|')?;
        }
        text.extend_from_slice(row.field(i))?;
    }
    text.push(b']')?;
    Ok(())
}

// The same for each record of a deck, as `[a|b][c]`.
fn spell_rows(
    text: &mut Vec<u8>,
    rows: &mut RowReader<'_>,
    row: &mut Row,
) -> Result<(), AllocError> {
    'rows: while rows.next_row(row)? {
        spell_row(text, row)?;
    }
    Ok(())
}

// Whether the records of a deck have this text.
fn is_spelled(alloc: Global, deck: &[u8], want: &[u8]) -> Result<bool, AllocError> {
    let mut rows = RowReader::new(alloc, deck);
    let mut row = Row::with_capacity(alloc, 8, 2)?;
    let mut text = Vec::new(alloc);
    spell_rows(&mut text, &mut rows, &mut row)?;
    Ok(text.as_slice() == want)
}

// Decks, and their records as `spell_rows` writes them.
const CASES: &[(&[u8], &[u8])] = &[
    // Line ends: LF, CRLF, a lone CR, none at the end, blank lines.
    (b"", b""),
    (b"a,b\nc\n", b"[a|b][c]"),
    (b"a,b\r\nc,d,e\r\n", b"[a|b][c|d|e]"),
    (b"a,b\rc\r", b"[a|b][c]"),
    (b"a\nb", b"[a][b]"),
    (b"\n\na\n\r\n\n\rb\n\n", b"[a][b]"),
    // Rows that a spreadsheet pads, and rows of nothing but commas.
    (b"a,,\n", b"[a||]"),
    (b",,\n,\n", b"[||][|]"),
    (b"a,", b"[a|]"),
    (b"\"\"\n", b"[]"),
    // White space stays, and the first record is no header.
    (b" a ,\tb\nc , d\n", b"[ a |\tb][c | d]"),
    // Quoted fields: commas, doubled quotes, line ends; a quote inside a field; other delimiters.
    (b"\"a,b\",c\n", b"[a,b|c]"),
    (b"\"say \"\"so\"\"\",\"\"\n", b"[say \"so\"|]"),
    (b"\"a\nb\r\nc\",d\n", b"[a\nb\r\nc|d]"),
    (b"a\"b,'c;d\te'\n", b"[a\"b|'c;d\te']"),
    (b"#a\n\"b\\\"\n", b"[#a][b\\]"),
    // The mark in front: once, twice, three times, and elsewhere.
    (b"\xEF\xBB\xBFa,b\n", b"[a|b]"),
    (b"\xEF\xBB\xBF\xEF\xBB\xBFa\n", b"[a]"),
    (
        b"\xEF\xBB\xBF\xEF\xBB\xBF\xEF\xBB\xBFa\n",
        b"[\xEF\xBB\xBFa]",
    ),
    (b"\xEF\xBBa,\xEF\xBB\xBF\n", b"[\xEF\xBBa|\xEF\xBB\xBF]"),
];

// The first of these decks that has other records, or none.
fn first_misread(alloc: Global) -> Result<Option<usize>, AllocError> {
    for (i, &(deck, want)) in CASES.iter().enumerate() {
        if !is_spelled(alloc, deck, want)? {
            return Ok(Some(i));
        }
    }
    Ok(None)
}

#[test]
fn reads_decks(rt: HostRuntime) {
    expect_ok_none(&rt, first_misread(rt.alloc()));
}

// How many fields a row has, whether it is empty and whether blank.
fn shape(row: &Row) -> (usize, bool, bool) {
    (row.len(), row.is_empty(), row.is_blank())
}

// Whether a row of three fields has these ones, which are blank from the fourth on.
fn has_fields(row: &Row) -> bool {
    row.get(0) == Some(b"ab".as_slice())
        && row.get(3).is_none()
        && row.field(2) == b"c".as_slice()
        && row.field(3) == b"".as_slice()
        && !row.is_blank_from(1)
        && row.is_blank_from(3)
        && row.is_blank_from(9)
}

// What is wrong with the records that a reader of two of them gives, from 0 on in this order, or none: the first one is
// given, with its shape and its fields; the second one is, and is blank; and then nothing more.
fn first_wrong_read(rows: &mut RowReader<'_>, row: &mut Row) -> Result<Option<usize>, AllocError> {
    let is_first = rows.next_row(row)?;
    let (has_shape, has_fields) = (shape(row) == (3, false, false), has_fields(row));
    let is_second = rows.next_row(row)?;
    let is_blank = shape(row) == (3, false, true);
    let is_end = !rows.next_row(row)?;
    let is_end_again = !rows.next_row(row)?;
    Ok(first_false(&[
        is_first,
        has_shape,
        has_fields,
        is_second,
        is_blank,
        is_end,
        is_end_again,
    ]))
}

// The same for a deck of two records, and 7 if a new row is not empty and blank.
fn first_wrong_of_two(alloc: Global) -> Result<Option<usize>, AllocError> {
    let mut rows = RowReader::new(alloc, b"ab,,c\n,,\n");
    let mut row = Row::new(alloc);
    if shape(&row) != (0, true, true) {
        return Ok(Some(7));
    }
    first_wrong_read(&mut rows, &mut row)
}

#[test]
fn tells_fields(rt: HostRuntime) {
    expect_ok_none(&rt, first_wrong_of_two(rt.alloc()));
}

// Records whose fields have a comma, a quote or a line's end, and records of nothing but empty fields.
const RECORDS: &[&[&[u8]]] = &[
    &[b"ACT", b"", b" a b "],
    &[b"x,y", b"say \"so\"", b"l\nm", b"n\ro"],
    &[b""],
    &[b"", b""],
];

// They have quotes where a field needs them, and where a record has nothing but one empty field.
const WRITTEN: &[u8] = b"ACT,, a b \n\"x,y\",\"say \"\"so\"\"\",\"l\nm\",\"n\ro\"\n\"\"\n,\n";

// Writes each of these records.
fn put_all(writer: &mut RowWriter, records: &[&[&[u8]]]) -> Result<(), AllocError> {
    for record in records {
        writer.put(record)?;
    }
    Ok(())
}

// The text of these records.
fn written(alloc: Global, records: &[&[&[u8]]]) -> Result<Vec<u8>, AllocError> {
    let mut writer = RowWriter::with_capacity(Vec::new(alloc), 16)?;
    put_all(&mut writer, records)?;
    writer.finish()
}

// Whether the records are written so.
fn are_written(alloc: Global, records: &[&[&[u8]]], want: &[u8]) -> bool {
    match written(alloc, records) {
        Ok(text) => text.as_slice() == want,
        Err(_) => false,
    }
}

#[test]
fn writes_records(rt: HostRuntime) {
    assert!(rt; are_written(rt.alloc(), RECORDS, WRITTEN));
}
