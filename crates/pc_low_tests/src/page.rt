//! Pages: each public function once, and which calls of a sink a page makes, which no clause counts.

use crate::cases::expect_ok_none;
use pc_edges::page::{
    Cell, Fill, PAGE_ROOM, Page, Rows, put_code, put_head, put_line, put_named, put_number,
    put_pair, put_row, put_rows,
};
use pc_edges::{MemSink, Sink};
use pc_text::Code;
use std::alloc::{AllocError, Global};

/// The numbers below a number, a line each.
#[derive(Clone, Copy)]
struct NumberLines {
    below: usize,
}

impl Rows for NumberLines {
    ghost use Rattle.std.specs.Prelude.{[], ◌∷◌, ◌++◌, decimal, ⊤};

    ghost row_count = { λ rows. rows.below };

    ghost row_text = { λ rows i. decimal i ++ 10 ∷ [] };

    ghost IsReady = { λ rows. ⊤ };

    fn count(&self) -> usize {
        self.below
    }

    fn put<O: Sink>(&self, i: usize, page: &mut Page, sink: &mut O) {
        page.put_number(sink, i as u64);
        page.put(sink, b"\n");
    }
}

/// Which call of the sink fails, and what the sink takes of twelve bytes on a page of eight: two pushes and a flush.
const FAILING: &[(u64, &[u8])] = &[
    (1, b""),
    (2, b"abcdefgh"),
    (3, b"abcdefghijkl"),
    (4, b"abcdefghijkl"),
];

/// Whether the page is finished without a failure.
fn is_finished(page: &mut Page, sink: &mut MemSink) -> bool {
    page.put(sink, b"abcd");
    page.put(sink, b"efgh");
    page.put(sink, b"ijkl");
    page.finish(sink).is_ok()
}

/// Whether the page is finished so, and the sink takes these bytes.
fn is_taken(page: &mut Page, sink: &mut MemSink, is_whole: bool, taken: &[u8]) -> bool {
    (is_finished(page, sink) == is_whole) & (sink.bytes() == taken)
}

/// The first of these cases that ends otherwise, or none. The page is used again for each, and forgets the failure
/// before.
fn first_wrong(alloc: Global, page: &mut Page) -> Result<Option<usize>, AllocError> {
    for (i, &(failing, taken)) in FAILING.iter().enumerate() {
        let mut sink = MemSink::new(alloc, 64, 64, &[failing])?;
        if !is_taken(page, &mut sink, failing == 4, taken) {
            return Ok(Some(i));
        }
    }
    Ok(None)
}

fn first_wrong_on_a_page(alloc: Global) -> Result<Option<usize>, AllocError> {
    let mut page = Page::with_capacity(alloc, 8)?;
    first_wrong(alloc, &mut page)
}

#[test]
fn few_pushes_and_a_flush(rt: HostRuntime) {
    expect_ok_none(&rt, first_wrong_on_a_page(rt.alloc()));
}

const COLUMNS: [Fill; 6] = [
    Fill::Left(4),
    Fill::Right(3),
    Fill::Left(2),
    Fill::Plain,
    Fill::Right(4),
    Fill::Right(4),
];

/// Whether each kind of piece is put.
fn are_put(page: &mut Page, sink: &mut MemSink) -> bool {
    let cells = [
        Cell::Text(b"AB"),
        Cell::Text(b"C"),
        Cell::Text(b"DEFG"),
        Cell::Text(b"longer than the page"),
        Cell::Number(17),
        Cell::Signed(-6),
    ];
    put_head(page, sink, &COLUMNS, &[b"A", b"B", b"C", b"D", b"E"]);
    put_row(page, sink, &COLUMNS, &cells);
    page.put_signed(sink, -37);
    page.put(sink, b"\n");
    put_rows(page, sink, &NumberLines { below: 3 });
    page.finish(sink).is_ok()
}

const PIECES: &[u8] =
    b"A      B C  D    E\nAB     C DEFG longer than the page   17   -6\n-37\n0\n1\n2\n";

fn puts_pieces(alloc: Global) -> Result<bool, AllocError> {
    let mut page = Page::with_capacity(alloc, 10)?;
    let mut sink = MemSink::new(alloc, PAGE_ROOM, 7, &[])?;
    Ok(are_put(&mut page, &mut sink) & (sink.bytes() == PIECES))
}

#[test]
fn pieces_of_every_kind(rt: HostRuntime) {
    assert!(rt; matches!(puts_pieces(rt.alloc()), Ok(true)));
}

/// Whether each kind of line is put.
fn are_lines_put(page: &mut Page, sink: &mut MemSink, code: &Code) -> bool {
    put_line(page, sink, b"WORD ", b"text");
    put_pair(page, sink, b"PAIR ", b"first", b"second");
    put_code(page, sink, b"CODE ", code);
    put_number(page, sink, b"NUMBER ", 17);
    put_named(page, sink, b"NAMED ", code, 42);
    page.finish(sink).is_ok()
}

const LINES: &[u8] = b"WORD text\nPAIR first second\nCODE A-1\nNUMBER 17\nNAMED A-1 42\n";

fn puts_lines(alloc: Global) -> Option<bool> {
    let code = Code::read(b"A-1")?;
    let mut page = Page::with_capacity(alloc, 10).ok()?;
    let mut sink = MemSink::new(alloc, PAGE_ROOM, 7, &[]).ok()?;
    Some(are_lines_put(&mut page, &mut sink, &code) & (sink.bytes() == LINES))
}

#[test]
fn lines_of_every_kind(rt: HostRuntime) {
    assert!(rt; matches!(puts_lines(rt.alloc()), Some(true)));
}
