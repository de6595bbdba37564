//! Rows of cells.
ghost use Rattle.std.specs.Prelude.{◌-◌, ◌≤◌, length, map};
ghost use Rattle.pc_edges.specs.inside.page.Puts.{Puts};
ghost use Rattle.pc_edges.specs.page.Cells.{left, right, row};
ghost use Rattle.pc_text.specs.Line.{spaces};
ghost use Rattle.pc_edges.specs.inside.page.Cells.{cell_text, filled, filled_by, gap_before};

use crate::Sink;
use crate::page::Page;
use pc_text::{digits, signed};

/// A column of a table: how wide it is, in bytes, and at which side its texts are. Spaces fill a text to the width. A
/// longer one is put as it is.
#[derive(Clone, Copy)]
pub enum Fill {
    /// Each text as it is.
    Plain,
    /// Texts at the left of the width.
    Left(u8),
    /// Texts at the right of the width.
    Right(u8),
}

/// What a cell of a row says: a text, or a number in decimal form.
#[derive(Clone, Copy)]
pub enum Cell<'a> {
    /// The text.
    Text(&'a [u8]),
    /// The number.
    Number(u64),
    /// The number, with `-` in front if it is negative.
    Signed(i64),
}

/// Puts the words above the columns of a table, each as a cell of its column, with a space between each two, and the
/// end of the line.
pub fn put_head<O: Sink>(page: &mut Page, sink: &mut O, columns: &[Fill], words: &[&[u8]])
    requires { length words.now ≤ length columns.now }
    ensures { Puts O.taken O.faults page.old sink.old page.new sink.new
        (row (filled_by (map filled columns.now) (map (λ word. word.now) words.now))) }
{
    for (i, &word) in words.iter().enumerate() {
        put_gap(page, sink, i);
        put_text(page, sink, columns[i], word);
    }
    page.put(sink, b"\n");
}

/// Puts the cells, each in its column, with a space between each two, and the end of the line. A row may have fewer
/// cells than its table has columns.
pub fn put_row<O: Sink>(page: &mut Page, sink: &mut O, columns: &[Fill], cells: &[Cell<'_>])
    requires { length cells.now ≤ length columns.now }
    ensures { Puts O.taken O.faults page.old sink.old page.new sink.new
        (row (filled_by (map filled columns.now) (map cell_text cells.now))) }
{
    for (i, &cell) in cells.iter().enumerate() {
        put_gap(page, sink, i);
        put_cell(page, sink, columns[i], cell);
    }
    page.put(sink, b"\n");
}

/// Puts what is before cell `i`, counted from 0: a space, except before the first.
fn put_gap<O: Sink>(page: &mut Page, sink: &mut O, i: usize)
    ensures { Puts O.taken O.faults page.old sink.old page.new sink.new (gap_before i) }
{
    if i > 0 {
        page.put(sink, b" ");
    }
}

/// Puts a cell in a column.
fn put_cell<O: Sink>(page: &mut Page, sink: &mut O, column: Fill, cell: Cell<'_>)
    ensures { Puts O.taken O.faults page.old sink.old page.new sink.new (filled column (cell_text cell.entry)) }
{
    match cell {
        Cell::Text(text) => put_text(page, sink, column, text),
        Cell::Number(number) => put_text(page, sink, column, digits(number).bytes()),
        Cell::Signed(number) => put_text(page, sink, column, signed(number).bytes()),
    }
}

/// Puts a text in a column.
fn put_text<O: Sink>(page: &mut Page, sink: &mut O, column: Fill, text: &[u8])
    ensures { Puts O.taken O.faults page.old sink.old page.new sink.new (filled column text.now) }
{
    match column {
        Fill::Plain => page.put(sink, text),
        Fill::Left(width) => put_left(page, sink, width, text),
        Fill::Right(width) => put_right(page, sink, width, text),
    }
}

fn put_left<O: Sink>(page: &mut Page, sink: &mut O, width: u8, text: &[u8])
    ensures { Puts O.taken O.faults page.old sink.old page.new sink.new (left width text.now) }
{
    page.put(sink, text);
    put_spaces(page, sink, width, text.len());
}

fn put_right<O: Sink>(page: &mut Page, sink: &mut O, width: u8, text: &[u8])
    ensures { Puts O.taken O.faults page.old sink.old page.new sink.new (right width text.now) }
{
    put_spaces(page, sink, width, text.len());
    page.put(sink, text);
}

/// Puts the spaces that fill `len` bytes to a width.
fn put_spaces<O: Sink>(page: &mut Page, sink: &mut O, width: u8, len: usize)
    ensures { Puts O.taken O.faults page.old sink.old page.new sink.new (spaces (width - len)) }
{
    page.put(sink, &SPACES[..(width as usize).saturating_sub(len)]);
}

/// As many spaces as the greatest width has.
const SPACES: &[u8] = &[b' '; u8::MAX as usize];
