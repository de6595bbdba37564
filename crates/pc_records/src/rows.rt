// The records of a deck in turn.

ghost use Rattle.std.specs.Prelude.{◌≡◌, ◌+◌, ◌≤◌, ◌∷◌, [], true, false, length, IfOk, OnErr, Some};
ghost use Rattle.csv.specs.Reading.{reader_state, strip_bom};
ghost use Rattle.csv.specs.declared.parser.State.TheVariants as st;
ghost use Rattle.pc_records.specs.Deck.{deck_records, without_mark};
ghost use Rattle.pc_records.specs.inside.Reading.{unread_bytes, GivesRecords};

use crate::row::Row;
use csv::{Reader, ReaderBuilder};
use std::alloc::{AllocError, Global};
use std::marker::Model;

/// The byte order mark that spreadsheets put in front of a text.
const MARK: [u8; 3] = [0xEF, 0xBB, 0xBF];

/// The records of a deck that have not been read yet.
///
/// In contracts it is the list of these records, each a list of its fields.
pub struct RowReader<'a> {
    reader: Reader<&'a [u8]>,
    is_done: bool,
}

impl<'a> Drop for RowReader<'a> {
    // Written by hand so that the proof of dropping a reader is done once, here.
    fn drop(self) {
        let RowReader {
            reader: _reader,
            is_done: _is_done,
        } = self;
    }
}

impl<'a> Model for RowReader<'a> {
    ghost use Rattle.std.specs.Prelude.{ℕ, List};
    ghost use Rattle.pc_records.specs.inside.Reading.{rows_left, GoesUntilDone};

    ghost Value = { List (List (List ℕ)) };

    ghost view = { rows_left };

    ghost invariant = { GoesUntilDone };
}

impl<'a> RowReader<'a> {
    /// Creates a reader of the deck's records. Allocates nothing and reads nothing yet.
    pub fn new(alloc: Global, bytes: &'a [u8]) -> RowReader<'a>
        ensures records { result ≡ deck_records bytes.now }
        ensures count { length result ≤ length bytes.now + 1 }
    {
        RowReader {
            reader: reader_of(alloc, unmarked(bytes)),
            is_done: false,
        }
    }

    /// Reads the next record into `row`, and returns whether there was one. If there was none, the fields of `row` mean
    /// nothing.
    ///
    /// Allocates only if a record is longer than all before it.
    ///
    /// # Errors
    ///
    /// Returns `AllocError` if memory runs out. The fields of `row` then mean nothing, and no record is left.
    pub fn next_row(&mut self, row: &mut Row) -> Result<bool, AllocError>
        ensures found { IfOk result (λ found. found ≡ true → self.old ≡ row.new ∷ self.new) }
        ensures end { IfOk result (λ found. found ≡ false → self.old ≡ []) }
        ensures ended { IfOk result (λ found. found ≡ false → self.new ≡ []) }
        ensures stopped { OnErr result (self.new ≡ []) }
    {
        if self.is_done {
            return Ok(false);
        }
        let Ok(found) = self.reader.read_byte_record(&mut row.fields) else {
            // Reading from memory cannot fail by itself, so memory ran out.
            self.is_done = true;
            return Err(AllocError);
        };
        self.is_done = !found;
        Ok(found)
    }
}

// The bytes without the mark in front.
fn unmarked(bytes: &[u8]) -> &[u8]
    ensures { result.now ≡ without_mark bytes.now }
{
    if bytes.starts_with(&MARK) {
        &bytes[3..]
    } else {
        bytes
    }
}

// A reader of records of any length, without a header.
fn reader_of(alloc: Global, bytes: &[u8]) -> Reader<&[u8]>
    ensures going { GivesRecords result }
    ensures state { reader_state result ≡ st.StartRecord }
    ensures bytes { unread_bytes result ≡ Some (strip_bom bytes.now) }
{
    ReaderBuilder::new()
        .has_headers(false)
        .flexible(true)
        .from_reader(alloc, bytes)
}
