//! One record of a deck, and the trait of records whose fields can be read.
ghost use Rattle.std.specs.Prelude.{◌≡◌, ◌==◌, [], List, ℕ, drop, length, option_map, slice_get, IfOk};
ghost use Rattle.csv.specs.Records.{fields_of};
ghost use Rattle.pc_records.specs.Deck.{is_blank};
ghost use Rattle.pc_model.specs.Codes.{text_at};

use csv::ByteRecord;
use std::alloc::{AllocError, Global};
use std::marker::Model;

/// One record of a deck: a list of fields, each of any bytes.
///
/// [`RowReader::next_row`](crate::RowReader::next_row) fills it again for each record and keeps its memory.
pub struct Row {
    pub(crate) fields: ByteRecord,
}

impl Drop for Row {
    // Written by hand so that the proof of dropping a row is done once, here.
    fn drop(self) {
        let Row { fields: _fields } = self;
    }
}

impl Model for Row {
    ghost Value = { List (List ℕ) };

    ghost view = { λ row. fields_of row.fields };
}

impl Row {
    /// Creates a row without fields. Allocates nothing until it is filled.
    pub fn new(alloc: Global) -> Row
        ensures { result ≡ [] }
    {
        Row {
            fields: ByteRecord::new(alloc),
        }
    }

    /// Creates a row without fields, with capacity for this many bytes and fields. It allocates more for longer
    /// records.
    ///
    /// # Errors
    ///
    /// Returns `AllocError` if memory runs out.
    pub fn with_capacity(alloc: Global, bytes: usize, fields: usize) -> Result<Row, AllocError>
        ensures { IfOk result (λ row. row ≡ []) }
    {
        Ok(Row {
            fields: ByteRecord::with_capacity(alloc, bytes, fields)?,
        })
    }

    /// Returns the number of fields, empty ones included.
    pub fn len(&self) -> usize
        ensures { result ≡ length self.now }
    {
        self.fields.len()
    }

    /// Returns whether there is no field at all. A record of a deck has at least one; see [`Row::is_blank`].
    pub fn is_empty(&self) -> bool
        ensures { result ≡ (length self.now == 0) }
    {
        self.fields.is_empty()
    }

    /// Returns field `i`, counted from 0, or `None` past the last one.
    pub fn get(&self, i: usize) -> Option<&[u8]>
        ensures { option_map (λ field. field.now) result ≡ slice_get self.now i }
    {
        self.fields.get(i)
    }

    /// Returns field `i`, counted from 0, or an empty field past the last one.
    pub fn field(&self, i: usize) -> &[u8]
        ensures { result.now ≡ text_at self.now i }
    {
        self.get(i).unwrap_or(&[])
    }

    /// Returns whether all fields are empty. Such a record is no card.
    pub fn is_blank(&self) -> bool
        ensures { result ≡ is_blank self.now }
    {
        self.is_blank_from(0)
    }

    /// Returns whether all fields from number `start` on, counted from 0, are empty. Past the last field this is true.
    pub fn is_blank_from(&self, start: usize) -> bool
        ensures { result ≡ is_blank (drop start self.now) }
    {
        if self.len() <= start {
            return true;
        }
        if !self.field(start).is_empty() {
            return false;
        }
        // None of these fields is the first, so each begins where another ends.
        for i in start..self.len() - 1 {
            if !self.field(i + 1).is_empty() {
                return false;
            }
        }
        true
    }
}

impl Fields for Row {
    ghost fields = { λ row. row };

    fn len(&self) -> usize {
        Row::len(self)
    }

    fn field(&self, i: usize) -> &[u8] {
        Row::field(self, i)
    }

    fn is_blank_from(&self, start: usize) -> bool {
        Row::is_blank_from(self, start)
    }
}

/// The fields of a record, each of any bytes.
///
/// Code that reads fields through this trait does not depend on how they are stored, so no crate above has the
/// interface of `csv`.
pub trait Fields {
    // The fields in their order.
    ghost fields: { Self → List (List ℕ) };

    /// Returns the number of fields, empty ones included.
    fn len(&self) -> usize
        ensures { result ≡ length (fields self.now) };

    /// Returns field `i`, counted from 0, or an empty field past the last one.
    fn field(&self, i: usize) -> &[u8]
        ensures { result.now ≡ text_at (fields self.now) i };

    /// Returns whether all fields from number `start` on, counted from 0, are empty. Past the last field this is true.
    fn is_blank_from(&self, start: usize) -> bool
        ensures { result ≡ is_blank (drop start (fields self.now)) };
}
