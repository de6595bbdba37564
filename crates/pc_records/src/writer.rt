//! The text of records, written one after the other, and the trait of texts that take records.
ghost use Rattle.std.specs.Prelude.{◌≡◌, ◌++◌, [], map, IfOk, OnOk, OnErr, List, ℕ};
ghost use Rattle.pc_records.specs.Text.{record_text};

use csv::{Writer, WriterBuilder};
use std::alloc::AllocError;
use std::marker::Model;

/// The text of records that `csv` writes one after the other.
///
/// In contracts it is the text so far.
#[derive(Drop)]
pub struct RowWriter {
    writer: Writer<Vec<u8>>,
    has_failed: bool,
}

impl Model for RowWriter {
    ghost use Rattle.std.specs.Prelude.{ℕ, List};
    ghost use Rattle.pc_records.specs.inside.Writing.{text_put, PutsOn};

    ghost Value = { List ℕ };

    ghost view = { text_put };

    ghost invariant = { PutsOn };
}

impl RowWriter {
    /// Creates an empty text with capacity for this many bytes, in the buffer `room`, which grows if its capacity is
    /// less. It allocates more for longer texts.
    ///
    /// # Errors
    ///
    /// Returns `AllocError` if memory runs out.
    pub fn with_capacity(mut room: Vec<u8>, bytes: usize) -> Result<RowWriter, AllocError>
        ensures { IfOk result (λ writer. writer ≡ []) }
    {
        room.clear();
        room.reserve(bytes)?;
        Ok(RowWriter {
            writer: WriterBuilder::new().flexible(true).from_writer(room),
            has_failed: false,
        })
    }

    /// Appends a record of these fields to the text. Allocates only if the text outgrows its capacity.
    ///
    /// # Errors
    ///
    /// Returns `AllocError` if memory runs out. The text is lost.
    pub fn put(&mut self, fields: &[&[u8]]) -> Result<(), AllocError>
        ensures put { OnOk result (self.new ≡ self.old ++ record_text (map (λ field. field.now) fields.now)) }
        ensures stopped { OnErr result (self.new ≡ []) }
    {
        if self.has_failed {
            return Err(AllocError);
        }
        let Ok(()) = self.writer.write_fields(fields) else {
            // Writing to memory cannot fail by itself, so memory ran out.
            self.has_failed = true;
            return Err(AllocError);
        };
        Ok(())
    }

    /// Returns the text of the records that were put.
    ///
    /// # Errors
    ///
    /// Returns `AllocError` if memory runs out, now or in an earlier call.
    pub fn finish(self) -> Result<Vec<u8>, AllocError>
        ensures { IfOk result (λ text. text.items ≡ self) }
    {
        if self.has_failed {
            return Err(AllocError);
        }
        self.writer.into_inner().map_err(|_| AllocError)
    }
}

impl Records for RowWriter {
    ghost text = { λ text. text };

    fn put(&mut self, fields: &[&[u8]]) -> Result<(), AllocError> {
        RowWriter::put(self, fields)
    }
}

/// A text to which records are appended.
///
/// Code that writes records through this trait does not depend on how they are written, so no crate above carries the
/// interface of `csv`.
pub trait Records {
    // The text so far.
    ghost text: { Self → List ℕ };

    /// Appends a record of these fields to the text.
    ///
    /// # Errors
    ///
    /// Returns `AllocError` if memory runs out. The text is lost.
    fn put(&mut self, fields: &[&[u8]]) -> Result<(), AllocError>
        ensures put { OnOk result (text self.new ≡ text self.old ++ record_text (map (λ field. field.now) fields.now)) }
        ensures stopped { OnErr result (text self.new ≡ []) };
}
