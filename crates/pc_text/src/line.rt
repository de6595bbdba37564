//! A line of a report, put together piece by piece before it is written at once.
ghost use Rattle.std.specs.Prelude.{◌≡◌, ◌+◌, ◌-◌, ◌≤◌, max, [], ◌++◌, length, IfOk};
ghost use Rattle.pc_text.specs.Line.{spaces};

use std::alloc::{AllocError, Global};
use std::marker::Model;

/// A line of a report. It takes its memory once and is used again for each line.
#[derive(Debug, Drop)]
pub struct Line {
    bytes: Vec<u8>,
    room: usize,
}

impl Model for Line {
    ghost use Rattle.std.specs.Prelude.{◌≤◌, vec_len, vec_capacity};
    ghost use Rattle.pc_text.specs.inside.Line.{Line as Bytes};

    ghost Value = { Bytes };

    ghost view = { λ s. record { bytes = s.bytes.items; room = s.room } };

    ghost invariant = { λ s. (vec_len s.bytes ≤ s.room) × (s.room ≤ vec_capacity s.bytes) };
}

impl Line {
    /// Returns an empty line that can hold `room` bytes. It takes no other memory later.
    ///
    /// # Errors
    ///
    /// `AllocError` if there is no memory for this many bytes.
    pub fn with_room(alloc: Global, room: usize) -> Result<Line, AllocError>
        ensures empty { IfOk result (λ line. line.bytes ≡ []) }
        ensures room { IfOk result (λ line. line.room ≡ room) }
    {
        Ok(Line {
            bytes: Vec::with_capacity(alloc, room)?,
            room,
        })
    }

    /// Returns how many more bytes the line can hold.
    pub fn room_left(&self) -> usize
        ensures { result + length self.now.bytes ≡ self.now.room }
    {
        self.room - self.bytes.len()
    }

    /// Removes all bytes from the line.
    pub fn clear(&mut self)
        ensures bytes { self.new.bytes ≡ [] }
        ensures room { self.new.room ≡ self.old.room }
    {
        self.bytes.clear();
    }

    /// Returns the bytes on the line.
    pub fn bytes(&self) -> &[u8]
        ensures { result.now ≡ self.now.bytes }
    {
        self.bytes.as_slice()
    }

    /// Appends the piece.
    pub fn text(&mut self, piece: &[u8])
        requires { length self.old.bytes + length piece.now ≤ self.old.room }
        ensures bytes { self.new.bytes ≡ self.old.bytes ++ piece.now }
        ensures room { self.new.room ≡ self.old.room }
    {
        self.bytes.extend_from_slice(piece).unwrap();
    }

    /// Appends the piece, and then the spaces that fill it to the width. A piece longer than the width is appended as
    /// it is.
    pub fn cell_left(&mut self, piece: &[u8], width: usize)
        requires { length self.old.bytes + max (length piece.now) width ≤ self.old.room }
        ensures bytes { self.new.bytes ≡ self.old.bytes ++ piece.now ++ spaces (width - length piece.now) }
        ensures room { self.new.room ≡ self.old.room }
    {
        self.text(piece);
        let behind = width.saturating_sub(piece.len());
        self.spaces(behind);
    }

    /// Appends the spaces that fill the piece to the width, and then the piece. A piece longer than the width is
    /// appended as it is.
    pub fn cell_right(&mut self, piece: &[u8], width: usize)
        requires { length self.old.bytes + max (length piece.now) width ≤ self.old.room }
        ensures bytes { self.new.bytes ≡ self.old.bytes ++ spaces (width - length piece.now) ++ piece.now }
        ensures room { self.new.room ≡ self.old.room }
    {
        let before = width.saturating_sub(piece.len());
        self.spaces(before);
        self.text(piece);
    }

    fn spaces(&mut self, count: usize)
        requires { length self.old.bytes + count ≤ self.old.room }
        ensures bytes { self.new.bytes ≡ self.old.bytes ++ spaces count }
        ensures room { self.new.room ≡ self.old.room }
    {
        self.bytes.resize(self.bytes.len() + count, b' ').unwrap();
    }
}
