//! Pages: buffers for a text that goes to a sink in few and large pushes.
//!
//! A writer puts one piece after another and tests nothing: a page remembers its first failure, and the call that ends
//! the text (`finish` or `push_out`) returns whether the sink took all of it.
ghost use Rattle.std.specs.Prelude.{◌≡◌, ℕ, List, [], ◌++◌, IfOk, IsTrue, IsFalse, decimal};
ghost use Rattle.std.specs.Fmt.{signed_decimal};
ghost use Rattle.pc_edges.specs.inside.Writes.{Writes};
ghost use Rattle.pc_edges.specs.inside.page.Page.{fresh};
ghost use Rattle.pc_edges.specs.inside.page.Puts.{Adds, Desk, Puts, desk};

mod cells;
mod lines;
mod rows;

pub use crate::page::cells::{Cell, Fill, put_head, put_row};
pub use crate::page::lines::{put_code, put_line, put_named, put_number, put_pair};
pub use crate::page::rows::{Rows, put_rows};
use crate::{Failed, STREAM_ROOM, Sink, push_all};
use pc_text::{digits, signed};
use std::alloc::{AllocError, Global};
use std::marker::Model;

/// The capacity in bytes of the page for the output of a program.
pub const PAGE_ROOM: usize = STREAM_ROOM;

/// A page of a text on its way to a sink.
///
/// When a piece does not fit, the page is pushed to the sink and begins again. After the first push that failed nothing
/// more is pushed, and the end of the text returns the failure.
///
/// Pass the same sink for all pieces of one text.
#[derive(Drop)]
pub struct Page {
    // None on a page without a buffer, which pushes each piece as it comes.
    bytes: Option<Vec<u8>>,
    room: usize,
    failed: bool,
}

impl Model for Page {
    ghost use Rattle.pc_edges.specs.inside.page.Page.{Page as Sheet};
    ghost use Rattle.pc_edges.specs.inside.page.PageInside.{pending_in, HasRoomFor};

    ghost Value = { Sheet };

    ghost view = { λ s. record { pending = pending_in s.bytes; failed = s.failed } };

    ghost invariant = { λ s. HasRoomFor s.room s.bytes };
}

impl Page {
    /// Returns an empty page with a capacity of `room` bytes. It takes no other memory later.
    ///
    /// # Errors
    ///
    /// `AllocError` if there is no memory for this many bytes.
    pub fn with_capacity(alloc: Global, room: usize) -> Result<Page, AllocError>
        ensures { IfOk result (λ page. page ≡ fresh) }
    {
        Ok(Page {
            bytes: Some(Vec::with_capacity(alloc, room)?),
            room,
            failed: false,
        })
    }

    /// Returns an empty page without a buffer: it pushes each piece as it comes, and takes no memory.
    pub fn without_buffer() -> Page
        ensures { result ≡ fresh }
    {
        Page {
            bytes: None,
            room: 0,
            failed: false,
        }
    }

    /// Puts a piece after what is there.
    #[inline]
    pub fn put<O: Sink>(&mut self, sink: &mut O, piece: &[u8])
        ensures { Puts O.taken O.faults self.old sink.old self.new sink.new piece.now }
    {
        if !self.gather(piece) {
            self.turn(sink, piece);
        }
    }

    /// Puts the decimal form of `number`.
    #[inline]
    pub fn put_number<O: Sink>(&mut self, sink: &mut O, number: u64)
        ensures { Puts O.taken O.faults self.old sink.old self.new sink.new (decimal number) }
    {
        self.put(sink, digits(number).bytes());
    }

    /// Puts the decimal form of `number`, with `-` in front if it is negative.
    #[inline]
    pub fn put_signed<O: Sink>(&mut self, sink: &mut O, number: i64)
        ensures { Puts O.taken O.faults self.old sink.old self.new sink.new (signed_decimal number) }
    {
        self.put(sink, signed(number).bytes());
    }

    /// Pushes what is pending: the end of a text that began on a fresh page, which is fresh again. It does not flush
    /// the sink, so that another text can follow at once.
    ///
    /// # Errors
    ///
    /// `Failed` if a push failed, now or before.
    pub fn push_out<O: Sink>(&mut self, sink: &mut O) -> Result<(), Failed>
        ensures text { (start : Desk) (text : List ℕ) → start.page ≡ fresh
            → Adds start (desk O.taken O.faults self.old sink.old) text
            → Writes result start.taken (O.taken sink.new) start.faults (O.faults sink.new) text }
        ensures fresh { self.new ≡ fresh }
    {
        self.push_pending(sink);
        let failed = self.failed;
        self.failed = false;
        if failed {
            return Err(Failed);
        }
        Ok(())
    }

    /// Pushes what is pending and flushes the sink: the end of a text that began on a fresh page, which is fresh again.
    ///
    /// # Errors
    ///
    /// `Failed` if a push failed, now or before, or if the flush did.
    pub fn finish<O: Sink>(&mut self, sink: &mut O) -> Result<(), Failed>
        ensures text { (start : Desk) (text : List ℕ) → start.page ≡ fresh
            → Adds start (desk O.taken O.faults self.old sink.old) text
            → Writes result start.taken (O.taken sink.new) start.faults (O.faults sink.new) text }
        ensures fresh { self.new ≡ fresh }
    {
        self.push_out(sink)?;
        sink.flush()
    }

    /// Adds the piece to what is pending, if the buffer has capacity for it, and returns whether it did.
    #[inline]
    fn gather(&mut self, piece: &[u8]) -> bool
        ensures failed { self.new.failed ≡ self.old.failed }
        ensures gathered { IsTrue result → self.new.pending ≡ self.old.pending ++ piece.now }
        ensures same { IsFalse result → self.new ≡ self.old }
    {
        match &mut self.bytes {
            Some(bytes) if piece.len() <= self.room - bytes.len() => {
                bytes.extend_from_slice(piece).unwrap();
                true
            }
            _ => false,
        }
    }

    /// Puts a piece for which there is no capacity: what is pending is pushed first, and so is a piece longer than the
    /// page itself.
    #[cold]
    #[inline(never)]
    fn turn<O: Sink>(&mut self, sink: &mut O, piece: &[u8])
        ensures { Puts O.taken O.faults self.old sink.old self.new sink.new piece.now }
    {
        self.push_pending(sink);
        if !self.gather(piece) {
            self.failed = push_on(self.failed, sink, piece);
        }
    }

    /// Pushes what is pending. The page is empty then.
    fn push_pending<O: Sink>(&mut self, sink: &mut O)
        ensures text { Puts O.taken O.faults self.old sink.old self.new sink.new [] }
        ensures empty { self.new.pending ≡ [] }
    {
        if let Some(bytes) = &mut self.bytes {
            self.failed = push_on(self.failed, sink, bytes.as_slice());
            bytes.clear();
        }
    }
}

/// Pushes the piece, unless a push failed before, and returns whether one has failed by now.
fn push_on<O: Sink>(failed: bool, sink: &mut O, piece: &[u8]) -> bool
    ensures { Puts O.taken O.faults (record { pending = []; failed = failed }) sink.old
        (record { pending = []; failed = result }) sink.new piece.now }
{
    failed || push_all(sink, piece).is_err()
}
