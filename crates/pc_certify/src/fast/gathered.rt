//! Lines of a segment on their way to the page.
ghost use Rattle.std.specs.Prelude.{◌≡◌, ◌+◌, ◌≤◌, [], ◌++◌, IfOk, length};
ghost use Rattle.pc_edges.specs.inside.page.Puts.{Puts, desk};
ghost use Rattle.pc_certify.specs.inside.fast.Gathers.{Gathers};

use crate::fast::spelling::{ROOM, Spelling};
use pc_edges::Sink;
use pc_edges::page::Page;
use std::alloc::{AllocError, Global};
use std::marker::Model;

/// The capacity in bytes of the buffer: some two hundred lines.
const GATHERED_ROOM: usize = 4096;

/// Lines that were put and are not on the page yet, one after the other.
///
/// A page tests its capacity for each piece, and copies as many bytes as the piece has. Here a short line is copied by
/// complete words, and the page takes many lines as one piece.
#[derive(Drop)]
pub struct Gathered {
    cells: Vec<u8>,
    len: usize,
}

impl Model for Gathered {
    ghost use Rattle.std.specs.Prelude.{◌≡◌, ◌≤◌, ℕ, List, length, take};

    ghost Value = { List ℕ };

    ghost view = { λ s. take s.len s.cells.items };

    ghost invariant = { λ s. (s.len ≤ 4096) × (length s.cells.items ≡ 4096) };
}

impl Gathered {
    pub(crate) fn build(alloc: Global) -> Result<Gathered, AllocError>
        ensures { IfOk result (λ gathered. gathered ≡ []) }
    {
        Ok(Gathered {
            cells: vec![in alloc; 0u8; GATHERED_ROOM]?,
            len: 0,
        })
    }

    pub(crate) fn clear(&mut self)
        ensures { self.new ≡ [] }
    {
        self.len = 0;
    }

    /// Puts a line after the others. If it does not fit, these go to the page first.
    #[inline(always)]
    pub(crate) fn put<O: Sink>(&mut self, page: &mut Page, sink: &mut O, line: &Spelling)
        ensures { Gathers (desk O.taken O.faults page.old sink.old) self.old
            (desk O.taken O.faults page.new sink.new) self.new line.now }
    {
        self.make_room(page, sink);
        self.add(line);
    }

    #[cold]
    #[inline(never)]
    pub(crate) fn put_all<O: Sink>(&mut self, page: &mut Page, sink: &mut O)
        ensures text { Puts O.taken O.faults page.old sink.old page.new sink.new self.old }
        ensures none { self.new ≡ [] }
    {
        page.put(sink, &self.cells[..self.len]);
        self.len = 0;
    }

    #[inline(always)]
    fn make_room<O: Sink>(&mut self, page: &mut Page, sink: &mut O)
        ensures same { Gathers (desk O.taken O.faults page.old sink.old) self.old
            (desk O.taken O.faults page.new sink.new) self.new [] }
        ensures room { length self.new + ROOM ≤ GATHERED_ROOM }
    {
        if GATHERED_ROOM - self.len < ROOM {
            self.put_all(page, sink);
        }
    }

    #[inline(always)]
    fn add(&mut self, line: &Spelling)
        requires { length self.old + ROOM ≤ GATHERED_ROOM }
        ensures { self.new ≡ self.old ++ line.now }
    {
        line.copy_to(&mut self.cells, self.len);
        self.len += line.len();
    }
}
