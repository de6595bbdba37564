//! The text of a line with its end, as it was put last.
ghost use Rattle.std.specs.Prelude.{◌≡◌, ◌+◌, ◌≤◌, [], ◌∷◌, ◌++◌, true, decimal, length, take};
ghost use Rattle.pc_certify.specs.inside.fast.Gathers.{IsPlaced};
ghost use Rattle.pc_text.specs.Code.{is_code};
ghost use Rattle.pc_text.specs.Fields.{spaced};
ghost use Rattle.pc_cert.specs.inside.Fields.{bit_text};

use pc_text::{Code, digits};
use std::marker::Model;

/// The capacity in bytes for a line, however long its numbers are.
pub(crate) const ROOM: usize = 192;

/// The most bytes of a space and a code, and of a space and a number.
pub(crate) const CODE_ROOM: usize = 17;

pub(crate) const NUMBER_ROOM: usize = 21;

/// Most lines have no more bytes.
const SHORT: usize = 32;

/// The text of a line with its end, put together word by word.
#[derive(Drop)]
pub struct Spelling {
    cells: [u8; ROOM],
    len: usize,
}

impl Model for Spelling {
    ghost use Rattle.std.specs.Prelude.{◌≡◌, ◌≤◌, ℕ, List, length, take};

    ghost Value = { List ℕ };

    ghost view = { λ s. take s.len s.cells };

    ghost invariant = { λ s. (s.len ≤ 192) × (length s.cells ≡ 192) };
}

impl Spelling {
    pub(crate) fn new() -> Spelling
        ensures { result ≡ [] }
    {
        Spelling {
            cells: [0; ROOM],
            len: 0,
        }
    }

    pub(crate) fn len(&self) -> usize
        ensures { result ≡ length self.now }
    {
        self.len
    }

    /// Copies the bytes into the cells from place `at` on. The cells after them hold anything then: of a short line
    /// always `SHORT` bytes are copied, so that it is done by complete words.
    #[inline(always)]
    pub(crate) fn copy_to(&self, cells: &mut [u8], at: usize)
        requires { at + ROOM ≤ length cells.old }
        ensures { IsPlaced cells.old at self.now cells.new }
    {
        if self.len <= SHORT {
            cells[at..at + SHORT].copy_from_slice(&self.cells[..SHORT]);
        } else {
            cells[at..at + self.len].copy_from_slice(&self.cells[..self.len]);
        }
    }

    pub(crate) fn clear(&mut self)
        ensures { self.new ≡ [] }
    {
        self.len = 0;
    }

    /// Keeps only the first `len` bytes.
    pub(crate) fn cut(&mut self, len: usize)
        requires { len ≤ length self.old }
        ensures { self.new ≡ take len self.old }
    {
        self.len = len;
    }

    pub(crate) fn add(&mut self, piece: &[u8])
        requires { length self.old + length piece.now ≤ ROOM }
        ensures { self.new ≡ self.old ++ piece.now }
    {
        let end = self.len + piece.len();
        self.cells[self.len..end].copy_from_slice(piece);
        self.len = end;
    }

    pub(crate) fn add_code(&mut self, code: &Code)
        requires { length self.old + CODE_ROOM ≤ ROOM }
        ensures text { self.new ≡ self.old ++ spaced code.now [] }
        ensures short { length self.new ≤ length self.old + CODE_ROOM }
        ensures code { is_code code.now ≡ true }
    {
        self.add(b" ");
        self.add(code.bytes());
    }

    pub(crate) fn add_number(&mut self, number: u64)
        requires { length self.old + NUMBER_ROOM ≤ ROOM }
        ensures text { self.new ≡ self.old ++ spaced (decimal number) [] }
        ensures short { length self.new ≤ length self.old + NUMBER_ROOM }
    {
        self.add(b" ");
        self.add(digits(number).bytes());
    }

    pub(crate) fn add_last_bit(&mut self, bit: bool)
        requires { length self.old + 3 ≤ ROOM }
        ensures { self.new ≡ self.old ++ spaced (bit_text bit) (10 ∷ []) }
    {
        self.add(if bit { b" 1\n" } else { b" 0\n" });
    }
}
