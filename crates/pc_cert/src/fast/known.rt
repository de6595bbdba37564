//! A line that was read, and its bytes.
ghost use Rattle.std.specs.Prelude.{◌≡◌, ◌<◌, IsSome, None, Option, Some, length};
ghost use Rattle.std.specs.Option.{option_map};
ghost use Rattle.pc_cert.specs.declared.line.CertLine.{CertLine};
ghost use Rattle.pc_cert.specs.inside.Reading.{line_of};
ghost use Rattle.pc_cert.specs.inside.Known.{HasText, IsAgain, IsLineTextOf};

use crate::fast::front::begins;
use crate::line::CertLine;
use std::marker::Model;

/// The most bytes of a line and its end that are stored: a longer line is read again each time.
const ROOM: usize = 64;

/// The bytes of a line and its end, if they are stored.
///
/// A caller that keeps them next to what it found in the line need not read the line when it occurs again.
#[derive(Clone, Copy)]
pub struct LineText {
    // the bytes, and how many there are: 0 if they are not stored
    pub(crate) cells: [u8; ROOM],
    pub(crate) len: usize,
}

impl LineText {
    /// Returns one that keeps no bytes.
    pub fn new() -> LineText
        ensures none { HasText result → ⊥ }
        ensures text { (line : Option CertLine) → IsLineTextOf line result }
    {
        LineText {
            cells: [0; ROOM],
            len: 0,
        }
    }

    /// Returns how many bytes at the beginning of the piece are the line and its end, or 0 if it does not occur there.
    #[inline(always)]
    pub fn again(&self, piece: &[u8]) -> usize
        requires { (line : Option CertLine) × IsLineTextOf line self.now }
        ensures kept { 0 < result → HasText self.now }
        ensures again { (line : Option CertLine) → IsLineTextOf line self.now → 0 < result →
            IsAgain line piece.now result }
    {
        if 0 < self.len && begins(piece, &self.cells, self.len) {
            self.len
        } else {
            0
        }
    }
}

/// The line that was read last, and its bytes with its end.
#[derive(Drop)]
pub struct KnownLine {
    text: LineText,
    line: Option<CertLine>,
}

impl Model for KnownLine {
    ghost use Rattle.pc_cert.specs.inside.Known.{LastLine, IsLineTextOf};

    ghost Value = { LastLine };

    ghost view = { λ s. record { line = s.line } };

    ghost invariant = { λ s. IsLineTextOf s.line s.text };
}

impl KnownLine {
    /// Returns one that knows no line.
    pub fn new() -> KnownLine
        ensures { result.line ≡ None }
    {
        KnownLine {
            text: LineText::new(),
            line: None,
        }
    }

    /// Returns one that knows this line, without its bytes.
    pub fn of(line: CertLine) -> KnownLine
        ensures { result.line ≡ Some line }
    {
        KnownLine {
            text: LineText::new(),
            line: Some(line),
        }
    }

    /// Returns the line that was read last, or `None` if its bytes are no line.
    pub fn line(&self) -> Option<&CertLine>
        ensures { option_map (λ line. line.now) result ≡ self.now.line }
    {
        self.line.as_ref()
    }

    /// Returns the bytes of the line and its end, if they are stored.
    pub fn text(&self) -> LineText
        ensures { IsLineTextOf self.now.line result }
    {
        self.text
    }

    /// Reads a line, which is known from then on. Returns `None` if the bytes are no line.
    pub fn read(&mut self, bytes: &[u8]) -> Option<CertLine>
        ensures value { result ≡ line_of bytes.now }
        ensures known { self.new.line ≡ line_of bytes.now }
    {
        self.text.len = 0;
        self.line = CertLine::read(bytes);
        if self.line.is_some() && bytes.len() < ROOM {
            self.keep(bytes);
        }
        self.line
    }

    fn keep(&mut self, bytes: &[u8])
        requires short { length bytes.now < ROOM }
        requires some { IsSome self.old.line }
        requires line { self.old.line ≡ line_of bytes.now }
        ensures { self.new ≡ self.old }
    {
        let end = bytes.len();
        self.text.cells[..end].copy_from_slice(bytes);
        self.text.cells[end] = b'\n';
        self.text.len = end + 1;
    }

    pub(crate) fn forget(&mut self)
        ensures { self.new.line ≡ None }
    {
        self.text.len = 0;
        self.line = None;
    }
}
