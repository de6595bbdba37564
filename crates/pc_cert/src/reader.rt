//! The reader of a certificate, which takes lines from bytes in pieces, however they are cut.
ghost use Rattle.std.specs.Prelude.{
  ◌≡◌,
  ℕ,
  ◌+◌,
  ◌^◌,
  ◌<◌,
  ◌≤◌,
  List,
  [],
  ◌++◌,
  length,
  Some,
  None,
  Err,
  IfOk,
  IfNone,
  IsNone,
  IsSome,
  IsTrue,
  MatchResult,
};
ghost use Rattle.pc_cert.specs.declared.line.CertLine.{CertLine};
ghost use Rattle.pc_cert.specs.inside.Reading.{line_of};
ghost use Rattle.pc_cert.specs.inside.Reader.{ReadsAs, HasReadLine, EndsAs};
ghost use Rattle.pc_cert.specs.inside.Fed.{given, used, left_in, used_of};
ghost use Rattle.pc_cert.specs.declared.reader.Malformed.{Malformed};

use crate::fast::KnownLine;
use crate::line::{CertLine, MAX_LINE};
use crate::place::Place;
use pc_edges::lines::line_len;
use std::marker::Model;

/// The first line that is not allowed at its place, or that is missing. Lines are counted from 1.
#[derive(Clone, Copy, Debug)]
pub struct Malformed {
    pub line: u64,
}

/// How many bytes of a piece were used, and the line that ended there, if one did.
#[derive(Clone, Copy)]
pub struct Fed {
    pub used: usize,
    pub line: Option<CertLine>,
}

/// A reader of a certificate. It takes no memory.
///
/// It keeps the place of the next line, the number of complete lines, the bytes of the line that has not ended, and the
/// first malformed line.
#[derive(Drop)]
pub struct CertReader {
    place: Place,
    lines: u64,
    cells: [u8; MAX_LINE],
    held: usize,
    malformed: Option<Malformed>,
}

impl Model for CertReader {
    ghost use Rattle.std.specs.Prelude.{take};
    ghost use Rattle.pc_cert.specs.inside.Reader.{CertReading, KeepsRoom};

    ghost Value = { CertReading };

    ghost view = { λ s. record {
      place = s.place;
      lines = s.lines;
      held = take s.held s.cells;
      malformed = s.malformed;
    } };

    ghost invariant = { λ s. KeepsRoom s.cells s.held s.lines };
}

impl CertReader {
    /// Returns a reader that was fed nothing yet.
    pub fn begin() -> CertReader
        ensures stands { ReadsAs result [] [] }
        ensures nothing { (result.held ≡ []) × (result.malformed ≡ None) }
        ensures no_lines { result.lines ≡ 0 }
    {
        CertReader {
            place: Place::Start,
            lines: 0,
            cells: [0; MAX_LINE],
            held: 0,
            malformed: None,
        }
    }

    /// Uses the bytes of the piece up to the end of one line, and returns the line. If no line ends in the piece, it
    /// uses all of the piece and returns none. A line that is complete in the piece is not copied.
    ///
    /// # Errors
    ///
    /// `Malformed` if a line is not allowed at its place, or has 192 bytes without an end. Every later call returns the
    /// same.
    pub fn feed(&mut self, piece: &[u8]) -> Result<Fed, Malformed>
        requires { IfNone self.old.malformed (self.old.lines < 2 ^ 63) }
        // a reader in the state after these lines of this text is then in the state with what was given and used added
        ensures stands { (lines : List CertLine) (text : List ℕ) → ReadsAs self.old lines text
            → ReadsAs self.new (lines ++ given result) (text ++ used result piece.now) }
        ensures within { IfOk result (λ fed. fed.used ≤ length piece.now) }
        ensures no_line { IfOk result (λ fed. IsNone fed.line → fed.used ≡ length piece.now) }
        ensures held { IfOk result (λ fed. IsNone fed.line → self.new.held ≡ self.old.held ++ piece.now) }
        ensures one_line { IfOk result (λ fed. IsSome fed.line → (0 < fed.used) × (self.new.held ≡ [])) }

        // a malformed line is remembered, and returned again
        ensures kept { MatchResult result (λ _. self.new.malformed ≡ None)
            (λ malformed. self.new.malformed ≡ Some malformed) }
        ensures again { (malformed : Malformed) → self.old.malformed ≡ Some malformed
            → (result ≡ Err malformed) × (self.new ≡ self.old) }
        ensures short { length self.new.held < MAX_LINE }
        ensures count { IfOk result (λ fed. self.new.lines ≤ self.old.lines + 1) }
    {
        let mut known = KnownLine::new();
        let used = self.feed_known(piece, &mut known)?;
        Ok(Fed {
            used,
            line: known.line().copied(),
        })
    }

    /// Does what `feed` does, but leaves the line in `known`, with its bytes: the line that ended, or none if no line
    /// ended. Returns how many bytes were used.
    ///
    /// # Errors
    ///
    /// `Malformed`, as from `feed`.
    pub fn feed_known(&mut self, piece: &[u8], known: &mut KnownLine) -> Result<usize, Malformed>
        requires { IfNone self.old.malformed (self.old.lines < 2 ^ 63) }
        ensures stands { (lines : List CertLine) (text : List ℕ) → ReadsAs self.old lines text
            → ReadsAs self.new (lines ++ left_in known.new.line result) (text ++ used_of result piece.now) }
        ensures within { IfOk result (λ used. used ≤ length piece.now) }
        ensures no_line { IfOk result (λ used. IsNone known.new.line → used ≡ length piece.now) }
        ensures held { IfOk result (λ used. IsNone known.new.line → self.new.held ≡ self.old.held ++ piece.now) }
        ensures one_line { IfOk result (λ used. IsSome known.new.line → (0 < used) × (self.new.held ≡ [])) }
        ensures kept { MatchResult result (λ _. self.new.malformed ≡ None)
            (λ malformed. self.new.malformed ≡ Some malformed) }
        ensures again { (malformed : Malformed) → self.old.malformed ≡ Some malformed
            → (result ≡ Err malformed) × (self.new ≡ self.old) }
        ensures short { length self.new.held < MAX_LINE }
        ensures count { IfOk result (λ used. self.new.lines ≤ self.old.lines + 1) }
    {
        if let Some(malformed) = self.malformed {
            return Err(malformed);
        }
        let end = line_len(piece);
        if MAX_LINE - self.held <= end {
            return Err(self.stop());
        }
        if end == piece.len() {
            self.hold(piece);
            known.forget();
            return Ok(end);
        }
        self.learn(&piece[..end], known);
        self.pass(known, end + 1)
    }

    /// Returns the place of the next line.
    pub fn place(&self) -> Place
        ensures { result ≡ self.now.place }
    {
        self.place
    }

    /// Returns whether no line has begun without having ended.
    pub fn is_between(&self) -> bool
        ensures { IsTrue result → self.now.held ≡ [] }
    {
        self.held == 0
    }

    /// Goes on after `count` lines that the caller read itself. The next line is at `place`.
    pub fn go_on(&mut self, place: Place, count: u64)
        requires { self.old.lines + count ≤ 2 ^ 63 }
        ensures { self.new ≡ record self.old { place = place; lines = self.old.lines + count } }
    {
        self.place = place;
        self.lines += count;
    }

    /// Returns `Ok` if the text that was fed is complete: its last line was END, and no byte followed.
    ///
    /// # Errors
    ///
    /// `Malformed` with the line after the complete ones, or with the line of an earlier `Malformed`.
    pub fn finish(&self) -> Result<(), Malformed>
        ensures { (lines : List CertLine) (text : List ℕ) → ReadsAs self.now lines text → EndsAs result lines text }
    {
        if let Some(malformed) = self.malformed {
            return Err(malformed);
        }
        if matches!(self.place, Place::Ended) && self.held == 0 {
            return Ok(());
        }
        Err(Malformed {
            line: self.lines + 1,
        })
    }

    fn stop(&mut self) -> Malformed
        requires { self.old.lines < 2 ^ 63 }
        ensures line { result.line ≡ self.old.lines + 1 }
        ensures kept { self.new ≡ record self.old { malformed = Some result } }
    {
        let malformed = Malformed {
            line: self.lines + 1,
        };
        self.malformed = Some(malformed);
        malformed
    }

    fn hold(&mut self, piece: &[u8])
        requires { length self.old.held + length piece.now < MAX_LINE }
        ensures { self.new ≡ record self.old { held = self.old.held ++ piece.now } }
    {
        let end = self.held + piece.len();
        self.cells[self.held..end].copy_from_slice(piece);
        self.held = end;
    }

    fn learn(&mut self, piece: &[u8], known: &mut KnownLine)
        requires { length self.old.held + length piece.now < MAX_LINE }
        ensures line { known.new.line ≡ line_of (self.old.held ++ piece.now) }
        ensures rest { self.new ≡ record self.old { held = self.new.held } }
        ensures short { length self.new.held < MAX_LINE }
    {
        if self.held == 0 {
            known.read(piece);
        } else {
            self.hold(piece);
            known.read(&self.cells[..self.held]);
        }
    }

    /// Goes on after the known line, which has `used` bytes, if it is allowed at its place.
    #[inline(always)]
    fn pass(&mut self, known: &KnownLine, used: usize) -> Result<usize, Malformed>
        requires { self.old.lines < 2 ^ 63 }
        ensures { HasReadLine known.now.line used self.old self.new result }
    {
        let Some(line) = known.line() else {
            return Err(self.stop());
        };
        if !self.place.go_behind(line) {
            return Err(self.stop());
        }
        self.lines += 1;
        self.held = 0;
        Ok(used)
    }
}
