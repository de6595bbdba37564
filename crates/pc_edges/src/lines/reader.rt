//! The reader of lines.
ghost use Rattle.std.specs.Prelude.{
  ◌≡◌,
  ℕ,
  ◌<◌,
  ◌≤◌,
  List,
  [],
  ◌++◌,
  length,
  take,
  drop,
  Ok,
  IfOk,
  OnOk,
  OnErr,
  IsErrOf,
  Contains,
};
ghost use Rattle.pc_edges.specs.Faults.{Rose};
ghost use Rattle.pc_edges.specs.Pulls.{TakesPulls};
ghost use Rattle.pc_edges.specs.inside.lines.Reading.{StandsFor, Stepped, TakesLine, Filled, bytes_left};

use crate::lines::line_end::line_len;
use crate::{Failed, STREAM_ROOM, Source};
use std::alloc::{AllocError, Global};
use std::marker::Model;

/// The greatest length of a line that is stored completely. Of a longer line the reader stores one byte more than this.
pub const LINE_LIMIT: usize = 96;

/// The most bytes that an input can have.
pub const INPUT_LIMIT: usize = 134_217_728;

/// How many bytes of a line are stored: enough to see whether it is too long.
const LINE_ROOM: usize = LINE_LIMIT + 1;

/// What a reader found.
#[derive(Clone, Copy, Debug, PartialEq, Eq)]
pub enum Next {
    /// A line that has an end.
    Line,
    /// The last line, which has no end and is not empty.
    Last,
    /// The end of the input, after its last line.
    End,
}

/// The reason why there is no next line.
#[derive(Clone, Copy, Debug, PartialEq, Eq)]
pub enum LineError {
    /// The source had a fault.
    ReadFault,
    /// More than `INPUT_LIMIT` bytes were pulled, and all lines that end within the limit were given.
    TooLong,
}

/// A reader of the lines of a source.
///
/// It pulls into one buffer, and only when no complete line is left there. All its memory is taken when it begins. Each
/// byte is read once.
#[derive(Drop)]
pub struct LineReader {
    cells: [u8; LINE_ROOM],
    held: usize,
    buffer: Vec<u8>,
    from: usize,
    to: usize,
    taken: usize,
}

impl Model for LineReader {
    ghost use Rattle.pc_edges.specs.inside.lines.Reading.{Reading};

    ghost Value = { Reading };

    ghost use Rattle.pc_edges.specs.inside.lines.Inside.{reading_of, IsWithinRoom};

    ghost view = { reading_of };

    ghost invariant = { IsWithinRoom };
}

impl LineReader {
    /// Returns a reader for a source from which nothing was pulled.
    ///
    /// # Errors
    ///
    /// `AllocError` if there is no memory for its buffer.
    pub fn build(alloc: Global) -> Result<LineReader, AllocError>
        ensures stands { IfOk result (λ reader. StandsFor reader [] []) }
        ensures left { IfOk result (λ reader. bytes_left reader ≤ INPUT_LIMIT) }
    {
        Ok(LineReader {
            cells: [0; LINE_ROOM],
            held: 0,
            buffer: vec![in alloc; 0u8; STREAM_ROOM]?,
            from: 0,
            to: 0,
            taken: 0,
        })
    }

    /// Reads the next line, which `line` then returns. Do not call it again after it returned anything other than
    /// `Next::Line`.
    ///
    /// # Errors
    ///
    /// - `ReadFault` if a pull failed.
    /// - `TooLong` if more than `INPUT_LIMIT` bytes were pulled and no further line ends within the limit.
    pub fn next<S: Source>(&mut self, source: &mut S) -> Result<Next, LineError>
        // a reader that gave these lines of these bytes gives the next line of them and of the bytes pulled after them
        ensures stepped { (lines : List (List ℕ)) (bytes : List ℕ) → StandsFor self.old lines bytes
            → Stepped S.left S.faults S.pulls source.old source.new lines bytes self.new result }
        // nothing is pulled while there is a complete line
        ensures unpulled { Contains self.old.ahead 10 → (source.new ≡ source.old) × (result ≡ Ok Next.Line) }
        ensures left { IfOk result (λ next. next ≡ Next.Line → bytes_left self.new < bytes_left self.old) }
        ensures no_fault { OnOk result (S.faults source.new ≡ S.faults source.old) }
        ensures too_long { IsErrOf result LineError.TooLong → S.faults source.new ≡ S.faults source.old }
        ensures fault { IsErrOf result LineError.ReadFault → Rose (S.faults source.old) (S.faults source.new) }
        ensures count { S.faults source.old ≤ S.faults source.new }
    {
        self.begin_line();
        loop {
            if self.take_line() {
                return Ok(Next::Line);
            }
            if self.taken() > INPUT_LIMIT {
                return Err(LineError::TooLong);
            }
            let Ok(n) = self.fill(source) else {
                return Err(LineError::ReadFault);
            };
            if n == 0 {
                return Ok(if self.line().is_empty() {
                    Next::End
                } else {
                    Next::Last
                });
            }
        }
    }

    /// Returns the line that was read last, without its end. A line that is too long is cut to one byte more than
    /// `LINE_LIMIT`.
    pub fn line(&self) -> &[u8]
        ensures { result.now ≡ self.now.line }
    {
        &self.cells[..self.held]
    }

    fn begin_line(&mut self)
        ensures { self.new ≡ record self.old { line = [] } }
    {
        self.held = 0;
    }

    fn taken(&self) -> usize
        ensures { result ≡ self.now.taken }
    {
        self.taken
    }

    /// Takes what is ahead up to the end of a line, and returns whether there is one. If there is none, it takes all.
    fn take_line(&mut self) -> bool
        ensures { TakesLine self.old self.new result }
    {
        let ahead = self.ahead();
        let count = line_len(ahead);
        let all = count == ahead.len();
        self.hold(count);
        if all {
            self.pass(count);
            return false;
        }
        self.pass(count + 1);
        true
    }

    /// Returns the bytes that were pulled, are within the limit and were not given yet.
    fn ahead(&self) -> &[u8]
        ensures { result.now ≡ self.now.ahead }
    {
        &self.buffer[self.from..self.to]
    }

    /// Adds this many of the bytes ahead to those of the line, as far as they fit.
    fn hold(&mut self, count: usize)
        requires { count ≤ length self.old.ahead }
        ensures { self.new ≡ record self.old { line = take LINE_ROOM (self.old.line ++ take count self.old.ahead) } }
    {
        let kept = count.min(LINE_ROOM - self.held);
        let end = self.held + kept;
        self.cells[self.held..end].copy_from_slice(&self.buffer[self.from..self.from + kept]);
        self.held = end;
    }

    fn pass(&mut self, count: usize)
        requires { count ≤ length self.old.ahead }
        ensures { self.new ≡ record self.old { ahead = drop count self.old.ahead } }
    {
        self.from += count;
    }

    /// Pulls the next bytes, and drops those past the limit.
    fn fill<S: Source>(&mut self, source: &mut S) -> Result<usize, Failed>
        requires { self.old.taken ≤ INPUT_LIMIT }
        ensures filled { Filled self.old self.new (S.left source.old) (S.left source.new) result }
        ensures no_fault { OnOk result (S.faults source.new ≡ S.faults source.old) }
        ensures failed { OnErr result (Rose (S.faults source.old) (S.faults source.new)) }
        ensures count { S.faults source.old ≤ S.faults source.new }
        ensures once { TakesPulls 1 (S.pulls source.old) (S.pulls source.new) }
    {
        let n = source.pull(self.buffer.as_mut_slice())?;
        self.from = 0;
        self.to = n.min(INPUT_LIMIT - self.taken);
        self.taken += n;
        Ok(n)
    }
}
