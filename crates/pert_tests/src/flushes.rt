//! A session flushes each answer before it pulls more lines: the writer of a line may wait for its answer.

use crate::sessions::{ANSWERS, LINES};
use crate::testing::{WHOLE, owned};
use pc_edges::{Failed, Sink, Source, SureSink, SureSource};
use pc_whatif::session_run;
use std::alloc::{AllocError, Global};
use std::cell::Cell;

/// A source that gives the lines of a session, one per pull, like a user who writes a line after seeing the answer to
/// the one before.
///
/// It counts the pulls that come before all answers to its lines were flushed, or when more was.
#[derive(Drop)]
struct Asker<'a> {
    given: usize,
    due: u64,
    flushed: &'a Cell<u64>,
    untimely: u64,
}

impl<'a> Source for Asker<'a> {
    ghost faults = { λ source. 0 };

    fn pull(&mut self, buffer: &mut [u8]) -> Result<usize, Failed> {
        if self.flushed.get() != self.due {
            self.untimely = self.untimely.saturating_add(1);
        }
        let (Some(&line), Some(&answer)) = (LINES.get(self.given), ANSWERS.get(self.given)) else {
            return Ok(0);
        };
        self.due = self.due.saturating_add(answer.len() as u64);
        self.given += 1;
        let n = line.len().min(buffer.len());
        buffer[..n].copy_from_slice(&line[..n]);
        Ok(n)
    }
}

/// A sink that shows how many bytes it took before its last flush.
#[derive(Drop)]
struct Listener<'a> {
    taken: SureSink,
    flushed: &'a Cell<u64>,
}

impl<'a> Sink for Listener<'a> {
    ghost faults = { λ sink. 0 };

    fn push(&mut self, piece: &[u8]) -> Result<usize, Failed> {
        self.taken.push(piece)
    }

    fn flush(&mut self) -> Result<(), Failed> {
        self.flushed.set(self.taken.count());
        Ok(())
    }
}

/// The status of a session on the small deck that pulls its lines from `edits` and answers them on `out`.
fn status_on<C: Source, O: Sink>(
    alloc: Global,
    words: &[String],
    edits: &mut C,
    out: &mut O,
) -> u8 {
    let mut deck = SureSource::new(WHOLE.as_bytes());
    session_run(alloc, words, &mut deck, edits, out, &mut SureSink::new())
}

/// The status of the session, how many lines it pulled, how many pulls came when they should not, and whether the last
/// answer was flushed.
fn waited(alloc: Global) -> Result<(u8, usize, u64, bool), AllocError> {
    let words = owned(alloc, &["deck"])?;
    let flushed = Cell::new(0);
    let mut edits = Asker {
        given: 0,
        due: 0,
        flushed: &flushed,
        untimely: 0,
    };
    let mut out = Listener {
        taken: SureSink::new(),
        flushed: &flushed,
    };
    let status = status_on(alloc, &words, &mut edits, &mut out);
    Ok((
        status,
        edits.given,
        edits.untimely,
        flushed.get() == edits.due,
    ))
}

#[test]
fn each_answer_is_flushed_before_the_next_pull(rt: HostRuntime) {
    assert!(rt; waited(rt.alloc()).ok() == Some((0, 9, 0, true)));
}
