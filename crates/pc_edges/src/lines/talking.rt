//! Sessions: each line of a source is answered on a sink before the next is pulled.
ghost use Rattle.std.specs.Prelude.{ℕ, List, []};
ghost use Rattle.pc_edges.specs.inside.Writes.{Writes};
ghost use Rattle.pc_edges.specs.inside.lines.Reading.{StandsFor};
ghost use Rattle.pc_edges.specs.lines.Taken.{IsTakenWithin};
ghost use Rattle.pc_edges.specs.inside.lines.Talk.{Ends};

use crate::lines::reader::{LineError, LineReader, Next};
use crate::{Failed, Sink, Source};

/// Something that answers lines. An answer may depend on the lines before.
pub trait Answers {
    // it answers the line with the text, and then is the second value
    ghost Says: { Self → List ℕ → List ℕ → Self → Type 0 };

    /// Writes the answer to a line, and flushes the sink. It takes no memory.
    ///
    /// A line that is too long is passed cut to one byte more than `LINE_LIMIT`.
    ///
    /// # Errors
    ///
    /// `Failed` if a push or the flush failed.
    fn reply<O: Sink>(&mut self, line: &[u8], out: &mut O) -> Result<(), Failed>
        ensures { (text : List ℕ) × Says self.old line.now text self.new
            × Writes result (O.taken out.old) (O.taken out.new) (O.faults out.old) (O.faults out.new) text };
}

/// The reason why a session ended before its lines did.
#[derive(Clone, Copy, Debug, PartialEq, Eq)]
pub enum TalkError {
    /// The source of lines had a fault.
    ReadFault,
    /// The sink had a fault.
    WriteFault,
    /// There were more than `INPUT_LIMIT` bytes.
    TooLong,
}

/// Answers the lines of the source, one after the other, to its end. It takes no memory.
///
/// Each answer is flushed before more is pulled, so that the writer of the lines sees it first.
///
/// # Errors
///
/// - `ReadFault` if a pull failed.
/// - `WriteFault` if an answer could not be written.
/// - `TooLong` if the source gave more than `INPUT_LIMIT` bytes. The lines within the limit were answered.
pub fn talk<T: Answers, C: Source, O: Sink>(
    mut reader: LineReader,
    talker: &mut T,
    source: &mut C,
    out: &mut O,
) -> Result<(), TalkError>
    requires { StandsFor reader [] [] }
    ensures ends { Ends T.Says C.left C.faults C.pulls O.taken O.faults talker.old talker.new source.old
        source.new out.old out.new result }
    ensures within { IsTakenWithin C.left C.faults C.pulls source.old source.new }
{
    loop {
        match reader.next(source) {
            Ok(Next::Line) => {
                let Ok(()) = talker.reply(reader.line(), out) else {
                    return Err(TalkError::WriteFault);
                };
            }
            Ok(Next::Last) => {
                let Ok(()) = talker.reply(reader.line(), out) else {
                    return Err(TalkError::WriteFault);
                };
                return Ok(());
            }
            Ok(Next::End) => return Ok(()),
            Err(LineError::ReadFault) => return Err(TalkError::ReadFault),
            Err(LineError::TooLong) => return Err(TalkError::TooLong),
        }
    }
}
