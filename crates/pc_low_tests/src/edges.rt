//! Sources and sinks, what no clause says: that the calls succeed, on their happy paths and with a fault at each place.
ghost use Rattle.std.specs.Prelude.{◌≤◌, IfOk};

use crate::cases::expect_ok_none;
use pc_edges::{
    Failed, FileSource, LoadError, MemSink, MemSource, ReadSource, Sink, Source, SureSink,
    SureSource, WriteSink, load, push_all,
};
use std::alloc::{AllocError, Global};
use std::fs::File;
use std::io::{ErrorKind, Read, Write};
use std::rt::{Env, Files};
use std::{env, fs, io};

const TEXT: &[u8] = b"breadboard";

/// Which pulls fail, the most that a pull gives, and what four pulls of up to four bytes return.
const PULLS: &[(&[u64], usize, &[Result<usize, Failed>])] = &[
    (&[], 9, &[Ok(4), Ok(4), Ok(2), Ok(0)]),
    (&[], 3, &[Ok(3), Ok(3), Ok(3), Ok(1)]),
    (&[1], 9, &[Err(Failed), Ok(4), Ok(4), Ok(2)]),
    (&[2, 3], 9, &[Ok(4), Err(Failed), Err(Failed), Ok(4)]),
    (&[4], 4, &[Ok(4), Ok(4), Ok(2), Err(Failed)]),
];

/// What is left of a text after a pull that returns this; none if the pull returns or gives something else, or if a
/// pull into no buffer does not return 0.
fn left_behind<'t>(
    source: &mut MemSource,
    text: &'t [u8],
    answer: Result<usize, Failed>,
) -> Option<&'t [u8]> {
    let mut buffer = [0u8; 4];
    if source.pull(&mut []) != Ok(0) || source.pull(&mut buffer) != answer {
        return None;
    }
    match answer {
        Ok(n) if n <= 4 && n <= text.len() && buffer[..n] == text[..n] => Some(&text[n..]),
        Ok(_) => None,
        Err(_) => Some(text),
    }
}

/// Whether a source returns this and gives the bytes of the text.
fn gives(source: &mut MemSource, answers: &[Result<usize, Failed>]) -> bool {
    let mut text = TEXT;
    for &answer in answers {
        match left_behind(source, text, answer) {
            Some(rest) => text = rest,
            None => return false,
        }
    }
    true
}

/// The first of these cases in which a pull returns or gives something else, or none.
fn first_wrong_pulls(alloc: Global) -> Result<Option<usize>, AllocError> {
    for (i, &(failing, piece, answers)) in PULLS.iter().enumerate() {
        let mut source = MemSource::new(alloc, TEXT, piece.max(1), failing)?;
        if !gives(&mut source, answers) {
            return Ok(Some(i));
        }
    }
    Ok(None)
}

#[test]
fn mem_source_pulls(rt: HostRuntime) {
    expect_ok_none(&rt, first_wrong_pulls(rt.alloc()));
}

/// Pushes to a sink with capacity for five bytes.
struct Pushes {
    /// Which calls fail.
    failing: &'static [u64],
    /// The most that a push takes.
    piece: usize,
    /// What two pushes of what is left return, then a flush, and then a third push.
    answers: &'static [Result<usize, Failed>],
    flushed: Result<(), Failed>,
    last: Result<usize, Failed>,
    /// The bytes taken in the end.
    bytes: &'static [u8],
}

const PUSHES: &[Pushes] = &[
    Pushes {
        failing: &[],
        piece: 9,
        answers: &[Ok(5), Err(Failed)],
        flushed: Ok(()),
        last: Err(Failed),
        bytes: b"bread",
    },
    Pushes {
        failing: &[],
        piece: 3,
        answers: &[Ok(3), Ok(2)],
        flushed: Ok(()),
        last: Err(Failed),
        bytes: b"bread",
    },
    Pushes {
        failing: &[1],
        piece: 3,
        answers: &[Err(Failed), Ok(3)],
        flushed: Ok(()),
        last: Ok(2),
        bytes: b"bread",
    },
    Pushes {
        failing: &[2],
        piece: 3,
        answers: &[Ok(3), Err(Failed)],
        flushed: Ok(()),
        last: Ok(2),
        bytes: b"bread",
    },
    Pushes {
        failing: &[3],
        piece: 2,
        answers: &[Ok(2), Ok(2)],
        flushed: Err(Failed),
        last: Ok(1),
        bytes: b"bread",
    },
    Pushes {
        failing: &[2, 4],
        piece: 2,
        answers: &[Ok(2), Err(Failed)],
        flushed: Ok(()),
        last: Err(Failed),
        bytes: b"br",
    },
];

/// Whether a push of what a sink has not taken of the text returns this, and a push of nothing 0.
fn takes(sink: &mut MemSink, answer: Result<usize, Failed>) -> bool {
    let at = sink.bytes().len();
    at <= TEXT.len() && sink.push(&[]) == Ok(0) && sink.push(&TEXT[at..]) == answer
}

/// The same for each of several answers.
fn takes_each(sink: &mut MemSink, answers: &[Result<usize, Failed>]) -> bool {
    for &answer in answers {
        if !takes(sink, answer) {
            return false;
        }
    }
    true
}

/// Whether a sink has taken these bytes.
fn has_bytes(sink: &MemSink, bytes: &[u8]) -> bool {
    sink.bytes() == bytes
}

/// Whether the pushes and the flush return these, and these bytes are taken.
fn are_pushed(sink: &mut MemSink, pushes: &Pushes) -> bool {
    let is_begun = takes_each(sink, pushes.answers);
    let is_flushed = sink.flush() == pushes.flushed;
    let is_ended = takes(sink, pushes.last);
    is_begun & is_flushed & is_ended & has_bytes(sink, pushes.bytes)
}

/// The first of these cases in which a push or the flush returns something else, or other bytes are taken, or none.
fn first_wrong_pushes(alloc: Global) -> Result<Option<usize>, AllocError> {
    for (i, pushes) in PUSHES.iter().enumerate() {
        let mut sink = MemSink::new(alloc, 5, pushes.piece.max(1), pushes.failing)?;
        if !are_pushed(&mut sink, pushes) {
            return Ok(Some(i));
        }
    }
    Ok(None)
}

#[test]
fn mem_sink_pushes(rt: HostRuntime) {
    expect_ok_none(&rt, first_wrong_pushes(rt.alloc()));
}

/// Which pulls fail, the limit, and how a load ends. Four bytes at a pull: the fourth pull finds the end.
const LOADS: &[(&[u64], u32, Result<(), LoadError>)] = &[
    (&[], 11, Ok(())),
    (&[], 10, Ok(())),
    (&[], 9, Err(LoadError::TooLong)),
    (&[], 0, Err(LoadError::TooLong)),
    (&[1], 10, Err(LoadError::ReadFault)),
    (&[2], 10, Err(LoadError::ReadFault)),
    (&[4], 10, Err(LoadError::ReadFault)),
    (&[5], 10, Ok(())),
];

/// How a load of a text from a source ends, and whether it gives the text.
fn loaded<S: Source>(
    alloc: Global,
    source: &mut S,
    limit: u32,
    text: &[u8],
) -> Result<bool, LoadError> {
    Ok(load(alloc, source, limit as usize)?.as_slice() == text)
}

/// The first of these loads that ends otherwise or gives other bytes, or none.
fn first_wrong_load(alloc: Global) -> Result<Option<usize>, AllocError> {
    for (i, &(failing, limit, answer)) in LOADS.iter().enumerate() {
        let mut source = MemSource::new(alloc, TEXT, 4, failing)?;
        if loaded(alloc, &mut source, limit, TEXT) != answer.map(|_| true) {
            return Ok(Some(i));
        }
    }
    Ok(None)
}

/// Whether an empty text is loaded where the limit is 0.
fn is_nothing_loaded(alloc: Global) -> Option<bool> {
    let mut nothing = MemSource::new(alloc, &[], 4, &[]).ok()?;
    loaded(alloc, &mut nothing, 0, &[]).ok()
}

#[test]
fn load_reads_to_the_end(rt: HostRuntime) {
    expect_ok_none(&rt, first_wrong_load(rt.alloc()));
    assert!(rt; is_nothing_loaded(rt.alloc()) == Some(true));
}

/// Which pushes fail, the capacity of the sink, how a push of the complete text ends, and what the sink took. Four
/// bytes per push.
const WHOLE_PUSHES: &[(&[u64], usize, Result<(), Failed>, &[u8])] = &[
    (&[], 11, Ok(()), TEXT),
    (&[], 10, Ok(()), TEXT),
    (&[], 5, Err(Failed), b"bread"),
    (&[1], 10, Err(Failed), b""),
    (&[2], 10, Err(Failed), b"brea"),
    (&[3], 10, Err(Failed), b"breadboa"),
    (&[4], 10, Ok(()), TEXT),
];

/// The first of these pushes that ends otherwise or gives other bytes, or none.
fn first_wrong_whole_push(alloc: Global) -> Result<Option<usize>, AllocError> {
    for (i, &(failing, room, answer, bytes)) in WHOLE_PUSHES.iter().enumerate() {
        let mut sink = MemSink::new(alloc, room, 4, failing)?;
        if push_all(&mut sink, TEXT) != answer || sink.bytes() != bytes {
            return Ok(Some(i));
        }
    }
    Ok(None)
}

#[test]
fn push_all_pushes_each_byte(rt: HostRuntime) {
    expect_ok_none(&rt, first_wrong_whole_push(rt.alloc()));
}

/// A stream that takes or gives a byte at its first turn, fails at its second, and takes or gives nothing then.
#[derive(Drop)]
struct FailingStream {
    turn: u8,
}

impl FailingStream {
    fn next_turn(&mut self) -> io::Result<usize>
        ensures { IfOk result (λ n. n ≤ 1) }
    {
        self.turn = self.turn.saturating_add(1);
        match self.turn {
            1 => Ok(1),
            2 => Err(ErrorKind::Other.into()),
            _ => Ok(0),
        }
    }
}

impl Read for FailingStream {
    fn read(&mut self, buffer: &mut [u8]) -> io::Result<usize> {
        if buffer.is_empty() {
            return Ok(0);
        }
        buffer[0] = b'b';
        self.next_turn()
    }
}

impl Write for FailingStream {
    fn write(&mut self, piece: &[u8]) -> io::Result<usize> {
        if piece.is_empty() {
            return Ok(0);
        }
        self.next_turn()
    }

    fn flush(&mut self) -> io::Result<()> {
        self.next_turn()?;
        Ok(())
    }
}

/// What a pull into no buffer and three pulls of up to four bytes return.
fn four_pulls<S: Source>(source: &mut S) -> [Result<usize, Failed>; 4] {
    let mut buffer = [0u8; 4];
    [
        source.pull(&mut []),
        source.pull(&mut buffer),
        source.pull(&mut buffer),
        source.pull(&mut buffer),
    ]
}

/// Whether a stream is loaded.
fn is_stream_loaded(alloc: Global) -> bool {
    let mut source = ReadSource::new(TEXT);
    loaded(alloc, &mut source, 10, TEXT) == Ok(true)
}

/// Whether four pulls from a stream whose second turn fails return these.
fn is_faulty_read() -> bool {
    let answers = four_pulls(&mut ReadSource::new(FailingStream { turn: 0 }));
    answers == [Ok(0), Ok(1), Err(Failed), Ok(0)]
}

#[test]
fn read_source_reads(rt: HostRuntime) {
    assert!(rt; is_stream_loaded(rt.alloc()));
    assert!(rt; is_faulty_read());
}

/// Whether a sink takes a complete text and its flush.
fn takes_all<O: Sink>(sink: &mut O, text: &[u8]) -> bool {
    push_all(sink, text).is_ok() && sink.flush().is_ok()
}

/// Whether a sink over a stream writes a complete text and no more.
fn is_written(alloc: Global, text: &[u8]) -> bool {
    let mut out = Vec::new(alloc);
    takes_all(&mut WriteSink::new(&mut out), text) && out.as_slice() == text
}

/// Whether a push of nothing, one of a text, a flush and a push of the text again return these on a stream whose second
/// turn fails.
fn is_faulty_written(text: &[u8]) -> bool {
    let mut sink = WriteSink::new(FailingStream { turn: 0 });
    sink.push(&[]) == Ok(0)
        && sink.push(text) == Ok(1)
        && sink.flush() == Err(Failed)
        && sink.push(text) == Err(Failed)
}

#[test]
fn write_sink_writes(rt: HostRuntime) {
    assert!(rt; is_written(rt.alloc(), TEXT));
    assert!(rt; is_faulty_written(TEXT));
}

/// Whether a text that is written to this file is loaded from it. The file is removed then.
fn is_loaded_at<R: Files<File = File> + AllocGlobal>(rt: &R, path: &str) -> io::Result<bool> {
    fs::write(rt, path, TEXT)?;
    let is_loaded = loaded(rt.alloc(), &mut FileSource::at(rt, path), 10, TEXT) == Ok(true);
    fs::remove_file(rt, path)?;
    Ok(is_loaded)
}

/// The same for a file in the folder for temporary files.
fn is_file_loaded<R: Files<File = File> + Env + AllocGlobal>(rt: &R) -> io::Result<bool> {
    let mut path = env::temp_dir(rt)?;
    path.push("pc_edges_file_source")?;
    is_loaded_at(rt, path.as_str())
}

/// Whether each pull from a file that is not there fails.
fn is_missing<F: Files<File = File>>(files: &F) -> bool {
    let answers = four_pulls(&mut FileSource::at(files, ""));
    answers == [Ok(0), Err(Failed), Err(Failed), Err(Failed)]
}

#[test]
fn file_source_reads(rt: HostRuntime) {
    assert!(rt; matches!(is_file_loaded(&rt), Ok(true)));
    assert!(rt; is_missing(&rt));
}

/// What two pulls of the text return, whether they and a load of up to six bytes give all of it, and what a pull
/// returns then.
fn pulled_surely(
    alloc: Global,
) -> (
    Result<usize, Failed>,
    Result<usize, Failed>,
    bool,
    bool,
    Result<usize, Failed>,
) {
    let mut source = SureSource::new(TEXT);
    let mut buffer = [0u8; 4];
    let (nothing, four) = (source.pull(&mut []), source.pull(&mut buffer));
    let is_front = &buffer == b"brea";
    let is_rest = loaded(alloc, &mut source, 6, b"dboard") == Ok(true);
    (nothing, four, is_front, is_rest, source.pull(&mut buffer))
}

/// Whether a sink takes the complete text and counts its bytes.
fn is_counted() -> bool {
    let mut sink = SureSink::new();
    takes_all(&mut sink, TEXT) & (sink.count() == 10)
}

/// Pulls fill their buffers, and pushes take their pieces completely.
#[test]
fn sure_edges_never_fail(rt: HostRuntime) {
    assert!(rt; pulled_surely(rt.alloc()) == (Ok(0), Ok(4), true, true, Ok(0)));
    assert!(rt; is_counted());
}
