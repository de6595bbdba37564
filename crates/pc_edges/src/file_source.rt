//! A source that reads a file.
ghost use Rattle.std.specs.Prelude.{◌≡◌};

use crate::{FIXED_KEY, Failed, Source};
use std::fs::File;
use std::io::Read;
use std::rt::Files;

/// A source that reads a file. Contracts cannot see its bytes.
///
/// Each error of a read is a fault. If the file could not be opened, or if the key could not be drawn, each pull on a
/// buffer that is not empty is a fault.
///
/// The file is closed when its end is read. A process that started with standard input closed may get descriptor 0 for
/// the file; a later read of standard input then fails, instead of reading from the file.
#[derive(Drop)]
pub struct FileSource {
    state: State,
    faults: u64,
    key: u128,
}

#[derive(Drop)]
enum State {
    Open(File),
    // The end was read.
    Ended,
    // The file could not be opened, or there is none.
    Missing,
}

impl FileSource {
    /// Opens the file at `path` and returns a source that reads it. If it cannot be opened, each pull has a fault.
    pub fn at<F: Files<File = File>>(files: &F, path: &str) -> FileSource
        ensures faults { ⟦<FileSource as Source>⟧.faults result ≡ 0 }
    {
        FileSource {
            state: match File::open(files, path) {
                Ok(file) => State::Open(file),
                Err(_) => State::Missing,
            },
            faults: 0,
            key: FIXED_KEY,
        }
    }

    /// Returns a source without a file, which has a fault at each pull on a buffer that is not empty.
    pub fn missing() -> FileSource
        ensures faults { ⟦<FileSource as Source>⟧.faults result ≡ 0 }
    {
        FileSource {
            state: State::Missing,
            faults: 0,
            key: FIXED_KEY,
        }
    }

    /// Returns this source with a key that [`draw_key`](crate::draw_key) returned. With `None` each pull has a fault.
    pub fn with_key(self, key: Option<u128>) -> FileSource
        ensures faults { ⟦<FileSource as Source>⟧.faults result ≡ ⟦<FileSource as Source>⟧.faults self }
    {
        match key {
            Some(key) => FileSource { key, ..self },
            None => FileSource {
                state: State::Missing,
                ..self
            },
        }
    }
}

impl Source for FileSource {
    ghost faults = { λ source. source.faults };

    fn pull(&mut self, buf: &mut [u8]) -> Result<usize, Failed> {
        if buf.is_empty() {
            return Ok(0);
        }
        let read = match &mut self.state {
            State::Open(file) => file.read(buf).ok(),
            State::Ended => Some(0),
            State::Missing => None,
        };
        match read {
            Some(0) => {
                self.state = State::Ended;
                Ok(0)
            }
            Some(n) => Ok(n),
            None => {
                self.faults = self.faults.saturating_add(1);
                Err(Failed)
            }
        }
    }

    fn key(&self) -> u128 {
        self.key
    }
}
