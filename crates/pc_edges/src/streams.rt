//! A source and a sink over `Read` and `Write` of std.
ghost use Rattle.std.specs.Prelude.{◌≡◌};

use crate::{FIXED_KEY, Failed, Sink, Source};
use std::io::{Read, Write};

/// A source that reads from `R`. Contracts can see its bytes if they can see those of `R`, which is not so for standard
/// input and files.
///
/// Each error of a read is a fault. If the key could not be drawn, each pull on a buffer that is not empty is a fault.
#[derive(Drop)]
pub struct ReadSource<R> {
    inner: R,
    faults: u64,
    key: Option<u128>,
}

impl<R: Read> ReadSource<R> {
    /// Returns a source that reads from `inner`, with a fixed key.
    pub fn new(inner: R) -> ReadSource<R>
        ensures left { ⟦<ReadSource<R> as Source>⟧.left result ≡ R.remaining inner }
        ensures faults { ⟦<ReadSource<R> as Source>⟧.faults result ≡ 0 }
    {
        ReadSource {
            inner,
            faults: 0,
            key: Some(FIXED_KEY),
        }
    }

    /// Returns this source with a key that [`draw_key`](crate::draw_key) returned. With `None` each pull has a fault.
    pub fn with_key(self, key: Option<u128>) -> ReadSource<R>
    where
        R: Drop,
        ensures left { ⟦<ReadSource<R> as Source>⟧.left result ≡ ⟦<ReadSource<R> as Source>⟧.left self }
        ensures faults { ⟦<ReadSource<R> as Source>⟧.faults result ≡ ⟦<ReadSource<R> as Source>⟧.faults self }
    {
        ReadSource { key, ..self }
    }
}

impl<R: Read> Source for ReadSource<R> {
    ghost left = { λ source. R.remaining source.inner };

    ghost faults = { λ source. source.faults };

    fn pull(&mut self, buf: &mut [u8]) -> Result<usize, Failed> {
        if buf.is_empty() {
            return Ok(0);
        }
        if self.key.is_none() {
            self.faults = self.faults.saturating_add(1);
            return Err(Failed);
        }
        match self.inner.read(buf) {
            Ok(n) => Ok(n),
            Err(_) => {
                self.faults = self.faults.saturating_add(1);
                Err(Failed)
            }
        }
    }

    fn key(&self) -> u128 {
        self.key.unwrap_or(FIXED_KEY)
    }
}

/// A sink that writes to `W`. Contracts can see its bytes if they can see those of `W`, which is not so for standard
/// output and files.
///
/// Each error of a write or a flush is a fault, and so is a write that takes nothing of a piece that is not empty.
#[derive(Drop)]
pub struct WriteSink<W> {
    inner: W,
    faults: u64,
}

impl<W: Write> WriteSink<W> {
    /// Returns a sink that writes to `inner`.
    pub fn new(inner: W) -> WriteSink<W>
        ensures taken { ⟦<WriteSink<W> as Sink>⟧.taken result ≡ W.contents inner }
        ensures faults { ⟦<WriteSink<W> as Sink>⟧.faults result ≡ 0 }
    {
        WriteSink { inner, faults: 0 }
    }
}

impl<W: Write> Sink for WriteSink<W> {
    ghost taken = { λ sink. W.contents sink.inner };

    ghost faults = { λ sink. sink.faults };

    fn push(&mut self, piece: &[u8]) -> Result<usize, Failed> {
        if piece.is_empty() {
            return Ok(0);
        }
        match self.inner.write(piece) {
            Ok(n) if n > 0 => Ok(n),
            _ => {
                self.faults = self.faults.saturating_add(1);
                Err(Failed)
            }
        }
    }

    fn flush(&mut self) -> Result<(), Failed> {
        match self.inner.flush() {
            Ok(()) => Ok(()),
            Err(_) => {
                self.faults = self.faults.saturating_add(1);
                Err(Failed)
            }
        }
    }
}
