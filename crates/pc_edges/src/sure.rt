//! A source and a sink that never fail: bytes in memory, and a count of bytes that are not stored.
ghost use Rattle.std.specs.Prelude.{◌≡◌, ◌+◌, ◌-◌, ◌^◌, Some, Ok, length, min, IsOk};

use crate::{Failed, Sink, Source};
use std::marker::Model;

/// A source of bytes in memory that never fails. Each pull fills its buffer, as far as there are bytes.
///
/// Contracts can see its bytes. Its count of faults stays at 0.
#[derive(Drop)]
pub struct SureSource<'b> {
    left: &'b [u8],
}

impl<'b> Model for SureSource<'b> {
    ghost use Rattle.std.specs.Prelude.{ℕ, List};

    ghost Value = { List ℕ };

    ghost view = { λ source. source.left.now };
}

impl<'b> SureSource<'b> {
    /// Returns a source of `bytes`, which it borrows.
    pub fn new(bytes: &'b [u8]) -> SureSource<'b>
        ensures { result ≡ bytes.now }
    {
        SureSource { left: bytes }
    }
}

impl<'b> Source for SureSource<'b> {
    ghost left = { λ source. Some source };

    ghost faults = { λ source. 0 };

    fn pull(&mut self, buf: &mut [u8]) -> Result<usize, Failed> {
        let n = buf.len().min(self.left.len());
        buf[..n].copy_from_slice(&self.left[..n]);
        self.left = &self.left[n..];
        Ok(n)
    }
}

/// A sink that takes every piece completely and counts the bytes. No call on it ever fails.
///
/// Contracts cannot see its bytes. Its count of faults stays at 0.
#[derive(Drop)]
pub struct SureSink {
    count: u64,
}

impl Model for SureSink {
    ghost use Rattle.std.specs.Prelude.{ℕ};

    ghost Value = { ℕ };

    ghost view = { λ sink. sink.count };
}

impl SureSink {
    /// Returns a sink that has taken nothing.
    pub fn new() -> SureSink
        ensures { result ≡ 0 }
    {
        SureSink { count: 0 }
    }

    /// Returns how many bytes were taken. The count does not go past the end of its type.
    pub fn count(&self) -> u64
        ensures { result ≡ self.now }
    {
        self.count
    }
}

impl Sink for SureSink {
    ghost faults = { λ sink. 0 };

    fn push(&mut self, piece: &[u8]) -> Result<usize, Failed>
        ensures sure { result ≡ Ok (length piece.now) }
        ensures counted { self.new ≡ min (self.old + length piece.now) (2 ^ 64 - 1) }
    {
        self.count = self.count.saturating_add(piece.len() as u64);
        Ok(piece.len())
    }

    fn flush(&mut self) -> Result<(), Failed>
        ensures sure { IsOk result }
        ensures kept { self.new ≡ self.old }
    {
        Ok(())
    }
}
