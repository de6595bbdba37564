//! A source in memory.
ghost use Rattle.std.specs.Prelude.{
  ◌≡◌,
  ◌<◌,
  ◌≤◌,
  ◌↔◌,
  ◌+◌,
  ◌++◌,
  [],
  Some,
  Ok,
  length,
  take,
  min,
  IfOk,
  OnOk,
  OnErr,
  IsErr,
  Contains,
};
ghost use Rattle.pc_edges.specs.Faults.{Rose, raised};

use crate::calls::Calls;
use crate::{Failed, Source};
use std::alloc::{AllocError, Global};
use std::marker::Model;

/// A source of bytes in memory, for tests: it gives small pieces, and fails at the pulls that you choose.
///
/// Contracts see it as a `Supply`, with its bytes.
#[derive(Drop)]
pub struct MemSource {
    bytes: Vec<u8>,
    at: usize,
    piece: usize,
    pulls: Calls,
}

impl Model for MemSource {
    ghost use Rattle.pc_edges.specs.inside.Supply.{Supply};

    ghost Value = { Supply };

    ghost use Rattle.pc_edges.specs.inside.MemSource.{supply_of, IsSupplied};

    ghost view = { supply_of };

    ghost invariant = { IsSupplied };
}

impl MemSource {
    /// Returns a source of a copy of `bytes`.
    ///
    /// A pull gives at most `piece` bytes. The k-th pull on a buffer that is not empty, counted from 1, fails if k is
    /// in `failing`.
    ///
    /// # Errors
    ///
    /// `AllocError` if there is no memory for the copies of `bytes` and `failing`.
    pub fn new(
        alloc: Global,
        bytes: &[u8],
        piece: usize,
        failing: &[u64],
    ) -> Result<MemSource, AllocError>
        requires { 1 ≤ piece }
        ensures { IfOk result (λ source. source ≡ record {
          left = bytes.now;
          piece = piece;
          failing = failing.now;
          pulls = 0;
          faults = 0;
        }) }
    {
        Ok(MemSource {
            bytes: Vec::from_slice(alloc, bytes)?,
            at: 0,
            piece,
            pulls: Calls::new(alloc, failing)?,
        })
    }
}

impl Source for MemSource {
    ghost left = { λ source. Some source.left };

    ghost faults = { λ source. source.faults };

    ghost pulls = { λ source. Some source.pulls };

    fn pull(&mut self, buf: &mut [u8]) -> Result<usize, Failed>
        ensures fits { IfOk result (λ n. n ≤ length buf.old) }
        ensures bytes { IfOk result (λ n. self.old.left ≡ take n buf.new ++ self.new.left) }
        ensures end { IfOk result (λ n. n ≡ 0 → 0 < length buf.old → self.new.left ≡ []) }
        ensures empty { length buf.old ≡ 0 → (result ≡ Ok 0) × (self.new ≡ self.old) }
        ensures no_fault { OnOk result (self.new.faults ≡ self.old.faults) }
        ensures failed { OnErr result (Rose self.old.faults self.new.faults) }
        ensures kept { OnErr result (self.new.left ≡ self.old.left) }
        ensures count { self.old.faults ≤ self.new.faults }
        ensures pulled { self.new.pulls ≤ self.old.pulls + 1 }

        // which pulls fail, how much the others give, and what is counted
        ensures fails { IsErr result ↔ (0 < length buf.old) × Contains self.old.failing (raised self.old.pulls) }
        ensures given { IfOk result (λ n. n ≡ min (length buf.old) (min self.old.piece (length self.old.left))) }
        ensures counted { 0 < length buf.old → self.new ≡ record self.old {
          left = self.new.left;
          pulls = raised self.old.pulls;
          faults = self.new.faults;
        } }
        ensures risen { OnErr result (self.new.faults ≡ raised self.old.faults) }
    {
        if buf.is_empty() {
            return Ok(0);
        }
        if self.pulls.count_one() {
            return Err(self.pulls.fail());
        }
        let n = buf.len().min(self.piece).min(self.bytes.len() - self.at);
        buf[..n].copy_from_slice(&self.bytes[self.at..self.at + n]);
        self.at += n;
        Ok(n)
    }
}
