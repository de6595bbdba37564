//! A sink in memory.
ghost use Rattle.std.specs.Prelude.{
  ◌≡◌,
  ◌-◌,
  ◌<◌,
  ◌≤◌,
  ◌↔◌,
  ◌⊎◌,
  ◌++◌,
  [],
  Some,
  Ok,
  length,
  take,
  min,
  IfOk,
  OnOk,
  OnErr,
  IsErr,
  Contains,
};
ghost use Rattle.pc_edges.specs.Faults.{Rose, raised};

use crate::calls::Calls;
use crate::{Failed, Sink};
use std::alloc::{AllocError, Global};
use std::marker::Model;

/// A sink in memory, for tests: it takes small pieces, has a fixed capacity, and fails at the calls that you choose.
///
/// Contracts see it as an `Intake`, with its bytes. Its capacity is reserved when it is made, so no push takes memory.
#[derive(Drop)]
pub struct MemSink {
    taken: Vec<u8>,
    room: usize,
    piece: usize,
    calls: Calls,
}

impl Model for MemSink {
    ghost use Rattle.pc_edges.specs.inside.Intake.{Intake};

    ghost Value = { Intake };

    ghost use Rattle.pc_edges.specs.inside.MemSink.{intake_of, HasCapacity};

    ghost view = { intake_of };

    ghost invariant = { HasCapacity };
}

impl MemSink {
    /// Returns a sink with a capacity of `room` bytes.
    ///
    /// A push takes at most `piece` bytes, and fails if the sink is full. Flushes and pushes of pieces that are not
    /// empty are counted together from 1, and the k-th fails if k is in `failing`.
    ///
    /// # Errors
    ///
    /// `AllocError` if there is no memory for `room` bytes or for the copy of `failing`.
    pub fn new(
        alloc: Global,
        room: usize,
        piece: usize,
        failing: &[u64],
    ) -> Result<MemSink, AllocError>
        requires { 1 ≤ piece }
        ensures { IfOk result (λ sink. sink ≡ record {
          taken = [];
          room = room;
          piece = piece;
          failing = failing.now;
          calls = 0;
          faults = 0;
        }) }
    {
        Ok(MemSink {
            taken: Vec::with_capacity(alloc, room)?,
            room,
            piece,
            calls: Calls::new(alloc, failing)?,
        })
    }

    /// Returns the bytes taken so far.
    pub fn bytes(&self) -> &[u8]
        ensures { result.now ≡ self.now.taken }
    {
        self.taken.as_slice()
    }
}

impl Sink for MemSink {
    ghost taken = { λ sink. Some sink.taken };

    ghost faults = { λ sink. sink.faults };

    fn push(&mut self, piece: &[u8]) -> Result<usize, Failed>
        ensures fits { IfOk result (λ n. n ≤ length piece.now) }
        ensures some { IfOk result (λ n. 0 < length piece.now → 0 < n) }
        ensures bytes { IfOk result (λ n. self.new.taken ≡ self.old.taken ++ take n piece.now) }
        ensures empty { length piece.now ≡ 0 → (result ≡ Ok 0) × (self.new ≡ self.old) }
        ensures no_fault { OnOk result (self.new.faults ≡ self.old.faults) }
        ensures failed { OnErr result (Rose self.old.faults self.new.faults) }
        ensures kept { OnErr result (self.new.taken ≡ self.old.taken) }
        ensures count { self.old.faults ≤ self.new.faults }

        // which pushes fail, how much the others take, and what is counted
        ensures fails { IsErr result ↔ (0 < length piece.now)
            × (Contains self.old.failing (raised self.old.calls) ⊎ (self.old.room ≤ length self.old.taken)) }
        ensures given { IfOk result (λ n. n ≡ min (length piece.now)
            (min self.old.piece (self.old.room - length self.old.taken))) }
        ensures counted { 0 < length piece.now → self.new ≡ record self.old {
          taken = self.new.taken;
          calls = raised self.old.calls;
          faults = self.new.faults;
        } }
        ensures risen { OnErr result (self.new.faults ≡ raised self.old.faults) }
    {
        if piece.is_empty() {
            return Ok(0);
        }
        if self.calls.count_one() || self.taken.len() == self.room {
            return Err(self.calls.fail());
        }
        let n = piece
            .len()
            .min(self.piece)
            .min(self.room - self.taken.len());
        self.taken.extend_from_slice(&piece[..n]).unwrap();
        Ok(n)
    }

    fn flush(&mut self) -> Result<(), Failed>
        ensures bytes { self.new.taken ≡ self.old.taken }
        ensures no_fault { OnOk result (self.new.faults ≡ self.old.faults) }
        ensures failed { OnErr result (Rose self.old.faults self.new.faults) }
        ensures count { self.old.faults ≤ self.new.faults }

        // which flushes fail, and what is counted
        ensures fails { IsErr result ↔ Contains self.old.failing (raised self.old.calls) }
        ensures counted { self.new ≡ record self.old { calls = raised self.old.calls; faults = self.new.faults } }
        ensures risen { OnErr result (self.new.faults ≡ raised self.old.faults) }
    {
        if self.calls.count_one() {
            return Err(self.calls.fail());
        }
        Ok(())
    }
}
