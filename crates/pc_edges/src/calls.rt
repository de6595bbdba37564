//! The calls on an edge in memory.
ghost use Rattle.std.specs.Prelude.{◌≡◌, ◌≤◌, ◌↔◌, IfOk, IsTrue, Contains};
ghost use Rattle.pc_edges.specs.Faults.{raised};

use crate::Failed;
use std::alloc::{AllocError, Global};

/// The calls on an edge in memory: which of them fail, counted from 1, how many there were, and how many failed.
#[derive(Drop)]
pub(crate) struct Calls {
    pub(crate) failing: Vec<u64>,
    pub(crate) count: u64,
    pub(crate) faults: u64,
}

impl Calls {
    /// Returns no calls yet, of which those in `failing` will fail.
    pub(crate) fn new(alloc: Global, failing: &[u64]) -> Result<Calls, AllocError>
        ensures { IfOk result (λ calls. (calls.failing.items ≡ failing.now) × (calls.count ≡ 0) × (calls.faults ≡ 0)) }
    {
        Ok(Calls {
            failing: Vec::from_slice(alloc, failing)?,
            count: 0,
            faults: 0,
        })
    }

    /// Counts a call, and returns whether it is one that fails.
    pub(crate) fn count_one(&mut self) -> bool
        ensures fails { IsTrue result ↔ Contains self.old.failing.items (raised self.old.count) }
        ensures counted { self.new ≡ record self.old { count = raised self.old.count } }
    {
        self.count = self.count.saturating_add(1);
        self.failing.contains(&self.count)
    }

    /// Counts a fault.
    pub(crate) fn fail(&mut self) -> Failed
        ensures counted { self.new ≡ record self.old { faults = raised self.old.faults } }
        ensures count { self.old.faults ≤ self.new.faults }
    {
        self.faults = self.faults.saturating_add(1);
        Failed
    }
}
