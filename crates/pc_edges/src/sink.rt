//! The trait of sinks, and pushing a complete piece to one.
ghost use Rattle.std.specs.Prelude.{◌≡◌, ℕ, ◌<◌, ◌≤◌, List, Option, None, Ok, length, take, IfOk, OnOk, OnErr};
ghost use Rattle.std.specs.Io.KnownBytes.{Appends, Keeps};
ghost use Rattle.pc_edges.specs.Faults.{Rose};
ghost use Rattle.pc_edges.specs.inside.Writes.{Writes};

use crate::Failed;

/// A sink of bytes, which takes them a piece at a time.
pub trait Sink {
    // The bytes taken so far, if contracts can see them.
    ghost taken: { Self → Option (List ℕ) } = { λ _. None };

    // How many faults there were. A count at the end of its type counts as one that rose.
    ghost faults: { Self → ℕ };

    /// Takes the first bytes of `piece`, at least one if there is one, and returns how many it took.
    ///
    /// # Errors
    ///
    /// `Failed` if the sink had a fault. It took nothing then.
    fn push(&mut self, piece: &[u8]) -> Result<usize, Failed>
        ensures fits { IfOk result (λ n. n ≤ length piece.now) }
        ensures some { IfOk result (λ n. 0 < length piece.now → 0 < n) }
        ensures bytes { IfOk result (λ n. Appends (taken self.old) (taken self.new) (take n piece.now)) }
        ensures empty { length piece.now ≡ 0 → result ≡ Ok 0 }
        ensures no_fault { OnOk result (faults self.new ≡ faults self.old) }

        ensures failed { OnErr result (Rose (faults self.old) (faults self.new)) }
        ensures kept { OnErr result (Keeps (taken self.old) (taken self.new)) }
        ensures count { faults self.old ≤ faults self.new };

    /// Passes on what the sink may have buffered.
    ///
    /// # Errors
    ///
    /// `Failed` if the sink had a fault.
    fn flush(&mut self) -> Result<(), Failed>
        ensures bytes { Keeps (taken self.old) (taken self.new) }
        ensures no_fault { OnOk result (faults self.new ≡ faults self.old) }
        ensures failed { OnErr result (Rose (faults self.old) (faults self.new)) }
        ensures count { faults self.old ≤ faults self.new };
}

/// Pushes all of `piece`, however little the sink takes at a time.
///
/// # Errors
///
/// `Failed` if a push failed. The sink has taken the first bytes of `piece` then, or none.
pub fn push_all<O: Sink>(sink: &mut O, piece: &[u8]) -> Result<(), Failed>
    ensures { Writes result (O.taken sink.old) (O.taken sink.new) (O.faults sink.old) (O.faults sink.new) piece.now }
{
    let mut at = 0;
    while at < piece.len() {
        at += sink.push(&piece[at..])?;
    }
    Ok(())
}
