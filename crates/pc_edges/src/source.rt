//! The trait of sources, the error of sources and sinks, and the key that a source brings for looking up codes.
ghost use Rattle.std.specs.Prelude.{◌≡◌, ℕ, ◌<◌, ◌≤◌, List, Option, None, Ok, length, take, IfOk, OnOk, OnErr};
ghost use Rattle.std.specs.Io.KnownBytes.{Consumes, Keeps, IsAtEnd};
ghost use Rattle.pc_edges.specs.Faults.{Rose};
ghost use Rattle.pc_edges.specs.Pulls.{TakesPulls};

use std::random::RandomSource;

/// The error of a pull, a push or a flush: the source or the sink had a fault, and its count of faults rose.
#[derive(Clone, Copy, Debug, PartialEq, Eq)]
pub struct Failed;

/// A source of bytes, which gives them a piece at a time.
pub trait Source {
    // The bytes still to come, if contracts can see them.
    ghost left: { Self → Option (List ℕ) } = { λ _. None };

    // How many faults there were. A count at the end of its type counts as one that rose.
    ghost faults: { Self → ℕ };

    // How many pulls on a buffer that is not empty there were, if the source counts them.
    ghost pulls: { Self → Option ℕ } = { λ _. None };

    /// Copies the next bytes to the beginning of `buf`, and returns how many.
    ///
    /// Returns `Ok(0)` at the end of the input, and if `buf` is empty. The rest of `buf` may hold anything afterwards.
    ///
    /// # Errors
    ///
    /// `Failed` if the source had a fault. No byte is lost, and all of `buf` may hold anything.
    fn pull(&mut self, buf: &mut [u8]) -> Result<usize, Failed>
        ensures fits { IfOk result (λ n. n ≤ length buf.old) }
        ensures bytes { IfOk result (λ n. Consumes (left self.old) (left self.new) (take n buf.new)) }
        ensures end { IfOk result (λ n. n ≡ 0 → 0 < length buf.old → IsAtEnd (left self.new)) }
        ensures empty { length buf.old ≡ 0 → result ≡ Ok 0 }
        ensures no_fault { OnOk result (faults self.new ≡ faults self.old) }

        ensures failed { OnErr result (Rose (faults self.old) (faults self.new)) }
        ensures kept { OnErr result (Keeps (left self.old) (left self.new)) }
        ensures count { faults self.old ≤ faults self.new }
        ensures pulled { TakesPulls 1 (pulls self.old) (pulls self.new) };

    /// Returns the key of the hash by which names in these bytes are looked up.
    ///
    /// The key changes how long a look-up takes, never what it returns. A source whose bytes others choose has a random
    /// key, so that no choice of names makes look-ups slow.
    fn key(&self) -> u128 {
        FIXED_KEY
    }
}

/// The key for bytes that nobody could choose in order to make look-ups slow, such as those of a test.
pub const FIXED_KEY: u128 = 0x243f_6a88_85a3_08d3_1319_8a2e_0370_7344;

/// Returns a random key, or `None` if the system gives no random bytes.
pub fn draw_key<R: RandomSource>(random: &R) -> Option<u128> {
    let mut bytes = [0; 16];
    match random.fill_bytes(&mut bytes) {
        Ok(()) => Some(u128::from_le_bytes(bytes)),
        Err(_) => None,
    }
}
