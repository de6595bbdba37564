//! The flows of an activity.
ghost use Rattle.std.specs.Prelude.{◌≡◌, ◌<◌, ◌≤◌, [], ◌∷◌, ◌++◌, nat_eq, length};
ghost use Rattle.std.specs.Cmp.{partial_equiv_from_equiv};
ghost use Rattle.std.specs.Cmp.Lexicographic.{pointwise, nat_list_eq_equiv};

use std::marker::Model;

/// The most flows of an activity: one for each of its knees, at most five, and one in addition to them.
pub const MAX_FLOWS: usize = 6;

/// The flows of an activity, at most six: one for each of its knees, from the first on, and then the one in addition to
/// them.
///
/// They are stored in the value itself and take no memory.
#[derive(Clone, Copy)]
pub struct Flows {
    cells: [u64; MAX_FLOWS],
    len: usize,
}

impl Model for Flows {
    ghost use Rattle.std.specs.Prelude.{ℕ, List, length, take};
    ghost use Rattle.std.proofs.Common.{sym};
    ghost use Rattle.pc_text.specs.inside.Words.{padded, IsPadded, length-IsPadded};

    ghost Value = { List ℕ };

    ghost view = { λ s. take s.len s.cells };

    ghost invariant = { λ s. IsPadded 6 s.len s.cells };

    ghost inverse = { λ flows. record { cells = padded 6 flows; len = length flows } };

    ghost inverse_ok = { λ s h i. record { cells = sym h.zeros i; len = length-IsPadded h i } };
}

impl Flows {
    /// Returns an empty list.
    pub fn new() -> Flows
        ensures { result ≡ [] }
    {
        Flows {
            cells: [0; MAX_FLOWS],
            len: 0,
        }
    }

    /// Returns the flows, in order.
    pub fn as_slice(&self) -> &[u64]
        ensures value { result.now ≡ self.now }
        ensures few { length self.now ≤ MAX_FLOWS }
    {
        &self.cells[..self.len]
    }

    /// Adds a flow after the others.
    pub fn push(&mut self, flow: u64)
        requires { length self.old < MAX_FLOWS }
        ensures { self.new ≡ self.old ++ flow ∷ [] }
    {
        self.cells[self.len] = flow;
        self.len += 1;
    }
}

impl PartialEq for Flows {
    ghost eq = { pointwise nat_eq };

    ghost laws = { partial_equiv_from_equiv nat_list_eq_equiv };

    // All cells at once, including the zeros.
    fn eq(&self, other: &Flows) -> bool {
        self.len == other.len && are_same(&self.cells, &other.cells)
    }
}

impl Eq for Flows {
    ghost laws = { nat_list_eq_equiv };
}

fn are_same(one: &[u64; MAX_FLOWS], other: &[u64; MAX_FLOWS]) -> bool
    ensures { result ≡ pointwise nat_eq one.now other.now }
{
    let mut are_same = true;
    for i in 0..MAX_FLOWS {
        // No early end: so a processor compares all cells at once.
        are_same = are_same & (one[i] == other[i]);
    }
    are_same
}
