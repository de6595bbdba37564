//! The place of a card among those before it, and what may be wrong with that.
ghost use Rattle.std.specs.Prelude.{◌≡◌};
ghost use Rattle.pc_cards.specs.inside.Findings.{fault_of_place, not_alone};

use crate::sort::Sort;
use pc_faults::{Detail, Fault, Kind};

/// The place of a card: the sort of its deck, its kind and record, how many cards of its kind the deck may have, and
/// whether the END card came before it.
#[derive(Clone, Copy)]
pub struct CardPlace {
    pub sort: Sort,
    pub kind: Kind,
    pub row: u32,
    pub limit: Option<usize>,
    pub has_ended: bool,
}

impl CardPlace {
    /// Returns the fault of a second card of a kind that a deck has at most once (F5), after `count` cards of the kind.
    pub fn second(&self, count: usize) -> Option<Fault>
        ensures { result ≡ not_alone self.now count }
    {
        if count > 0 {
            Some(Fault::new(self.row, 5, Detail::Kind(self.kind)))
        } else {
            None
        }
    }

    /// Returns the fault of a card that is one too many (F10) or follows the END card (F11), after `count` cards of its
    /// kind.
    pub fn fault(&self, count: usize) -> Option<Fault>
        ensures { result ≡ fault_of_place self.now count }
    {
        if let Some(limit) = self.limit {
            if count == limit {
                let detail = Detail::TooMany {
                    kind: self.kind,
                    limit: limit as u64,
                };
                return Some(Fault::new(self.row, 10, detail));
            }
        }
        if self.has_ended {
            return Some(Fault::new(self.row, 11, Detail::Plain));
        }
        None
    }
}
