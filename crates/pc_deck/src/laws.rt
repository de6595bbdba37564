//! Why the text of a deck is that deck, whatever lists it has, and what a deck without a fault is.
//!
//! Each public function does nothing: its contract is a law, proved once. A caller that calls it has the law as a fact.

ghost use Rattle.std.specs.Prelude.{◌≡◌, ◌≤◌, ℕ, List, length};
ghost use Rattle.pc_cards.specs.Limits.{longest_deck};
ghost use Rattle.pc_cards.specs.declared.sort.Sort.{Sort};
ghost use Rattle.pc_deck.specs.Deck.{Deck};
ghost use Rattle.pc_deck.specs.Faultless.{IsFaultless};
ghost use Rattle.pc_deck.specs.Read.{IsDeckOf};
ghost use Rattle.pc_deck.specs.Refusal.{HasFault};
ghost use Rattle.pc_deck.specs.Text.{deck_text, renumbered, settled};
ghost use Rattle.pc_deck.specs.Within.{IsWithinLimits};
ghost use Rattle.pc_faults.specs.declared.fault.Fault.{Fault};

/// States that the text of a deck within the limits of version 2 is that deck. It is no longer than a deck may be and
/// has none of the faults of cards. Its lists are those that were written, in version 2, with an ASOF card, and with
/// the record numbers that they have in the text. The deck that is read from the text has the same text again.
pub fn text_is_the_deck()
    ensures short { (deck : Deck) → IsWithinLimits deck → length (deck_text deck) ≤ longest_deck }
    ensures read { (deck : Deck) → IsWithinLimits deck → IsDeckOf (deck_text deck) (renumbered (settled deck)) }
    ensures again { (deck : Deck) → deck_text (renumbered (settled deck)) ≡ deck_text deck }
{}

/// States that a deck is faultless if and only if it has none of the faults F2 to F12, as a deck of either sort.
pub fn faultless_decks_have_no_fault()
    ensures none { (sort : Sort) (bytes : List ℕ) → IsFaultless sort bytes → (fault : Fault)
        → HasFault sort bytes fault → ⊥ }
    ensures faultless { (sort : Sort) (bytes : List ℕ) → ((fault : Fault) → HasFault sort bytes fault → ⊥)
        → IsFaultless sort bytes }
{}
