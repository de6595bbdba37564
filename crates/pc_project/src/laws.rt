//! Laws of the decks that make a project: they are those without a fault, and the text of one makes the same project.
//!
//! Each public function does nothing. Its contract is a law, proved once, and a caller has the law as a fact.
ghost use Rattle.pc_deck.specs.Deck.{Deck};
ghost use Rattle.pc_deck.specs.Within.{IsWithinLimits};
ghost use Rattle.pc_faults.specs.declared.fault.Fault.{Fault};
ghost use Rattle.pc_project.specs.deck_text.Same.{SayTheSame};
ghost use Rattle.pc_project.specs.deck_text.Written.{IsKeptByText};
ghost use Rattle.pc_project.specs.Makes.{MakesProject};
ghost use Rattle.pc_project.specs.Refusal.{HasNoFault, IsRefusedWith};

/// States that the cards of a deck make a project if and only if no phase finds a fault, and that such a deck is
/// refused with no fault.
pub fn projects_have_no_fault()
    ensures none { (deck : Deck) → MakesProject deck → HasNoFault deck }
    ensures makes { (deck : Deck) → HasNoFault deck → MakesProject deck }
    ensures not_refused { (deck : Deck) (fault : Fault) → MakesProject deck → IsRefusedWith deck fault → ⊥ }
{}

/// States that the text of a deck within the limits that makes a project is accepted: its cards are read, they say what
/// the deck's cards say, and they make the same project. Also, of two decks that say the same, whatever the numbers of
/// their records, one makes a project if the other does.
pub fn text_makes_the_project()
    ensures kept { (deck : Deck) → IsWithinLimits deck → MakesProject deck → IsKeptByText deck }
    ensures alike { (deck other : Deck) → SayTheSame deck other → MakesProject other → MakesProject deck }
{}
