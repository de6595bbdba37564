//! The cards of a deck that was read, of either sort.
ghost use Rattle.std.specs.Prelude.{◌≡◌, ◌≤◌, length, Some, IfOk, IfErr, OnOk};
ghost use Rattle.pc_faults.specs.First.{IsFirstFault};
ghost use Rattle.pc_faults.specs.declared.fault.Fault.{Fault};
ghost use Rattle.pc_model.specs.Codes.{IsNamedOnce};
ghost use Rattle.pc_model.specs.declared.limits.TheConstants.{MAX_ACTIVITIES, MAX_EVENTS};
ghost use Rattle.pc_cards.specs.Entry.{work_target};
ghost use Rattle.pc_cards.specs.declared.sort.Sort.{Sort};
ghost use Rattle.pc_cards.specs.declared.sort.Sort.TheVariants.{Plan, Tasks};
ghost use Rattle.pc_deck.specs.Deck.{
  account_codes,
  act_codes,
  event_codes,
  item_codes,
  named_among,
  resource_codes,
  task_codes,
};
ghost use Rattle.pc_deck.specs.Target.{IsUnknown, target_codes};
ghost use Rattle.pc_deck.specs.Within.{IsWithin};

use crate::kinds::{
    AcctCard, ActCard, AfterCard, AsOfCard, CardLists, ItemCard, LoadCard, MoneyCard, PieceCard,
    ProjectCard, StatusCard, TaskCard, TermsCard, TitledCard,
};
use pc_faults::{Fault, Target};
use pc_names::Names;
use pc_text::Code;
use std::marker::{Model, PhantomData};

/// A sort of decks, as a type.
pub trait DeckSort {
    ghost sort: { Sort };

    /// Returns what the work in such a deck is: activities or tasks.
    fn work() -> Target
        ensures { result ≡ work_target sort };
}

/// Plans.
pub struct Plans;

impl DeckSort for Plans {
    ghost sort = { Plan };

    fn work() -> Target {
        Target::Activity
    }
}

/// Decks of tasks.
pub struct TaskDecks;

impl DeckSort for TaskDecks {
    ghost sort = { Tasks };

    fn work() -> Target {
        Target::Task
    }
}

/// The cards of a deck of a sort, each kind in card order.
#[derive(Drop)]
pub struct CardsOf<S: DeckSort> {
    deck: DeckCards,
    sort: PhantomData<S>,
}

/// The cards of a plan.
pub type Cards = CardsOf<Plans>;

/// The cards of a deck of tasks.
pub type TaskCards = CardsOf<TaskDecks>;

impl<S: DeckSort> Model for CardsOf<S> {
    ghost use Rattle.pc_deck.specs.Deck.{Deck};
    ghost use Rattle.pc_deck.specs.Within.{IsWithin};

    ghost Value = { Deck };

    ghost view = { λ s. s.deck };

    ghost invariant = { λ s. IsWithin S.sort s.deck };
}

impl<S: DeckSort> CardsOf<S> {
    /// The cards of a deck that is within the limits of its sort.
    pub(crate) fn of(deck: DeckCards) -> Self
        requires { IsWithin S.sort deck }
        ensures deck { result ≡ deck }
        ensures within { IsWithin S.sort result }
    {
        CardsOf {
            deck,
            sort: PhantomData,
        }
    }

    /// Does nothing. States what holds of all cards of a deck, for a proof that needs only that.
    pub fn facts(&self)
        ensures within { IsWithin S.sort self.now }
    {
        let _ = &self.deck;
    }

    /// Returns the PROJECT card.
    pub fn project(&self) -> &ProjectCard
        ensures card { result.now ≡ self.now.project }
        ensures within { IsWithin S.sort self.now }
    {
        &self.deck.project
    }

    /// Returns the key of the hash by which cards are looked up by their codes.
    pub(crate) fn key(&self) -> u128 {
        self.deck.lists.items.key()
    }

    /// Returns the ASOF card, if there is one.
    pub fn as_of(&self) -> Option<AsOfCard>
        ensures card { result ≡ self.now.as_of }
        ensures within { IsWithin S.sort self.now }
    {
        self.deck.lists.as_of.get()
    }

    /// Returns the TERMS card, if there is one.
    pub fn terms(&self) -> Option<TermsCard>
        ensures terms { result ≡ self.now.terms }
        ensures within { IsWithin S.sort self.now }
    {
        self.deck.lists.terms.get()
    }

    /// Returns the WBS cards.
    pub fn items(&self) -> &[ItemCard]
        ensures cards { result.now ≡ self.now.items }
        ensures within { IsWithin S.sort self.now }
    {
        self.deck.lists.items.as_slice()
    }

    /// Returns the PIECE cards.
    pub fn pieces(&self) -> &[PieceCard]
        ensures cards { result.now ≡ self.now.pieces }
        ensures within { IsWithin S.sort self.now }
    {
        self.deck.lists.pieces.as_slice()
    }

    /// Returns the ACCT cards.
    pub fn accounts(&self) -> &[AcctCard]
        ensures cards { result.now ≡ self.now.accounts }
        ensures within { IsWithin S.sort self.now }
    {
        self.deck.lists.accounts.as_slice()
    }

    /// Returns the CHARGE cards.
    pub fn charges(&self) -> &[MoneyCard]
        ensures cards { result.now ≡ self.now.charges }
        ensures within { IsWithin S.sort self.now }
    {
        self.deck.lists.charges.as_slice()
    }

    /// Returns the TOGO cards.
    pub fn togos(&self) -> &[MoneyCard]
        ensures cards { result.now ≡ self.now.togos }
        ensures within { IsWithin S.sort self.now }
    {
        self.deck.lists.togos.as_slice()
    }

    /// Returns the STATUS cards.
    pub fn statuses(&self) -> &[StatusCard]
        ensures cards { result.now ≡ self.now.statuses }
        ensures within { IsWithin S.sort self.now }
    {
        self.deck.lists.statuses.as_slice()
    }

    /// Returns the RES cards.
    pub fn resources(&self) -> &[TitledCard]
        ensures cards { result.now ≡ self.now.resources }
        ensures within { IsWithin S.sort self.now }
    {
        self.deck.lists.resources.as_slice()
    }

    /// Returns the LOAD cards.
    pub fn loads(&self) -> &[LoadCard]
        ensures cards { result.now ≡ self.now.loads }
        ensures within { IsWithin S.sort self.now }
    {
        self.deck.lists.loads.as_slice()
    }

    /// Returns the code of each item, in card order.
    pub fn item_codes(&self) -> &[Code]
        ensures codes { result.now ≡ item_codes self.now }
        ensures apart { IsNamedOnce result.now }
    {
        self.deck.lists.items.codes()
    }

    /// Returns the code of each account, in card order.
    pub fn account_codes(&self) -> &[Code]
        ensures codes { result.now ≡ account_codes self.now }
        ensures apart { IsNamedOnce result.now }
    {
        self.deck.lists.accounts.codes()
    }

    /// Returns the code of each resource, in card order.
    pub fn resource_codes(&self) -> &[Code]
        ensures codes { result.now ≡ resource_codes self.now }
        ensures apart { IsNamedOnce result.now }
    {
        self.deck.lists.resources.codes()
    }

    /// Returns the codes of what cards name, in card order, with the index that finds them.
    fn names(&self, target: Target) -> &Names
        ensures codes { result.now ≡ target_codes self.now target }
        ensures within { IsWithin S.sort self.now }
    {
        match target {
            Target::Event => self.deck.lists.events.names(),
            Target::Item => self.deck.lists.items.names(),
            Target::Account => self.deck.lists.accounts.names(),
            Target::Activity => self.deck.lists.acts.names(),
            Target::Task => self.deck.lists.tasks.names(),
            Target::Resource => self.deck.lists.resources.names(),
        }
    }

    /// Returns the number of what has a code: its index in card order, from 0.
    pub fn named(&self, target: Target, code: &Code) -> Option<u32>
        ensures { result ≡ named_among (target_codes self.now target) code.now }
    {
        let number = self.names(target).place_of(code)?;
        Some(number as u32)
    }

    /// Returns the number of what the card at a record names by a code.
    ///
    /// # Errors
    ///
    /// The card's fault if nothing has the code (F13 to F16, F41).
    pub fn find(&self, target: Target, row: u32, code: Code) -> Result<u32, Fault>
        ensures found { IfOk result (λ number. named_among (target_codes self.now target) code ≡ Some number) }
        ensures faultless { OnOk result ((fault : Fault) → IsUnknown self.now target row code fault → ⊥) }
        ensures first { IfErr result (IsFirstFault (IsUnknown self.now target row code)) }
    {
        match self.named(target, &code) {
            Some(number) => Ok(number),
            None => Err(Fault::unknown_name(target, row, code)),
        }
    }
}

/// What only plans have.
impl Cards {
    /// Returns the EVENT cards.
    pub fn events(&self) -> &[TitledCard]
        ensures cards { result.now ≡ self.now.events }
        ensures few { length result.now ≤ MAX_EVENTS }
        ensures within { IsWithin Plan self.now }
    {
        self.deck.lists.events.as_slice()
    }

    /// Returns the ACT cards.
    pub fn acts(&self) -> &[ActCard]
        ensures cards { result.now ≡ self.now.acts }
        ensures few { length result.now ≤ MAX_ACTIVITIES }
        ensures within { IsWithin Plan self.now }
    {
        self.deck.lists.acts.as_slice()
    }

    /// Returns the code of each event, in card order.
    pub fn event_codes(&self) -> &[Code]
        ensures codes { result.now ≡ event_codes self.now }
        ensures apart { IsNamedOnce result.now }
    {
        self.deck.lists.events.codes()
    }

    /// Returns the code of each activity, in card order.
    pub fn act_codes(&self) -> &[Code]
        ensures codes { result.now ≡ act_codes self.now }
        ensures apart { IsNamedOnce result.now }
    {
        self.deck.lists.acts.codes()
    }

    /// Returns the code of each activity, in card order, with the index that finds it.
    pub fn act_names(&self) -> &Names
        ensures codes { result.now ≡ act_codes self.now }
    {
        self.deck.lists.acts.names()
    }
}

/// What only decks of tasks have.
impl TaskCards {
    /// Returns the TASK cards.
    pub fn tasks(&self) -> &[TaskCard]
        ensures cards { result.now ≡ self.now.tasks }
        ensures within { IsWithin Tasks self.now }
    {
        self.deck.lists.tasks.as_slice()
    }

    /// Returns the AFTER cards.
    pub fn afters(&self) -> &[AfterCard]
        ensures cards { result.now ≡ self.now.afters }
        ensures within { IsWithin Tasks self.now }
    {
        self.deck.lists.afters.as_slice()
    }

    /// Returns the code of each task, in card order.
    pub fn task_codes(&self) -> &[Code]
        ensures codes { result.now ≡ task_codes self.now }
        ensures apart { IsNamedOnce result.now }
    {
        self.deck.lists.tasks.codes()
    }
}

/// The cards of a deck, each kind in card order. What sort of deck it is, the types of the cards of a plan and of those
/// of a deck of tasks say.
#[derive(Drop)]
pub struct DeckCards {
    pub project: ProjectCard,
    pub lists: CardLists,
}

impl Model for DeckCards {
    ghost use Rattle.pc_deck.specs.Deck.{Deck};

    ghost Value = { Deck };

    ghost view = { λ s. record { project = s.project; lists = s.lists } };
}
