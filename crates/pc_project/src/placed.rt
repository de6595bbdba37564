//! The look-up of what a card names, for each kind of card.
ghost use Rattle.std.specs.Prelude.{◌≡◌, ◌↔◌, IsTrue, IfErr, OnOk, IfOk};
ghost use Rattle.pc_cards.specs.declared.sort.Sort.TheVariants.{Plan, Tasks};
ghost use Rattle.pc_deck.specs.Deck.{item_codes, number_among};
ghost use Rattle.pc_deck.specs.Durations.{HasDurationFault, HasOrderedEstimates};
ghost use Rattle.pc_deck.specs.Misfit.{HasCardMisfit};
ghost use Rattle.pc_faults.specs.First.{IsFirstFault};
ghost use Rattle.pc_faults.specs.declared.fault.Fault.{Fault};
ghost use Rattle.pc_faults.specs.declared.kind.Kind.TheVariants.{
  Project,
  Wbs,
  Act,
  Task,
  After,
  Piece,
  Acct,
  Charge,
  Status,
  Load,
};
ghost use Rattle.pc_faults.specs.inside.First.{IsFirstIn};
ghost use Rattle.pc_project.specs.After.{after_row};
ghost use Rattle.pc_project.specs.Project.{account_of, money_of, network_of, row_of};
ghost use Rattle.pc_project.specs.inside.Placed.{load_in, piece_in, status_in};
ghost use Rattle.pc_project.specs.inside.Project.{placement_of};

use crate::activity::Estimates;
use crate::refers::Refers;
use pc_accounts::status::StatusRow;
use pc_accounts::{AcctRow, MoneyRow};
use pc_deck::{
    AcctCard, ActCard, AfterCard, Cards, CardsOf, DeckSort, ItemCard, LoadCard, MoneyCard,
    PieceCard, StatusCard, TaskCard,
};
use pc_faults::{Detail, Fault, Target};
use pc_model::{Arc, PieceRow};
use pc_wbs::ItemRow;

/// The place of an activity: its two events and its item.
#[derive(Clone, Copy)]
pub struct Placement {
    pub arc: Arc,
    pub item: u32,
}

/// A task and one that must end before it begins, by their numbers, counted in card order from 0.
#[derive(Clone, Copy, Debug, PartialEq, Eq)]
pub struct AfterRow {
    pub task: u32,
    pub before: u32,
}

/// The quantity of a resource that an activity takes, with the numbers of both.
#[derive(Clone, Copy)]
pub struct LoadItem {
    pub activity: u32,
    pub resource: u32,
    pub quantity: u64,
}

/// Looks up the events where the project starts and ends, or returns the PROJECT card's first fault.
pub(crate) fn ends_of(cards: &Cards) -> Result<(u32, u32), Fault>
    ensures start { IfOk result (λ ends. ends.0 ≡ (network_of cards.now).start) }
    ensures end { IfOk result (λ ends. ends.1 ≡ (network_of cards.now).end) }
    ensures faultless { OnOk result ((fault : Fault)
        → HasCardMisfit Plan cards.now Project cards.now.project fault → ⊥) }
    ensures first { IfErr result (IsFirstFault (HasCardMisfit Plan cards.now Project cards.now.project)) }
{
    let card = cards.project();
    let start = cards.find(Target::Event, card.row, card.start)?;
    let end = cards.find(Target::Event, card.row, card.end)?;
    if card.start == card.end {
        return Err(Fault::new(card.row, 17, Detail::Name(card.start)));
    }
    Ok((start, end))
}

impl Refers for ItemCard {
    type Found = ItemRow;

    ghost found_in = { λ sort. row_of };

    ghost HasFault = { λ sort deck. HasCardMisfit sort deck Wbs };

    fn look_up<S: DeckSort>(&self, cards: &CardsOf<S>) -> Result<ItemRow, Fault> {
        let Some(code) = self.parent else {
            return Ok(ItemRow { parent: None });
        };
        let parent = cards.find(Target::Item, self.row, code)?;
        Ok(ItemRow {
            parent: Some(parent),
        })
    }
}

/// Returns the fault of estimates and durations on the card at a record, if they are out of order (F18, F19).
pub(crate) fn duration_fault(
    row: u32,
    estimates: Estimates,
    normal: u64,
    crash: u64,
) -> Option<Fault>
    ensures { IsFirstIn
        (HasDurationFault row estimates.optimistic estimates.likely estimates.pessimistic normal crash) result }
{
    if !is_in_order(estimates) {
        return Some(Fault::new(row, 18, Detail::Plain));
    }
    if normal < crash {
        return Some(Fault::new(row, 19, Detail::Plain));
    }
    None
}

fn is_in_order(it: Estimates) -> bool
    ensures { IsTrue result ↔ HasOrderedEstimates it.optimistic it.likely it.pessimistic }
{
    it.optimistic <= it.likely && it.likely <= it.pessimistic
}

impl Refers for ActCard {
    type Found = Placement;

    ghost found_in = { λ sort. placement_of };

    ghost HasFault = { λ sort deck. HasCardMisfit Plan deck Act };

    fn look_up<S: DeckSort>(&self, cards: &CardsOf<S>) -> Result<Placement, Fault> {
        let from = cards.find(Target::Event, self.row, self.from)?;
        let to = cards.find(Target::Event, self.row, self.to)?;
        let item = cards.find(Target::Item, self.row, self.item)?;
        if self.from == self.to {
            return Err(Fault::new(self.row, 17, Detail::Name(self.from)));
        }
        let estimates = Estimates {
            optimistic: self.opt,
            likely: self.likely,
            pessimistic: self.pess,
        };
        if let Some(fault) = duration_fault(self.row, estimates, self.normal, self.crash) {
            return Err(fault);
        }
        Ok(Placement {
            arc: Arc { from, to },
            item,
        })
    }
}

impl Refers for AcctCard {
    type Found = AcctRow;

    ghost found_in = { λ sort. account_of };

    ghost HasFault = { λ sort deck. HasCardMisfit sort deck Acct };

    fn look_up<S: DeckSort>(&self, cards: &CardsOf<S>) -> Result<AcctRow, Fault> {
        let item = cards.find(Target::Item, self.row, self.item)?;
        Ok(AcctRow {
            item,
            budget: self.budget,
        })
    }
}

impl Refers for MoneyCard {
    type Found = MoneyRow;

    ghost found_in = { λ sort. money_of };

    ghost HasFault = { λ sort deck. HasCardMisfit sort deck Charge };

    fn look_up<S: DeckSort>(&self, cards: &CardsOf<S>) -> Result<MoneyRow, Fault> {
        let account = cards.find(Target::Account, self.row, self.account)?;
        Ok(MoneyRow {
            account,
            day: self.day,
            amount: self.amount,
        })
    }
}

impl Refers for StatusCard {
    type Found = StatusRow;

    ghost found_in = { status_in };

    ghost HasFault = { λ sort deck. HasCardMisfit sort deck Status };

    fn look_up<S: DeckSort>(&self, cards: &CardsOf<S>) -> Result<StatusRow, Fault> {
        let activity = cards.find(S::work(), self.row, self.activity)?;
        Ok(StatusRow {
            activity,
            finished: self.finished,
            day: self.day,
        })
    }
}

impl Refers for PieceCard {
    type Found = PieceRow;

    ghost found_in = { piece_in };

    ghost HasFault = { λ sort deck. HasCardMisfit sort deck Piece };

    fn look_up<S: DeckSort>(&self, cards: &CardsOf<S>) -> Result<PieceRow, Fault> {
        let activity = cards.find(S::work(), self.row, self.activity)?;
        Ok(PieceRow {
            activity,
            units: self.units,
            slope: self.slope,
        })
    }
}

impl Refers for LoadCard {
    type Found = LoadItem;

    ghost found_in = { load_in };

    ghost HasFault = { λ sort deck. HasCardMisfit sort deck Load };

    fn look_up<S: DeckSort>(&self, cards: &CardsOf<S>) -> Result<LoadItem, Fault> {
        let activity = cards.find(S::work(), self.row, self.activity)?;
        let resource = cards.find(Target::Resource, self.row, self.resource)?;
        Ok(LoadItem {
            activity,
            resource,
            quantity: self.quantity,
        })
    }
}

impl Refers for TaskCard {
    /// The number of the task's item.
    type Found = u32;

    ghost found_in = { λ sort deck task. number_among (item_codes deck) task.item };

    ghost HasFault = { λ sort deck. HasCardMisfit Tasks deck Task };

    fn look_up<S: DeckSort>(&self, cards: &CardsOf<S>) -> Result<u32, Fault> {
        let item = cards.find(Target::Item, self.row, self.item)?;
        let estimates = Estimates {
            optimistic: self.opt,
            likely: self.likely,
            pessimistic: self.pess,
        };
        if let Some(fault) = duration_fault(self.row, estimates, self.normal, self.crash) {
            return Err(fault);
        }
        Ok(item)
    }
}

impl Refers for AfterCard {
    type Found = AfterRow;

    ghost found_in = { λ sort. after_row };

    ghost HasFault = { λ sort deck. HasCardMisfit Tasks deck After };

    fn look_up<S: DeckSort>(&self, cards: &CardsOf<S>) -> Result<AfterRow, Fault> {
        let task = cards.find(Target::Task, self.row, self.task)?;
        let before = cards.find(Target::Task, self.row, self.before)?;
        if self.task == self.before {
            return Err(Fault::new(self.row, 17, Detail::Name(self.task)));
        }
        Ok(AfterRow { task, before })
    }
}
