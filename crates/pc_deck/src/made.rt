//! The cards of a plan that is built from lists or generated from a deck of tasks, and not read.
ghost use Rattle.std.specs.Prelude.{◌≡◌, IfOk, OnOk};
ghost use Rattle.pc_deck.specs.Made.{drawn_with};
ghost use Rattle.pc_deck.specs.inside.Made.{plan_of};
ghost use Rattle.pc_deck.specs.Within.{IsWithinLimits};

use crate::cards::{Cards, DeckCards, TaskCards};
use crate::kinds::{
    AcctCard, ActCard, AsOfCard, CardLists, ItemCard, LoadCard, MoneyCard, PieceCard, ProjectCard,
    StatusCard, TermsCard, TitledCard,
};
use pc_cards::lists::Once;
use std::alloc::{AllocError, Global};

/// The cards of a plan, but for its PROJECT card, each kind in card order.
#[derive(Clone, Copy)]
pub struct PlanLists<'a> {
    pub as_of: Option<AsOfCard>,
    pub terms: Option<TermsCard>,
    pub items: &'a [ItemCard],
    pub events: &'a [TitledCard],
    pub acts: &'a [ActCard],
    pub pieces: &'a [PieceCard],
    pub accounts: &'a [AcctCard],
    pub charges: &'a [MoneyCard],
    pub togos: &'a [MoneyCard],
    pub statuses: &'a [StatusCard],
    pub resources: &'a [TitledCard],
    pub loads: &'a [LoadCard],
}

impl Cards {
    /// Builds the plan that has these cards. Codes are looked up as in a plan that was read, by a hash with this key.
    ///
    /// # Errors
    ///
    /// `AllocError` if there is not enough memory.
    pub fn build(
        alloc: Global,
        key: u128,
        project: &ProjectCard,
        plan: &PlanLists,
    ) -> Result<Cards, AllocError>
        requires { IsWithinLimits (plan_of project.now plan.now) }
        ensures { IfOk result (λ cards. cards ≡ plan_of project.now plan.now) }
    {
        let mut lists = CardLists::new(alloc, key);
        lists.add_plan(plan)?;
        Ok(Cards::of(DeckCards {
            project: *project,
            lists,
        }))
    }

    /// Builds the plan that is generated from a deck of tasks: these items, events and activities, and all other cards
    /// of the deck except those of tasks. Its key is the deck's.
    ///
    /// # Errors
    ///
    /// `AllocError` if there is not enough memory.
    pub fn build_drawn(
        alloc: Global,
        tasks: &TaskCards,
        items: &[ItemCard],
        events: &[TitledCard],
        acts: &[ActCard],
    ) -> Result<Cards, AllocError>
        requires { IsWithinLimits (drawn_with tasks.now items.now events.now acts.now) }
        ensures { IfOk result (λ cards. cards ≡ drawn_with tasks.now items.now events.now acts.now) }
    {
        let plan = PlanLists {
            as_of: tasks.as_of(),
            terms: tasks.terms(),
            items,
            events,
            acts,
            pieces: tasks.pieces(),
            accounts: tasks.accounts(),
            charges: tasks.charges(),
            togos: tasks.togos(),
            statuses: tasks.statuses(),
            resources: tasks.resources(),
            loads: tasks.loads(),
        };
        Cards::build(alloc, tasks.key(), tasks.project(), &plan)
    }
}

impl CardLists {
    ghost use Rattle.pc_deck.specs.inside.Kinds.{no_lists};
    ghost use Rattle.pc_deck.specs.inside.Made.{AreNamedOnce, lists_of};

    /// Adds the cards of a plan to lists that have none. After an error the lists are of no more use.
    fn add_plan(&mut self, plan: &PlanLists) -> Result<(), AllocError>
        requires empty { self.old ≡ no_lists }
        requires differ { AreNamedOnce plan.now }
        ensures { OnOk result (self.new ≡ lists_of plan.now) }
    {
        self.as_of = Once::of(plan.as_of);
        self.terms = Once::of(plan.terms);
        self.items.add_all(plan.items)?;
        self.events.add_all(plan.events)?;
        self.acts.add_all(plan.acts)?;
        self.pieces.add_all(plan.pieces)?;
        self.accounts.add_all(plan.accounts)?;
        self.charges.add_all(plan.charges)?;
        self.togos.add_all(plan.togos)?;
        self.statuses.add_all(plan.statuses)?;
        self.resources.add_all(plan.resources)?;
        self.loads.add_all(plan.loads)?;
        Ok(())
    }
}
