//! The tree of the items, or the fault of their parents.
ghost use Rattle.std.specs.Prelude.{◌≡◌, ◌≤◌, length, IfOk, IfErr, OnOk};
ghost use Rattle.pc_model.specs.declared.limits.TheConstants.{MAX_ITEMS};
ghost use Rattle.pc_wbs.specs.Climb.{AreInRange, IsTree};
ghost use Rattle.pc_faults.specs.inside.First.{Refuses};
ghost use Rattle.pc_project.specs.Refusal.{IsTreeFault, tree_fault};
ghost use Rattle.pc_project.specs.inside.Refusal.{IsAbout};

use crate::named::{codes_at, item_card};
use pc_deck::{CardsOf, DeckSort};
use pc_faults::{DeckError, Detail, Fault};
use pc_wbs::{ItemRow, Tree, TreeError};
use std::alloc::{AllocError, Global};

/// Returns the tree of a deck's items, whose parents have these numbers.
///
/// # Errors
/// The first fault of the tree, tried in the order F20 to F23, or out of memory.
pub fn tree_between<S: DeckSort>(
    alloc: Global,
    cards: &CardsOf<S>,
    rows: &[ItemRow],
) -> Result<Tree, DeckError>
    requires each { length rows.now ≡ length cards.now.items }
    requires few { length rows.now ≤ MAX_ITEMS }
    requires in_range { AreInRange rows.now }
    ensures rows { IfOk result (λ tree. tree ≡ rows.now) }
    ensures tree { OnOk result (IsTree rows.now) }
    ensures refused { IfErr result (Refuses (IsTreeFault cards.now.items rows.now)) }
{
    match Tree::build(alloc, rows) {
        Ok(tree) => Ok(tree),
        Err(error) => Err(DeckError::Fault(fault_of(alloc, cards, error)?)),
    }
}

/// Returns the fault that reports a refusal of the tree.
fn fault_of<S: DeckSort>(
    alloc: Global,
    cards: &CardsOf<S>,
    error: TreeError,
) -> Result<Fault, AllocError>
    requires { IsAbout (length cards.now.items) error }
    ensures { IfOk result (λ fault. tree_fault cards.now.items error ≡ DeckError.Fault fault) }
{
    match error {
        TreeError::NoTop => Ok(Fault::new(0, 20, Detail::Plain)),
        TreeError::SecondTop { item } => {
            let card = item_card(cards.items(), item);
            Ok(Fault::new(card.row, 21, Detail::Name(card.code)))
        }
        TreeError::Loop(round) => {
            let items = round.as_slice();
            let names = codes_at(alloc, cards.item_codes(), items)?;
            let row = item_card(cards.items(), items[0]).row;
            Ok(Fault::new(row, 22, Detail::Names(names)))
        }
        TreeError::TooDeep { item, level } => {
            let card = item_card(cards.items(), item);
            let detail = Detail::Level {
                name: card.code,
                level,
            };
            Ok(Fault::new(card.row, 23, detail))
        }
        TreeError::OutOfMemory => Err(AllocError),
    }
}
