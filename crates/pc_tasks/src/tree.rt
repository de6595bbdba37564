//! What items name, by numbers, and the tree of the items, or the fault of their parents.
ghost use Rattle.std.specs.Prelude.{IfErr, OnOk, ◌≡◌, IfOk};
ghost use Rattle.pc_faults.specs.inside.First.{Refuses};
ghost use Rattle.pc_project.specs.Project.{rows_of, row_of};
ghost use Rattle.pc_wbs.specs.Climb.{IsTree};
ghost use Rattle.pc_tasks.specs.Refusal.{IsTasksRefusedWith};
ghost use Rattle.pc_cards.specs.declared.sort.Sort.TheVariants.{Tasks};
ghost use Rattle.pc_deck.specs.Within.{IsWithin};
ghost use Rattle.pc_deck.specs.Misfit.{HasNoMisfit};

use pc_deck::{ItemCard, TaskCards};
use pc_faults::{DeckError, Target};
use pc_project::tree_between;
use pc_wbs::{ItemRow, Tree};
use std::alloc::{AllocError, Global};

/// Returns the tree of the items.
///
/// # Errors
/// The first fault of the tree (F20 to F23), or out of memory.
pub(crate) fn tree_of(alloc: Global, cards: &TaskCards) -> Result<Tree, DeckError>
    requires { HasNoMisfit Tasks cards.now }
    ensures tree { OnOk result (IsTree (rows_of cards.now)) }
    ensures refused { IfErr result (Refuses (IsTasksRefusedWith cards.now)) }
{
    let rows = item_rows(alloc, cards)?;
    let tree = tree_between(alloc, cards, &rows)?;
    Ok(tree)
}

/// Returns the items by the numbers of their parents, in card order.
pub(crate) fn item_rows(alloc: Global, cards: &TaskCards) -> Result<Vec<ItemRow>, AllocError>
    ensures rows { IfOk result (λ rows. rows.items ≡ rows_of cards.now) }
    ensures within { IsWithin Tasks cards.now }
{
    let mut rows = Vec::with_capacity(alloc, cards.items().len())?;
    for item in cards.items() {
        rows.push(item_row(cards, item))?;
    }
    Ok(rows)
}

fn item_row(cards: &TaskCards, item: &ItemCard) -> ItemRow
    ensures { result ≡ row_of cards.now item.now }
{
    let Some(code) = item.parent else {
        return ItemRow { parent: None };
    };
    let parent = match cards.named(Target::Item, &code) {
        Some(number) => number,
        None => cards.items().len() as u32,
    };
    ItemRow {
        parent: Some(parent),
    }
}
