//! Whether the budgets of each package are the costs of its activities.
ghost use Rattle.std.specs.Prelude.{◌≡◌, map, IfOk, IfErr, OnOk};
ghost use Rattle.pc_accounts.specs.inside.Packages.{IsFirstUneven};
ghost use Rattle.pc_cards.specs.declared.sort.Sort.TheVariants.{Plan};
ghost use Rattle.pc_deck.specs.Misfit.{HasNoMisfit};
ghost use Rattle.pc_faults.specs.inside.First.{Refuses};
ghost use Rattle.pc_project.specs.inside.Numbered.{AreNumbersOf};
ghost use Rattle.pc_project.specs.PackageFaults.{IsFirstUnevenFault};
ghost use Rattle.pc_project.specs.Project.{accounts_in, rows_of, work_in};
ghost use Rattle.pc_project.specs.inside.Project.{placement_of};
ghost use Rattle.pc_project.specs.Refusal.{IsEven};

use crate::named::item_card;
use crate::numbers::Numbers;
use crate::placed::Placement;
use pc_accounts::{Uneven, WorkRow, reconcile};
use pc_deck::{ActCard, Cards};
use pc_faults::{DeckError, Detail, Fault};
use pc_wbs::Tree;
use std::alloc::{AllocError, Global};

/// Checks that the budgets of each package are the costs of its activities.
///
/// # Errors
/// The fault of the first uneven package (F29), or out of memory.
pub(crate) fn check_packages(
    alloc: Global,
    cards: &Cards,
    numbers: &Numbers,
    tree: &Tree,
) -> Result<(), DeckError>
    requires numbers { AreNumbersOf cards.now numbers.now }
    requires tree { tree.now ≡ rows_of cards.now }
    ensures even { OnOk result (IsEven cards.now) }
    ensures first { IfErr result (Refuses (IsFirstUnevenFault cards.now)) }
{
    let work = work_rows(alloc, cards, &numbers.placements)?;
    reconcile(alloc, tree, &numbers.accounts, &work).map_err(|uneven| fault_of(cards, uneven))
}

/// Returns the fault that reports an uneven package.
fn fault_of(cards: &Cards, uneven: Uneven) -> DeckError
    requires faultless { HasNoMisfit Plan cards.now }
    requires first { IsFirstUneven (accounts_in cards.now) (work_in cards.now) uneven }
    ensures { Refuses (IsFirstUnevenFault cards.now) result }
{
    match uneven {
        Uneven::Item {
            item,
            budgets,
            costs,
        } => {
            let card = item_card(cards.items(), item);
            let detail = Detail::Sums {
                name: card.code,
                budgets,
                costs,
            };
            DeckError::Fault(Fault::new(card.row, 29, detail))
        }
        Uneven::OutOfMemory => DeckError::OutOfMemory,
    }
}

fn work_rows(
    alloc: Global,
    cards: &Cards,
    placements: &[Placement],
) -> Result<Vec<WorkRow>, AllocError>
    requires { placements.now ≡ map (placement_of cards.now) cards.now.acts }
    ensures { IfOk result (λ work. work.items ≡ work_in cards.now) }
{
    let acts = cards.acts();
    let mut work = Vec::with_capacity(alloc, acts.len())?;
    for (a, act) in acts.iter().enumerate() {
        work.push(WorkRow {
            item: placements[a].item,
            cost: act.cost,
        })?;
    }
    Ok(work)
}
