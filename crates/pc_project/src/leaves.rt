//! Whether activities and accounts are on leaves of the tree.
ghost use Rattle.std.specs.Prelude.{◌≡◌, ◌<◌, IfErr, OnOk, length, map};
ghost use Rattle.std.specs.List.{Any};
ghost use Rattle.pc_wbs.specs.Climb.{IsLeaf};
ghost use Rattle.pc_cards.specs.declared.sort.Sort.TheVariants.{Plan};
ghost use Rattle.pc_deck.specs.Misfit.{HasNoMisfit};
ghost use Rattle.pc_faults.specs.Faults.{not_a_leaf};
ghost use Rattle.pc_faults.specs.First.{IsFirstFault};
ghost use Rattle.pc_faults.specs.inside.First.{IsFirstIn, Refuses};
ghost use Rattle.pc_project.specs.inside.Numbered.{AreNumbersOf};
ghost use Rattle.pc_project.specs.PackageFaults.{HasLeafFault, HasNoLeafFault, StandsOnBranch};
ghost use Rattle.pc_project.specs.Project.{accounts_in, rows_of};
ghost use Rattle.pc_project.specs.inside.Project.{placement_of};

use crate::numbers::Numbers;
use crate::placed::Placement;
use pc_accounts::AcctRow;
use pc_deck::Cards;
use pc_faults::{DeckError, Detail, Fault, earliest};
use pc_text::Code;
use pc_wbs::Tree;

/// Checks that no activity and no account is on an item that has items below it.
///
/// Linear in activities and accounts.
///
/// # Errors
/// The first fault of those that are (F28).
pub(crate) fn check_leaves(cards: &Cards, numbers: &Numbers, tree: &Tree) -> Result<(), DeckError>
    requires numbers { AreNumbersOf cards.now numbers.now }
    requires tree { tree.now ≡ rows_of cards.now }
    ensures none { OnOk result (HasNoLeafFault cards.now) }
    ensures first { IfErr result (Refuses (IsFirstFault (HasLeafFault cards.now))) }
{
    let of_acts = act_fault(cards, &numbers.placements, tree);
    let of_accounts = account_fault(cards, &numbers.accounts, tree);
    match earliest(of_acts, of_accounts) {
        Some(fault) => Err(DeckError::Fault(fault)),
        None => Ok(()),
    }
}

fn act_fault(cards: &Cards, placements: &[Placement], tree: &Tree) -> Option<Fault>
    requires faultless { HasNoMisfit Plan cards.now }
    requires placements { placements.now ≡ map (placement_of cards.now) cards.now.acts }
    requires tree { tree.now ≡ rows_of cards.now }
    ensures { IsFirstIn (λ fault. Any (λ act. StandsOnBranch cards.now act.row act.item fault) cards.now.acts) result }
{
    let mut fault = None;
    for (a, card) in cards.acts().iter().enumerate() {
        fault = earliest(
            fault,
            branch_fault(tree, placements[a].item, card.row, card.item),
        );
    }
    fault
}

fn account_fault(cards: &Cards, accounts: &[AcctRow], tree: &Tree) -> Option<Fault>
    requires faultless { HasNoMisfit Plan cards.now }
    requires accounts { accounts.now ≡ accounts_in cards.now }
    requires tree { tree.now ≡ rows_of cards.now }
    ensures { IsFirstIn (λ fault. Any
        (λ account. StandsOnBranch cards.now account.row account.item fault) cards.now.accounts) result }
{
    let mut fault = None;
    for (a, card) in cards.accounts().iter().enumerate() {
        fault = earliest(
            fault,
            branch_fault(tree, accounts[a].item, card.row, card.item),
        );
    }
    fault
}

/// Returns the fault of a card on this item, if the item has items below it (F28).
fn branch_fault(tree: &Tree, item: u32, row: u32, code: Code) -> Option<Fault>
    requires { item < length tree.now }
    ensures { IsFirstIn (λ fault. (IsLeaf tree.now item → ⊥) × (fault ≡ not_a_leaf row code)) result }
{
    if tree.is_leaf(item) {
        None
    } else {
        Some(Fault::new(row, 28, Detail::Name(code)))
    }
}
