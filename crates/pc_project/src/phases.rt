//! From the cards of a deck to its project, phase by phase.
ghost use Rattle.std.specs.Prelude.{◌≡◌, length, IfOk, IfErr, OnOk};
ghost use Rattle.pc_accounts.specs.Amounts.{AreEntriesOf};
ghost use Rattle.pc_accounts.specs.Entries.{AreEntriesWithinLimits};
ghost use Rattle.pc_faults.specs.declared.fault.Fault.{Fault};
ghost use Rattle.pc_faults.specs.inside.First.{Refuses};
ghost use Rattle.pc_project.specs.DisorderFaults.{as_of_in};
ghost use Rattle.pc_project.specs.Figures.{AreStatesOf, IsProjectOfDeck};
ghost use Rattle.pc_project.specs.inside.Numbered.{AreNumbersOf, AreProjectLists};
ghost use Rattle.pc_project.specs.PackageFaults.{HasNoLeafFault};
ghost use Rattle.pc_project.specs.PieceFaults.{HasNoPieceFault};
ghost use Rattle.pc_project.specs.Makes.{MakesProject};
ghost use Rattle.pc_project.specs.Project.{accounts_in, charges_in, network_of, rows_of, statuses_in, togos_in};
ghost use Rattle.pc_project.specs.Refusal.{HasNoFault, HasSoundFigures, HasSoundPlan, IsEven, IsRefusedWith};
ghost use Rattle.pc_project.specs.TermsFaults.{HasTermsFault};

use crate::leaves::check_leaves;
use crate::lists::{expected_times, places, terms, variances};
use crate::network::net_of;
use crate::numbers::{Numbers, numbers_of};
use crate::packages::check_packages;
use crate::pieces::check_pieces;
use crate::project::{Frame, Project};
use crate::statuses::states_of;
use crate::togos::book_of;
use crate::tree::tree_between;
use pc_deck::Cards;
use pc_faults::{DeckError, Detail, Fault};
use pc_wbs::Tree;
use std::alloc::{AllocError, Global};

/// Makes the project of the cards, and keeps the cards in it.
///
/// Linear in the cards.
///
/// # Errors
///
/// - `DeckError::Fault` with the first fault of the first phase that has one. The phases are: the cards one by one (F13
///   to F19, F41), the tree of the items (F20 to F23), the network of the activities (F24 to F27), the items of
///   activities and accounts (F28), the budgets of packages (F29), statuses and as-of (F30), second amounts to go
///   (F31), the pieces of the activities' costs (F33 to F35), and the terms of time (F36).
/// - `DeckError::OutOfMemory` if memory runs out.
///
/// # Examples
///
/// ```
/// let deck = b"PROJECT,E1,S,T,2024-01-01,1,,\nWBS,1,,\nEVENT,S,\nEVENT,T,\n\
/// ACT,DIG,S,T,1,3,4,5,4,2,10,3,\nACCT,X,1,10,\nEND\n";
/// let cards = read_cards(alloc, deck).ok()?;
/// let project = project_of(alloc, cards).ok()?;
/// // Estimates of 3, 4 and 5 units expect 4 units, kept in sixths.
/// let is_expected = project.expected() == [24].as_slice();
/// drop(project);
/// Some(is_expected)
/// ```
///
/// These are the lines of `pc_tests::examples::make_a_project`. A test sees that it returns `Some(true)`.
pub fn project_of(alloc: Global, cards: Cards) -> Result<Project, DeckError>
    ensures project { IfOk result (IsProjectOfDeck cards) }
    ensures makes { IfOk result (λ _. MakesProject cards) }
    ensures refused { IfErr result (Refuses (IsRefusedWith cards)) }
{
    let numbers = numbers_of(alloc, &cards)?;
    let frame = frame_of(alloc, &cards, &numbers)?;
    Ok(Project {
        cards,
        frame,
        pieces: numbers.pieces,
        loads: numbers.loads,
        accounts: numbers.accounts,
    })
}

/// Goes through the phases after the look-ups. Each phase relies on the earlier ones having found no fault.
fn frame_of(alloc: Global, cards: &Cards, numbers: &Numbers) -> Result<Frame, DeckError>
    requires { AreNumbersOf cards.now numbers.now }
    ensures makes { OnOk result (HasNoFault cards.now) }
    ensures tree { IfOk result (λ frame. frame.tree ≡ rows_of cards.now) }
    ensures network { IfOk result (λ frame. frame.net ≡ network_of cards.now) }
    ensures entries { IfOk result (λ frame. AreEntriesOf (accounts_in cards.now) (charges_in cards.now)
        (togos_in cards.now) (as_of_in cards.now) frame.book) }
    ensures small { IfOk result (λ frame. AreEntriesWithinLimits frame.book) }
    ensures states { IfOk result (λ frame. AreStatesOf cards.now.project.start_day (statuses_in cards.now)
        (length cards.now.acts) frame.states.items) }
    ensures lists { IfOk result (AreProjectLists cards.now) }
    ensures refused { IfErr result (Refuses (IsRefusedWith cards.now)) }
{
    let tree = tree_between(alloc, cards, &numbers.rows)?;
    let net = net_of(alloc, cards, numbers)?;
    check_items(alloc, cards, numbers, &tree)?;
    let states = states_of(alloc, cards, numbers)?;
    let book = book_of(alloc, cards, numbers)?;
    check_costs(alloc, cards, numbers)?;
    let acts = cards.acts();
    let unit_days = cards.project().unit_days;
    Ok(Frame {
        tree,
        net,
        book,
        states,
        places: places(alloc, &numbers.placements)?,
        terms: terms(alloc, acts)?,
        expected: expected_times(alloc, acts, unit_days)?,
        variances: variances(alloc, acts, unit_days)?,
    })
}

/// Checks that activities and accounts are on leaves, and that the budgets of each package are the costs of its
/// activities (F28, F29).
fn check_items(
    alloc: Global,
    cards: &Cards,
    numbers: &Numbers,
    tree: &Tree,
) -> Result<(), DeckError>
    requires plan { HasSoundPlan cards.now }
    requires numbers { AreNumbersOf cards.now numbers.now }
    requires tree { tree.now ≡ rows_of cards.now }
    ensures leaves { OnOk result (HasNoLeafFault cards.now) }
    ensures even { OnOk result (IsEven cards.now) }
    ensures refused { IfErr result (Refuses (IsRefusedWith cards.now)) }
{
    check_leaves(cards, numbers, tree)?;
    check_packages(alloc, cards, numbers, tree)?;
    Ok(())
}

/// Checks the pieces, and then the terms of time, of a project with sound figures (F33 to F36).
fn check_costs(alloc: Global, cards: &Cards, numbers: &Numbers) -> Result<(), DeckError>
    requires plan { HasSoundPlan cards.now }
    requires figures { HasSoundFigures cards.now }
    requires numbers { AreNumbersOf cards.now numbers.now }
    ensures pieces { OnOk result (HasNoPieceFault cards.now) }
    ensures terms { OnOk result ((fault : Fault) → HasTermsFault cards.now fault → ⊥) }
    ensures refused { IfErr result (Refuses (IsRefusedWith cards.now)) }
{
    check_pieces(alloc, cards, &numbers.pieces)?;
    match cards.terms() {
        Some(card) if card.penalty < card.bonus => {
            Err(DeckError::Fault(Fault::new(card.row, 36, Detail::Plain)))
        }
        _ => Ok(()),
    }
}
