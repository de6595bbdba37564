//! The network of the activities, or why it is not sound.
ghost use Rattle.std.specs.Prelude.{◌≡◌, ◌<◌, All, length, IfOk, IfErr, OnOk};
ghost use Rattle.pc_model.specs.Network.{IsSound};
ghost use Rattle.pc_wbs.specs.Climb.{IsTree};
ghost use Rattle.pc_net.specs.Refusals.{IsNetError};
ghost use Rattle.pc_net.specs.declared.refusal.NetError.TheVariants as net;
ghost use Rattle.pc_faults.specs.inside.First.{Refuses};
ghost use Rattle.pc_project.specs.inside.Numbered.{AreNumbersOf};
ghost use Rattle.pc_project.specs.Project.{network_of, rows_of};
ghost use Rattle.pc_project.specs.Refusal.{IsRefusedWith, net_fault};

use crate::lists::arcs;
use crate::named::{act_card, codes_at, event_card};
use crate::numbers::Numbers;
use pc_deck::Cards;
use pc_faults::{DeckError, Detail, Fault};
use pc_net::{Net, NetError};
use std::alloc::{AllocError, Global};

/// Returns the network of the activities.
///
/// # Errors
/// The fault that keeps the network from being sound (F24 to F27), or out of memory.
pub(crate) fn net_of(alloc: Global, cards: &Cards, numbers: &Numbers) -> Result<Net, DeckError>
    requires numbers { AreNumbersOf cards.now numbers.now }
    requires tree { IsTree (rows_of cards.now) }
    ensures network { IfOk result (λ net. net ≡ network_of cards.now) }
    ensures sound { OnOk result (IsSound (network_of cards.now)) }
    ensures refused { IfErr result (Refuses (IsRefusedWith cards.now)) }
{
    let arcs = arcs(alloc, &numbers.placements)?;
    let events = cards.events().len() as u32;
    match Net::build(alloc, events, numbers.start, numbers.end, &arcs) {
        Ok(net) => Ok(net),
        Err(error) => Err(DeckError::Fault(fault_of(alloc, cards, error)?)),
    }
}

/// Returns the fault that reports a refusal of the network.
fn fault_of(alloc: Global, cards: &Cards, error: NetError) -> Result<Fault, AllocError>
    requires { IsNetError (network_of cards.now) error }
    ensures { IfOk result (λ fault. net_fault cards.now error ≡ DeckError.Fault fault) }
{
    match error {
        NetError::StartEntered { arc } => {
            let card = act_card(cards, arc);
            Ok(Fault::new(card.row, 24, Detail::Name(card.code)))
        }
        NetError::EndLeft { arc } => {
            let card = act_card(cards, arc);
            Ok(Fault::new(card.row, 25, Detail::Name(card.code)))
        }
        NetError::Dangling { event, entered } => {
            let card = event_card(cards, event);
            let detail = Detail::Side {
                name: card.code,
                entered,
            };
            Ok(Fault::new(card.row, 26, detail))
        }
        NetError::Cycle(acts) => fault_of_cycle(alloc, cards, acts.as_slice()),
        NetError::OutOfMemory => Err(AllocError),
    }
}

fn fault_of_cycle(alloc: Global, cards: &Cards, acts: &[u32]) -> Result<Fault, AllocError>
    requires some { 0 < length acts.now }
    requires known { All (λ act. act < length cards.now.acts) acts.now }
    ensures { IfOk result (λ fault. net_fault cards.now (net.Cycle acts.now) ≡ DeckError.Fault fault) }
{
    let names = codes_at(alloc, cards.act_codes(), acts)?;
    let row = act_card(cards, acts[0]).row;
    Ok(Fault::new(row, 27, Detail::Names(names)))
}
