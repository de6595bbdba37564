//! A small deck of tasks is read, and the plan of arrows is generated from it.
ghost use Rattle.std.specs.Prelude.{◌≤◌, length};

use pc_deck::read_tasks;
use pc_tasks::arrows_of;
use std::alloc::Global;

const TASKS: &[u8] =
    b"PROJECT,K1,S,T,2024-01-01,1,,Tasks\nWBS,1,,Whole\nWBS,1.1,1,Work\nTASK,A,1.1,4,4,4,4,2,10,3,\n\
TASK,B,1.1,5,5,5,5,3,20,5,\nAFTER,B,A\nACCT,X,1.1,30,\nEND\n";

const ARROWS: &[u8] =
    b"PROJECT,K1,S,T,2024-01-01,1,,Tasks,2\nASOF,2024-01-01\nWBS,1,,Whole\nWBS,1.1,1,Work\n\
WBS,_links,1,\nEVENT,S,\nEVENT,_b1,\nEVENT,_e1,\nEVENT,_b2,\nEVENT,_e2,\nEVENT,T,\n\
ACT,A,_b1,_e1,1.1,4,4,4,4,2,10,3,\nACT,B,_b2,_e2,1.1,5,5,5,5,3,20,5,\n\
ACT,_a1,_e1,_b2,_links,0,0,0,0,0,0,0,\nACT,_s1,S,_b1,_links,0,0,0,0,0,0,0,\n\
ACT,_t2,_e2,T,_links,0,0,0,0,0,0,0,\nACCT,X,1.1,30,\nEND\n";

/// Whether the arrows of the deck of tasks have this text; none where the deck is refused.
fn are_drawn_as(alloc: Global, deck: &[u8], text: &[u8]) -> Option<bool>
    requires { length deck.now ≤ 1000 }
{
    let cards = read_tasks(alloc, deck).ok()?;
    let drawn = arrows_of(alloc, &cards).ok();
    // (dropped in one place, since a function that drops all cards is long to prove)
    drop(cards);
    Some(drawn?.as_slice() == text)
}

#[test]
fn draws_two_tasks(rt: HostRuntime) {
    assert!(rt; are_drawn_as(rt.alloc(), TASKS, ARROWS) == Some(true));
}

#[test]
fn refuses_tasks_in_a_circle(rt: HostRuntime) {
    let deck = b"PROJECT,K1,S,T,2024-01-01,1,,\nWBS,1,,\nWBS,1.1,1,\nTASK,A,1.1,4,4,4,4,2,10,3,\n\
TASK,B,1.1,5,5,5,5,3,20,5,\nAFTER,B,A\nAFTER,A,B\nEND\n";
    assert!(rt; are_drawn_as(rt.alloc(), deck, ARROWS).is_none());
}
