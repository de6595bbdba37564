//! The examples in the doc comments of `Session::begin` and `run`: each function has the lines that the comment shows,
//! and each test sees that they return true. `tests/docs/examples.py` compares them.
ghost use Rattle.std.specs.Prelude.{◌≤◌, length};
ghost use Rattle.pc_crash.specs.inside.Steps.{IsBlankOf};

use crate::testing::WHOLE;
use pc_crash::Steps;
use pc_deck::read_cards;
use pc_edges::{MemSink, MemSource};
use pc_project::{Project, project_of};
use pc_whatif::Session;
use pert_cli::run;
use std::alloc::Global;
use std::marker::Brand;
use std::sync::ledger::{Blank, Ledger};

fn answer_lines<L: Ledger>(alloc: Global, project: &Project, blank: Blank) -> Option<bool>
    requires { IsBlankOf L.name L.parts blank.name blank.parts }
{
    let mut session = Session::begin(alloc, project).ok()?;
    let mut out = MemSink::new(alloc, 1000, 1000, &[]).ok()?;
    let mut steps = Steps::<L>::new(blank);
    // The first is an edit: each unit less of activity A costs 9.
    session.answer(b"SLOPE A 9", &mut out, &mut steps).ok()?;
    session.answer(b"CURVE", &mut out, &mut steps).ok()?;
    Some(out.bytes() == b"OK\n9 45 5\n7 55 11\n5 77 -\n".as_slice())
}

/// The answers on the project of a deck, or none if the deck is refused.
fn answer_lines_on(alloc: Global, deck: &[u8]) -> Option<bool>
    requires { length deck.now ≤ 1000 }
{
    let cards = read_cards(alloc, deck).ok()?;
    let project = project_of(alloc, cards).ok()?;
    let are_answered = answer_lines::<Brand>(alloc, &project, Blank::new(1));
    // (dropped in one place, since a function that drops a project is long to prove)
    drop(project);
    are_answered
}

#[test]
fn answers_lines(rt: HostRuntime) {
    assert!(rt; answer_lines_on(rt.alloc(), WHOLE.as_bytes()) == Some(true));
}

fn run_on_a_deck(alloc: Global) -> Option<bool> {
    let deck = b"PROJECT,E1,S,T,2024-01-01,1,,\nWBS,1,,\nEVENT,S,\nEVENT,T,\n\
ACT,DIG,S,T,1,3,4,5,4,2,10,3,\nACCT,X,1,10,\nEND\n";
    let words = ["curve".to_string(alloc).ok()?];
    let mut source = MemSource::new(alloc, deck, 4096, &[]).ok()?;
    let mut out = MemSink::new(alloc, 1000, 1000, &[]).ok()?;
    let mut err = MemSink::new(alloc, 1000, 1000, &[]).ok()?;
    let status = run(alloc, &words, &mut source, &mut out, &mut err);
    Some(status == 0 && out.bytes() == b"4 10 3\n2 16 -\n".as_slice())
}

#[test]
fn runs_on_a_deck(rt: HostRuntime) {
    assert!(rt; run_on_a_deck(rt.alloc()) == Some(true));
}
