//! The benchmark's deck of four activities and the figures of its curve, both worked by hand.
ghost use Rattle.std.specs.Prelude.{◌≡◌, ◌≤◌, [], length, IfSome};
ghost use Rattle.pc_crash.specs.inside.Steps.{IsBlankOf};

use crate::curves::solver;
use pc_crash::{CrashNet, Steps, Term};
use pc_curve::bench::{bench_deck, put_bench};
use pc_edges::MemSink;
use pc_edges::page::Page;
use pc_net::{Arc, Net};
use pc_text::Code;
use std::alloc::{AllocError, Global};
use std::marker::Brand;
use std::sync::ledger::{Blank, Ledger};

const FOUR: &[u8] = b"PROJECT,BENCH,E0,E2,2024-01-01,1,,Bench
WBS,1,,Bench
EVENT,E0,
EVENT,E1,
EVENT,E2,
ACT,A1,E0,E1,1,15,15,15,15,12,73,5,
ACT,A2,E1,E2,1,13,13,13,13,1,24,2,
ACT,A3,E1,E2,1,9,9,9,9,6,30,7,
ACT,A4,E0,E2,1,28,28,28,28,11,84,3,
ACCT,X,1,211,
END
";

/// Whether this is the deck of `n` activities.
fn is_deck(alloc: Global, n: u64, text: &[u8]) -> bool
    requires least { 1 ≤ n }
    requires most { n ≤ 4000 }
{
    match bench_deck(alloc, n) {
        Ok(deck) => deck.as_slice() == text,
        Err(_) => false,
    }
}

#[test]
fn deck_of_four(rt: HostRuntime) {
    assert!(rt; is_deck(rt.alloc(), 4, FOUR));
}

fn net_of_four(alloc: Global) -> Option<Net>
    ensures events { IfSome result (λ net. net.events ≡ 3) }
    ensures activities { IfSome result (λ net. length net.arcs ≡ 4) }
{
    let arcs = [
        Arc { from: 0, to: 1 },
        Arc { from: 1, to: 2 },
        Arc { from: 1, to: 2 },
        Arc { from: 0, to: 2 },
    ];
    Net::build(alloc, 3, 0, 2, &arcs).ok()
}

const TERMS: [Term; 4] = [
    Term {
        normal: 15,
        crash: 12,
        cost: 73,
        slope: 5,
    },
    Term {
        normal: 13,
        crash: 1,
        cost: 24,
        slope: 2,
    },
    Term {
        normal: 9,
        crash: 6,
        cost: 30,
        slope: 7,
    },
    Term {
        normal: 28,
        crash: 11,
        cost: 84,
        slope: 3,
    },
];

fn priced_of_four<'n>(alloc: Global, net: &'n Net) -> Option<CrashNet<'n>>
    requires events { net.now.events ≡ 3 }
    requires activities { length net.now.arcs ≡ 4 }
    ensures { IfSome result (λ priced. priced.pieces ≡ []) }
{
    let (a, b, c) = (Code::read(b"A")?, Code::read(b"B")?, Code::read(b"C")?);
    let d = Code::read(b"D")?;
    CrashNet::build(alloc, net, &TERMS, &[], a, &[a, b, c], &[a, b, c, d]).ok()
}

/// Whether just this is said of the curve of a network without pieces.
fn says<L: Ledger>(
    alloc: Global,
    net: &CrashNet<'_>,
    text: &[u8],
    blank: Blank,
) -> Result<bool, AllocError>
    requires blank { IsBlankOf L.name L.parts blank.name blank.parts }
    requires pieces { net.now.pieces ≡ [] }
{
    let mut steps = Steps::<L>::new(blank);
    let mut solver = solver(alloc, net)?;
    let mut page = Page::with_capacity(alloc, 200)?;
    let mut sink = MemSink::new(alloc, 200, 200, &[])?;
    put_bench(&mut page, &mut sink, 4, &mut solver, &mut steps);
    Ok(page.finish(&mut sink).is_ok() && sink.bytes() == text)
}

fn says_of_four(alloc: Global, text: &[u8]) -> Option<bool> {
    let net = net_of_four(alloc)?;
    let priced = priced_of_four(alloc, &net)?;
    says::<Brand>(alloc, &priced, text, Blank::new(1)).ok()
}

#[test]
fn curve_of_four(rt: HostRuntime) {
    let text = b"BENCH 4\nNORMAL 28 211\nCRASH 18 291\nBREAKS 4\nSUM 2683\n";
    assert!(rt; says_of_four(rt.alloc(), text) == Some(true));
}
