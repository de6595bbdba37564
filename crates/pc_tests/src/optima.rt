//! What time costs, and the length for which the small network costs least in all.
ghost use Rattle.std.specs.Prelude.{◌≤◌, length};
ghost use Rattle.pc_model.specs.TimeCost.{AreTimeTerms};
ghost use Rattle.pc_crash.specs.inside.Steps.{IsBlankOf};

use crate::curves::solver;
use crate::small::{small_net, small_priced};
use pc_crash::{CrashNet, Steps};
use pc_edges::MemSink;
use pc_edges::page::Page;
use pc_model::TimeTerms;
use pc_text::Code;
use pc_total::{Best, best, put_best, time_cost};
use std::alloc::{AllocError, Global};
use std::marker::Brand;
use std::sync::ledger::{Blank, Ledger};

/// Overhead, and a target of 6 units with a bonus and a penalty.
const TERMS: TimeTerms = TimeTerms {
    overhead: 4,
    target: 6,
    bonus: 2,
    penalty: 10,
};

#[test]
fn time_costs(rt: HostRuntime) {
    let dear = TimeTerms {
        overhead: 1,
        target: 10,
        bonus: 5,
        penalty: 3,
    };
    let costs = [
        time_cost(&TERMS, 9),
        time_cost(&TERMS, 6),
        time_cost(&TERMS, 5),
        time_cost(&dear, 2),
    ];
    assert!(rt; costs == [66, 24, 18, -38]);
}

/// The optimum for these terms.
fn optimum<L: Ledger>(
    alloc: Global,
    net: &CrashNet<'_>,
    terms: &TimeTerms,
    blank: Blank,
) -> Result<Best, AllocError>
    requires blank { IsBlankOf L.name L.parts blank.name blank.parts }
    requires pieces { length net.now.pieces ≤ 1 }
    requires terms { AreTimeTerms terms.now }
{
    let mut steps = Steps::<L>::new(blank);
    let mut solver = solver(alloc, net)?;
    Ok(best(&mut solver, terms, &mut steps))
}

fn small_optimum(alloc: Global) -> Option<Best> {
    let net = small_net(alloc)?;
    let priced = small_priced(alloc, &net)?;
    optimum::<Brand>(alloc, &priced, &TERMS, Blank::new(1)).ok()
}

/// In all, the lengths from 9 down to 5 cost 111, 100, 91, 84 and 86.
const BEST: Best = Best {
    length: 6,
    direct: 60,
    time: 24,
    total: 84,
    below: Some(2),
    above: Some(7),
};

#[test]
fn optimum_of_pieces(rt: HostRuntime) {
    assert!(rt; small_optimum(rt.alloc()) == Some(BEST));
}

/// Whether just this text is put of an optimum.
fn is_put(alloc: Global, best: &Best, text: &[u8]) -> Option<bool> {
    let code = Code::read(b"A")?;
    let mut page = Page::with_capacity(alloc, 200).ok()?;
    let mut sink = MemSink::new(alloc, 200, 200, &[]).ok()?;
    put_best(&mut page, &mut sink, &code, best);
    let finished = page.finish(&mut sink);
    Some(finished.is_ok() && sink.bytes() == text)
}

#[test]
fn text_of_an_optimum(rt: HostRuntime) {
    let text = b"OPTIMUM A\nLENGTH 6\nDIRECT 60\nTIME 24\nTOTAL 84\nBELOW 2\nABOVE 7\n";
    assert!(rt; is_put(rt.alloc(), &BEST, text) == Some(true));
    let end = Best {
        time: -38,
        total: 22,
        above: None,
        ..BEST
    };
    let text = b"OPTIMUM A\nLENGTH 6\nDIRECT 60\nTIME -38\nTOTAL 22\nBELOW 2\nABOVE -\n";
    assert!(rt; is_put(rt.alloc(), &end, text) == Some(true));
}
