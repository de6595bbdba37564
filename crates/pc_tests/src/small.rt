//! The small network: activities 0 and 1 follow one another over event 1, and activity 2 runs alongside both. The
//! second unit saved of activity 0 costs 6.
ghost use Rattle.std.specs.Prelude.{◌≡◌, length, IfSome};
ghost use Rattle.pc_tests.specs.declared.small.TheConstants.{TERMS};

use pc_crash::{CrashNet, PieceRow, Term};
use pc_net::{Arc, Net};
use pc_text::Code;
use std::alloc::Global;

const ARCS: [Arc; 3] = [
    Arc { from: 0, to: 1 },
    Arc { from: 1, to: 2 },
    Arc { from: 0, to: 2 },
];

pub(crate) const TERMS: [Term; 3] = [
    Term {
        normal: 4,
        crash: 2,
        cost: 10,
        slope: 3,
    },
    Term {
        normal: 5,
        crash: 3,
        cost: 20,
        slope: 5,
    },
    Term {
        normal: 7,
        crash: 5,
        cost: 15,
        slope: 2,
    },
];

const PIECES: [PieceRow; 1] = [PieceRow {
    activity: 0,
    units: 1,
    slope: 6,
}];

/// The network.
pub(crate) fn small_net(alloc: Global) -> Option<Net>
    ensures events { IfSome result (λ net. net.events ≡ 3) }
    ensures activities { IfSome result (λ net. length net.arcs ≡ 3) }
{
    Net::build(alloc, 3, 0, 2, &ARCS).ok()
}

/// The network with its prices. Its project is A, its events and its activities are A, B and C.
pub(crate) fn small_priced<'n>(alloc: Global, net: &'n Net) -> Option<CrashNet<'n>>
    requires events { net.now.events ≡ 3 }
    requires activities { length net.now.arcs ≡ 3 }
    ensures network { IfSome result (λ priced. priced.network ≡ net.now) }
    ensures terms { IfSome result (λ priced. priced.terms ≡ TERMS) }
    ensures pieces { IfSome result (λ priced. length priced.pieces ≡ 1) }
{
    let (a, b, c) = (Code::read(b"A")?, Code::read(b"B")?, Code::read(b"C")?);
    CrashNet::build(alloc, net, &TERMS, &PIECES, a, &[a, b, c], &[a, b, c]).ok()
}
