//! The certificate of three activities, as it was worked by hand.
ghost use Rattle.std.specs.Prelude.{◌≡◌, [], length, IfSome};

use crate::small::{TERMS, small_net};
use pc_cells::Region;
use pc_certify::certify;
use pc_crash::CrashNet;
use pc_edges::MemSink;
use pc_flow::cells_needed;
use pc_net::Net;
use pc_text::Code;
use std::alloc::Global;

pub(crate) const TEXT: &[u8] = b"CERT 1 E1 3 3
NORMAL
STEP A
STEP B
CRASH
STEP A
STEP B
SEGMENT 9 7 45 3
EVENT S 0 0
EVENT M 4 1
EVENT T 9 1
ACT A 4 3 0
ACT B 5 3 0
ACT C 7 0 0
CLOSE
SEGMENT 7 5 51 7
EVENT S 0 0
EVENT M 2 0
EVENT T 7 1
ACT A 2 3 2
ACT B 5 5 0
ACT C 7 2 0
CLOSE
END
";

/// The small network without pieces.
pub(crate) fn priced<'n>(alloc: Global, net: &'n Net) -> Option<CrashNet<'n>>
    requires events { net.now.events ≡ 3 }
    requires activities { length net.now.arcs ≡ 3 }
    ensures network { IfSome result (λ priced. priced.network ≡ net.now) }
    ensures pieces { IfSome result (λ priced. priced.pieces ≡ []) }
{
    let (s, m, t) = (Code::read(b"S")?, Code::read(b"M")?, Code::read(b"T")?);
    let (a, b, c) = (Code::read(b"A")?, Code::read(b"B")?, Code::read(b"C")?);
    let project = Code::read(b"E1")?;
    CrashNet::build(alloc, net, &TERMS, &[], project, &[s, m, t], &[a, b, c]).ok()
}

/// Whether just this text is written of a network with three events and activities.
fn is_certified_by(alloc: Global, net: &CrashNet<'_>, text: &[u8]) -> Option<bool>
    requires events { net.now.network.events ≡ 3 }
    requires activities { length net.now.network.arcs ≡ 3 }
    requires pieces { net.now.pieces ≡ [] }
{
    let region = Region::with_cells(alloc, cells_needed(3, 3, 0)).ok()?;
    let mut sink = MemSink::new(alloc, 1000, 1000, &[]).ok()?;
    let written = certify(alloc, net, region, &mut sink);
    Some(written.is_ok() && sink.bytes() == text)
}

fn small_is_certified_by(alloc: Global, text: &[u8]) -> Option<bool> {
    let net = small_net(alloc)?;
    let priced = priced(alloc, &net)?;
    is_certified_by(alloc, &priced, text)
}

#[test]
fn certificate_of_three(rt: HostRuntime) {
    assert!(rt; small_is_certified_by(rt.alloc(), TEXT) == Some(true));
}
