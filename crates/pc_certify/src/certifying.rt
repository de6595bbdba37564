//! The call that writes a certificate.
ghost use Rattle.std.specs.Prelude.{◌≡◌, ◌+◌, ◌*◌, ◌≤◌, length, OnOk, IsErrOf};
ghost use Rattle.pc_cells.specs.inside.Spans.{free_of};
ghost use Rattle.pc_certify.specs.inside.Certificate.{TookCertificate, TookFrontOfOne};

use crate::certificate::Certificate;
use pc_cells::Region;
use pc_crash::CrashNet;
use pc_edges::page::{PAGE_ROOM, Page};
use pc_edges::{Failed, Sink};
use std::alloc::Global;
use thiserror::Error;

/// The reason why a certificate was not written, or not completely.
#[derive(Clone, Copy, Debug, Error)]
pub enum CertifyError {
    #[error("the certificate could not be written")]
    WriteFault,
    #[error("out of memory")]
    OutOfMemory,
}

/// Writes the certificate of a network, and flushes the sink: the complete time-cost curve, from the all-normal length
/// down to the all-crash length, with its proof.
///
/// All memory is taken before the first byte is written; how much does not depend on the number of segments. The solver
/// works in the free cells of `region`; `pc_flow::cells_needed` returns how many it needs. Each segment is written when
/// it is complete.
///
/// # Errors
///
/// - `WriteFault` if a push or the flush failed. The sink has taken the first bytes of a certificate then, or none.
/// - `OutOfMemory` if there is no memory. Nothing is written then.
///
/// # Source
///
/// Kelley 1961 and Fulkerson 1961 for the curve; the certificate's format is this project's own.
///
/// # Examples
///
/// `net` is a `CrashNet` of three activities: A can be cut from 4 units to 2 at 3 per unit, B, after it, from 5 to 3 at
/// 5 per unit, and C, alongside both, from 7 to 5 at 2 per unit.
///
/// ```
/// let region = Region::with_cells(alloc, cells_needed(3, 3, 0)).ok()?;
/// let mut sink = MemSink::new(alloc, 1000, 1000, &[]).ok()?;
/// let is_written = certify(alloc, net, region, &mut sink).is_ok();
/// Some(is_written && sink.bytes().starts_with(b"CERT 1 E1 3 3\nNORMAL\nSTEP A\n"))
/// ```
///
/// These are the lines of `pc_tests::examples::certify_a_net`. A test sees that it returns `Some(true)`.
pub fn certify<O: Sink>(
    alloc: Global,
    net: &CrashNet<'_>,
    region: Region,
    sink: &mut O,
) -> Result<(), CertifyError>
    requires { 8 * net.now.network.events + 6 * length net.now.network.arcs + 2 * length net.now.pieces + 16
        ≤ free_of region }
    ensures done { OnOk result (TookCertificate net.now (O.taken sink.old) (O.taken sink.new) (O.faults sink.old)
        (O.faults sink.new)) }
    ensures fault { IsErrOf result CertifyError.WriteFault
        → TookFrontOfOne net.now (O.taken sink.old) (O.taken sink.new) (O.faults sink.old) (O.faults sink.new) }
    ensures no_memory { IsErrOf result CertifyError.OutOfMemory → sink.new ≡ sink.old }
{
    let Ok(certificate) = Certificate::build(alloc, net, region) else {
        return Err(CertifyError::OutOfMemory);
    };
    let Ok(mut page) = Page::with_capacity(alloc, PAGE_ROOM) else {
        return Err(CertifyError::OutOfMemory);
    };
    certificate.put_on(&mut page, sink, net);
    match page.finish(sink) {
        Ok(()) => Ok(()),
        Err(Failed) => Err(CertifyError::WriteFault),
    }
}
