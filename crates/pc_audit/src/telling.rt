//! The line of a verdict on a certificate.
ghost use Rattle.std.specs.Prelude.{◌≡◌, ◌+◌, ◌≤◌, ◌++◌, length};
ghost use Rattle.pc_audit.specs.Certificate.{certified_text, failing_text, verdict_text};
ghost use Rattle.pc_audit.specs.inside.Certificate.{Told, status_for};
ghost use Rattle.pc_project.specs.shell.Sides.{side};

use arrayvec::ArrayVec;
use pc_check::Verdict;
use pc_edges::{Failed, Sink};
use pc_project::shell::{Status, send};
use pc_text::digits;

/// The capacity of the line, in bytes.
const VERDICT_ROOM: usize = 80;

/// Writes a verdict on `out` and returns the status. Takes no memory.
pub(crate) fn tell<O: Sink>(verdict: Verdict, out: &mut O) -> Status
    ensures { Told verdict (side O.taken O.faults out.old out.new) result }
{
    match send(out, verdict_line(verdict).as_slice()) {
        Ok(()) => status_for(verdict),
        Err(Failed) => Status::WriteFault,
    }
}

/// Returns the status of a verdict that was written.
fn status_for(verdict: Verdict) -> Status
    ensures { result ≡ status_for verdict }
{
    match verdict {
        Verdict::Yes { .. } => Status::Done,
        Verdict::No { .. } => Status::NotCertified,
    }
}

fn verdict_line(verdict: Verdict) -> ArrayVec<u8, VERDICT_ROOM>
    ensures { result.items ≡ verdict_text verdict }
{
    match verdict {
        Verdict::Yes { segments } => certified_line(segments),
        Verdict::No { line, reason } => failing_line(line, reason),
    }
}

/// Returns the line for a certified certificate with this many segments.
fn certified_line(segments: u64) -> ArrayVec<u8, VERDICT_ROOM>
    ensures { result.items ≡ certified_text segments }
{
    let mut line = ArrayVec::new();
    put(&mut line, b"certified ");
    put(&mut line, digits(segments).bytes());
    put(&mut line, b"\n");
    line
}

/// Returns the line that names the first failing point of a certificate.
fn failing_line(number: u64, reason: u8) -> ArrayVec<u8, VERDICT_ROOM>
    ensures { result.items ≡ failing_text number reason }
{
    let mut line = ArrayVec::new();
    put(&mut line, b"not certified line ");
    put(&mut line, digits(number).bytes());
    put(&mut line, b" reason ");
    put(&mut line, digits(u64::from(reason)).bytes());
    put(&mut line, b"\n");
    line
}

/// Appends a piece to the line.
fn put(line: &mut ArrayVec<u8, VERDICT_ROOM>, piece: &[u8])
    requires { length line.old.items + length piece.now ≤ VERDICT_ROOM }
    ensures { line.new.items ≡ line.old.items ++ piece.now }
{
    line.try_extend_from_slice(piece).unwrap();
}
