//! Reading and checking the text of a certificate, in pieces or from a source.
ghost use Rattle.std.specs.Prelude.{
  ◌≡◌,
  ℕ,
  ◌<◌,
  ◌≤◌,
  List,
  [],
  ◌++◌,
  length,
  IfOk,
  IfSome,
  IfNone,
  ◌+◌,
  OnOk,
  OnErr,
  IsErrOf,
};
ghost use Rattle.pc_check.specs.Texts.{IsFailing, Finds};
ghost use Rattle.pc_check.specs.Auditing.{most_bytes};
ghost use Rattle.pc_check.specs.inside.Auditing.{HasRead, HasUsed, IsOngoingAudit, MayUse, audit_bytes_left};
ghost use Rattle.std.specs.Io.KnownBytes.{IsAtEnd};
ghost use Rattle.pc_edges.specs.Faults.{Rose};
ghost use Rattle.pc_edges.specs.Pulls.{TakesPulls};
ghost use Rattle.pc_check.specs.inside.Certified.{OnYes};
ghost use Rattle.pc_check.specs.Stops.{IsSettled, IsUnsettled};
ghost use Rattle.pc_edges.specs.declared.loading.TheConstants.{STREAM_ROOM};
ghost use Rattle.pc_check.specs.OwnLines.{KeepsToOwnLines};

use crate::checker::{Checker, Fail, Verdict};
use pc_cert::{CertReader, KnownLine};
use pc_crash::CrashNet;
use pc_edges::{STREAM_ROOM, Source};
use std::alloc::{AllocError, Global};
use std::marker::Model;
use thiserror::Error;

/// A reader of a certificate's text with a checker of its lines.
#[derive(Drop)]
pub struct Audit<'n> {
    reader: CertReader,
    checker: Checker<'n>,
    /// the line that was read last
    known: KnownLine,
}

impl<'n> Model for Audit<'n> {
    ghost use Rattle.pc_check.specs.inside.Auditing.{Auditing};

    ghost Value = { Auditing };

    ghost view = { λ a. record { reader = a.reader; checker = a.checker } };
}

impl<'n> Audit<'n> {
    /// Returns an audit before the first byte of a text. It allocates all its memory here, linear in events and
    /// activities.
    ///
    /// # Errors
    ///
    /// `AllocError` if out of memory.
    pub fn build(alloc: Global, net: &'n CrashNet<'n>) -> Result<Audit<'n>, AllocError>
        ensures read { IfOk result (HasRead []) }
        ensures going { IfOk result IsOngoingAudit }
        ensures net { IfOk result (λ audit. audit.checker.net ≡ net.now) }
        ensures left { IfOk result (λ audit. audit_bytes_left audit ≤ most_bytes net.now) }
    {
        Ok(Audit {
            reader: CertReader::begin(),
            checker: Checker::begin(alloc, net)?,
            known: KnownLine::new(),
        })
    }

    /// Reads and checks the next piece of the text, and returns the failure if there is one.
    ///
    /// It is the first failure of the text, however the text continues. Its reason is 0 if the line is malformed.
    pub fn feed(&mut self, piece: &[u8]) -> Option<Fail>
        requires read { (text : List ℕ) × HasRead text self.old }
        requires going { IsOngoingAudit self.old }
        ensures goes_on { IfNone result ((text : List ℕ) → HasRead text self.old →
            HasRead (text ++ piece.now) self.new) }
        ensures going { IfNone result (IsOngoingAudit self.new) }
        ensures fails { IfSome result (λ fail. (text more : List ℕ) → HasRead text self.old →
            IsFailing self.old.checker.net (text ++ (piece.now ++ more)) fail) }
        ensures net { self.new.checker.net ≡ self.old.checker.net }
        ensures left { IfNone result (0 < length piece.now → audit_bytes_left self.new < audit_bytes_left self.old) }
    {
        let mut rest = piece;
        while !rest.is_empty() {
            match self.step(rest) {
                Ok(used) => rest = &rest[used..],
                Err(fail) => return Some(fail),
            }
        }
        None
    }

    /// Uses the piece up to the end of one line, or of several rows.
    #[inline(always)]
    fn step(&mut self, piece: &[u8]) -> Result<usize, Fail>
        requires { MayUse piece.now self.old }
        ensures { HasUsed piece.now self.old self.new result }
    {
        let used = self.checker.take_rows(&mut self.reader, piece);
        if 0 < used {
            return Ok(used);
        }
        self.take_line(piece)
    }

    /// Uses the piece up to the end of one line, of any kind.
    fn take_line(&mut self, piece: &[u8]) -> Result<usize, Fail>
        requires { MayUse piece.now self.old }
        ensures { HasUsed piece.now self.old self.new result }
    {
        let used = match self.reader.feed_known(piece, &mut self.known) {
            Ok(used) => used,
            Err(malformed) => {
                return Err(Fail {
                    line: malformed.line,
                    reason: 0,
                });
            }
        };
        let Some(line) = self.known.line() else {
            return Ok(used);
        };
        let place = self.reader.place();
        if let Some(fail) = self.checker.take_known(&self.known, line, place) {
            return Err(fail);
        }
        Ok(used)
    }

    /// Returns the verdict on the text, which was read to its end.
    pub fn finish(self) -> Verdict
        requires read { (text : List ℕ) × HasRead text self }
        requires going { IsOngoingAudit self }
        ensures { (text : List ℕ) → HasRead text self.entry → Finds self.entry.checker.net text result }
    {
        match self.reader.finish() {
            Ok(()) => self.checker.finish(),
            Err(malformed) => Verdict::No {
                line: malformed.line,
                reason: 0,
            },
        }
    }
}

/// The reason why a source was not audited.
#[derive(Clone, Copy, Debug, Error)]
pub enum AuditError {
    #[error("the certificate could not be read")]
    ReadFault,
    #[error("out of memory")]
    OutOfMemory,
}

/// Returns the verdict on the text of a source: it is a certificate of the network, or it fails first at this point.
///
/// All memory is allocated before the first pull, and its amount does not depend on the text. Each piece is used before
/// the next pull. Nothing is pulled after the piece in which the first failing line ends, after a pull that gave no
/// byte, or after one that failed. A text has no limit of its own: the network bounds the lines of a text that does not
/// fail, so a source that never ends is refused.
///
/// # Errors
///
/// - `AuditError::ReadFault` if a pull fails before any line has failed.
/// - `AuditError::OutOfMemory` if out of memory; nothing was pulled then.
///
/// # Examples
///
/// `net` is a `CrashNet` of one activity, A, from event A to event B. It lasts 3 units, costs 7 and cannot be cut.
///
/// ```
/// let text = b"CERT 1 A 2 1\nNORMAL\nSTEP A\nCRASH\nSTEP A\nSEGMENT 3 3 7 0\n\
/// EVENT A 0 0\nEVENT B 3 0\nACT A 3 0 0\nCLOSE\nEND\n";
/// let mut source = MemSource::new(alloc, text, 4096, &[]).ok()?;
/// let verdict = audit_source(alloc, net, &mut source).ok()?;
/// Some(verdict == Verdict::Yes { segments: 1 })
/// ```
///
/// These are the lines of `pc_low_tests::examples::audit_a_text`. A test sees that it returns `Some(true)`.
pub fn audit_source<C: Source>(
    alloc: Global,
    net: &CrashNet<'_>,
    source: &mut C,
) -> Result<Verdict, AuditError>
    ensures finds { IfOk result (λ verdict. IfSome (C.left source.old) (λ text. Finds net.now text verdict)) }
    // nothing is pulled after the failing line, or after the end, and each pull before the last gave at least one byte
    ensures stops { IfOk result (λ verdict. IsSettled net.now verdict STREAM_ROOM C.left C.faults C.pulls source.old
        source.new) }
    ensures end { IfOk result (λ verdict. OnYes verdict (IsAtEnd (C.left source.new))) }
    ensures no_fault { OnOk result (C.faults source.new ≡ C.faults source.old) }
    ensures fault { IsErrOf result AuditError.ReadFault → Rose (C.faults source.old) (C.faults source.new) }
    // a fault counts only if no line has failed before it, and nothing is pulled after it
    ensures unsettled { IsErrOf result AuditError.ReadFault → IsUnsettled net.now C.left C.faults C.pulls source.old
        source.new }
    ensures no_room { IsErrOf result AuditError.OutOfMemory → source.new ≡ source.old }
    ensures count { C.faults source.old ≤ C.faults source.new }
    // the pulls are bounded by the network, and by the first upper end of the text's own segments
    ensures turns { TakesPulls (most_bytes net.now + 1) (C.pulls source.old) (C.pulls source.new) }
    ensures own_turns { IfSome (C.left source.old)
        (λ text. KeepsToOwnLines net.now text (C.pulls source.old) (C.pulls source.new)) }
{
    let Ok(audit) = Audit::build(alloc, net) else {
        return Err(AuditError::OutOfMemory);
    };
    let Ok(mut buffer) = vec![in alloc; 0u8; STREAM_ROOM] else {
        return Err(AuditError::OutOfMemory);
    };
    audit_by(audit, source, buffer.as_mut_slice())
}

/// As `audit_source`, by pulls into `buffer`.
fn audit_by<C: Source>(
    mut audit: Audit<'_>,
    source: &mut C,
    buffer: &mut [u8],
) -> Result<Verdict, AuditError>
    requires room { length buffer.old ≡ STREAM_ROOM }
    requires read { HasRead [] audit }
    requires going { IsOngoingAudit audit }
    ensures finds { IfOk result (λ verdict. IfSome (C.left source.old)
        (λ text. Finds audit.entry.checker.net text verdict)) }
    ensures stops { IfOk result (λ verdict. IsSettled audit.entry.checker.net verdict STREAM_ROOM C.left C.faults
        C.pulls source.old source.new) }
    ensures end { IfOk result (λ verdict. OnYes verdict (IsAtEnd (C.left source.new))) }
    ensures no_fault { OnOk result (C.faults source.new ≡ C.faults source.old) }
    ensures fault { IsErrOf result AuditError.ReadFault → Rose (C.faults source.old) (C.faults source.new) }
    ensures unsettled { OnErr result (IsUnsettled audit.entry.checker.net C.left C.faults C.pulls source.old
        source.new) }
    ensures room { IsErrOf result AuditError.OutOfMemory → ⊥ }
    ensures count { C.faults source.old ≤ C.faults source.new }
    ensures turns { TakesPulls (audit_bytes_left audit.entry + 1) (C.pulls source.old) (C.pulls source.new) }
{
    loop {
        let Ok(n) = source.pull(buffer) else {
            return Err(AuditError::ReadFault);
        };
        if n == 0 {
            return Ok(audit.finish());
        }
        if let Some(fail) = audit.feed(&buffer[..n]) {
            return Ok(Verdict::No {
                line: fail.line,
                reason: fail.reason,
            });
        }
    }
}
