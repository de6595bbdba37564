//! The top call of `pert_check`.
ghost use Rattle.std.specs.Prelude.{◌≡◌, ◌≢◌, ℕ, List, ◌+◌, ◌≤◌, ◌⊎◌, length, IfSome};
ghost use Rattle.pc_check.specs.declared.checker.Verdict.{Verdict as TheVerdict};
ghost use Rattle.pc_check.specs.declared.checker.Verdict.TheVariants.{Yes, No};
ghost use Rattle.pc_deck.specs.Limits.{longest_deck};
ghost use Rattle.pc_edges.specs.Pulls.{IsReadWithin, TakesPulls};
ghost use Rattle.pc_edges.specs.declared.loading.TheConstants.{STREAM_ROOM};
ghost use Rattle.pc_check.specs.Auditing.{most_bytes};
ghost use Rattle.pc_check.specs.OwnLines.{KeepsToOwnLines};
ghost use Rattle.pc_project.specs.Project.{Project as TheProject};
ghost use Rattle.pc_audit.specs.Certificate.{
  KeepsToOwnLinesFor,
  check_usage_text,
  Certifies,
  FailsAsCertificate,
  HasVerdict,
  ProvesCurve,
};
ghost use Rattle.pc_audit.specs.inside.Certificate.{CheckEndsWith};
ghost use Rattle.pc_audit.specs.CheckOutcome.{IsChecked, IsCheckCut, IsUnread, OfBoth};
ghost use Rattle.pc_audit.specs.inside.CheckOutcome.{CheckOutcome};
ghost use Rattle.pc_project.specs.shell.OneWord.{IsDeckRefused, IsOneWord};
ghost use Rattle.pc_project.specs.shell.Priced.{priced_in};
ghost use Rattle.pc_project.specs.shell.Sides.{pulled_side, side, HadNoFault, IsReadToEnd, OfBytes, Took};
ghost use Rattle.pc_project.specs.shell.Verdict.{AcceptedBy, IsProjectOf, RefusedBy};

use crate::telling::tell;
use pc_check::{AuditError, audit_source};
use pc_edges::{Sink, Source};
use pc_project::Project;
use pc_project::shell::{Status, project_named};
use std::alloc::Global;

/// The usage line.
const USAGE: &[u8] = b"usage: pert_check DECK\n";

/// Runs `pert_check`: reads a deck from `deck` and a certificate of its project's time-cost curve from `cert`, writes
/// on `out` whether the certificate is right, or on `err` why there is no verdict, and returns the status with which
/// the program ends.
///
/// There is one word, the deck's name. The order is: the words, the complete deck, its faults, all memory, the
/// certificate, and then the line of the verdict and a flush. The certificate may have any length: it is read in
/// pieces, each is used before the next is pulled, and reading stops at the first failing line.
pub fn check_run<D: Source, C: Source, O: Sink, E: Sink>(
    alloc: Global,
    words: &[String],
    deck: &mut D,
    cert: &mut C,
    out: &mut O,
    err: &mut E,
) -> u8
    ensures statuses { result ≤ 6 }

    // 0: the deck is accepted, the certificate is a certified one of its project, and `out` took the line that says so
    // with the number of its segments. Both were read to their ends. No pull of the certificate failed, each but the
    // last gave at least one byte, and the last found the end (`settled`).
    ensures certified { result ≡ 0 → (segments : ℕ) × IsChecked words.now (side D.left D.faults deck.old deck.new)
        (pulled_side C.left C.faults C.pulls cert.old cert.new) (side O.taken O.faults out.old out.new) (Yes segments) }
    ensures certified_read { result ≡ 0 → IsReadToEnd (pulled_side C.left C.faults C.pulls cert.old cert.new) }
    ensures certified_only { result ≡ 0 → err.new ≡ err.old }

    // The headline: at 0 the certificate states the complete curve, and for every length between the all-crash and the
    // all-normal length its reading is a cheapest schedule.
    ensures headline { result ≡ 0 → OfBoth (side D.left D.faults deck.old deck.new)
        (pulled_side C.left C.faults C.pulls cert.old cert.new) ProvesCurve }

    // 6: the deck is accepted, the certificate has a first failing point, and `out` took the line that names it.
    // No pull of the certificate failed, each but the last gave at least one byte, and nothing is pulled after the pull
    // in which that point's line ends (`settled`). `write_fault` promises the same of a truncated verdict.
    ensures not_certified { result ≡ 6 → (line reason : ℕ) × IsChecked words.now
        (side D.left D.faults deck.old deck.new)
        (pulled_side C.left C.faults C.pulls cert.old cert.new)
        (side O.taken O.faults out.old out.new) (No line reason) }
    ensures not_certified_only { result ≡ 6 → err.new ≡ err.old }

    // 1: the deck is refused, and `err` took the line of its fault. Of the certificate nothing was read.
    ensures refused { result ≡ 1 → IsDeckRefused words.now (side D.left D.faults deck.old deck.new)
        (side E.taken E.faults err.old err.new) }
    ensures refused_read { result ≡ 1 → OfBytes (side D.left D.faults deck.old deck.new)
        (λ bytes. length bytes ≤ longest_deck → IsReadToEnd (side D.left D.faults deck.old deck.new)) }
    ensures refused_only { result ≡ 1 → (cert.new ≡ cert.old) × (out.new ≡ out.old) }

    // 2: there is not one word, and `err` took the usage line. Nothing was read.
    ensures not_one_word { result ≡ 2 → IsOneWord words.now → ⊥ }
    ensures usage { result ≡ 2 → Took (side E.taken E.faults err.old err.new) check_usage_text }
    ensures usage_unread { result ≡ 2 → (deck.new ≡ deck.old) × (cert.new ≡ cert.old) }
    ensures usage_only { result ≡ 2 → out.new ≡ out.old }

    // 3: nothing of the certificate was read, and nothing was written. Tests show that this status means that memory
    // ran out.
    ensures no_memory { result ≡ 3 → (cert.new ≡ cert.old) × (out.new ≡ out.old) × (err.new ≡ err.old) }

    // 4: the deck could not be read, and no more of it was taken than a deck may have; or the certificate could not be
    // read before any line of it failed, and nothing is pulled after the pull that failed.
    ensures read_fault { result ≡ 4 → IsUnread (side D.left D.faults deck.old deck.new)
        (pulled_side C.left C.faults C.pulls cert.old cert.new) }
    ensures read_fault_only { result ≡ 4 → (out.new ≡ out.old) × (err.new ≡ err.old) }

    // 5: a fault of `out` or `err` came in the verdict, the line of a fault or the usage line.
    ensures write_fault { result ≡ 5 → IsCheckCut words.now (side D.left D.faults deck.old deck.new)
        (pulled_side C.left C.faults C.pulls cert.old cert.new)
        (side O.taken O.faults out.old out.new) (side E.taken E.faults err.old err.new) }

    // Each status but 2 and 5 is returned only if there is one word.
    ensures one_word { result ≢ 2 → result ≢ 5 → IsOneWord words.now }

    // No certificate is both certified and failing for one deck, each has one first failing point, and no deck is both
    // accepted and refused.
    ensures one_verdict { (bytes text : List ℕ) → Certifies bytes text → FailsAsCertificate bytes text → ⊥ }
    ensures one_finding { (bytes text : List ℕ) (verdict other : TheVerdict) → HasVerdict bytes text verdict
        → HasVerdict bytes text other → verdict ≡ other }
    ensures one_deck_verdict { (bytes : List ℕ) → AcceptedBy bytes → RefusedBy bytes → ⊥ }

    // Without a read fault, a deck that is not refused is accepted, or the status is 3.
    ensures acceptance { IsOneWord words.now → HadNoFault (side D.left D.faults deck.old deck.new)
        → OfBytes (side D.left D.faults deck.old deck.new)
        (λ bytes. (RefusedBy bytes → ⊥) → AcceptedBy bytes ⊎ (result ≡ 3)) }

    // If no source or sink fails, the words, the deck and the certificate decide, unless the status is 3.
    ensures words_refused { (IsOneWord words.now → ⊥) → HadNoFault (side E.taken E.faults err.old err.new)
        → result ≡ 2 }
    ensures deck_refused { IsOneWord words.now → OfBytes (side D.left D.faults deck.old deck.new)
        (λ bytes. RefusedBy bytes → HadNoFault (side D.left D.faults deck.old deck.new)
        → HadNoFault (side E.taken E.faults err.old err.new) → (result ≡ 1) ⊎ (result ≡ 3)) }
    ensures certificate_right { IsOneWord words.now → OfBoth (side D.left D.faults deck.old deck.new)
        (pulled_side C.left C.faults C.pulls cert.old cert.new)
        (λ bytes text. Certifies bytes text
        → HadNoFault (side D.left D.faults deck.old deck.new)
        → HadNoFault (pulled_side C.left C.faults C.pulls cert.old cert.new)
        → HadNoFault (side O.taken O.faults out.old out.new) → (result ≡ 0) ⊎ (result ≡ 3)) }
    ensures certificate_wrong { IsOneWord words.now → OfBoth (side D.left D.faults deck.old deck.new)
        (pulled_side C.left C.faults C.pulls cert.old cert.new)
        (λ bytes text. AcceptedBy bytes → (Certifies bytes text → ⊥)
        → HadNoFault (side D.left D.faults deck.old deck.new)
        → HadNoFault (pulled_side C.left C.faults C.pulls cert.old cert.new)
        → HadNoFault (side O.taken O.faults out.old out.new) → (result ≡ 6) ⊎ (result ≡ 3)) }

    // However long the deck is, nothing of it is pulled after the pull that passes the longest deck, ends it or fails,
    // and each pull before that one gave at least one byte.
    ensures deck_stops { IsReadWithin longest_deck STREAM_ROOM D.left D.faults D.pulls deck.old deck.new }

    // However long the certificate is, the pulls from it are bounded by the deck's project, and by the certificate's
    // own first upper end: by the lines of the header and the walks, of as many segments as that is long, or of one if
    // it is 0, and two more.
    ensures turns { OfBytes (side D.left D.faults deck.old deck.new)
        (λ bytes. (project : TheProject) → IsProjectOf bytes project
        → TakesPulls (most_bytes (priced_in project) + 1) (C.pulls cert.old) (C.pulls cert.new)) }
    ensures own_turns { OfBoth (side D.left D.faults deck.old deck.new)
        (pulled_side C.left C.faults C.pulls cert.old cert.new)
        (KeepsToOwnLinesFor (C.pulls cert.old) (C.pulls cert.new)) }
{
    check_outcome(alloc, words, deck, cert, out, err).code()
}

/// Checks a certificate of a deck, and returns how that ended.
fn check_outcome<D: Source, C: Source, O: Sink, E: Sink>(
    alloc: Global,
    words: &[String],
    deck: &mut D,
    cert: &mut C,
    out: &mut O,
    err: &mut E,
) -> Status
    ensures outcome { CheckOutcome words.now (side D.left D.faults deck.old deck.new)
        (pulled_side C.left C.faults C.pulls cert.old cert.new)
        (side O.taken O.faults out.old out.new) (side E.taken E.faults err.old err.new) result }
    ensures turns { OfBytes (side D.left D.faults deck.old deck.new)
        (λ bytes. (project : TheProject) → IsProjectOf bytes project
        → TakesPulls (most_bytes (priced_in project) + 1) (C.pulls cert.old) (C.pulls cert.new)) }
    ensures own_turns { OfBoth (side D.left D.faults deck.old deck.new)
        (pulled_side C.left C.faults C.pulls cert.old cert.new)
        (KeepsToOwnLinesFor (C.pulls cert.old) (C.pulls cert.new)) }
    ensures deck_stops { IsReadWithin longest_deck STREAM_ROOM D.left D.faults D.pulls deck.old deck.new }
{
    match project_named(alloc, words, USAGE, deck, err) {
        Ok(project) => check(alloc, &project, cert, out),
        Err(status) => status,
    }
}

/// Checks a certificate of a project and writes the verdict on `out`.
fn check<C: Source, O: Sink>(alloc: Global, project: &Project, cert: &mut C, out: &mut O) -> Status
    ensures answered { CheckEndsWith project.now (pulled_side C.left C.faults C.pulls cert.old cert.new)
        (side O.taken O.faults out.old out.new) result }
    ensures turns { TakesPulls (most_bytes (priced_in project.now) + 1) (C.pulls cert.old) (C.pulls cert.new) }
    ensures own_turns { IfSome (C.left cert.old)
        (λ text. KeepsToOwnLines (priced_in project.now) text (C.pulls cert.old) (C.pulls cert.new)) }
{
    let Ok(net) = project.priced(alloc) else {
        return Status::OutOfMemory;
    };
    match audit_source(alloc, &net, cert) {
        Ok(verdict) => tell(verdict, out),
        Err(AuditError::ReadFault) => Status::ReadFault,
        Err(AuditError::OutOfMemory) => Status::OutOfMemory,
    }
}
