//! The top call of `pert_whatif`.
ghost use Rattle.std.specs.Prelude.{◌≡◌, ◌≢◌, ℕ, List, ◌+◌, ◌<◌, ◌≤◌, ◌⊎◌, length, IfSome};
ghost use Rattle.pc_deck.specs.Limits.{longest_deck};
ghost use Rattle.pc_edges.specs.Pulls.{IsReadWithin};
ghost use Rattle.pc_edges.specs.declared.loading.TheConstants.{STREAM_ROOM};
ghost use Rattle.pc_edges.specs.lines.Taken.{IsTakenWithin};
ghost use Rattle.pc_edges.specs.declared.lines.reader.TheConstants.{INPUT_LIMIT};
ghost use Rattle.pc_project.specs.shell.OneWord.{IsDeckRefused, IsOneWord};
ghost use Rattle.pc_project.specs.shell.Sides.{side, pulled_side, HadNoFault, IsReadToEnd, OfBytes, Took};
ghost use Rattle.pc_project.specs.shell.Verdict.{AcceptedBy, RefusedBy};
ghost use Rattle.pc_whatif.specs.Heard.{session_usage_text, AnswersOn, IsHeardOut, IsHeardTooLong};
ghost use Rattle.pc_whatif.specs.inside.Hearing.{Hearing, talk_status};
ghost use Rattle.pc_whatif.specs.SessionOutcome.{IsSessionCut, IsSessionUnread};
ghost use Rattle.pc_whatif.specs.inside.SessionOutcome.{SessionOutcome};
ghost use Rattle.pc_whatif.specs.Planning.{AnswersLines};
ghost use Rattle.pc_whatif.specs.Standing.{AnswersInOrder};

use crate::session::Session;
use pc_edges::lines::{LineReader, TalkError, talk};
use pc_edges::{Sink, Source};
use pc_project::Project;
use pc_project::shell::{Status, project_named};
use std::alloc::Global;

/// The usage line.
const USAGE: &[u8] = b"usage: pert_whatif DECK\n";

/// Runs `pert_whatif`: reads a deck from `deck` and answers the lines of `edits` on `out`, each before more is pulled,
/// or writes on `err` why there is no project; returns the status with which the program ends.
///
/// There is one word, the deck's name. The order is: the words, the complete deck, its faults, all memory, and then the
/// lines, to their end.
pub fn session_run<D: Source, C: Source, O: Sink, E: Sink>(
    alloc: Global,
    words: &[String],
    deck: &mut D,
    edits: &mut C,
    out: &mut O,
    err: &mut E,
) -> u8
    ensures statuses { (result ≤ 5) ⊎ (result ≡ 8) }

    // 0: the deck is accepted, the edits were read to their end, and `out` took the answers to all their lines, each on
    // the project as the lines before it left it.
    ensures heard { result ≡ 0 → IsHeardOut AnswersLines (side D.left D.faults deck.old deck.new)
        (pulled_side C.left C.faults C.pulls edits.old edits.new) (side O.taken O.faults out.old out.new) }
    ensures heard_only { result ≡ 0 → err.new ≡ err.old }

    // 8: the deck is accepted, more was taken of the edits than they may have, and `out` took the answers to the
    // complete lines within that.
    ensures too_long { result ≡ 8 → IsHeardTooLong AnswersLines (side D.left D.faults deck.old deck.new)
        (pulled_side C.left C.faults C.pulls edits.old edits.new) (side O.taken O.faults out.old out.new) }
    ensures too_long_only { result ≡ 8 → err.new ≡ err.old }

    // 1: the deck is refused, and `err` took the line of its fault. Of the edits nothing was read.
    ensures refused { result ≡ 1 → IsDeckRefused words.now (side D.left D.faults deck.old deck.new)
        (side E.taken E.faults err.old err.new) }
    ensures refused_read { result ≡ 1 → OfBytes (side D.left D.faults deck.old deck.new)
        (λ bytes. length bytes ≤ longest_deck → IsReadToEnd (side D.left D.faults deck.old deck.new)) }
    ensures refused_only { result ≡ 1 → (edits.new ≡ edits.old) × (out.new ≡ out.old) }

    // 2: there is not one word, and `err` took the usage line. Nothing was read.
    ensures not_one_word { result ≡ 2 → IsOneWord words.now → ⊥ }
    ensures usage { result ≡ 2 → Took (side E.taken E.faults err.old err.new) session_usage_text }
    ensures usage_unread { result ≡ 2 → (deck.new ≡ deck.old) × (edits.new ≡ edits.old) }
    ensures usage_only { result ≡ 2 → out.new ≡ out.old }

    // 3: nothing of the edits was read, and nothing was written. Tests show that this status means that memory ran out.
    ensures no_memory { result ≡ 3 → (edits.new ≡ edits.old) × (out.new ≡ out.old) × (err.new ≡ err.old) }

    // 4: the deck could not be read; or the edits, whose complete lines before that were answered.
    ensures read_fault { result ≡ 4 → IsSessionUnread AnswersLines (side D.left D.faults deck.old deck.new)
        (pulled_side C.left C.faults C.pulls edits.old edits.new) (side O.taken O.faults out.old out.new) }
    ensures read_fault_only { result ≡ 4 → err.new ≡ err.old }

    // 5: a fault of `out` or `err` occurred in the answers, the line of a fault or the usage line.
    ensures write_fault { result ≡ 5 → IsSessionCut AnswersLines words.now (side D.left D.faults deck.old deck.new)
        (pulled_side C.left C.faults C.pulls edits.old edits.new) (side O.taken O.faults out.old out.new)
        (side E.taken E.faults err.old err.new) }

    // Each status but 2 and 5 is returned only if there is one word.
    ensures one_word { result ≢ 2 → result ≢ 5 → IsOneWord words.now }

    // Without a read fault, a deck that is not refused is accepted, or the status is 3.
    ensures acceptance { IsOneWord words.now → HadNoFault (side D.left D.faults deck.old deck.new)
        → OfBytes (side D.left D.faults deck.old deck.new) (λ bytes. (RefusedBy bytes → ⊥) →
        AcceptedBy bytes ⊎ (result ≡ 3)) }

    // No deck is both accepted and refused.
    ensures one_verdict { (bytes : List ℕ) → AcceptedBy bytes → RefusedBy bytes → ⊥ }

    // If no source or sink fails, the words and the deck decide, unless the status is 3, or 8 (edits too long).
    ensures words_refused { (IsOneWord words.now → ⊥) → HadNoFault (side E.taken E.faults err.old err.new) →
        result ≡ 2 }
    ensures deck_refused { IsOneWord words.now →
        OfBytes (side D.left D.faults deck.old deck.new) (λ bytes. RefusedBy bytes
        → HadNoFault (side D.left D.faults deck.old deck.new)
        → HadNoFault (side E.taken E.faults err.old err.new) → (result ≡ 1) ⊎ (result ≡ 3)) }
    ensures deck_accepted { IsOneWord words.now →
        OfBytes (side D.left D.faults deck.old deck.new) (λ bytes. AcceptedBy bytes
        → HadNoFault (side D.left D.faults deck.old deck.new)
        → HadNoFault (pulled_side C.left C.faults C.pulls edits.old edits.new)
        → HadNoFault (side O.taken O.faults out.old out.new) → (result ≡ 0) ⊎ ((result ≡ 3) ⊎ (result ≡ 8))) }

    // If more is taken of the edits than they may have, and no fault of `out` occurred, the status is 8.
    ensures long_edits { HadNoFault (side O.taken O.faults out.old out.new) →
        OfBytes (pulled_side C.left C.faults C.pulls edits.old edits.new)
        (λ before. IfSome (C.left edits.new) (λ after. INPUT_LIMIT + length after < length before → result ≡ 8)) }

    // The answers depend only on the deck and the lines, not on how the bytes are split into pieces, nor on anything
    // else.
    ensures one_text { (bytes : List ℕ) (lines : List (List ℕ)) (text other : List ℕ)
        → AnswersOn AnswersLines bytes lines text
        → AnswersOn AnswersLines bytes lines other → text ≡ other }

    // Each line is answered on the deck's project with the edits that are in effect at that line, applied in order:
    // those that were accepted and not reverted.
    ensures in_order { (bytes : List ℕ) (lines : List (List ℕ)) (text : List ℕ)
        → AnswersOn AnswersLines bytes lines text
        → AnswersOn AnswersInOrder bytes lines text }

    // However long the deck is, nothing of it is pulled after the pull that passes the longest deck, ends it or fails,
    // and each pull before that one gave at least one byte.
    ensures deck_stops { IsReadWithin longest_deck STREAM_ROOM D.left D.faults D.pulls deck.old deck.new }

    // However long the edits are, reading stops at the pull that passes their limit, ends them or fails, and each pull
    // before that one gave at least one byte.
    ensures edits_stop { IsTakenWithin C.left C.faults C.pulls edits.old edits.new }
{
    session_outcome(alloc, words, deck, edits, out, err).code()
}

/// Answers the lines of edits of a deck, and returns how that ended.
fn session_outcome<D: Source, C: Source, O: Sink, E: Sink>(
    alloc: Global,
    words: &[String],
    deck: &mut D,
    edits: &mut C,
    out: &mut O,
    err: &mut E,
) -> Status
    ensures outcome { SessionOutcome AnswersLines words.now (side D.left D.faults deck.old deck.new)
        (pulled_side C.left C.faults C.pulls edits.old edits.new)
        (side O.taken O.faults out.old out.new) (side E.taken E.faults err.old err.new) result }
    ensures deck_stops { IsReadWithin longest_deck STREAM_ROOM D.left D.faults D.pulls deck.old deck.new }
    ensures edits_stop { IsTakenWithin C.left C.faults C.pulls edits.old edits.new }
{
    match project_named(alloc, words, USAGE, deck, err) {
        Ok(project) => hear(alloc, &project, edits, out),
        Err(status) => status,
    }
}

/// Answers the lines of edits of a project. Takes all memory before it reads the first line.
fn hear<C: Source, O: Sink>(alloc: Global, project: &Project, edits: &mut C, out: &mut O) -> Status
    ensures hearing { Hearing (AnswersLines project.now) (pulled_side C.left C.faults C.pulls edits.old edits.new)
        (side O.taken O.faults out.old out.new) result }
    ensures edits_stop { IsTakenWithin C.left C.faults C.pulls edits.old edits.new }
{
    let Ok(reader) = LineReader::build(alloc) else {
        return Status::OutOfMemory;
    };
    let Ok(mut session) = Session::begin(alloc, project) else {
        return Status::OutOfMemory;
    };
    status_of(talk(reader, &mut session, edits, out))
}

/// Returns the status for the end of a talk.
fn status_of(ended: Result<(), TalkError>) -> Status
    ensures { result ≡ talk_status ended }
{
    match ended {
        Ok(()) => Status::Done,
        Err(TalkError::ReadFault) => Status::ReadFault,
        Err(TalkError::WriteFault) => Status::WriteFault,
        Err(TalkError::TooLong) => Status::TooLong,
    }
}
