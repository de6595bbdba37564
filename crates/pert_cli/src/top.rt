//! The top call.
ghost use Rattle.std.specs.Prelude.{◌≡◌, ◌≢◌, ℕ, List, ◌≤◌, ◌⊎◌, length};
ghost use Rattle.pc_cards.specs.declared.sort.Sort.{Sort as TheSort};
ghost use Rattle.pc_deck.specs.Limits.{longest_deck};
ghost use Rattle.pc_edges.specs.Pulls.{IsReadWithin};
ghost use Rattle.pc_edges.specs.declared.loading.TheConstants.{STREAM_ROOM};
ghost use Rattle.pert_cli.specs.declared.forms.Form.{Form as TheForm};
ghost use Rattle.pert_cli.specs.declared.forms.Form.TheVariants.{Arrows, Certify, Migrate};
ghost use Rattle.pert_cli.specs.FormDeck.{AskToRead, IsOwnDeck, ReadsSource, sort_of};
ghost use Rattle.pc_project.specs.Project.{Project as TheProject};
ghost use Rattle.pert_cli.specs.Forms.{HasOneText, IsTextOf};
ghost use Rattle.pert_cli.specs.Headline.{TookWholeCurve};
ghost use Rattle.pert_cli.specs.Arrows.{TookArrows};
ghost use Rattle.pert_cli.specs.Migrate.{TookSameProject};
ghost use Rattle.pert_cli.specs.Words.{AskFor, AskForOne, AskForNone, usage_text};
ghost use Rattle.pc_project.specs.shell.Sides.{side, HadFault, HadNoFault, IsReadToEnd, OfBytes, Took, TookAtMost};
ghost use Rattle.pert_cli.specs.Verdicts.{AcceptedAs, IsMadeAs, RefusedAs};
ghost use Rattle.pert_cli.specs.Outcome.{IsAcceptedFor, IsCut, IsDone, IsRefused, IsRefusedFor};
ghost use Rattle.pert_cli.specs.inside.Outcome.{Outcome};

use crate::form_deck::project_for;
use crate::forms::{Form, usage};
use pc_edges::{Failed, Sink, Source};
use pc_project::shell::{NoProject, Status, refuse, send};
use std::alloc::Global;

/// Runs `pert`: reads a deck from `source`, writes the answer that the words ask for on `out`, or on `err` why
/// there is none, and returns the status with which the program ends.
///
/// The words are one of the forms that the usage line names. `IsTextOf` says of each form which texts answer it, and
/// docs/reports.md how to read them. `bench N` has a deck of its own and reads none; the others read the source's.
///
/// The order is: the words, the complete deck, its faults, whether the form refuses it, all memory that the answer
/// needs, the answer and a flush. A deck is a plan, except for `arrows`, which reads a deck of tasks: what accepted
/// and refused mean depends on that.
///
/// # Examples
///
/// ```
/// let deck = b"PROJECT,E1,S,T,2024-01-01,1,,\nWBS,1,,\nEVENT,S,\nEVENT,T,\n\
/// ACT,DIG,S,T,1,3,4,5,4,2,10,3,\nACCT,X,1,10,\nEND\n";
/// let words = ["curve".to_string(alloc).ok()?];
/// let mut source = MemSource::new(alloc, deck, 4096, &[]).ok()?;
/// let mut out = MemSink::new(alloc, 1000, 1000, &[]).ok()?;
/// let mut err = MemSink::new(alloc, 1000, 1000, &[]).ok()?;
/// let status = run(alloc, &words, &mut source, &mut out, &mut err);
/// Some(status == 0 && out.bytes() == b"4 10 3\n2 16 -\n".as_slice())
/// ```
///
/// These are the lines of `pert_tests::examples::run_on_a_deck`. A test sees that it returns `Some(true)`.
pub fn run<S: Source, O: Sink, E: Sink>(
    alloc: Global,
    words: &[String],
    source: &mut S,
    out: &mut O,
    err: &mut E,
) -> u8
    ensures statuses { result ≤ 5 }

    // 0: the words ask for a form, its deck was read to its end, deck and form accept it, and `out` took the form's
    // answer.
    ensures done { result ≡ 0 → IsDone words.now (side S.left S.faults source.old source.new)
        (side O.taken O.faults out.old out.new) }
    ensures done_only { result ≡ 0 → err.new ≡ err.old }

    // The headline: at 0 for `certify`, `out` took the complete time-cost curve of the accepted deck's project. For
    // every length from the all-crash to the all-normal length the durations and event times printed for it are a
    // schedule of that length, cost what is printed, and no schedule of that length costs less; the printed flow proves
    // this, and the printed cut gives the slope.
    ensures headline { result ≡ 0 → AskFor Certify words.now → OfBytes (side S.left S.faults source.old source.new)
        (TookWholeCurve (side O.taken O.faults out.old out.new)) }

    // At 0 for `migrate`, `out` took a deck that is accepted and has the same project, and for which `migrate` writes
    // the same bytes.
    ensures migrated { result ≡ 0 → AskFor Migrate words.now → OfBytes (side S.left S.faults source.old source.new)
        (TookSameProject (side O.taken O.faults out.old out.new)) }

    // At 0 for `arrows`, the deck is an accepted deck of tasks, and `out` took a deck that is accepted and has the
    // project of the plan generated from them: it has a schedule for a length if and only if they have one, and the
    // same least cost.
    ensures drawn { result ≡ 0 → AskFor Arrows words.now → OfBytes (side S.left S.faults source.old source.new)
        (TookArrows (side O.taken O.faults out.old out.new)) }

    // 1: the words ask for a form, its deck or the form refuses with a fault, and `err` took the line of the fault.
    ensures refused { result ≡ 1 → IsRefused words.now (side S.left S.faults source.old source.new)
        (side E.taken E.faults err.old err.new) }
    ensures refused_read { result ≡ 1 → AskToRead words.now → OfBytes (side S.left S.faults source.old source.new)
        (λ bytes. length bytes ≤ longest_deck → IsReadToEnd (side S.left S.faults source.old source.new)) }
    ensures refused_only { result ≡ 1 → out.new ≡ out.old }

    // 2: the words ask for no form, and `err` took the usage line. Nothing was read.
    ensures no_form { result ≡ 2 → AskForNone words.now }
    ensures usage { result ≡ 2 → Took (side E.taken E.faults err.old err.new) usage_text }
    ensures usage_unread { result ≡ 2 → source.new ≡ source.old }
    ensures usage_only { result ≡ 2 → out.new ≡ out.old }

    // 3: nothing was written. Tests show that this status means that memory ran out.
    ensures no_memory { result ≡ 3 → (out.new ≡ out.old) × (err.new ≡ err.old) }

    // 4: the deck could not be read. This occurs only if the words ask for a form that reads it, and if no more of it
    // was taken than a deck may have.
    ensures read_fault { result ≡ 4 → HadFault (side S.left S.faults source.old source.new) }
    ensures read_fault_reads { result ≡ 4 → AskToRead words.now }
    ensures read_fault_within { result ≡ 4 → TookAtMost longest_deck (side S.left S.faults source.old source.new) }
    ensures read_fault_only { result ≡ 4 → (out.new ≡ out.old) × (err.new ≡ err.old) }

    // 5: a fault of `out` or `err` occurred in the answer, the line of a fault or the usage line.
    ensures write_fault { result ≡ 5 → IsCut words.now (side S.left S.faults source.old source.new)
        (side O.taken O.faults out.old out.new) (side E.taken E.faults err.old err.new) }

    // Each status but 2 and 5 occurs only if the words ask for a form.
    ensures form { result ≢ 2 → result ≢ 5 → AskForOne words.now }

    // Without a read fault, a deck that is not refused is accepted, or the status is 3.
    ensures acceptance { (form : TheForm) → AskFor form words.now → ReadsSource form →
        HadNoFault (side S.left S.faults source.old source.new)
        → OfBytes (side S.left S.faults source.old source.new)
        (λ bytes. (RefusedAs (sort_of form) bytes → ⊥) → AcceptedAs (sort_of form) bytes ⊎ (result ≡ 3)) }

    // An accepted deck has only one answer to each form that does not print a schedule of least cost (there may be
    // several of those): two texts that answer for projects of the same bytes are equal.
    ensures one_text { (form : TheForm) (bytes : List ℕ) (project other_project : TheProject) (text other : List ℕ) →
        HasOneText form → IsMadeAs (sort_of form) bytes project → IsMadeAs (sort_of form) bytes other_project
        → IsTextOf form project text → IsTextOf form other_project other → text ≡ other }

    // No deck is both accepted and refused.
    ensures one_verdict { (sort : TheSort) (bytes : List ℕ) → AcceptedAs sort bytes → RefusedAs sort bytes → ⊥ }

    // A form that has a deck of its own reads nothing.
    ensures unread { (form : TheForm) (deck : List ℕ) → AskFor form words.now → IsOwnDeck form deck →
        source.new ≡ source.old }

    // However long the source is, nothing is pulled after the pull that passes the longest deck, ends the input or
    // fails, and each pull before that one gave at least one byte.
    ensures stops { IsReadWithin longest_deck STREAM_ROOM S.left S.faults S.pulls source.old source.new }

    // If no source or sink fails, the words and the deck decide, unless the status is 3: the deck of the source, or the
    // form's own.
    ensures words_refused { AskForNone words.now → HadNoFault (side E.taken E.faults err.old err.new) → result ≡ 2 }
    ensures deck_accepted { (form : TheForm) → AskFor form words.now → ReadsSource form
        → OfBytes (side S.left S.faults source.old source.new) (λ bytes. IsAcceptedFor form bytes
        → HadNoFault (side S.left S.faults source.old source.new)
        → HadNoFault (side O.taken O.faults out.old out.new) → (result ≡ 0) ⊎ (result ≡ 3)) }
    ensures deck_refused { (form : TheForm) → AskFor form words.now → ReadsSource form
        → OfBytes (side S.left S.faults source.old source.new) (λ bytes. IsRefusedFor form bytes
        → HadNoFault (side S.left S.faults source.old source.new)
        → HadNoFault (side E.taken E.faults err.old err.new) → (result ≡ 1) ⊎ (result ≡ 3)) }
    ensures own_accepted { (form : TheForm) (deck : List ℕ) → AskFor form words.now → IsOwnDeck form deck →
        IsAcceptedFor form deck
        → HadNoFault (side O.taken O.faults out.old out.new) → (result ≡ 0) ⊎ (result ≡ 3) }
    ensures own_refused { (form : TheForm) (deck : List ℕ) → AskFor form words.now → IsOwnDeck form deck →
        IsRefusedFor form deck
        → HadNoFault (side E.taken E.faults err.old err.new) → (result ≡ 1) ⊎ (result ≡ 3) }
{
    outcome(alloc, words, source, out, err).code()
}

/// Does what the words ask for, and returns how that ended.
fn outcome<S: Source, O: Sink, E: Sink>(
    alloc: Global,
    words: &[String],
    source: &mut S,
    out: &mut O,
    err: &mut E,
) -> Status
    ensures outcome { Outcome words.now (side S.left S.faults source.old source.new)
        (side O.taken O.faults out.old out.new) (side E.taken E.faults err.old err.new) result }
    ensures stops { IsReadWithin longest_deck STREAM_ROOM S.left S.faults S.pulls source.old source.new }
{
    let Some(form) = Form::asked(words) else {
        return match send(err, usage()) {
            Ok(()) => Status::Usage,
            Err(Failed) => Status::WriteFault,
        };
    };
    let mut deck = Vec::new(alloc);
    match project_for(alloc, form, source, &mut deck) {
        Ok(project) => form.answer(alloc, &project, deck, out, err),
        Err(NoProject::Refused(fault)) => refuse(alloc, &fault, err),
        Err(NoProject::ReadFault) => Status::ReadFault,
        Err(NoProject::OutOfMemory) => Status::OutOfMemory,
    }
}
