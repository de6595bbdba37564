//! Whether the pieces of the activities' costs have a fault.
ghost use Rattle.std.specs.Prelude.{◌≡◌, ◌+◌, ◌^◌, ◌<◌, IfOk, IfErr, OnOk, map, slice_set};
ghost use Rattle.pc_cards.specs.declared.sort.Sort.TheVariants.{Plan};
ghost use Rattle.pc_deck.specs.Misfit.{HasNoMisfit};
ghost use Rattle.pc_faults.specs.First.{IsFirstFault};
ghost use Rattle.pc_faults.specs.inside.First.{IsFirstIn, Refuses};
ghost use Rattle.pc_project.specs.PieceFaults.{HasFlaw, HasNoPieceFault, HasPieceFault};
ghost use Rattle.pc_project.specs.Project.{pieces_in, term_of};
ghost use Rattle.pc_project.specs.inside.Runs.{HasFlawBehind, IsNextPiece, run_at, run_with};

use pc_deck::{ActCard, Cards, PieceCard};
use pc_faults::{DeckError, Detail, Fault, earliest};
use pc_model::{MAX_PIECES_EACH, PieceRow};
use std::alloc::{AllocError, Global};

/// The pieces of one activity read so far: how many there are, the slope of the last one (or else of the activity
/// itself), and the units of all of them.
#[derive(Clone, Copy)]
pub(crate) struct Run {
    pub count: usize,
    pub slope: u64,
    pub units: u64,
}

/// Checks the pieces, in one pass.
///
/// # Errors
/// The first fault of the pieces (F33 to F35), or out of memory.
pub(crate) fn check_pieces(
    alloc: Global,
    cards: &Cards,
    pieces: &[PieceRow],
) -> Result<(), DeckError>
    requires numbers { pieces.now ≡ pieces_in cards.now }
    requires faultless { HasNoMisfit Plan cards.now }
    ensures none { OnOk result (HasNoPieceFault cards.now) }
    ensures first { IfErr result (Refuses (IsFirstFault (HasPieceFault cards.now))) }
{
    let acts = cards.acts();
    let mut runs = first_runs(alloc, acts)?;
    let mut fault = None;
    for (i, card) in cards.pieces().iter().enumerate() {
        fault = earliest(fault, take_in(&mut runs, acts, pieces[i], card));
    }
    match fault {
        Some(fault) => Err(DeckError::Fault(fault)),
        None => Ok(()),
    }
}

/// Returns the first fault of a piece after those of its activity that were read, and adds the piece to them.
fn take_in(
    runs: &mut Vec<Run>,
    acts: &[ActCard],
    piece: PieceRow,
    card: &PieceCard,
) -> Option<Fault>
    requires { IsNextPiece (map term_of acts.now) runs.old.items piece }
    ensures fault { IsFirstIn (HasFlawBehind
        (map term_of acts.now) runs.old.items piece card.now.row card.now.activity) result }
    ensures runs { runs.new.items ≡ slice_set runs.old.items piece.activity
        (run_with (run_at runs.old.items piece.activity) piece) }
{
    let activity = piece.activity as usize;
    let run = runs[activity];
    let fault = flaw(&acts[activity], run, piece, card);
    runs[activity] = Run {
        count: run.count + 1,
        slope: piece.slope,
        units: run.units + piece.units,
    };
    fault
}

/// Returns the run of each activity before any piece was read.
fn first_runs(alloc: Global, acts: &[ActCard]) -> Result<Vec<Run>, AllocError>
    ensures { IfOk result (λ runs. runs.items
        ≡ map (λ act. record { count = 0; slope = act.slope; units = 0 }) acts.now) }
{
    acts.iter()
        .map(|act| Run {
            count: 0,
            slope: act.slope,
            units: 0,
        })
        .collect(alloc)
}

/// Returns the fault of a piece after a run: it is one too many (F33), its slope does not rise (F34), or it leaves
/// nothing to the activity's first slope (F35).
fn flaw(act: &ActCard, run: Run, piece: PieceRow, card: &PieceCard) -> Option<Fault>
    requires { act.now.crash + (run.units + piece.units) < 2 ^ 64 }
    ensures { IsFirstIn (HasFlaw (term_of act.now) run.count run.slope run.units piece card.now.row
        card.now.activity) result }
{
    let number = if MAX_PIECES_EACH <= run.count {
        33
    } else if piece.slope <= run.slope {
        34
    } else if act.normal <= act.crash + (run.units + piece.units) {
        35
    } else {
        return None;
    };
    Some(Fault::new(card.row, number, Detail::Name(card.activity)))
}
