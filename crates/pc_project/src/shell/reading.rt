//! From a deck to its project, or to why there is none.
ghost use Rattle.std.specs.Prelude.{◌≡◌, IfOk, IfErr};
ghost use Rattle.pc_edges.specs.Pulls.{IsReadWithin};
ghost use Rattle.pc_edges.specs.declared.loading.TheConstants.{STREAM_ROOM};
ghost use Rattle.pc_deck.specs.Limits.{longest_deck};
ghost use Rattle.pc_project.specs.inside.shell.Reading.{
  HasNoDeck,
  HasNoProject,
  HasProject,
  IsNoProjectOf,
  IsWholeDeck,
  lacking,
  unread,
};
ghost use Rattle.pc_project.specs.shell.Sides.{side};
ghost use Rattle.pc_project.specs.shell.Verdict.{IsProjectOf};

use crate::{Project, project_of};
use pc_deck::{DECK_LIMIT, read_cards_by};
use pc_edges::{LoadError, Source, load};
use pc_faults::{DeckError, Fault, TOO_LONG};
use std::alloc::{AllocError, Global};

/// Why there is no project.
#[derive(Debug, Drop)]
pub enum NoProject {
    /// The deck is refused.
    Refused(Fault),
    /// The source had a fault.
    ReadFault,
    OutOfMemory,
}

impl From<AllocError> for NoProject {
    ghost use Rattle.pc_project.specs.declared.shell.reading.NoProject.TheVariants.{OutOfMemory};

    ghost from_gives = { λ _ why. why ≡ OutOfMemory };

    fn from(_: AllocError) -> NoProject {
        NoProject::OutOfMemory
    }
}

impl From<LoadError> for NoProject {
    ghost from_gives = { λ error why. why ≡ unread error };

    fn from(error: LoadError) -> NoProject {
        match error {
            LoadError::ReadFault => NoProject::ReadFault,
            LoadError::TooLong => NoProject::Refused(TOO_LONG),
            LoadError::OutOfMemory => NoProject::OutOfMemory,
        }
    }
}

impl From<DeckError> for NoProject {
    ghost from_gives = { λ error why. why ≡ lacking error };

    fn from(error: DeckError) -> NoProject {
        match error {
            DeckError::Fault(fault) => NoProject::Refused(fault),
            DeckError::OutOfMemory => NoProject::OutOfMemory,
        }
    }
}

/// Reads a deck of any sort to its end and returns its bytes.
///
/// # Errors
///
/// `Refused` if the deck is longer than a deck may be, `ReadFault` if the source fails, `OutOfMemory`.
pub fn load_deck<S: Source>(alloc: Global, source: &mut S) -> Result<Vec<u8>, NoProject>
    ensures deck { IfOk result (λ bytes. IsWholeDeck (side S.left S.faults source.old source.new) bytes.items) }
    ensures none { IfErr result (HasNoDeck (side S.left S.faults source.old source.new)) }

    // However long the source is, nothing is pulled after the pull that passes the longest deck, ends the input or
    // fails, and each pull before that one gave at least one byte.
    ensures stops { IsReadWithin longest_deck STREAM_ROOM S.left S.faults S.pulls source.old source.new }
{
    let bytes = load(alloc, source, DECK_LIMIT)?;
    Ok(bytes)
}

/// Reads a plan to its end and returns its project.
///
/// It pulls as [`load_deck`] does. Cards are looked up by the source's key.
///
/// # Errors
///
/// `Refused` with the first fault of the deck, `ReadFault` if the source fails, `OutOfMemory`.
pub(crate) fn read_project<S: Source>(alloc: Global, source: &mut S) -> Result<Project, NoProject>
    ensures project { IfOk result (HasProject (side S.left S.faults source.old source.new)) }
    ensures none { IfErr result (HasNoProject (side S.left S.faults source.old source.new)) }
    ensures stops { IsReadWithin longest_deck STREAM_ROOM S.left S.faults S.pulls source.old source.new }
{
    let key = source.key();
    let bytes = load_deck(alloc, source)?;
    project_in(alloc, key, &bytes)
}

/// Returns the project of a complete plan. `key` is the key of the hash by which cards are looked up.
///
/// # Errors
///
/// `Refused` with the first fault of the deck, `OutOfMemory`.
pub fn project_in(alloc: Global, key: u128, bytes: &[u8]) -> Result<Project, NoProject>
    ensures project { IfOk result (IsProjectOf bytes.now) }
    ensures none { IfErr result (IsNoProjectOf bytes.now) }
{
    if bytes.len() > DECK_LIMIT {
        return Err(NoProject::Refused(TOO_LONG));
    }
    let cards = read_cards_by(alloc, key, bytes)?;
    let project = project_of(alloc, cards)?;
    Ok(project)
}
