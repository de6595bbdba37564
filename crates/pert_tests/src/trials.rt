//! Many trials in one session: none of them keeps a cell of the region in which all of them work.
ghost use Rattle.std.specs.Prelude.{◌≤◌, length};

use crate::testing::WHOLE;
use pc_deck::read_cards;
use pc_edges::SureSink;
use pc_edges::lines::Answers;
use pc_project::{Project, project_of};
use pc_whatif::Session;
use std::alloc::{AllocError, Global};

/// How many cells a session has before and after it answers a line this many times, and how many bytes it answers in
/// all.
#[derive(Clone, Copy, Debug, PartialEq)]
struct Cells {
    before: usize,
    after: usize,
    answered: u64,
}

fn cells_of(
    alloc: Global,
    project: &Project,
    line: &[u8],
    times: u64,
) -> Result<Cells, AllocError> {
    let mut session = Session::begin(alloc, project)?;
    let before = session.cells();
    let mut out = SureSink::new();
    for _ in 0..times {
        let _ = session.reply(line, &mut out);
    }
    Ok(Cells {
        before,
        after: session.cells(),
        answered: out.count(),
    })
}

/// The cells of a session on the project of a deck, or none where the deck is refused.
fn cells_on(alloc: Global, deck: &[u8], line: &[u8], times: u64) -> Option<Cells>
    requires { length deck.now ≤ 1000 }
{
    let cards = read_cards(alloc, deck).ok()?;
    let project = project_of(alloc, cards).ok()?;
    let cells = cells_of(alloc, &project, line, times).ok();
    // (dropped in one place, since a function that drops a project is long to prove)
    drop(project);
    cells
}

/// Each of the trials answers `COST 58`, in eight bytes.
#[test]
fn trials_keep_no_cells(rt: HostRuntime) {
    let cells = cells_on(rt.alloc(), WHOLE.as_bytes(), b"TRY A 4 2 3 6", 10_000);
    assert!(rt; cells.is_some_and(|it| it.before == it.after && it.answered == 80_000));
}
