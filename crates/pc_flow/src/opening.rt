//! A board before the first segment.
ghost use Rattle.std.specs.Prelude.{◌≡◌, ◌+◌, ◌*◌, ◌≤◌, length};
ghost use Rattle.pc_model.specs.Schedule.{IsAllCrashLength};
ghost use Rattle.pc_cells.specs.inside.Spans.{free_of};
ghost use Rattle.pc_flow.specs.board.Sheets.{kept_time};
ghost use Rattle.pc_flow.specs.inside.Openings.{IsOpened};

use crate::board::Board;
use crate::early::{Pace, keep_early_times};
use crate::lengths::keep_lengths;
use pc_cells::Region;
use pc_crash::CrashNet;

/// A board with the times of the normal durations, the all-normal length and the all-crash length.
#[derive(Drop)]
pub(crate) struct Opening {
    pub(crate) board: Board,
    pub(crate) longest: u64,
    pub(crate) shortest: u64,
}

/// A board in the free cells of a region on which only the start has a label. Two passes over the events, and one over
/// the activities.
pub(crate) fn open_board(region: Region, net: &CrashNet<'_>) -> Opening
    requires { 8 * net.now.network.events + 6 * length net.now.network.arcs ≤ free_of region }
    ensures opened { IsOpened net.now region result.board }
    ensures longest { result.longest ≡ kept_time result.board net.now.network.end }
    ensures shortest { IsAllCrashLength net.now.network net.now.terms result.shortest }
{
    net.facts();
    let shape = net.net();
    let mut board = Board::new(region, shape.events(), shape.activities());
    keep_early_times(&mut board, net, Pace::Crash);
    let shortest = board.kept_time(shape.end());
    keep_early_times(&mut board, net, Pace::Normal);
    let longest = board.kept_time(shape.end());
    keep_lengths(&mut board, net);
    board.start_at(shape.start());
    Opening {
        board,
        longest,
        shortest,
    }
}
