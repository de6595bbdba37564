//! What a board keeps of the staircases of the activities.
ghost use Rattle.std.specs.Prelude.{◌≡◌, ◌+◌, ◌<◌, ◌^◌, ℕ, length};
ghost use Rattle.pc_laws.specs.Stair.{full_reach};
ghost use Rattle.pc_flow.specs.board.Sheets.{flow_of};
ghost use Rattle.pc_flow.specs.inside.board.Sheets.{step_of, room_of};
ghost use Rattle.pc_flow.specs.inside.board.Labelling.{IsFor};
ghost use Rattle.pc_flow.specs.inside.search.Searches.{stair_at, HaveLengths};
ghost use Rattle.pc_flow.specs.inside.search.Lengths.{IsLevelAt, RenewsAt};

use crate::board::Board;
use crate::stair::lengths_of;
use pc_crash::CrashNet;

/// Stores the lengths of the arcs of all activities on a board on which nothing flows. One pass over them.
pub(crate) fn keep_lengths(board: &mut Board, net: &CrashNet<'_>)
    requires fits { IsFor net.now.network board.old }
    requires empty { (a : ℕ) → flow_of board.old a ≡ 0 }
    ensures rest { board.new ≡ record board.old { up = board.new.up; down = board.new.down } }
    ensures lengths { HaveLengths net.now board.new }
{
    net.facts();
    let shape = net.net();
    for a in 0..shape.activities() {
        renew_lengths(board, net, a);
    }
}

/// Keeps the lengths of an activity's arcs after its flow has changed along the step of an event. Most steps have room
/// left. There the flow stays on arcs of one length, which is stored already.
pub(crate) fn renew_step(board: &mut Board, net: &CrashNet<'_>, e: u32)
    requires event { e < board.old.events }
    requires known { step_of board.old e < length net.now.network.arcs }
    requires fits { IsFor net.now.network board.old }
    requires reach { full_reach (stair_at net.now (step_of board.old e)) < 2 ^ 64 }
    requires small { flow_of board.old (step_of board.old e) + 1 < 2 ^ 64 }
    requires level { 0 < room_of board.old e → IsLevelAt net.now board.old e }
    ensures { RenewsAt net.now board.old board.new (step_of board.old e) }
{
    let a = board.step(e);
    if board.room(e) == 0 {
        renew_lengths(board, net, a);
    } else {
        let length = if board.is_against(e) {
            board.down(a)
        } else {
            board.up(a)
        };
        board.set_lengths(a, length, length);
    }
}

// Keeps for an activity the lengths of the arcs on which the next unit of its flow and the last one run.
fn renew_lengths(board: &mut Board, net: &CrashNet<'_>, a: u32)
    requires known { a < length net.now.network.arcs }
    requires fits { IsFor net.now.network board.old }
    requires reach { full_reach (stair_at net.now a) < 2 ^ 64 }
    requires small { flow_of board.old a + 1 < 2 ^ 64 }
    ensures { RenewsAt net.now board.old board.new a }
{
    let knees = net.knees(a);
    let crash = net.term(a).crash;
    let lengths = lengths_of(knees.as_slice(), crash, board.flow(a));
    board.set_lengths(a, lengths.up, lengths.down);
}
