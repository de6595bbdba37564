//! A board of two events and one activity.
use pc_cells::Region;
use pc_flow::board::Board;
use std::alloc::{AllocError, Global};
use std::rt::HostRuntime;

// Two events and one activity, with the start labelled first, then the other event by a step along the activity. When
// the activity begins to wait, it has no sum of steps before which it does not stop; at a place of the list it waits
// for 3 units more.
fn is_entered(alloc: Global) -> Result<bool, AllocError> {
    let region = Region::with_cells(alloc, 22)?;
    let mut board = Board::new(region, 2, 1);
    board.set_time(1, 7);
    board.start_at(0);
    board.fall(2);
    let times = [
        board.time(0),
        board.time(1),
        board.resting_time(0),
        board.falling_time(1),
    ];
    board.enter(1, 0, false, 0, 3);
    let entered = (board.rank(1), board.queued(1), board.count());
    let labelled = (board.time(1), board.near(1), board.room(1));
    let scanned = (board.next_to_scan(), board.head());
    board.set_lengths(0, 4, 6);
    let arcs = (board.step(1), board.up(0), board.down(0));
    board.wait(0);
    let waiting = (board.len(), board.waiting(0), board.is_due(0));
    board.wait_at(0, 0, 3);
    let waits_on = !board.is_due(0);
    let free = board.close().free();
    let is_labelled = (times == [0, 5, 0, 5]) & (entered == (2, 1, 2)) & (labelled == (5, 0, 3));
    let is_waiting = (waiting == (1, 0, true)) & waits_on;
    Ok(is_labelled & (scanned == (0, 1)) & (arcs == (0, 4, 6)) & is_waiting & (free == 22))
}

#[test]
fn an_event_enters(rt: HostRuntime) {
    assert!(rt; matches!(is_entered(rt.alloc()), Ok(true)));
}
