//! The staircases of three activities.
use pc_flow::stair::{
    Knee, Lengths, Piece, beside, flow_at, lengths_of, piece_of, room_against, room_along,
};

// Normal at 4 units, three more for each unit of flow below it, three more below 3 units, and crash at 2.
const TWO: [Knee; 2] = [Knee { at: 4, rise: 3 }, Knee { at: 3, rise: 3 }];

// A first unit that costs nothing, and an activity that can't be shortened.
const FREE: [Knee; 2] = [Knee { at: 4, rise: 0 }, Knee { at: 3, rise: 5 }];

const FIXED: [Knee; 1] = [Knee { at: 2, rise: 3 }];

fn piece(length: u64, below: u64, above: u64) -> Piece {
    Piece {
        length,
        below,
        above,
    }
}

fn lengths(up: u64, down: u64) -> Lengths {
    Lengths { up, down }
}

#[test]
fn pieces(rt: HostRuntime) {
    let found = [
        piece_of(&TWO, 2, 0),
        piece_of(&TWO, 2, 2),
        piece_of(&TWO, 2, 3),
        piece_of(&TWO, 2, 6),
        piece_of(&FREE, 1, 0),
        piece_of(&FREE, 1, 5),
        piece_of(&FIXED, 2, 7),
    ];
    let wanted = [
        piece(4, 0, 3),
        piece(4, 0, 3),
        piece(3, 3, 6),
        piece(2, 6, u64::MAX),
        piece(3, 0, 5),
        piece(1, 5, u64::MAX),
        piece(2, 3, u64::MAX),
    ];
    assert!(rt; found == wanted);
}

// The next and the last unit if 1, 3, 4, 6 and 8 units flow: the third unit is the last on the first knee.
#[test]
fn next_and_last(rt: HostRuntime) {
    let found = [
        lengths_of(&TWO, 2, 1),
        lengths_of(&TWO, 2, 3),
        lengths_of(&TWO, 2, 4),
        lengths_of(&TWO, 2, 6),
        lengths_of(&TWO, 2, 8),
        lengths_of(&FREE, 1, 5),
    ];
    let wanted = [
        lengths(4, 4),
        lengths(3, 4),
        lengths(3, 3),
        lengths(2, 3),
        lengths(2, 2),
        lengths(1, 3),
    ];
    assert!(rt; (found == wanted) & (lengths_of(&FREE, 1, 0).up == 3));
}

#[test]
fn rooms(rt: HostRuntime) {
    let found = [
        room_along(&TWO, 2, 0),
        room_along(&TWO, 2, 4),
        room_along(&TWO, 2, 6),
        room_against(&TWO, 2, 3),
        room_against(&TWO, 2, 5),
        room_against(&TWO, 2, 8),
    ];
    assert!(rt; found == [3, 2, u64::MAX - 6, 3, 2, 2]);
}

/// What flows at the two knees and on the crash duration.
fn filling(flow: u64) -> [u64; 3] {
    [
        flow_at(&TWO, flow, 0),
        flow_at(&TWO, flow, 1),
        beside(&TWO, flow),
    ]
}

#[test]
fn fillings(rt: HostRuntime) {
    let found = [filling(1), filling(5), filling(8)];
    assert!(rt; found == [[1, 0, 0], [3, 2, 0], [3, 3, 2]]);
}
