//! The staircase of an activity in numbers: the lengths of the arcs on which units of its flow run, how far the flow
//! may change where the gap is as long as an arc, and the part of a total flow that runs on each knee.
//!
//! An activity's knees are a slice in the order in which the duration falls, the first at the normal duration. No more
//! than a handful are there, so each call looks at them one after the other.
ghost use Rattle.std.specs.Prelude.{◌≡◌, ◌+◌, ◌<◌, ◌^◌, ◌-◌, ◌≤◌, ℕ, length};
ghost use Rattle.pc_laws.specs.Stair.{full_reach, unit_length, IsPiece, IsFalling, IsOnStair, knee_flow, crash_flow};
ghost use Rattle.pc_flow.specs.inside.stair.Rows.{stair};

pub use pc_model::Knee;

/// The units of flow that run on arcs of one length, given in units of time: those from `below` to `above` - 1,
/// numbered from 0. The units on the crash duration have no end; for them `above` is `u64::MAX`.
#[derive(Clone, Copy, Debug, PartialEq, Eq)]
pub struct Piece {
    pub length: u64,
    pub below: u64,
    pub above: u64,
}

/// Returns the piece on which this unit of an activity's flow runs. One pass over the knees.
pub fn piece_of(knees: &[Knee], crash: u64, unit: u64) -> Piece
    requires knees { full_reach (stair knees.now crash) < 2 ^ 64 }
    requires unit { unit + 1 < 2 ^ 64 }
    ensures piece { IsPiece (stair knees.now crash) unit result.length result.below result.above }
    ensures length { result.length ≡ unit_length (stair knees.now crash) unit }
{
    let mut below = 0;
    for knee in knees {
        let above = below + knee.rise;
        if unit < above {
            return Piece {
                length: knee.at,
                below,
                above,
            };
        }
        below = above;
    }
    Piece {
        length: crash,
        below,
        above: u64::MAX,
    }
}

/// The lengths of the arcs on which an activity's next unit of flow and its last one run, in units of time. Where
/// nothing flows, `down` means nothing.
#[derive(Clone, Copy, Debug, PartialEq, Eq)]
pub struct Lengths {
    pub up: u64,
    pub down: u64,
}

/// Returns the lengths of the arcs on which the next unit of an activity's flow and the last one run. At most two
/// passes over the knees.
pub fn lengths_of(knees: &[Knee], crash: u64, flow: u64) -> Lengths
    requires knees { full_reach (stair knees.now crash) < 2 ^ 64 }
    requires flow { flow + 1 < 2 ^ 64 }
    ensures up { result.up ≡ unit_length (stair knees.now crash) flow }
    ensures down { 0 < flow → result.down ≡ unit_length (stair knees.now crash) (flow - 1) }
{
    let next = piece_of(knees, crash, flow);
    let down = if flow == 0 || next.below < flow {
        next.length
    } else {
        piece_of(knees, crash, flow - 1).length
    };
    Lengths {
        up: next.length,
        down,
    }
}

/// Returns how many more units fit an activity whose gap is as long as the arc of the next unit: up to the end of that
/// arc's piece. One pass over the knees.
pub fn room_along(knees: &[Knee], crash: u64, flow: u64) -> u64
    requires knees { full_reach (stair knees.now crash) < 2 ^ 64 }
    requires falling { IsFalling (stair knees.now crash) }
    requires flow { flow + 1 < 2 ^ 64 }
    ensures some { 0 < result }
    ensures small { flow + result < 2 ^ 64 }
    ensures room { (gap : ℕ) → IsOnStair (stair knees.now crash) gap flow →
        unit_length (stair knees.now crash) flow ≡ gap → IsOnStair (stair knees.now crash) gap (flow + result) }
{
    let piece = piece_of(knees, crash, flow);
    piece.above - flow
}

/// Returns how many fewer units fit an activity with some flow whose gap is as long as the arc of the last unit: down
/// to the beginning of that arc's piece. One pass over the knees.
pub fn room_against(knees: &[Knee], crash: u64, flow: u64) -> u64
    requires knees { full_reach (stair knees.now crash) < 2 ^ 64 }
    requires falling { IsFalling (stair knees.now crash) }
    requires flows { 0 < flow }
    ensures some { 0 < result }
    ensures within { result ≤ flow }
    ensures room { (gap : ℕ) → IsOnStair (stair knees.now crash) gap flow →
        unit_length (stair knees.now crash) (flow - 1) ≡ gap → IsOnStair (stair knees.now crash) gap (flow - result) }
{
    let piece = piece_of(knees, crash, flow - 1);
    flow - piece.below
}

/// Returns the part of a total flow that runs on the knee `index`: what the knees before it leave, at most its rise.
pub fn flow_at(knees: &[Knee], flow: u64, index: usize) -> u64
    requires { index < length knees.now }
    ensures { (crash : ℕ) → result ≡ knee_flow (stair knees.now crash) flow index }
{
    let mut rest = flow;
    for knee in &knees[..index] {
        rest = rest.saturating_sub(knee.rise);
    }
    rest.min(knees[index].rise)
}

/// Returns the part of a total flow that runs on the crash duration: what all knees leave.
pub fn beside(knees: &[Knee], flow: u64) -> u64
    ensures { (crash : ℕ) → result ≡ crash_flow (stair knees.now crash) flow }
{
    let mut rest = flow;
    for knee in knees {
        rest = rest.saturating_sub(knee.rise);
    }
    rest
}
