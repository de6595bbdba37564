//! The state of a checker after the lines so far.
ghost use Rattle.std.specs.Prelude.{◌≡◌, ◌<◌, slice_index, slice_index_or, length, false, IfOk};
ghost use Rattle.pc_cert.specs.declared.place.Place.TheVariants.{Start};
ghost use Rattle.pc_check.specs.inside.Bounds.{IsBounded};
ghost use Rattle.pc_check.specs.inside.Checking.{IsKept};
ghost use Rattle.pc_check.specs.Draft.{empty_draft};
ghost use Rattle.pc_check.specs.inside.Safe.{IsBegun, IsSafe};

use crate::cut::Cut;
use crate::fast::{Passed, none_passed};
use crate::walk::Reached;
use pc_cert::Place;
use pc_crash::CrashNet;
use std::alloc::{AllocError, Global};

/// The state after the lines so far.
#[derive(Drop)]
pub struct Kept {
    /// the place of the next line, and how many lines there were
    pub(crate) place: Place,
    pub(crate) lines: u64,
    /// how far the two walks have come, where their steps are walks, and whether the crash walk has begun
    pub(crate) normal: Option<Reached>,
    pub(crate) crash: Option<Reached>,
    pub(crate) crash_walk_started: bool,
    /// how many segments are complete
    pub(crate) segments: u64,
    pub(crate) tally: Tally,
}

/// The state of the last segment that has begun.
///
/// The sums of flows and of the cost stay from one segment to the next, since most activities do: an activity changes
/// them if its line does. So they are those of the segment once all its activities have come.
pub struct Tally {
    pub(crate) upper: u64,
    pub(crate) lower: u64,
    pub(crate) cost: u64,
    pub(crate) slope: u64,
    /// the times of the events that have come, and whether they move
    pub(crate) times: Vec<u64>,
    pub(crate) moves: Vec<bool>,
    /// how many activities have come, and what passed last of each, in this segment or in the one before
    pub(crate) acts: u32,
    pub(crate) rows: Vec<Passed>,
    /// by what passed last of each activity: what flows into each event and out of it, and what all cost
    pub(crate) inflow: Vec<u128>,
    pub(crate) outflow: Vec<u128>,
    pub(crate) spent: u64,
    /// the cut, by the activities so far
    pub(crate) cut: Cut,
}

impl Drop for Tally {
    // Written by hand so that the proof of dropping it is done once, here.
    fn drop(self) {
        let Tally {
            upper: _upper,
            lower: _lower,
            cost: _cost,
            slope: _slope,
            times: _times,
            moves: _moves,
            acts: _acts,
            rows: _rows,
            inflow: _inflow,
            outflow: _outflow,
            spent: _spent,
            cut: _cut,
        } = self;
    }
}

/// The state before the first line.
pub(crate) fn kept_of(alloc: Global, net: &CrashNet<'_>) -> Result<Kept, AllocError>
    ensures kept { IfOk result (λ kept. IsKept net.now empty_draft kept) }
    ensures place { IfOk result (λ kept. kept.place ≡ Start) }
    ensures lines { IfOk result (λ kept. kept.lines ≡ 0) }
    ensures bounded { IfOk result (λ kept. IsBounded net.now kept) }
    ensures safe { IfOk result (λ kept. IsSafe net.now kept.tally) }
{
    let begin = Reached {
        event: net.net().start(),
        sum: 0,
    };
    Ok(Kept {
        place: Place::Start,
        lines: 0,
        normal: Some(begin),
        crash: Some(begin),
        crash_walk_started: false,
        segments: 0,
        tally: tally_of(alloc, net)?,
    })
}

/// The state before a segment has begun.
fn tally_of(alloc: Global, net: &CrashNet<'_>) -> Result<Tally, AllocError>
    ensures begun { IfOk result (λ tally. IsBegun 0 0 0 0 tally) }
    ensures safe { IfOk result (λ tally. IsSafe net.now tally) }
{
    let events = net.net().events() as usize;
    Ok(Tally {
        upper: 0,
        lower: 0,
        cost: 0,
        slope: 0,
        times: Vec::with_capacity(alloc, events)?,
        moves: Vec::with_capacity(alloc, events)?,
        acts: 0,
        rows: none_passed(alloc, net)?,
        inflow: vec![in alloc; 0u128; events]?,
        outflow: vec![in alloc; 0u128; events]?,
        spent: 0,
        cut: Cut::none(),
    })
}

/// The number in a list at an index, and 0 past its end.
pub(crate) fn number_at(numbers: &[u64], i: u32) -> u64
    ensures { result ≡ slice_index numbers.now i }
{
    match numbers.get(i as usize) {
        Some(number) => *number,
        None => 0,
    }
}

/// The bit in a list at an index, and false past its end.
pub(crate) fn bit_at(bits: &[bool], i: u32) -> bool
    ensures { result ≡ slice_index_or bits.now i false }
{
    match bits.get(i as usize) {
        Some(bit) => *bit,
        None => false,
    }
}

/// The number in a list at an index that it has.
pub(crate) fn known_number(numbers: &[u64], i: u32) -> u64
    requires { i < length numbers.now }
    ensures { result ≡ slice_index numbers.now i }
{
    numbers[i as usize]
}

/// The bit in a list at an index that it has.
pub(crate) fn known_bit(bits: &[bool], i: u32) -> bool
    requires { i < length bits.now }
    ensures { result ≡ slice_index_or bits.now i false }
{
    bits[i as usize]
}
