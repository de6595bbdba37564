//! The pieces of activities: in a group for each activity, and what one activity costs by its own pieces alone.
ghost use Rattle.std.specs.Prelude.{◌≡◌, ◌^◌, ◌<◌, length, IfOk, [], ◌+◌, ◌-◌, ◌*◌, ◌≤◌};
ghost use Rattle.pc_model.specs.Pieces.{ArePieces, units_of, knees_of, knee_in, pieces_of, rise_in};
ghost use Rattle.pc_crash.specs.inside.Groups.{AreGroups};
ghost use Rattle.pc_model.specs.Cost.{activity_cost};
ghost use Rattle.pc_model.specs.Schedule.{term_at};
ghost use Rattle.pc_model.specs.Sums.{sum_to};
ghost use Rattle.pc_crash.specs.inside.OwnPieces.{AreOwnPieces};

use crate::crash_net::MAX_ACTIVITY_COST;
use arrayvec::ArrayVec;
use pc_model::{MAX_PIECES_EACH, PieceRow, Term};
use std::alloc::{AllocError, Global};

/// The pieces of one activity, in their order.
pub(crate) type Group = ArrayVec<PieceRow, MAX_PIECES_EACH>;

/// The pieces of each activity, in their order. One pass.
pub(crate) fn grouped(
    alloc: Global,
    terms: &[Term],
    pieces: &[PieceRow],
) -> Result<Vec<Group>, AllocError>
    requires { ArePieces terms.now pieces.now }
    ensures { IfOk result (λ groups. AreGroups pieces.now (length terms.now) groups.items) }
{
    let mut groups = empty_groups(alloc, terms.len())?;
    for piece in pieces {
        groups[piece.activity as usize].push(*piece);
    }
    Ok(groups)
}

/// So many groups without a piece.
fn empty_groups(alloc: Global, count: usize) -> Result<Vec<Group>, AllocError>
    ensures { IfOk result (λ groups. AreGroups [] count groups.items) }
{
    let mut groups = Vec::with_capacity(alloc, count)?;
    for _ in 0..count {
        groups.push(Group::new())?;
    }
    Ok(groups)
}

/// The units of some pieces.
pub(crate) fn units(pieces: &[PieceRow]) -> u64
    requires { units_of pieces.now < 2 ^ 64 }
    ensures { result ≡ units_of pieces.now }
{
    pieces.iter().map(|piece| piece.units).sum()
}

/// Returns what an activity costs at a duration in units, from the terms of all activities and all further pieces.
/// Allocates nothing.
///
/// It goes through the pieces of all activities. For the costs of many activities use the priced network.
pub fn cost_of_one(terms: &[Term], pieces: &[PieceRow], a: u32, duration: u64) -> u64
    requires known { a < length terms.now }
    requires own { AreOwnPieces (term_at terms.now a) (pieces_of pieces.now a) }
    ensures cost { result ≡ activity_cost terms.now (knees_of terms.now pieces.now) a duration }
    ensures limit { result ≤ MAX_ACTIVITY_COST }
{
    let own = pieces_of(pieces, a);
    cost_with(terms[a as usize], own.as_slice(), duration)
}

/// The pieces of one activity, in their order.
fn pieces_of(pieces: &[PieceRow], a: u32) -> Group
    requires { length (pieces_of pieces.now a) ≤ MAX_PIECES_EACH }
    ensures { result.items ≡ pieces_of pieces.now a }
{
    let mut own = Group::new();
    for piece in pieces {
        if piece.activity == a {
            own.push(*piece);
        }
    }
    own
}

/// What an activity with these pieces costs at a duration.
fn cost_with(term: Term, pieces: &[PieceRow], duration: u64) -> u64
    requires { AreOwnPieces term pieces.now }
    ensures { result ≡ term.cost + sum_to (length pieces.now + 1)
        (λ k. rise_in term pieces.now k * (knee_in term pieces.now k - duration)) }
{
    let saved = term.normal.saturating_sub(duration);
    let mut cost = term.cost + term.slope * saved;
    let left = units(pieces);
    let mut knee = term.crash + left;
    let mut slope = term.slope;
    for piece in pieces {
        let rise = piece.slope - slope;
        let below = knee.saturating_sub(duration);
        cost += rise * below;
        knee -= piece.units;
        slope = piece.slope;
    }
    cost
}
