//! What is known of each activity, laid out for one look, with its pieces.
ghost use Rattle.std.specs.Prelude.{◌≡◌, ◌+◌, ◌^◌, ◌<◌, ◌≤◌, ◌++◌, length, vec_len, IfOk, OnOk};
ghost use Rattle.pc_model.specs.Network.{IsInRange, IsSound};
ghost use Rattle.pc_model.specs.Schedule.{AreTerms};
ghost use Rattle.pc_model.specs.Pieces.{ArePieces, units_of};
ghost use Rattle.pc_crash.specs.inside.KneeLists.{knee_list};
ghost use Rattle.pc_crash.specs.inside.Laid.{AreLaid, IsRising, knees_of_row, price_row_at};
ghost use Rattle.pc_crash.specs.Terms.{AreWithinLimits};

use crate::knee_list::KneeList;
use crate::pieces::{grouped, units};
use pc_model::{Arc, Knee, MAX_PIECES_EACH, PieceRow, Term};
use pc_net::Net;
use std::alloc::{AllocError, Global};

/// The data of one activity. Its knees are in the list of all of them, `count` from `first` on.
#[derive(Clone, Copy)]
pub(crate) struct PriceRow {
    pub(crate) arc: Arc,
    pub(crate) term: Term,
    pub(crate) first: u32,
    pub(crate) count: u32,
}

/// What is known of each activity, and the knees of all of them one after another.
pub(crate) struct PriceTable {
    pub(crate) rows: Vec<PriceRow>,
    pub(crate) knees: Vec<Knee>,
}

impl Drop for PriceTable {
    // Written by hand so that the proof of dropping a table is done once, here.
    fn drop(self) {
        let PriceTable {
            rows: _rows,
            knees: _knees,
        } = self;
    }
}

/// The activities of a network laid out with their terms and knees. Linear in activities and pieces.
pub(crate) fn laid_out(
    alloc: Global,
    net: &Net,
    terms: &[Term],
    pieces: &[PieceRow],
) -> Result<PriceTable, AllocError>
    requires terms { AreTerms net.now terms.now }
    requires limits { AreWithinLimits terms.now }
    requires pieces { ArePieces terms.now pieces.now }
    ensures sound { OnOk result (IsSound net.now) }
    ensures in_range { OnOk result (IsInRange net.now) }
    ensures laid { IfOk result (λ layout. AreLaid net.now.arcs terms.now pieces.now
        (length terms.now) layout.rows.items layout.knees.items) }
{
    let groups = grouped(alloc, terms, pieces)?;
    let mut rows = Vec::with_capacity(alloc, terms.len())?;
    let mut knees = Vec::with_capacity(alloc, terms.len() + pieces.len())?;
    for a in 0..net.activities() {
        let term = terms[a as usize];
        let group = groups[a as usize].as_slice();
        let arc = Arc {
            from: net.from(a),
            to: net.to(a),
        };
        rows.push(PriceRow {
            arc,
            term,
            first: knees.len() as u32,
            count: group.len() as u32 + 1,
        })?;
        push_knees(&mut knees, term, group)?;
    }
    Ok(PriceTable { rows, knees })
}

/// Adds the knees of an activity with these pieces.
fn push_knees(knees: &mut Vec<Knee>, term: Term, pieces: &[PieceRow]) -> Result<(), AllocError>
    requires rising { IsRising term.slope pieces.now }
    requires units { term.crash + units_of pieces.now < 2 ^ 64 }
    ensures { OnOk result (knees.new.items ≡ knees.old.items ++ knee_list term pieces.now) }
{
    knees.push(Knee {
        at: term.normal,
        rise: term.slope,
    })?;
    let mut at = term.crash + units(pieces);
    let mut slope = term.slope;
    for piece in pieces {
        knees.push(Knee {
            at,
            rise: piece.slope - slope,
        })?;
        at -= piece.units;
        slope = piece.slope;
    }
    Ok(())
}

impl PriceTable {
    /// The knees that belong to a row.
    pub(crate) fn part(&self, row: &PriceRow) -> &[Knee]
        requires { row.now.first + row.now.count ≤ vec_len self.now.knees }
        ensures { result.now ≡ knees_of_row self.now.knees.items row.now }
    {
        let first = row.first as usize;
        &self.knees[first..first + row.count as usize]
    }

    /// The knees of an activity.
    pub(crate) fn knees_of(&self, a: u32) -> KneeList<'_>
        requires row { a < vec_len self.now.rows }
        requires within { (price_row_at self.now.rows.items a).first + (price_row_at self.now.rows.items a).count
            ≤ vec_len self.now.knees }
        requires few { (price_row_at self.now.rows.items a).count ≤ MAX_PIECES_EACH + 1 }
        ensures { result ≡ knees_of_row self.now.knees.items (price_row_at self.now.rows.items a) }
    {
        KneeList::new(self.part(&self.rows[a as usize]))
    }
}
