//! PIECE: a further piece of an activity's cost.
ghost use Rattle.pc_faults.specs.declared.kind.Kind.TheVariants as kinds;
ghost use Rattle.pc_deck.specs.Piece.{piece_kind, piece_card};
ghost use Rattle.pc_deck.specs.WrittenKinds.{written_of};

use pc_cards::card::{Card, Layout};
use pc_cards::field::{Misfit, read_amount, read_code};
use pc_cards::form::{FieldForm, SLOPE, Slot};
use pc_cards::sort::Sort;
use pc_faults::Kind;
use pc_model::{MAX_DURATION, MAX_SLOPE};
use pc_records::{Fields, Records};
use pc_text::{Code, digits};
use std::alloc::AllocError;

/// A PIECE card: a further piece of an activity's cost. After the units at the slope of the ACT card, it costs `slope`
/// to take off each of these `units`.
#[derive(Clone, Copy)]
pub struct PieceCard {
    pub row: u32,
    pub activity: Code,
    pub units: u64,
    pub slope: u64,
}

const UNITS: FieldForm = FieldForm::Number {
    least: 1,
    most: MAX_DURATION,
};

const SLOTS: [Slot; 3] = [(2, FieldForm::Code), (3, UNITS), (4, SLOPE)];

impl Card for PieceCard {
    ghost slots = { piece_kind.slots };

    ghost least = { 4 };

    ghost most = { 4 };

    ghost spelled = { piece_card };

    ghost written = { (written_of kinds.Piece).written };

    fn layout(_: Sort) -> Layout {
        Layout {
            slots: &SLOTS,
            least: 4,
            most: 4,
        }
    }

    fn read<F: Fields>(_: Sort, row: u32, fields: &F) -> Result<PieceCard, Misfit> {
        Ok(PieceCard {
            row,
            activity: read_code(fields, 2)?,
            units: read_amount(fields, 3, 1, MAX_DURATION)?,
            slope: read_amount(fields, 4, 0, MAX_SLOPE)?,
        })
    }

    fn put<R: Records>(self, kind: Kind, text: &mut R) -> Result<(), AllocError> {
        text.put(&[
            kind.word(),
            self.activity.bytes(),
            digits(self.units).bytes(),
            digits(self.slope).bytes(),
        ])
    }
}
