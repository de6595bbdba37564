//! ASOF: the day that the figures are of.
ghost use Rattle.pc_faults.specs.declared.kind.Kind.TheVariants as kinds;
ghost use Rattle.pc_deck.specs.AsOf.{as_of_kind, as_of_card};
ghost use Rattle.pc_deck.specs.WrittenKinds.{written_of};

use pc_cards::card::{Card, Layout};
use pc_cards::field::{Misfit, read_date};
use pc_cards::form::{FieldForm, Slot};
use pc_cards::sort::Sort;
use pc_days::{Day, day_text};
use pc_faults::Kind;
use pc_records::{Fields, Records};
use std::alloc::AllocError;

/// The ASOF card: the day that the figures are of.
#[derive(Clone, Copy)]
pub struct AsOfCard {
    pub row: u32,
    pub day: Day,
}

const SLOTS: [Slot; 1] = [(2, FieldForm::Date)];

impl Card for AsOfCard {
    ghost slots = { as_of_kind.slots };

    ghost least = { 2 };

    ghost most = { 2 };

    ghost spelled = { as_of_card };

    ghost written = { (written_of kinds.AsOf).written };

    fn layout(_: Sort) -> Layout {
        Layout {
            slots: &SLOTS,
            least: 2,
            most: 2,
        }
    }

    fn read<F: Fields>(_: Sort, row: u32, fields: &F) -> Result<AsOfCard, Misfit> {
        Ok(AsOfCard {
            row,
            day: read_date(fields, 2)?,
        })
    }

    fn put<R: Records>(self, kind: Kind, text: &mut R) -> Result<(), AllocError> {
        let day = day_text(self.day);
        text.put(&[kind.word(), day.as_slice()])
    }
}
