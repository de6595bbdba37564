//! LOAD: what an activity uses of a resource.
ghost use Rattle.pc_faults.specs.declared.kind.Kind.TheVariants as kinds;
ghost use Rattle.pc_deck.specs.Load.{load_kind, load_card};
ghost use Rattle.pc_deck.specs.WrittenKinds.{written_of};

use pc_cards::card::{Card, Layout};
use pc_cards::field::{Misfit, read_amount, read_code};
use pc_cards::form::{FieldForm, MONEY, Slot};
use pc_cards::sort::Sort;
use pc_faults::Kind;
use pc_model::MAX_COST;
use pc_records::{Fields, Records};
use pc_text::{Code, digits};
use std::alloc::AllocError;

/// A LOAD card: how much of a resource an activity uses.
#[derive(Clone, Copy)]
pub struct LoadCard {
    pub row: u32,
    pub activity: Code,
    pub resource: Code,
    pub quantity: u64,
}

const SLOTS: [Slot; 3] = [(2, FieldForm::Code), (3, FieldForm::Code), (4, MONEY)];

impl Card for LoadCard {
    ghost slots = { load_kind.slots };

    ghost least = { 4 };

    ghost most = { 4 };

    ghost spelled = { load_card };

    ghost written = { (written_of kinds.Load).written };

    fn layout(_: Sort) -> Layout {
        Layout {
            slots: &SLOTS,
            least: 4,
            most: 4,
        }
    }

    fn read<F: Fields>(_: Sort, row: u32, fields: &F) -> Result<LoadCard, Misfit> {
        Ok(LoadCard {
            row,
            activity: read_code(fields, 2)?,
            resource: read_code(fields, 3)?,
            quantity: read_amount(fields, 4, 0, MAX_COST)?,
        })
    }

    fn put<R: Records>(self, kind: Kind, text: &mut R) -> Result<(), AllocError> {
        text.put(&[
            kind.word(),
            self.activity.bytes(),
            self.resource.bytes(),
            digits(self.quantity).bytes(),
        ])
    }
}
