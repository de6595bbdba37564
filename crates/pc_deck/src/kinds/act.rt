//! ACT: an activity of the network.
ghost use Rattle.std.specs.Prelude.{refl};
ghost use Rattle.pc_faults.specs.declared.kind.Kind.TheVariants as kinds;
ghost use Rattle.pc_deck.specs.Act.{act_kind, act_card};
ghost use Rattle.pc_deck.specs.WrittenKinds.{written_of};

use pc_cards::card::{Card, Coded, Layout};
use pc_cards::field::{Misfit, read_amount, read_code, read_title};
use pc_cards::form::{DURATION, FieldForm, MONEY, SLOPE, Slot};
use pc_cards::sort::Sort;
use pc_faults::Kind;
use pc_model::{MAX_COST, MAX_DURATION, MAX_SLOPE};
use pc_records::{Fields, Records};
use pc_text::{Code, Title, digits};
use std::alloc::AllocError;

/// An ACT card: an activity, with its estimates and durations in units and its costs.
#[derive(Clone, Copy)]
pub struct ActCard {
    pub row: u32,
    pub code: Code,
    pub from: Code,
    pub to: Code,
    pub item: Code,
    pub opt: u64,
    pub likely: u64,
    pub pess: u64,
    pub normal: u64,
    pub crash: u64,
    pub cost: u64,
    pub slope: u64,
    pub title: Title,
}

const SLOTS: [Slot; 12] = [
    (2, FieldForm::Code),
    (3, FieldForm::Code),
    (4, FieldForm::Code),
    (5, FieldForm::Code),
    (6, DURATION),
    (7, DURATION),
    (8, DURATION),
    (9, DURATION),
    (10, DURATION),
    (11, MONEY),
    (12, SLOPE),
    (13, FieldForm::Title),
];

impl Card for ActCard {
    ghost slots = { act_kind.slots };

    ghost least = { 13 };

    ghost most = { 13 };

    ghost spelled = { act_card };

    ghost written = { (written_of kinds.Act).written };

    fn layout(_: Sort) -> Layout {
        Layout {
            slots: &SLOTS,
            least: 13,
            most: 13,
        }
    }

    fn read<F: Fields>(_: Sort, row: u32, fields: &F) -> Result<ActCard, Misfit> {
        Ok(ActCard {
            row,
            code: read_code(fields, 2)?,
            from: read_code(fields, 3)?,
            to: read_code(fields, 4)?,
            item: read_code(fields, 5)?,
            opt: read_amount(fields, 6, 0, MAX_DURATION)?,
            likely: read_amount(fields, 7, 0, MAX_DURATION)?,
            pess: read_amount(fields, 8, 0, MAX_DURATION)?,
            normal: read_amount(fields, 9, 0, MAX_DURATION)?,
            crash: read_amount(fields, 10, 0, MAX_DURATION)?,
            cost: read_amount(fields, 11, 0, MAX_COST)?,
            slope: read_amount(fields, 12, 0, MAX_SLOPE)?,
            title: read_title(fields, 13)?,
        })
    }

    fn put<R: Records>(self, kind: Kind, text: &mut R) -> Result<(), AllocError> {
        text.put(&[
            kind.word(),
            self.code.bytes(),
            self.from.bytes(),
            self.to.bytes(),
            self.item.bytes(),
            digits(self.opt).bytes(),
            digits(self.likely).bytes(),
            digits(self.pess).bytes(),
            digits(self.normal).bytes(),
            digits(self.crash).bytes(),
            digits(self.cost).bytes(),
            digits(self.slope).bytes(),
            self.title.bytes(),
        ])
    }
}

impl Coded for ActCard {
    ghost own_code = { λ act. act.code };

    fn code(&self) -> &Code {
        &self.code
    }

    ghost second_field = { λ row fields. refl };
}
