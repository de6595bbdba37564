//! AFTER: a task that comes after another.
ghost use Rattle.pc_faults.specs.declared.kind.Kind.TheVariants as kinds;
ghost use Rattle.pc_deck.specs.After.{after_kind, after_card};
ghost use Rattle.pc_deck.specs.WrittenKinds.{written_of};

use pc_cards::card::{Card, Layout};
use pc_cards::field::{Misfit, read_code};
use pc_cards::form::{FieldForm, Slot};
use pc_cards::sort::Sort;
use pc_faults::Kind;
use pc_records::{Fields, Records};
use pc_text::Code;
use std::alloc::AllocError;

/// An AFTER card: the task begins only when the one before has ended.
#[derive(Clone, Copy)]
pub struct AfterCard {
    pub row: u32,
    pub task: Code,
    pub before: Code,
}

const SLOTS: [Slot; 2] = [(2, FieldForm::Code), (3, FieldForm::Code)];

impl Card for AfterCard {
    ghost slots = { after_kind.slots };

    ghost least = { 3 };

    ghost most = { 3 };

    ghost spelled = { after_card };

    ghost written = { (written_of kinds.After).written };

    fn layout(_: Sort) -> Layout {
        Layout {
            slots: &SLOTS,
            least: 3,
            most: 3,
        }
    }

    fn read<F: Fields>(_: Sort, row: u32, fields: &F) -> Result<AfterCard, Misfit> {
        Ok(AfterCard {
            row,
            task: read_code(fields, 2)?,
            before: read_code(fields, 3)?,
        })
    }

    fn put<R: Records>(self, kind: Kind, text: &mut R) -> Result<(), AllocError> {
        text.put(&[kind.word(), self.task.bytes(), self.before.bytes()])
    }
}
