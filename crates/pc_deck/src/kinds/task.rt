//! TASK: a task of a deck of tasks.
ghost use Rattle.std.specs.Prelude.{refl};
ghost use Rattle.pc_faults.specs.declared.kind.Kind.TheVariants as kinds;
ghost use Rattle.pc_deck.specs.Task.{task_kind, task_card};
ghost use Rattle.pc_deck.specs.WrittenKinds.{written_of};

use pc_cards::card::{Card, Coded, Layout};
use pc_cards::field::{Misfit, read_amount, read_code, read_given_code, read_title};
use pc_cards::form::{DURATION, FieldForm, MONEY, SLOPE, Slot};
use pc_cards::sort::Sort;
use pc_faults::Kind;
use pc_model::{MAX_COST, MAX_DURATION, MAX_SLOPE};
use pc_records::{Fields, Records};
use pc_text::{Code, Title, digits};
use std::alloc::AllocError;

/// A TASK card: a task, with its estimates and durations in units and its costs. It is what an activity is, but for the
/// events.
#[derive(Clone, Copy)]
pub struct TaskCard {
    pub row: u32,
    pub code: Code,
    pub item: Code,
    pub opt: u64,
    pub likely: u64,
    pub pess: u64,
    pub normal: u64,
    pub crash: u64,
    pub cost: u64,
    pub slope: u64,
    pub title: Title,
}

const SLOTS: [Slot; 10] = [
    (2, FieldForm::GivenCode),
    (3, FieldForm::Code),
    (4, DURATION),
    (5, DURATION),
    (6, DURATION),
    (7, DURATION),
    (8, DURATION),
    (9, MONEY),
    (10, SLOPE),
    (11, FieldForm::Title),
];

impl Card for TaskCard {
    ghost slots = { task_kind.slots };

    ghost least = { 11 };

    ghost most = { 11 };

    ghost spelled = { task_card };

    ghost written = { (written_of kinds.Task).written };

    fn layout(_: Sort) -> Layout {
        Layout {
            slots: &SLOTS,
            least: 11,
            most: 11,
        }
    }

    fn read<F: Fields>(_: Sort, row: u32, fields: &F) -> Result<TaskCard, Misfit> {
        Ok(TaskCard {
            row,
            code: read_given_code(fields, 2)?,
            item: read_code(fields, 3)?,
            opt: read_amount(fields, 4, 0, MAX_DURATION)?,
            likely: read_amount(fields, 5, 0, MAX_DURATION)?,
            pess: read_amount(fields, 6, 0, MAX_DURATION)?,
            normal: read_amount(fields, 7, 0, MAX_DURATION)?,
            crash: read_amount(fields, 8, 0, MAX_DURATION)?,
            cost: read_amount(fields, 9, 0, MAX_COST)?,
            slope: read_amount(fields, 10, 0, MAX_SLOPE)?,
            title: read_title(fields, 11)?,
        })
    }

    fn put<R: Records>(self, kind: Kind, text: &mut R) -> Result<(), AllocError> {
        text.put(&[
            kind.word(),
            self.code.bytes(),
            self.item.bytes(),
            digits(self.opt).bytes(),
            digits(self.likely).bytes(),
            digits(self.pess).bytes(),
            digits(self.normal).bytes(),
            digits(self.crash).bytes(),
            digits(self.cost).bytes(),
            digits(self.slope).bytes(),
            self.title.bytes(),
        ])
    }
}

impl Coded for TaskCard {
    ghost own_code = { λ task. task.code };

    fn code(&self) -> &Code {
        &self.code
    }

    ghost second_field = { λ row fields. refl };
}
