//! STATUS: when an activity was begun or ended.
ghost use Rattle.std.specs.Prelude.{◌≡◌};
ghost use Rattle.pc_cards.specs.Forms.{letter_text};
ghost use Rattle.pc_faults.specs.declared.kind.Kind.TheVariants as kinds;
ghost use Rattle.pc_deck.specs.Status.{status_kind, status_card};
ghost use Rattle.pc_deck.specs.WrittenKinds.{written_of};

use pc_cards::card::{Card, Layout};
use pc_cards::field::{Misfit, read_code, read_date, read_letter};
use pc_cards::form::{FieldForm, Slot};
use pc_cards::sort::Sort;
use pc_days::{Day, day_text};
use pc_faults::Kind;
use pc_records::{Fields, Records};
use pc_text::Code;
use std::alloc::AllocError;

/// A STATUS card: when an activity was begun or, where `finished`, ended.
#[derive(Clone, Copy)]
pub struct StatusCard {
    pub row: u32,
    pub activity: Code,
    pub finished: bool,
    pub day: Day,
}

const SLOTS: [Slot; 3] = [
    (2, FieldForm::Code),
    (3, FieldForm::Letter),
    (4, FieldForm::Date),
];

impl Card for StatusCard {
    ghost slots = { status_kind.slots };

    ghost least = { 4 };

    ghost most = { 4 };

    ghost spelled = { status_card };

    ghost written = { (written_of kinds.Status).written };

    fn layout(_: Sort) -> Layout {
        Layout {
            slots: &SLOTS,
            least: 4,
            most: 4,
        }
    }

    fn read<F: Fields>(_: Sort, row: u32, fields: &F) -> Result<StatusCard, Misfit> {
        Ok(StatusCard {
            row,
            activity: read_code(fields, 2)?,
            finished: read_letter(fields, 3)?,
            day: read_date(fields, 4)?,
        })
    }

    fn put<R: Records>(self, kind: Kind, text: &mut R) -> Result<(), AllocError> {
        let day = day_text(self.day);
        text.put(&[
            kind.word(),
            self.activity.bytes(),
            letter(self.finished),
            day.as_slice(),
        ])
    }
}

/// The letter of a status: `F` where the activity is finished, or else `S`.
fn letter(finished: bool) -> &'static [u8]
    ensures { result.now ≡ letter_text finished }
{
    if finished { b"F" } else { b"S" }
}
