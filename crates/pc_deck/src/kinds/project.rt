//! PROJECT: what the project is called, where it starts and ends, and when.
ghost use Rattle.std.specs.Prelude.{◌≡◌, [], if◌then◌else◌};
ghost use Rattle.pc_faults.specs.declared.kind.Kind.TheVariants as kinds;
ghost use Rattle.pc_deck.specs.Project.{project_kind, project_card};
ghost use Rattle.pc_deck.specs.WrittenKinds.{written_of};

use pc_cards::card::{Card, Layout};
use pc_cards::field::{
    Misfit, read_amount, read_amount_or_none, read_code, read_date, read_own_code, read_title,
};
use pc_cards::form::{FieldForm, Slot};
use pc_cards::sort::Sort;
use pc_days::{Day, day_text};
use pc_faults::Kind;
use pc_model::{MAX_DIRECTED, MAX_UNIT_DAYS};
use pc_records::{Fields, Records};
use pc_text::{Code, Title, digits};
use std::alloc::AllocError;

/// The PROJECT card: what the project is called, where it starts and ends, and when.
#[derive(Clone, Copy)]
pub struct ProjectCard {
    /// The record's number, from 1.
    pub row: u32,
    pub code: Code,
    pub start: Code,
    pub end: Code,
    pub start_day: Day,
    /// How many days a unit is, 1 to 7.
    pub unit_days: u64,
    /// The end to be met, in days from the start, where one is given.
    pub directed: Option<u64>,
    pub title: Title,
    /// The version of decks that decides how many cards there may be, 1 or 2.
    pub version: u64,
}

/// The greatest version of decks.
const LAST_VERSION: u64 = 2;

const UNIT_DAYS: FieldForm = FieldForm::Number {
    least: 1,
    most: MAX_UNIT_DAYS,
};

const DIRECTED: FieldForm = FieldForm::NumberOrNone {
    least: 0,
    most: MAX_DIRECTED,
};

const VERSION: FieldForm = FieldForm::NumberOrNone {
    least: 1,
    most: LAST_VERSION,
};

/// The slots in a plan.
const SLOTS: [Slot; 8] = [
    (2, FieldForm::Code),
    (3, FieldForm::Code),
    (4, FieldForm::Code),
    (5, FieldForm::Date),
    (6, UNIT_DAYS),
    (7, DIRECTED),
    (8, FieldForm::Title),
    (9, VERSION),
];

/// The slots in a deck of tasks.
const TASK_SLOTS: [Slot; 8] = [
    (2, FieldForm::Code),
    (3, FieldForm::GivenCode),
    (4, FieldForm::GivenCode),
    (5, FieldForm::Date),
    (6, UNIT_DAYS),
    (7, DIRECTED),
    (8, FieldForm::Title),
    (9, VERSION),
];

impl Card for ProjectCard {
    ghost slots = { project_kind.slots };

    ghost least = { 8 };

    ghost most = { 9 };

    ghost spelled = { project_card };

    ghost written = { (written_of kinds.Project).written };

    fn layout(sort: Sort) -> Layout {
        Layout {
            slots: match sort {
                Sort::Plan => &SLOTS,
                Sort::Tasks => &TASK_SLOTS,
            },
            least: 8,
            most: 9,
        }
    }

    fn read<F: Fields>(sort: Sort, row: u32, fields: &F) -> Result<ProjectCard, Misfit> {
        Ok(ProjectCard {
            row,
            code: read_code(fields, 2)?,
            start: read_own_code(sort, fields, 3)?,
            end: read_own_code(sort, fields, 4)?,
            start_day: read_date(fields, 5)?,
            unit_days: read_amount(fields, 6, 1, MAX_UNIT_DAYS)?,
            directed: read_amount_or_none(fields, 7, 0, MAX_DIRECTED)?,
            title: read_title(fields, 8)?,
            version: read_amount_or_none(fields, 9, 1, LAST_VERSION)?.unwrap_or(1),
        })
    }

    fn put<R: Records>(self, kind: Kind, text: &mut R) -> Result<(), AllocError> {
        let start_day = day_text(self.start_day);
        let days = digits(self.directed.unwrap_or(0));
        text.put(&[
            kind.word(),
            self.code.bytes(),
            self.start.bytes(),
            self.end.bytes(),
            start_day.as_slice(),
            digits(self.unit_days).bytes(),
            where_so(self.directed.is_some(), days.bytes()),
            self.title.bytes(),
            digits(self.version).bytes(),
        ])
    }
}

/// The bytes, where the test holds, or else none.
fn where_so(test: bool, bytes: &[u8]) -> &[u8]
    ensures { result.now ≡ (if test then bytes.now else []) }
{
    if test { bytes } else { &[] }
}
