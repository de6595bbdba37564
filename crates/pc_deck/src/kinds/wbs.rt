//! WBS: an item of the work breakdown structure.
ghost use Rattle.std.specs.Prelude.{refl};
ghost use Rattle.pc_faults.specs.declared.kind.Kind.TheVariants as kinds;
ghost use Rattle.pc_deck.specs.Wbs.{item_kind, item_card};
ghost use Rattle.pc_deck.specs.WrittenKinds.{written_of};

use pc_cards::card::{Card, Coded, Layout};
use pc_cards::field::{Misfit, read_code_or_none, read_own_code, read_title};
use pc_cards::form::{FieldForm, Slot};
use pc_cards::sort::Sort;
use pc_faults::Kind;
use pc_records::{Fields, Records};
use pc_text::{Code, Title};
use std::alloc::AllocError;

/// A WBS card: an item of the work breakdown structure. The top item has no parent.
#[derive(Clone, Copy)]
pub struct ItemCard {
    pub row: u32,
    pub code: Code,
    pub parent: Option<Code>,
    pub title: Title,
}

/// The slots in a plan.
const SLOTS: [Slot; 3] = [
    (2, FieldForm::Code),
    (3, FieldForm::CodeOrNone),
    (4, FieldForm::Title),
];

/// The slots in a deck of tasks.
const TASK_SLOTS: [Slot; 3] = [
    (2, FieldForm::GivenCode),
    (3, FieldForm::CodeOrNone),
    (4, FieldForm::Title),
];

impl Card for ItemCard {
    ghost slots = { item_kind.slots };

    ghost least = { 4 };

    ghost most = { 4 };

    ghost spelled = { item_card };

    ghost written = { (written_of kinds.Wbs).written };

    fn layout(sort: Sort) -> Layout {
        Layout {
            slots: match sort {
                Sort::Plan => &SLOTS,
                Sort::Tasks => &TASK_SLOTS,
            },
            least: 4,
            most: 4,
        }
    }

    fn read<F: Fields>(sort: Sort, row: u32, fields: &F) -> Result<ItemCard, Misfit> {
        Ok(ItemCard {
            row,
            code: read_own_code(sort, fields, 2)?,
            parent: read_code_or_none(fields, 3)?,
            title: read_title(fields, 4)?,
        })
    }

    fn put<R: Records>(self, kind: Kind, text: &mut R) -> Result<(), AllocError> {
        let parent = match &self.parent {
            Some(code) => code.bytes(),
            None => b"".as_slice(),
        };
        text.put(&[kind.word(), self.code.bytes(), parent, self.title.bytes()])
    }
}

impl Coded for ItemCard {
    ghost own_code = { λ item. item.code };

    fn code(&self) -> &Code {
        &self.code
    }

    ghost second_field = { λ row fields. refl };
}
