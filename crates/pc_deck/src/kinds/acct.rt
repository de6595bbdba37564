//! ACCT: a cost account.
ghost use Rattle.std.specs.Prelude.{refl};
ghost use Rattle.pc_faults.specs.declared.kind.Kind.TheVariants as kinds;
ghost use Rattle.pc_deck.specs.Acct.{account_kind, account_card};
ghost use Rattle.pc_deck.specs.WrittenKinds.{written_of};

use pc_cards::card::{Card, Coded, Layout};
use pc_cards::field::{Misfit, read_amount, read_code, read_title};
use pc_cards::form::{FieldForm, MONEY, Slot};
use pc_cards::sort::Sort;
use pc_faults::Kind;
use pc_model::MAX_COST;
use pc_records::{Fields, Records};
use pc_text::{Code, Title, digits};
use std::alloc::AllocError;

/// An ACCT card: a cost account of an item, with its budget.
#[derive(Clone, Copy)]
pub struct AcctCard {
    pub row: u32,
    pub code: Code,
    pub item: Code,
    pub budget: u64,
    pub title: Title,
}

const SLOTS: [Slot; 4] = [
    (2, FieldForm::Code),
    (3, FieldForm::Code),
    (4, MONEY),
    (5, FieldForm::Title),
];

impl Card for AcctCard {
    ghost slots = { account_kind.slots };

    ghost least = { 5 };

    ghost most = { 5 };

    ghost spelled = { account_card };

    ghost written = { (written_of kinds.Acct).written };

    fn layout(_: Sort) -> Layout {
        Layout {
            slots: &SLOTS,
            least: 5,
            most: 5,
        }
    }

    fn read<F: Fields>(_: Sort, row: u32, fields: &F) -> Result<AcctCard, Misfit> {
        Ok(AcctCard {
            row,
            code: read_code(fields, 2)?,
            item: read_code(fields, 3)?,
            budget: read_amount(fields, 4, 0, MAX_COST)?,
            title: read_title(fields, 5)?,
        })
    }

    fn put<R: Records>(self, kind: Kind, text: &mut R) -> Result<(), AllocError> {
        text.put(&[
            kind.word(),
            self.code.bytes(),
            self.item.bytes(),
            digits(self.budget).bytes(),
            self.title.bytes(),
        ])
    }
}

impl Coded for AcctCard {
    ghost own_code = { λ account. account.code };

    fn code(&self) -> &Code {
        &self.code
    }

    ghost second_field = { λ row fields. refl };
}
