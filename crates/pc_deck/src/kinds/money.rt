//! CHARGE and TOGO: amounts of money, spent or still to be spent.
ghost use Rattle.pc_deck.specs.Money.{charge_kind, money_card, written_money};

use pc_cards::card::{Card, Layout};
use pc_cards::field::{Misfit, read_amount, read_code, read_date};
use pc_cards::form::{FieldForm, MONEY, Slot};
use pc_cards::sort::Sort;
use pc_days::{Day, day_text};
use pc_faults::Kind;
use pc_model::MAX_COST;
use pc_records::{Fields, Records};
use pc_text::{Code, digits};
use std::alloc::AllocError;

/// A CHARGE or a TOGO card: an amount of money, spent or still to be spent.
#[derive(Clone, Copy)]
pub struct MoneyCard {
    pub row: u32,
    pub account: Code,
    pub day: Day,
    pub amount: u64,
}

const SLOTS: [Slot; 3] = [(2, FieldForm::Code), (3, FieldForm::Date), (4, MONEY)];

impl Card for MoneyCard {
    ghost slots = { charge_kind.slots };

    ghost least = { 4 };

    ghost most = { 4 };

    ghost spelled = { money_card };

    ghost written = { written_money };

    fn layout(_: Sort) -> Layout {
        Layout {
            slots: &SLOTS,
            least: 4,
            most: 4,
        }
    }

    fn read<F: Fields>(_: Sort, row: u32, fields: &F) -> Result<MoneyCard, Misfit> {
        Ok(MoneyCard {
            row,
            account: read_code(fields, 2)?,
            day: read_date(fields, 3)?,
            amount: read_amount(fields, 4, 0, MAX_COST)?,
        })
    }

    fn put<R: Records>(self, kind: Kind, text: &mut R) -> Result<(), AllocError> {
        let day = day_text(self.day);
        text.put(&[
            kind.word(),
            self.account.bytes(),
            day.as_slice(),
            digits(self.amount).bytes(),
        ])
    }
}
