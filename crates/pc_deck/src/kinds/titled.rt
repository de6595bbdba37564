//! EVENT and RES: what has a code and a title, an event of the network or a resource.
ghost use Rattle.std.specs.Prelude.{refl};
ghost use Rattle.pc_deck.specs.Titled.{event_kind, titled_card, written_titled};

use pc_cards::card::{Card, Coded, Layout};
use pc_cards::field::{Misfit, read_code, read_title};
use pc_cards::form::{FieldForm, Slot};
use pc_cards::sort::Sort;
use pc_faults::Kind;
use pc_records::{Fields, Records};
use pc_text::{Code, Title};
use std::alloc::AllocError;

/// An EVENT or a RES card: an event of the network, or a resource that activities use.
#[derive(Clone, Copy)]
pub struct TitledCard {
    pub row: u32,
    pub code: Code,
    pub title: Title,
}

const SLOTS: [Slot; 2] = [(2, FieldForm::Code), (3, FieldForm::Title)];

impl Card for TitledCard {
    ghost slots = { event_kind.slots };

    ghost least = { 3 };

    ghost most = { 3 };

    ghost spelled = { titled_card };

    ghost written = { written_titled };

    fn layout(_: Sort) -> Layout {
        Layout {
            slots: &SLOTS,
            least: 3,
            most: 3,
        }
    }

    fn read<F: Fields>(_: Sort, row: u32, fields: &F) -> Result<TitledCard, Misfit> {
        Ok(TitledCard {
            row,
            code: read_code(fields, 2)?,
            title: read_title(fields, 3)?,
        })
    }

    fn put<R: Records>(self, kind: Kind, text: &mut R) -> Result<(), AllocError> {
        text.put(&[kind.word(), self.code.bytes(), self.title.bytes()])
    }
}

impl Coded for TitledCard {
    ghost own_code = { λ card. card.code };

    fn code(&self) -> &Code {
        &self.code
    }

    ghost second_field = { λ row fields. refl };
}
