//! TERMS: what time costs.
ghost use Rattle.pc_faults.specs.declared.kind.Kind.TheVariants as kinds;
ghost use Rattle.pc_deck.specs.Terms.{terms_kind, terms_card};
ghost use Rattle.pc_deck.specs.WrittenKinds.{written_of};

use pc_cards::card::{Card, Layout};
use pc_cards::field::{Misfit, read_amount};
use pc_cards::form::{FieldForm, Slot};
use pc_cards::sort::Sort;
use pc_faults::Kind;
use pc_model::MAX_TERMS;
use pc_records::{Fields, Records};
use pc_text::digits;
use std::alloc::AllocError;

/// The TERMS card: what a unit of time costs, and what is paid for an early end or for a late one, in amounts of money
/// for each unit.
#[derive(Clone, Copy)]
pub struct TermsCard {
    pub row: u32,
    /// What each unit of the project's length costs.
    pub overhead: u64,
    /// The length, in units, from which on an end is late.
    pub target: u64,
    /// What is gained for each unit before the target.
    pub bonus: u64,
    /// What is lost for each unit after the target.
    pub penalty: u64,
}

/// One of the four numbers.
const TERM: FieldForm = FieldForm::Number {
    least: 0,
    most: MAX_TERMS,
};

const SLOTS: [Slot; 4] = [(2, TERM), (3, TERM), (4, TERM), (5, TERM)];

impl Card for TermsCard {
    ghost slots = { terms_kind.slots };

    ghost least = { 5 };

    ghost most = { 5 };

    ghost spelled = { terms_card };

    ghost written = { (written_of kinds.Terms).written };

    fn layout(_: Sort) -> Layout {
        Layout {
            slots: &SLOTS,
            least: 5,
            most: 5,
        }
    }

    fn read<F: Fields>(_: Sort, row: u32, fields: &F) -> Result<TermsCard, Misfit> {
        Ok(TermsCard {
            row,
            overhead: read_amount(fields, 2, 0, MAX_TERMS)?,
            target: read_amount(fields, 3, 0, MAX_TERMS)?,
            bonus: read_amount(fields, 4, 0, MAX_TERMS)?,
            penalty: read_amount(fields, 5, 0, MAX_TERMS)?,
        })
    }

    fn put<R: Records>(self, kind: Kind, text: &mut R) -> Result<(), AllocError> {
        text.put(&[
            kind.word(),
            digits(self.overhead).bytes(),
            digits(self.target).bytes(),
            digits(self.bonus).bytes(),
            digits(self.penalty).bytes(),
        ])
    }
}
