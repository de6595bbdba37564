//! What one field of a card must be, and what is wrong with fields that are not.
ghost use Rattle.std.specs.Prelude.{◌≡◌, not, option_copied, IfSome, IfNone};
ghost use Rattle.pc_cards.specs.Forms.{Fits, field_numbered, first_misshapen, has_shape};
ghost use Rattle.pc_cards.specs.inside.Forms.{IsMisfit, slots_behind};

use crate::field::{
    Misfit, read_amount, read_amount_or_none, read_code, read_code_or_none, read_date,
    read_given_code, read_letter, read_title,
};
use pc_model::{MAX_COST, MAX_DURATION, MAX_SLOPE};
use pc_records::Fields;

/// The form of an estimate or a duration, in units.
pub const DURATION: FieldForm = FieldForm::Number {
    least: 0,
    most: MAX_DURATION,
};

/// The form of an amount of money.
pub const MONEY: FieldForm = FieldForm::Number {
    least: 0,
    most: MAX_COST,
};

/// The form of a slope: the cost of shortening a duration by one unit.
pub const SLOPE: FieldForm = FieldForm::Number {
    least: 0,
    most: MAX_SLOPE,
};

/// What a field must be.
#[derive(Clone, Copy)]
pub enum FieldForm {
    Code,
    /// A code that does not begin with `_`.
    GivenCode,
    CodeOrNone,
    Title,
    Date,
    /// A number from `least` to `most`.
    Number { least: u64, most: u64 },
    /// A number from `least` to `most`, or nothing.
    NumberOrNone { least: u64, most: u64 },
    /// `S` or `F`.
    Letter,
}

/// The number of a field (the kind is field 1), and what the field must be.
pub type Slot = (u8, FieldForm);

/// What is wrong with the field of a slot, if anything is.
fn misfit_of<F: Fields>(slot: &Slot, fields: &F) -> Option<Misfit>
    ensures misfit { IfSome result (IsMisfit slot.now.0 slot.now.1 (field_numbered (F.fields fields.now) slot.now.0)) }
    ensures fit { IfNone result (Fits slot.now.1 (field_numbered (F.fields fields.now) slot.now.0)) }
{
    let number = slot.0;
    match slot.1 {
        FieldForm::Code => read_code(fields, number).err(),
        FieldForm::GivenCode => read_given_code(fields, number).err(),
        FieldForm::CodeOrNone => read_code_or_none(fields, number).err(),
        FieldForm::Title => read_title(fields, number).err(),
        FieldForm::Date => read_date(fields, number).err(),
        FieldForm::Number { least, most } => read_amount(fields, number, least, most).err(),
        FieldForm::NumberOrNone { least, most } => {
            read_amount_or_none(fields, number, least, most).err()
        }
        FieldForm::Letter => read_letter(fields, number).err(),
    }
}

/// Whether the field of a slot does not have the shape that it must have.
#[tactic(auto, using(crate::proofs::MisfitLemmas::shape_told))]
fn is_misshapen<F: Fields>(slot: &Slot, fields: &F) -> bool
    ensures { result ≡ not (has_shape slot.now.1 (field_numbered (F.fields fields.now) slot.now.0)) }
{
    match misfit_of(slot, fields) {
        Some(misfit) => misfit.flaw.is_of_shape(),
        None => false,
    }
}

/// Returns the first slot whose field does not have the shape that it must have.
pub(crate) fn first_misshapen<'s, F: Fields>(slots: &'s [Slot], fields: &F) -> Option<&'s Slot>
    ensures { option_copied result ≡ first_misshapen slots.now (F.fields fields.now) }
{
    slots.iter().find(|slot| is_misshapen(*slot, fields))
}

/// Returns the slots after the first one with this number.
pub(crate) fn slots_behind(number: u8, slots: &[Slot]) -> &[Slot]
    ensures { result.now ≡ slots_behind number slots.now }
{
    for (i, slot) in slots.iter().enumerate() {
        if slot.0 == number {
            return &slots[i + 1..];
        }
    }
    &[]
}
