//! Reading the card of a record, or the fault of its fields.
ghost use Rattle.std.specs.Prelude.{◌≡◌, None, Some, IfOk, OnOk, IfErr};
ghost use Rattle.std.specs.Option.{option_or};
ghost use Rattle.pc_cards.specs.inside.Forms.{IsFirstMisfit};
ghost use Rattle.pc_cards.specs.inside.Findings.{flaw_of_fields, wrong_field_count};

use crate::card::Card;
use crate::field::{Flaw, Misfit};
use crate::form::{Slot, first_misshapen, slots_behind};
use crate::place::CardPlace;
use pc_faults::{Detail, Fault};
use pc_records::Fields;

/// Reads the card of a record. Reads each field once.
///
/// # Errors
///
/// The fault of the fields (F6 to F8), if they have one.
#[tactic(auto, using(crate::proofs::FindLemmas::no_flaw))]
pub(crate) fn read_card<C: Card, F: Fields>(place: &CardPlace, fields: &F) -> Result<C, Fault>
    ensures card { IfOk result (λ card. card ≡ C.spelled place.now.row (F.fields fields.now)) }
    ensures whole { OnOk result (wrong_field_count place.now C.least C.most (F.fields fields.now) ≡ None) }
    ensures fit { OnOk result (flaw_of_fields place.now.row (C.slots place.now.sort) (F.fields fields.now) ≡ None) }
    ensures fault { IfErr result (λ fault. option_or (wrong_field_count place.now C.least C.most (F.fields fields.now))
        (flaw_of_fields place.now.row (C.slots place.now.sort) (F.fields fields.now)) ≡ Some fault) }
{
    let layout = C::layout(place.sort);
    if let Some(fault) = wrong_fields(place, layout.least, layout.most, fields) {
        return Err(fault);
    }
    match C::read(place.sort, place.row, fields) {
        Ok(card) => Ok(card),
        Err(misfit) => Err(fault_of_misfit(place.row, misfit, layout.slots, fields)),
    }
}

/// Returns the fault of a card with too few or too many fields (F6).
pub fn wrong_fields<F: Fields>(
    place: &CardPlace,
    least: usize,
    most: usize,
    fields: &F,
) -> Option<Fault>
    ensures { result ≡ wrong_field_count place.now least most (F.fields fields.now) }
{
    let have = fields.len();
    let want = if have < least {
        least
    } else if !fields.is_blank_from(most) {
        most
    } else {
        return None;
    };
    let detail = Detail::Fields {
        kind: place.kind,
        have: have as u64,
        want: want as u64,
    };
    Some(Fault::new(place.row, 6, detail))
}

/// Returns the fault of a card whose first wrong field is this one.
///
/// A wrong shape (F7) is reported before a limit (F8), even if the field with the wrong shape comes after the other. So
/// only the fields after this one are still to be read.
fn fault_of_misfit<F: Fields>(row: u32, misfit: Misfit, slots: &[Slot], fields: &F) -> Fault
    requires { IsFirstMisfit slots.now (F.fields fields.now) misfit }
    ensures { flaw_of_fields row slots.now (F.fields fields.now) ≡ Some result }
{
    match misfit.flaw {
        Flaw::Shape => Fault::new(row, 7, Detail::Field(misfit.number)),
        Flaw::Limit => match first_misshapen(slots_behind(misfit.number, slots), fields) {
            Some(slot) => Fault::new(row, 7, Detail::Field(slot.0)),
            None => Fault::new(row, 8, Detail::Field(misfit.number)),
        },
    }
}
