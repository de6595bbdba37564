//! What cards name by a code, and the fault of a name that no card has.
ghost use Rattle.std.specs.Prelude.{◌≡◌};
ghost use Rattle.pc_faults.specs.Faults.{unknown_name, unknown_number};

use crate::fault::{Detail, Fault};
use pc_text::Code;

/// What a card names by its code.
#[derive(Clone, Copy)]
pub enum Target {
    /// An EVENT card.
    Event,
    /// A WBS card.
    Item,
    /// An ACCT card.
    Account,
    /// An ACT card.
    Activity,
    /// A TASK card.
    Task,
    /// A RES card.
    Resource,
}

impl Target {
    /// Returns the number of the fault of a card that names what is not there.
    fn unknown_number(self) -> u8
        ensures { result ≡ unknown_number self }
    {
        match self {
            Target::Event => 13,
            Target::Item => 14,
            Target::Account => 15,
            Target::Activity => 16,
            Target::Task => 16,
            Target::Resource => 41,
        }
    }
}

impl Fault {
    /// Returns F13 to F16, or F41: no card has the code that the card names.
    pub fn unknown_name(target: Target, row: u32, code: Code) -> Fault
        ensures { result ≡ unknown_name target row code }
    {
        Fault::new(row, target.unknown_number(), Detail::Name(code))
    }
}
