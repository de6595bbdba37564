//! Why a deck is refused, and which of several faults comes first.
ghost use Rattle.std.specs.Prelude.{◌≡◌, ◌≤◌, length, Some};
ghost use Rattle.pc_faults.specs.FaultText.{status_words};
ghost use Rattle.pc_faults.specs.inside.First.{earliest, is_no_later};

use crate::kind::Kind;
use pc_days::Day;
use pc_text::{Code, Codes};
use std::alloc::AllocError;

/// What a fault names in addition to its record.
#[derive(Debug, Drop)]
pub enum Detail {
    /// Nothing.
    Plain,
    /// The kind that has this second card.
    Kind(Kind),
    /// How many fields the record has, the empty ones among them, and how many a card of its kind has.
    Fields {
        kind: Kind,
        have: u64,
        want: u64,
    },
    /// The number of a field, the kind being field 1.
    Field(u8),
    /// A code.
    Name(Code),
    /// The kind that has too many cards, and how many there may be.
    TooMany {
        kind: Kind,
        limit: u64,
    },
    /// Several codes, in the order in which the line lists them.
    Names(Codes),
    /// An item, and its level in the tree of items.
    Level {
        name: Code,
        level: u32,
    },
    /// An event, and whether an activity enters it.
    Side {
        name: Code,
        entered: bool,
    },
    /// An item, the sum of the budgets of its accounts, and the sum of the costs of its activities.
    Sums {
        name: Code,
        budgets: u64,
        costs: u64,
    },
    /// Why a STATUS or ASOF card is in disorder.
    Status(StatusFault),
    /// An account, and the date for which it has a second TOGO card.
    ToGo {
        account: Code,
        day: Day,
    },
    /// The length that was asked for, and between which lengths it would have to be.
    Length {
        asked: u64,
        crash: u64,
        normal: u64,
    },
    /// How many periods there would be.
    Periods {
        have: u64,
    },
}

/// A fault of a deck: its number, which says what is wrong, and its record. Records are counted from 1; 0 is the
/// complete deck.
#[derive(Debug, Drop)]
pub struct Fault {
    pub row: u32,
    pub number: u8,
    pub detail: Detail,
}

impl Fault {
    /// Returns the fault with this number at a record. The definitions in `specs/Faults.antt` list the faults by their
    /// numbers.
    pub fn new(row: u32, number: u8, detail: Detail) -> Fault
        ensures { result ≡ record { row = row; number = number; detail = detail } }
    {
        Fault {
            row,
            number,
            detail,
        }
    }
}

/// Returns F1: the deck has more bytes than allowed.
pub const TOO_LONG: Fault = Fault {
    row: 0,
    number: 1,
    detail: Detail::Plain,
};

/// Returns F2: the deck is not UTF-8.
pub const NOT_UTF8: Fault = Fault {
    row: 0,
    number: 2,
    detail: Detail::Plain,
};

/// Why the cards of a deck or a project could not be built.
#[derive(Debug, Drop)]
pub enum DeckError {
    Fault(Fault),
    OutOfMemory,
}

impl From<Fault> for DeckError {
    ghost use Rattle.std.specs.Prelude.{◌≡◌};
    ghost use Rattle.pc_faults.specs.declared.fault.DeckError.TheVariants as errors;

    ghost from_gives = { λ fault e. e ≡ errors.Fault fault };

    fn from(fault: Fault) -> DeckError {
        DeckError::Fault(fault)
    }
}

impl From<AllocError> for DeckError {
    ghost use Rattle.std.specs.Prelude.{◌≡◌};
    ghost use Rattle.pc_faults.specs.declared.fault.DeckError.TheVariants.{OutOfMemory};

    ghost from_gives = { λ _ e. e ≡ OutOfMemory };

    fn from(_: AllocError) -> DeckError {
        DeckError::OutOfMemory
    }
}

/// Why a STATUS card or the ASOF card is in disorder. If several reasons apply, the fault reports the first of these.
#[derive(Clone, Copy, Debug, PartialEq, Eq)]
pub enum StatusFault {
    /// An earlier STATUS card has the same activity and letter.
    Second,
    /// The date is before the start of the project.
    Early,
    /// The date is after the as-of date.
    Late,
    /// An end without a begin of the same activity.
    NoStart,
    /// An end that is dated before the activity's begin.
    FinishFirst,
}

impl StatusFault {
    /// What is wrong.
    pub(crate) fn words(self) -> &'static [u8]
        ensures words { result.now ≡ status_words self }
        ensures short { length result.now ≤ 21 }
    {
        match self {
            StatusFault::Second => b"second status",
            StatusFault::Early => b"date before the start",
            StatusFault::Late => b"date after as-of",
            StatusFault::NoStart => b"finish without start",
            StatusFault::FinishFirst => b"finish before start",
        }
    }
}

/// Returns the earlier of two faults, if there is any: the one at the earlier record, or at the same record the one
/// with the smaller number.
pub fn earliest(one: Option<Fault>, other: Option<Fault>) -> Option<Fault>
    ensures { result ≡ earliest one other }
{
    match one {
        None => other,
        Some(fault) => Some(earlier_of(fault, other)),
    }
}

/// Returns the earlier of a fault and another one, if there is another.
pub fn earlier_of(fault: Fault, other: Option<Fault>) -> Fault
    ensures { Some result ≡ earliest (Some fault) other }
{
    match other {
        None => fault,
        Some(other) => {
            if is_no_later(&fault, &other) {
                fault
            } else {
                other
            }
        }
    }
}

/// Returns whether a fault is no later than another: at an earlier record, or at the same record with no greater
/// number.
fn is_no_later(fault: &Fault, other: &Fault) -> bool
    ensures { result ≡ is_no_later fault.now other.now }
{
    fault.row < other.row || (fault.row == other.row && fault.number <= other.number)
}
