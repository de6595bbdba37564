//! The line of each fault, grouped by what the faults name in addition to their record.
ghost use Rattle.std.specs.Prelude.{All};
ghost use Rattle.pc_faults.specs.inside.FaultText.{IsTold};

use crate::cases::expect_none;
use pc_days::{Day, read_day};
use pc_faults::{Detail, Fault, Kind, NOT_UTF8, StatusFault, TOO_LONG, Target, fault_line};
use pc_text::{Code, Codes};
use std::alloc::Global;

/// Whether this is the line of a fault.
fn tells(alloc: Global, fault: &Fault, line: &[u8]) -> bool
    requires { IsTold fault.now }
{
    match fault_line(alloc, fault) {
        Ok(told) => told.bytes() == line,
        Err(_) => false,
    }
}

/// The first of these faults that has another line, or none. If there are not as many lines, the number of faults.
fn first_wrong(alloc: Global, faults: &[Fault], lines: &[&[u8]]) -> Option<usize>
    requires { All IsTold faults.now }
{
    if faults.len() != lines.len() {
        return Some(faults.len());
    }
    for (i, (fault, line)) in faults.iter().zip(lines).enumerate() {
        if !tells(alloc, fault, line) {
            return Some(i);
        }
    }
    None
}

const PLAIN: &[&[u8]] = &[
    b"F1 record 0: more than 67108864 bytes\n",
    b"F2 record 0: not UTF-8\n",
    b"F3 record 1: first card is not PROJECT\n",
    b"F4 record 2: unknown kind\n",
    b"F11 record 8: card after END\n",
    b"F12 record 9: no END\n",
    b"F18 record 15: estimates out of order\n",
    b"F19 record 16: crash above normal\n",
    b"F20 record 0: no top item\n",
    b"F36 record 35: bonus above penalty\n",
    b"F37 record 36: top item has no child\n",
    b"F39 record 0: no task\n",
];

/// The first wrong line of the faults that name nothing, or none.
fn first_wrong_plain(alloc: Global) -> Option<usize> {
    let faults = [
        TOO_LONG,
        NOT_UTF8,
        Fault::new(1, 3, Detail::Plain),
        Fault::new(2, 4, Detail::Plain),
        Fault::new(8, 11, Detail::Plain),
        Fault::new(9, 12, Detail::Plain),
        Fault::new(15, 18, Detail::Plain),
        Fault::new(16, 19, Detail::Plain),
        Fault::new(0, 20, Detail::Plain),
        Fault::new(35, 36, Detail::Plain),
        Fault::new(36, 37, Detail::Plain),
        Fault::new(0, 39, Detail::Plain),
    ];
    first_wrong(alloc, &faults, PLAIN)
}

const CODE: &[&[u8]] = &[
    b"F9 record 7: code X.1 is repeated\n",
    b"F13 record 10: unknown event X.1\n",
    b"F14 record 11: unknown item X.1\n",
    b"F15 record 12: unknown account X.1\n",
    b"F16 record 13: unknown activity X.1\n",
    b"F16 record 13: unknown activity X.1\n",
    b"F17 record 14: begins and ends at X.1\n",
    b"F21 record 17: second top item 0123456789abcdef\n",
    b"F24 record 20: activity 0123456789abcdef enters the start\n",
    b"F25 record 21: activity X.1 leaves the end\n",
    b"F28 record 25: item X.1 is not a leaf\n",
    b"F33 record 32: more than 4 pieces of X.1\n",
    b"F34 record 33: slope of a piece of X.1 does not rise\n",
    b"F35 record 34: pieces of X.1 leave nothing to its first slope\n",
    b"F41 record 38: unknown resource X.1\n",
];

/// The first wrong line of the faults that name a code, or none.
fn first_wrong_code(alloc: Global, short: Code, long: Code) -> Option<usize> {
    let faults = [
        Fault::new(7, 9, Detail::Name(short)),
        Fault::unknown_name(Target::Event, 10, short),
        Fault::unknown_name(Target::Item, 11, short),
        Fault::unknown_name(Target::Account, 12, short),
        Fault::unknown_name(Target::Activity, 13, short),
        Fault::unknown_name(Target::Task, 13, short),
        Fault::new(14, 17, Detail::Name(short)),
        Fault::new(17, 21, Detail::Name(long)),
        Fault::new(20, 24, Detail::Name(long)),
        Fault::new(21, 25, Detail::Name(short)),
        Fault::new(25, 28, Detail::Name(short)),
        Fault::new(32, 33, Detail::Name(short)),
        Fault::new(33, 34, Detail::Name(short)),
        Fault::new(34, 35, Detail::Name(short)),
        Fault::unknown_name(Target::Resource, 38, short),
    ];
    first_wrong(alloc, &faults, CODE)
}

const CODES: &[&[u8]] = &[
    b"F22 record 18: items in a loop: X.1 0123456789abcdef X.1\n",
    b"F27 record 24: activities in a cycle: 0123456789abcdef\n",
    b"F38 record 37: tasks in a cycle: X.1 0123456789abcdef\n",
];

/// The first wrong line of the faults that name several codes, or none. If memory runs out, the number of these faults.
fn first_wrong_codes(alloc: Global, short: Code, long: Code) -> Option<usize> {
    let (Ok(items), Ok(acts), Ok(tasks)) = (
        Codes::of(alloc, &[short, long, short]),
        Codes::of(alloc, &[long]),
        Codes::of(alloc, &[short, long]),
    ) else {
        return Some(CODES.len());
    };
    let faults = [
        Fault::new(18, 22, Detail::Names(items)),
        Fault::new(24, 27, Detail::Names(acts)),
        Fault::new(37, 38, Detail::Names(tasks)),
    ];
    first_wrong(alloc, &faults, CODES)
}

const REASON: &[&[u8]] = &[
    b"F30 record 27: second status\n",
    b"F30 record 28: date before the start\n",
    b"F30 record 29: date after as-of\n",
    b"F30 record 30: finish without start\n",
    b"F30 record 31: finish before start\n",
];

/// The first wrong line of the faults that name a reason, or none.
fn first_wrong_reason(alloc: Global) -> Option<usize> {
    let faults = [
        Fault::new(27, 30, Detail::Status(StatusFault::Second)),
        Fault::new(28, 30, Detail::Status(StatusFault::Early)),
        Fault::new(29, 30, Detail::Status(StatusFault::Late)),
        Fault::new(30, 30, Detail::Status(StatusFault::NoStart)),
        Fault::new(31, 30, Detail::Status(StatusFault::FinishFirst)),
    ];
    first_wrong(alloc, &faults, REASON)
}

const NUMBERS: &[&[u8]] = &[
    b"F5 record 3: second TERMS\n",
    b"F6 record 4: 10 fields, PROJECT has 9\n",
    b"F7 record 5: field 13 has a wrong shape\n",
    b"F8 record 6: field 9 is over its limit\n",
    b"F10 record 5002: more than 5000 EVENT cards\n",
    b"F32 record 0: length 10 is outside 5 to 9\n",
    b"F40 record 0: 100007 periods, more than 400\n",
];

/// The first wrong line of the faults that name a kind or numbers, or none.
fn first_wrong_numbers(alloc: Global) -> Option<usize> {
    let fields = Detail::Fields {
        kind: Kind::Project,
        have: 10,
        want: 9,
    };
    let events = Detail::TooMany {
        kind: Kind::Event,
        limit: 5000,
    };
    let length = Detail::Length {
        asked: 10,
        crash: 5,
        normal: 9,
    };
    let faults = [
        Fault::new(3, 5, Detail::Kind(Kind::Terms)),
        Fault::new(4, 6, fields),
        Fault::new(5, 7, Detail::Field(13)),
        Fault::new(6, 8, Detail::Field(9)),
        Fault::new(5002, 10, events),
        Fault::new(0, 32, length),
        Fault::new(0, 40, Detail::Periods { have: 100007 }),
    ];
    first_wrong(alloc, &faults, NUMBERS)
}

const CODE_AND_MORE: &[&[u8]] = &[
    b"F23 record 19: item X.1 at level 17\n",
    b"F26 record 22: no activity enters X.1\n",
    b"F26 record 23: no activity leaves X.1\n",
    b"F29 record 26: item X.1 has budgets 25 and costs 24\n",
    b"F31 record 32: second TOGO of X.1 on 2024-02-29\n",
];

/// The first wrong line of the faults that name a code and something else, or none.
fn first_wrong_code_and_more(alloc: Global, name: Code, day: Day) -> Option<usize> {
    let entered = Detail::Side {
        name,
        entered: true,
    };
    let left = Detail::Side {
        name,
        entered: false,
    };
    let sums = Detail::Sums {
        name,
        budgets: 25,
        costs: 24,
    };
    let faults = [
        Fault::new(19, 23, Detail::Level { name, level: 17 }),
        Fault::new(22, 26, left),
        Fault::new(23, 26, entered),
        Fault::new(26, 29, sums),
        Fault::new(32, 31, Detail::ToGo { account: name, day }),
    ];
    first_wrong(alloc, &faults, CODE_AND_MORE)
}

/// What the faults name: a code, one that is as long as a code may be, and a date.
#[derive(Drop)]
struct Named {
    short: Code,
    long: Code,
    date: Day,
}

/// The codes and the date, or none if one of them is not read.
fn read_named() -> Option<Named> {
    Some(Named {
        short: Code::read(b"X.1")?,
        long: Code::read(b"0123456789abcdef")?,
        date: read_day(b"2024-02-29").ok()?,
    })
}

#[test]
fn faults(rt: HostRuntime) {
    let alloc = rt.alloc();
    expect_none(&rt, first_wrong_plain(alloc));
    expect_none(&rt, first_wrong_reason(alloc));
    expect_none(&rt, first_wrong_numbers(alloc));
    let Some(Named { short, long, date }) = read_named() else {
        panic!(rt; "names");
    };
    expect_none(&rt, first_wrong_code(alloc, short, long));
    expect_none(&rt, first_wrong_codes(alloc, short, long));
    expect_none(&rt, first_wrong_code_and_more(alloc, short, date));
}
