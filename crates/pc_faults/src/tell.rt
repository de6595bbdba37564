//! The line that reports a fault.
ghost use Rattle.std.specs.Prelude.{◌≡◌, ◌<◌, ◌≤◌, ◌+◌, ◌*◌, ◌^◌, length, IfOk};
ghost use Rattle.pc_faults.specs.FaultText.{words_of, fault_text, spaced_codes, joined};
ghost use Rattle.pc_faults.specs.inside.FaultText.{IsTold};
ghost use Rattle.pc_faults.specs.inside.FaultRoom.{HasTold, listed_in, words_limit};
ghost use Rattle.pc_faults.specs.declared.fault.Detail.TheVariants as detail;

use crate::fault::{Detail, Fault};
use crate::kind::Kind;
use crate::words::{Words, side_words};
use pc_days::{Day, day_text};
use pc_text::{Code, Codes, Line, digits};
use std::alloc::{AllocError, Global};

/// Capacity for the longest line of a fault that lists no codes, in bytes.
const ROOM: usize = 144;

/// Capacity for a code and the space before it, in bytes.
const CODE_ROOM: usize = 17;

/// Returns the line that reports a fault, including the line feed. The fault must be one with which a deck can be
/// refused.
///
/// Allocates once, for as many codes as the fault lists.
///
/// # Errors
///
/// `AllocError` if there is not enough memory for the line.
pub fn fault_line(alloc: Global, fault: &Fault) -> Result<Line, AllocError>
    requires { IsTold fault.now }
    ensures { IfOk result (λ line. line.bytes ≡ fault_text fault.now) }
{
    let mut line = Line::with_room(alloc, ROOM + CODE_ROOM * listed_in(&fault.detail))?;
    line.text(b"F");
    line.text(digits(u64::from(fault.number)).bytes());
    line.text(b" record ");
    line.text(digits(u64::from(fault.row)).bytes());
    line.text(b": ");
    tell(&mut line, fault.number, &fault.detail);
    line.text(b"\n");
    Ok(line)
}

/// How many codes the fault lists.
fn listed_in(detail: &Detail) -> usize
    ensures count { result ≡ listed_in detail.now }
    ensures few { 17 * result < 2 ^ 63 }
{
    match detail {
        Detail::Names(names) => names.as_slice().len(),
        Detail::Plain
        | Detail::Kind(_)
        | Detail::Fields { .. }
        | Detail::Field(_)
        | Detail::Name(_)
        | Detail::TooMany { .. }
        | Detail::Level { .. }
        | Detail::Side { .. }
        | Detail::Sums { .. }
        | Detail::Status(_)
        | Detail::ToGo { .. }
        | Detail::Length { .. }
        | Detail::Periods { .. } => 0,
    }
}

/// Appends what is wrong.
fn tell(line: &mut Line, number: u8, detail: &Detail)
    requires { length line.old.bytes + words_limit detail.now ≤ line.old.room }
    ensures { HasTold (words_limit detail.now) line.old line.new (words_of number detail.now) }
{
    match detail {
        Detail::Plain => line.text(Words::of(number).before),
        Detail::Kind(kind) => tell_second(line, *kind),
        Detail::Fields { kind, have, want } => tell_fields(line, *kind, *have, *want),
        Detail::Field(field) => tell_field(line, number, *field),
        Detail::Name(code) => tell_name(line, number, code),
        Detail::TooMany { kind, limit } => tell_too_many(line, *kind, *limit),
        Detail::Names(names) => tell_names(line, number, names),
        Detail::Level { name, level } => tell_level(line, name, *level),
        Detail::Side { name, entered } => tell_side(line, name, *entered),
        Detail::Sums {
            name,
            budgets,
            costs,
        } => tell_sums(line, name, *budgets, *costs),
        Detail::Status(reason) => line.text(reason.words()),
        Detail::ToGo { account, day } => tell_togo(line, account, *day),
        Detail::Length {
            asked,
            crash,
            normal,
        } => tell_length(line, *asked, *crash, *normal),
        Detail::Periods { have } => tell_periods(line, *have),
    }
}

/// Appends the kind that has a second card.
fn tell_second(line: &mut Line, kind: Kind)
    requires { length line.old.bytes + 90 ≤ line.old.room }
    ensures { HasTold 90 line.old line.new (words_of 5 (detail.Kind kind)) }
{
    line.text(b"second ");
    line.text(kind.word());
}

/// Appends how many fields a record has and should have.
fn tell_fields(line: &mut Line, kind: Kind, have: u64, want: u64)
    requires { length line.old.bytes + 90 ≤ line.old.room }
    ensures { HasTold 90 line.old line.new (words_of 6 (detail.Fields kind have want)) }
{
    line.text(digits(have).bytes());
    line.text(b" fields, ");
    line.text(kind.word());
    line.text(b" has ");
    line.text(digits(want).bytes());
}

/// Appends what is wrong with a field.
fn tell_field(line: &mut Line, number: u8, field: u8)
    requires { length line.old.bytes + 90 ≤ line.old.room }
    ensures { HasTold 90 line.old line.new (words_of number (detail.Field field)) }
{
    let words = Words::of(number);
    line.text(words.before);
    line.text(digits(u64::from(field)).bytes());
    line.text(words.after);
}

/// Appends what is wrong with a code.
fn tell_name(line: &mut Line, number: u8, code: &Code)
    requires { length line.old.bytes + 90 ≤ line.old.room }
    ensures { HasTold 90 line.old line.new (words_of number (detail.Name code.now)) }
{
    let words = Words::of(number);
    line.text(words.before);
    line.text(code.bytes());
    line.text(words.after);
}

/// Appends the kind that has too many cards.
fn tell_too_many(line: &mut Line, kind: Kind, limit: u64)
    requires { length line.old.bytes + 90 ≤ line.old.room }
    ensures { HasTold 90 line.old line.new (words_of 10 (detail.TooMany kind limit)) }
{
    line.text(b"more than ");
    line.text(digits(limit).bytes());
    line.text(b" ");
    line.text(kind.word());
    line.text(b" cards");
}

/// Appends what is wrong with several codes together.
fn tell_names(line: &mut Line, number: u8, names: &Codes)
    requires { length line.old.bytes + (90 + 17 * length names.now) ≤ line.old.room }
    ensures { HasTold (90 + 17 * length names.now) line.old line.new (words_of number (detail.Names names.now)) }
{
    line.text(Words::of(number).before);
    tell_joined(line, names.as_slice());
}

/// Appends the level of an item.
fn tell_level(line: &mut Line, name: &Code, level: u32)
    requires { length line.old.bytes + 90 ≤ line.old.room }
    ensures { HasTold 90 line.old line.new (words_of 23 (detail.Level name.now level)) }
{
    line.text(b"item ");
    line.text(name.bytes());
    line.text(b" at level ");
    line.text(digits(u64::from(level)).bytes());
}

/// Appends the side on which an event has no activity.
fn tell_side(line: &mut Line, name: &Code, entered: bool)
    requires { length line.old.bytes + 90 ≤ line.old.room }
    ensures { HasTold 90 line.old line.new (words_of 26 (detail.Side name.now entered)) }
{
    line.text(side_words(entered));
    line.text(name.bytes());
}

/// Appends the two sums of an item that should be equal.
fn tell_sums(line: &mut Line, name: &Code, budgets: u64, costs: u64)
    requires { length line.old.bytes + 90 ≤ line.old.room }
    ensures { HasTold 90 line.old line.new (words_of 29 (detail.Sums name.now budgets costs)) }
{
    line.text(b"item ");
    line.text(name.bytes());
    line.text(b" has budgets ");
    line.text(digits(budgets).bytes());
    line.text(b" and costs ");
    line.text(digits(costs).bytes());
}

/// Appends the account and the date that have a second TOGO card.
fn tell_togo(line: &mut Line, account: &Code, day: Day)
    requires { length line.old.bytes + 90 ≤ line.old.room }
    ensures { HasTold 90 line.old line.new (words_of 31 (detail.ToGo account.now day)) }
{
    line.text(b"second TOGO of ");
    line.text(account.bytes());
    line.text(b" on ");
    line.text(&day_text(day));
}

/// Appends the length that was asked for, and the range in which it is not.
fn tell_length(line: &mut Line, asked: u64, crash: u64, normal: u64)
    requires { length line.old.bytes + 90 ≤ line.old.room }
    ensures { HasTold 90 line.old line.new (words_of 32 (detail.Length asked crash normal)) }
{
    line.text(b"length ");
    line.text(digits(asked).bytes());
    line.text(b" is outside ");
    line.text(digits(crash).bytes());
    line.text(b" to ");
    line.text(digits(normal).bytes());
}

/// Appends how many periods there would be.
fn tell_periods(line: &mut Line, have: u64)
    requires { length line.old.bytes + 90 ≤ line.old.room }
    ensures { HasTold 90 line.old line.new (words_of 40 (detail.Periods have)) }
{
    line.text(digits(have).bytes());
    line.text(b" periods, more than 400");
}

/// Appends the codes, with a space between one and the next.
pub(crate) fn tell_joined(line: &mut Line, codes: &[Code])
    requires { length line.old.bytes + 17 * length codes.now ≤ line.old.room }
    ensures { HasTold (17 * length codes.now) line.old line.new (joined codes.now) }
{
    if let Some((first, rest)) = codes.split_first() {
        line.text(first.bytes());
        tell_spaced(line, rest);
    }
}

/// Appends each code after a space.
fn tell_spaced(line: &mut Line, codes: &[Code])
    requires { length line.old.bytes + 17 * length codes.now ≤ line.old.room }
    ensures { HasTold (17 * length codes.now) line.old line.new (spaced_codes codes.now) }
{
    for code in codes {
        line.text(b" ");
        line.text(code.bytes());
    }
}
