//! A day of the calendar as a number, read from a date and written as one, and why a field names no day.
ghost use Rattle.std.specs.Prelude.{
  ◌≡◌,
  ◌↔◌,
  ◌-ℤ◌,
  ◌<ℤ◌,
  ◌+◌,
  ◌<◌,
  ◌/◌,
  ◌%◌,
  ◌^◌,
  ℕ,
  ℤ,
  pos,
  neg_ℤ,
  List,
  length,
  true,
  Ok,
  Err,
  IfSome,
  IsNone,
};
ghost use Rattle.jiff_core.specs.Calendar.{IsWithin};
ghost use Rattle.pc_days.specs.Calendar.{text_of_day};
ghost use Rattle.pc_days.specs.Dates.{
  day_of,
  has_form,
  are_digits,
  number_at,
  year_of,
  is_deck_year,
  NamesDay,
  date_text,
  IsPrintedDay,
  IsRoundedUp,
  IsAfterSixths,
};
ghost use Rattle.pc_days.specs.inside.Dates.{NamesDate, NamesDeckDay, NamesOtherYear};

use jiff::civil::Date;
use jiff_core::civil;
use std::marker::Model;
use thiserror::Error;

/// The bytes of `YYYY-MM-DD`.
const LENGTH: usize = 10;

/// The number of 1900-01-01.
const FIRST: i64 = -25_567;

/// The number of 9999-12-31.
const LAST: i64 = 2_932_896;

/// A day of the calendar from 1900-01-01 to 9999-12-31: the days that a deck can name and a report can print.
///
/// In contracts a day is its number, counted in days from 1970-01-01.
#[derive(Clone, Copy, Debug, PartialEq, Eq, PartialOrd, Ord)]
pub struct Day {
    number: i32,
}

impl Model for Day {
    ghost use Rattle.std.specs.Prelude.{ℤ};
    ghost use Rattle.pc_days.specs.Dates.{IsPrintedDay};

    ghost Value = { ℤ };

    ghost view = { λ day. day.number };

    ghost invariant = { λ day. IsPrintedDay day.number };

    ghost inverse = { λ n. record { number = n } };
}

/// Returns the day whose date the field is, as `YYYY-MM-DD`.
///
/// # Errors
///
/// Returns `DayError::Shape` if the field has another form or the calendar has no such date, and `DayError::Years` if
/// the year is not from 1900 to 2199.
pub fn read_day(field: &[u8]) -> Result<Day, DayError>
    ensures reading { result ≡ day_of field.now }
    ensures day { (day : ℤ) → (result ≡ Ok day) ↔ NamesDeckDay field.now day }
    ensures years { (result ≡ Err DayError.Years) ↔ NamesOtherYear field.now }
    ensures shape { (result ≡ Err DayError.Shape) ↔ (NamesDate field.now → ⊥) }
{
    if !has_form(field) {
        return Err(DayError::Shape);
    }
    let year = year_of(field);
    let (month, day) = (number_at(field, 5), number_at(field, 8));
    let Ok(date) = Date::new(year as i16, month as i8, day as i8) else {
        return Err(DayError::Shape);
    };
    if !is_deck_year(year) {
        return Err(DayError::Years);
    }
    Ok(Day {
        number: date.to_plain().to_unix_epoch_day(),
    })
}

/// Whether the bytes at this place and after it are digits.
fn are_digits(field: &[u8], at: usize) -> bool
    requires { at + 1 < length field.now }
    ensures { result ≡ are_digits field.now at }
{
    field[at].is_ascii_digit() && field[at + 1].is_ascii_digit()
}

/// Whether a deck's dates may have this year.
fn is_deck_year(year: u16) -> bool
    ensures { result ≡ is_deck_year year }
{
    1900 <= year && year <= 2199
}

/// Whether the field is made of digits and hyphens as a date is.
#[tactic(auto, unfolding(crate::specs::Dates::has_form))]
fn has_form(field: &[u8]) -> bool
    ensures { result ≡ has_form field.now }
{
    field.len() == LENGTH
        && field[4] == b'-'
        && field[7] == b'-'
        && are_digits(field, 0)
        && are_digits(field, 2)
        && are_digits(field, 5)
        && are_digits(field, 8)
}

/// The number that two digits show.
fn number_at(field: &[u8], at: usize) -> u8
    requires within { at + 1 < length field.now }
    requires digits { are_digits field.now at ≡ true }
    ensures number { result ≡ number_at field.now at }
    ensures bound { result < 100 }
{
    (field[at] - b'0') * 10 + (field[at + 1] - b'0')
}

/// The year that a date shows.
fn year_of(field: &[u8]) -> u16
    requires { has_form field.now ≡ true }
    ensures number { result ≡ year_of field.now }
    ensures bound { result < 10000 }
{
    100 * u16::from(number_at(field, 0)) + u16::from(number_at(field, 2))
}

/// Returns the date of the day, as `YYYY-MM-DD`.
pub fn day_text(d: Day) -> [u8; 10]
    ensures named { NamesDay result d }
    ensures text { result ≡ text_of_day d }

    // A day that was read is written as it was read.
    ensures back { (text : List ℕ) → day_of text ≡ Ok d → result ≡ text }
{
    let Ok(date) = civil::Date::from_unix_epoch_day(i64::from(d.number)) else {
        unreachable!()
    };
    spelled(date.year as u16, date.month, date.day)
}

/// Returns the number of days from `a` to `b`, negative if `b` is before `a`.
pub fn days_between(a: Day, b: Day) -> i64
    ensures days { result ≡ b -ℤ a }
    ensures within { IsWithin 2_958_463 result }
{
    i64::from(b.number) - i64::from(a.number)
}

/// Returns the day `t` sixths of a day after `start`, rounded up to whole days, or `None` if it is not from 1900-01-01
/// to 9999-12-31.
pub fn date_of_sixths(start: Day, t: i64) -> Option<Day>
    requires early { neg_ℤ (pos (2 ^ 40)) <ℤ t }
    requires late { t <ℤ pos (2 ^ 40) }
    ensures after { IfSome result (IsAfterSixths start t) }
    ensures printed { IfSome result IsPrintedDay }
    ensures none { IsNone result
        → (day : ℤ) → IsAfterSixths start t day → ¬ (IsPrintedDay day) }
{
    let number = i64::from(start.number) + whole_days(t);
    if number < FIRST || LAST < number {
        return None;
    }
    Some(Day {
        number: number as i32,
    })
}

/// The sixths of a day in complete days, rounded up.
fn whole_days(sixths: i64) -> i64
    requires early { neg_ℤ (pos (2 ^ 40)) <ℤ sixths }
    requires late { sixths <ℤ pos (2 ^ 40) }
    ensures rounded { IsRoundedUp sixths result }
    ensures within { IsWithin (2 ^ 40) result }
{
    (sixths + 5).div_euclid(6)
}

/// The year, month and day in digits, with hyphens between them.
fn spelled(year: u16, month: u8, day: u8) -> [u8; LENGTH]
    requires year_in { year < 10000 }
    requires month_in { month < 100 }
    requires day_in { day < 100 }
    ensures { result ≡ date_text year month day }
{
    let (century, rest) = ((year / 100) as u8, (year % 100) as u8);
    [
        tens(century),
        ones(century),
        tens(rest),
        ones(rest),
        b'-',
        tens(month),
        ones(month),
        b'-',
        tens(day),
        ones(day),
    ]
}

/// The first of the two digits of a number.
fn tens(number: u8) -> u8
    requires { number < 100 }
    ensures { result ≡ 48 + number / 10 }
{
    b'0' + number / 10
}

/// The second of the two digits of a number.
fn ones(number: u8) -> u8
    requires { number < 100 }
    ensures { result ≡ 48 + number % 10 }
{
    b'0' + number % 10
}

/// Why a field is no day of a deck.
#[derive(Clone, Copy, Debug, PartialEq, Eq, Error)]
pub enum DayError {
    /// The field is not of the form `YYYY-MM-DD`, or the calendar has no such date.
    #[error("no date of the form YYYY-MM-DD")]
    Shape,
    /// The field is a date before 1900 or after 2199.
    #[error("a date outside 1900 to 2199")]
    Years,
}
