//! Reads one field of a card: its value, or what is wrong with it. Each form is read here and nowhere else.
ghost use Rattle.std.specs.Prelude.{◌≡◌, IfOk, OnOk, IfErr, bytes_eq, codes};
ghost use Rattle.pc_text.specs.Code.{code_of};
ghost use Rattle.pc_text.specs.Number.{number_of};
ghost use Rattle.pc_cards.specs.Forms.{Fits, field_numbered, number_in, day_in, is_reserved, own_code};
ghost use Rattle.pc_cards.specs.inside.Forms.{IsMisfit, is_of_shape};
ghost use Rattle.pc_cards.specs.declared.field.Flaw.TheVariants as flaw;
ghost use Rattle.pc_cards.specs.declared.form.FieldForm.TheVariants as form;

use crate::sort::Sort;
use pc_days::{Day, DayError, read_day};
use pc_records::Fields;
use pc_text::{Code, Title, is_title_shape, read_number};

/// What is wrong with a field.
#[derive(Clone, Copy)]
pub enum Flaw {
    /// It does not have the shape that its form asks for.
    Shape,
    /// It has that shape and is over its limit.
    Limit,
}

impl Flaw {
    /// Returns whether the shape of the field is wrong.
    pub(crate) fn is_of_shape(self) -> bool
        ensures { result ≡ is_of_shape self }
    {
        match self {
            Flaw::Shape => true,
            Flaw::Limit => false,
        }
    }
}

/// A field error: the number of a field that is not what it must be (the kind is field 1), and what is wrong with it.
#[derive(Clone, Copy)]
pub struct Misfit {
    pub number: u8,
    pub flaw: Flaw,
}

/// The field with a number, counted from 1; an empty one past the last.
fn field_numbered<F: Fields>(fields: &F, number: u8) -> &[u8]
    ensures { result.now ≡ field_numbered (F.fields fields.now) number }
{
    fields.field(usize::from(number).saturating_sub(1))
}

/// Reads a field that is a code.
///
/// # Errors
///
/// Returns the number of the field and what is wrong with it.
pub fn read_code<F: Fields>(fields: &F, number: u8) -> Result<Code, Misfit>
    ensures value { IfOk result (λ code. code ≡ field_numbered (F.fields fields.now) number) }
    ensures fit { OnOk result (Fits form.Code (field_numbered (F.fields fields.now) number)) }
    ensures misfit { IfErr result (IsMisfit number form.Code (field_numbered (F.fields fields.now) number)) }
{
    match Code::read(field_numbered(fields, number)) {
        Some(code) => Ok(code),
        None => Err(misshapen(number)),
    }
}

/// Reads a field that is a code and does not begin with `_`.
///
/// # Errors
///
/// Returns the number of the field and what is wrong with it.
pub fn read_given_code<F: Fields>(fields: &F, number: u8) -> Result<Code, Misfit>
    ensures value { IfOk result (λ code. code ≡ field_numbered (F.fields fields.now) number) }
    ensures fit { OnOk result (Fits form.GivenCode (field_numbered (F.fields fields.now) number)) }
    ensures misfit { IfErr result (IsMisfit number form.GivenCode (field_numbered (F.fields fields.now) number)) }
{
    let field = field_numbered(fields, number);
    match Code::read(field) {
        Some(code) if !is_reserved(field) => Ok(code),
        _ => Err(misshapen(number)),
    }
}

/// Whether a code belongs to what is added to a deck of tasks: whether it begins with `_`.
fn is_reserved(field: &[u8]) -> bool
    ensures { result ≡ is_reserved field.now }
{
    field.starts_with(b"_")
}

/// Reads the code that a card gives to what it represents in a deck of the sort.
///
/// # Errors
///
/// Returns the number of the field and what is wrong with it.
pub fn read_own_code<F: Fields>(sort: Sort, fields: &F, number: u8) -> Result<Code, Misfit>
    ensures value { IfOk result (λ code. code ≡ field_numbered (F.fields fields.now) number) }
    ensures fit { OnOk result (Fits (own_code sort) (field_numbered (F.fields fields.now) number)) }
    ensures misfit { IfErr result (IsMisfit number (own_code sort) (field_numbered (F.fields fields.now) number)) }
{
    match sort {
        Sort::Plan => read_code(fields, number),
        Sort::Tasks => read_given_code(fields, number),
    }
}

/// Reads a field that is a code. Returns `None` if it is empty.
///
/// # Errors
///
/// Returns the number of the field and what is wrong with it.
pub fn read_code_or_none<F: Fields>(fields: &F, number: u8) -> Result<Option<Code>, Misfit>
    ensures value { IfOk result (λ code. code ≡ code_of (field_numbered (F.fields fields.now) number)) }
    ensures fit { OnOk result (Fits form.CodeOrNone (field_numbered (F.fields fields.now) number)) }
    ensures misfit { IfErr result (IsMisfit number form.CodeOrNone (field_numbered (F.fields fields.now) number)) }
{
    let field = field_numbered(fields, number);
    match Code::read(field) {
        Some(code) => Ok(Some(code)),
        None if field.is_empty() => Ok(None),
        None => Err(misshapen(number)),
    }
}

/// Reads a field that is a title.
///
/// # Errors
///
/// Returns the number of the field and what is wrong with it.
pub fn read_title<F: Fields>(fields: &F, number: u8) -> Result<Title, Misfit>
    ensures value { IfOk result (λ title. title ≡ field_numbered (F.fields fields.now) number) }
    ensures fit { OnOk result (Fits form.Title (field_numbered (F.fields fields.now) number)) }
    ensures misfit { IfErr result (IsMisfit number form.Title (field_numbered (F.fields fields.now) number)) }
{
    let field = field_numbered(fields, number);
    match Title::read(field) {
        Some(title) => Ok(title),
        None if is_title_shape(field) => Err(over_limit(number)),
        None => Err(misshapen(number)),
    }
}

/// Reads a field that is a date. Inlined, since most cards of a large deck have one.
///
/// # Errors
///
/// Returns the number of the field and what is wrong with it.
#[inline(always)]
pub fn read_date<F: Fields>(fields: &F, number: u8) -> Result<Day, Misfit>
    ensures value { IfOk result (λ day. day ≡ day_in (field_numbered (F.fields fields.now) number)) }
    ensures fit { OnOk result (Fits form.Date (field_numbered (F.fields fields.now) number)) }
    ensures misfit { IfErr result (IsMisfit number form.Date (field_numbered (F.fields fields.now) number)) }
{
    match read_day(field_numbered(fields, number)) {
        Ok(day) => Ok(day),
        Err(DayError::Shape) => Err(misshapen(number)),
        Err(DayError::Years) => Err(over_limit(number)),
    }
}

/// Reads a field that is a number from `least` to `most`. Inlined, since most cards have several of them.
///
/// # Errors
///
/// Returns the number of the field and what is wrong with it.
#[inline(always)]
pub fn read_amount<F: Fields>(fields: &F, number: u8, least: u64, most: u64) -> Result<u64, Misfit>
    ensures value { IfOk result (λ amount. amount ≡ number_in (field_numbered (F.fields fields.now) number)) }
    ensures fit { OnOk result (Fits (form.Number least most) (field_numbered (F.fields fields.now) number)) }
    ensures misfit { IfErr result (IsMisfit number (form.Number least most)
        (field_numbered (F.fields fields.now) number)) }
{
    match read_number(field_numbered(fields, number)) {
        Some(amount) if least <= amount && amount <= most => Ok(amount),
        Some(_) => Err(over_limit(number)),
        None => Err(misshapen(number)),
    }
}

/// Reads a field that is a number from `least` to `most`. Returns `None` if it is empty.
///
/// # Errors
///
/// Returns the number of the field and what is wrong with it.
pub fn read_amount_or_none<F: Fields>(
    fields: &F,
    number: u8,
    least: u64,
    most: u64,
) -> Result<Option<u64>, Misfit>
    ensures value { IfOk result (λ amount. amount ≡ number_of (field_numbered (F.fields fields.now) number)) }
    ensures fit { OnOk result (Fits (form.NumberOrNone least most) (field_numbered (F.fields fields.now) number)) }
    ensures misfit { IfErr result (IsMisfit number (form.NumberOrNone least most)
        (field_numbered (F.fields fields.now) number)) }
{
    let field = field_numbered(fields, number);
    match read_number(field) {
        Some(amount) if least <= amount && amount <= most => Ok(Some(amount)),
        Some(_) => Err(over_limit(number)),
        None if field.is_empty() => Ok(None),
        None => Err(misshapen(number)),
    }
}

/// Reads a field that is `S` or `F`, and returns whether it is `F`.
///
/// # Errors
///
/// Returns the number of the field and what is wrong with it.
pub fn read_letter<F: Fields>(fields: &F, number: u8) -> Result<bool, Misfit>
    ensures value { IfOk result (λ finished. finished
        ≡ bytes_eq (field_numbered (F.fields fields.now) number) (codes "F")) }
    ensures fit { OnOk result (Fits form.Letter (field_numbered (F.fields fields.now) number)) }
    ensures misfit { IfErr result (IsMisfit number form.Letter (field_numbered (F.fields fields.now) number)) }
{
    let field = field_numbered(fields, number);
    if field == b"F".as_slice() {
        Ok(true)
    } else if field == b"S".as_slice() {
        Ok(false)
    } else {
        Err(misshapen(number))
    }
}

fn misshapen(number: u8) -> Misfit
    ensures { result ≡ record { number = number; flaw = flaw.Shape } }
{
    Misfit {
        number,
        flaw: Flaw::Shape,
    }
}

fn over_limit(number: u8) -> Misfit
    ensures { result ≡ record { number = number; flaw = flaw.Limit } }
{
    Misfit {
        number,
        flaw: Flaw::Limit,
    }
}
