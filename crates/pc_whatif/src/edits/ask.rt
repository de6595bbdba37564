//! What a line of a session asks for, and reading it: its first word says what it asks for, and its fields are read one
//! after the other.
ghost use Rattle.std.specs.Prelude.{◌≡◌, IfSome, Some};
ghost use Rattle.pc_whatif.specs.inside.edits.Lines.{Asks};
ghost use Rattle.pc_whatif.specs.edits.Reading.{
  ask_of,
  ask_with,
  estimate_ask,
  amount_of,
  edit_of,
  normal_ask,
  crash_ask,
  slope_ask,
  try_ask,
};
ghost use Rattle.pc_whatif.specs.declared.edits.ask.Ask.{Ask};

use pc_project::Estimates;
use pc_text::{Code, DECK_DIGITS, alone, field, number_field, run_len};

/// The most bytes of a line, without its LF.
pub(crate) const MAX_LINE: usize = 96;

/// What a line asks for.
#[derive(Clone, Copy)]
pub(crate) enum Ask {
    /// One of the four edits.
    Edit(Edit),
    /// `UNDO`
    Undo,
    /// `TIMES`
    Times,
    /// `CURVE`
    Curve,
    /// `TRY <act> <normal> <crash> <slope> <length>`
    Try(Trial),
}

/// An edit: new numbers for one activity.
#[derive(Clone, Copy)]
pub(crate) struct Edit {
    pub(crate) act: Code,
    pub(crate) change: Change,
}

/// The numbers that an edit gives an activity: estimates and durations in units, a slope in money per unit.
#[derive(Clone, Copy)]
pub(crate) enum Change {
    /// `ESTIMATE <act> <opt> <likely> <pess>`
    Estimate(Estimates),
    /// `NORMAL <act> <n>`
    Normal(u64),
    /// `CRASH <act> <n>`
    Crash(u64),
    /// `SLOPE <act> <n>`
    Slope(u64),
}

/// Three numbers to try for one activity, and the project length, in units, whose least cost is asked for.
#[derive(Clone, Copy)]
pub(crate) struct Trial {
    pub(crate) act: Code,
    pub(crate) normal: u64,
    pub(crate) crash: u64,
    pub(crate) slope: u64,
    pub(crate) length: u64,
}

impl Ask {
    /// Reads a line without its LF. Returns `None` if it has none of the forms or is longer than `MAX_LINE`.
    pub(crate) fn read(line: &[u8]) -> Option<Ask>
        ensures value { result ≡ ask_of line.now }
        ensures asked { IfSome result (Asks line.now) }
        ensures read { (ask : Ask) → Asks line.now ask → result ≡ Some ask }
    {
        ask_of(line)
    }
}

/// Returns what a line asks for.
#[tactic(auto, unfolding(crate::specs::edits::Reading::ask_of))]
pub(in crate::edits) fn ask_of(line: &[u8]) -> Option<Ask>
    ensures { result ≡ ask_of line.now }
{
    if line.len() > MAX_LINE {
        return None;
    }
    let end = run_len(line, b' ');
    ask_with(&line[..end], &line[end..])
}

/// Returns what a line with this first word and these fields asks for.
fn ask_with(word: &[u8], fields: &[u8]) -> Option<Ask>
    ensures { result ≡ ask_with word.now fields.now }
{
    if word == b"TRY".as_slice() {
        try_of(fields)
    } else if word == b"ESTIMATE".as_slice() {
        estimate_of(fields)
    } else if word == b"NORMAL".as_slice() {
        normal_of(fields)
    } else if word == b"CRASH".as_slice() {
        crash_of(fields)
    } else if word == b"SLOPE".as_slice() {
        slope_of(fields)
    } else if word == b"UNDO".as_slice() {
        alone(fields, Ask::Undo)
    } else if word == b"TIMES".as_slice() {
        alone(fields, Ask::Times)
    } else if word == b"CURVE".as_slice() {
        alone(fields, Ask::Curve)
    } else {
        None
    }
}

/// Returns an edit as a request.
fn edit_of(act: Code, change: Change) -> Ask
    ensures { result ≡ edit_of act change }
{
    Ask::Edit(Edit { act, change })
}

#[tactic(auto, unfolding(crate::specs::edits::Reading::estimate_ask, pc_text::specs::Fields::field_by))]
fn estimate_of(fields: &[u8]) -> Option<Ask>
    ensures { result ≡ estimate_ask fields.now }
{
    let (word, rest) = field(fields)?;
    let act = Code::read(word)?;
    let (optimistic, rest) = number_field(rest, DECK_DIGITS)?;
    let (likely, rest) = number_field(rest, DECK_DIGITS)?;
    let (pessimistic, rest) = number_field(rest, DECK_DIGITS)?;
    let estimates = Estimates {
        optimistic,
        likely,
        pessimistic,
    };
    alone(rest, edit_of(act, Change::Estimate(estimates)))
}

/// Reads fields that are an activity and one number.
#[tactic(auto, unfolding(crate::specs::edits::Reading::amount_of, pc_text::specs::Fields::field_by))]
fn amount_of(fields: &[u8]) -> Option<(Code, u64)>
    ensures { result ≡ amount_of fields.now }
{
    let (word, rest) = field(fields)?;
    let act = Code::read(word)?;
    let (n, rest) = number_field(rest, DECK_DIGITS)?;
    alone(rest, (act, n))
}

#[tactic(auto, unfolding(crate::specs::edits::Reading::normal_ask))]
fn normal_of(fields: &[u8]) -> Option<Ask>
    ensures { result ≡ normal_ask fields.now }
{
    let (act, n) = amount_of(fields)?;
    Some(edit_of(act, Change::Normal(n)))
}

#[tactic(auto, unfolding(crate::specs::edits::Reading::crash_ask))]
fn crash_of(fields: &[u8]) -> Option<Ask>
    ensures { result ≡ crash_ask fields.now }
{
    let (act, n) = amount_of(fields)?;
    Some(edit_of(act, Change::Crash(n)))
}

#[tactic(auto, unfolding(crate::specs::edits::Reading::slope_ask))]
fn slope_of(fields: &[u8]) -> Option<Ask>
    ensures { result ≡ slope_ask fields.now }
{
    let (act, n) = amount_of(fields)?;
    Some(edit_of(act, Change::Slope(n)))
}

#[tactic(auto, unfolding(crate::specs::edits::Reading::try_ask, pc_text::specs::Fields::field_by))]
fn try_of(fields: &[u8]) -> Option<Ask>
    ensures { result ≡ try_ask fields.now }
{
    let (word, rest) = field(fields)?;
    let act = Code::read(word)?;
    let (normal, rest) = number_field(rest, DECK_DIGITS)?;
    let (crash, rest) = number_field(rest, DECK_DIGITS)?;
    let (slope, rest) = number_field(rest, DECK_DIGITS)?;
    let (length, rest) = number_field(rest, DECK_DIGITS)?;
    let trial = Trial {
        act,
        normal,
        crash,
        slope,
        length,
    };
    alone(rest, Ask::Try(trial))
}
