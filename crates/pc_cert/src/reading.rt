//! Reading a line: its first word says which it is, and its fields are read one after the other.
ghost use Rattle.std.specs.Prelude.{◌≡◌};
ghost use Rattle.std.specs.Option.{option_map};
ghost use Rattle.pc_cert.specs.inside.Fields.{bit_field, bit_of};
ghost use Rattle.pc_cert.specs.inside.Reading.{
  line_of,
  line_with,
  head_from,
  step_from,
  segment_from,
  event_from,
  act_from,
  flows_of,
};

use crate::flows::{Flows, MAX_FLOWS};
use crate::line::CertLine;
use crate::number::MAX_DIGITS;
use pc_text::{Code, alone, field, number_field, run_len};

/// Reads a line from its bytes. Returns `None` if they are no line.
#[tactic(auto, unfolding(crate::specs::inside::Reading::line_of))]
pub(crate) fn line_of(bytes: &[u8]) -> Option<CertLine>
    ensures { result ≡ line_of bytes.now }
{
    let end = run_len(bytes, b' ');
    line_with(&bytes[..end], &bytes[end..])
}

fn line_with(word: &[u8], fields: &[u8]) -> Option<CertLine>
    ensures { result ≡ line_with word.now fields.now }
{
    if word == b"ACT".as_slice() {
        act_of(fields)
    } else if word == b"EVENT".as_slice() {
        event_of(fields)
    } else if word == b"SEGMENT".as_slice() {
        segment_of(fields)
    } else if word == b"CLOSE".as_slice() {
        alone(fields, CertLine::Close)
    } else if word == b"STEP".as_slice() {
        step_of(fields)
    } else if word == b"CERT".as_slice() {
        head_of(fields)
    } else if word == b"NORMAL".as_slice() {
        alone(fields, CertLine::Normal)
    } else if word == b"CRASH".as_slice() {
        alone(fields, CertLine::Crash)
    } else if word == b"END".as_slice() {
        alone(fields, CertLine::End)
    } else {
        None
    }
}

#[tactic(auto, unfolding(crate::specs::inside::Reading::head_from, pc_text::specs::Fields::field_by))]
fn head_of(fields: &[u8]) -> Option<CertLine>
    ensures { result ≡ head_from fields.now }
{
    let (version, rest) = number_field(fields, MAX_DIGITS)?;
    let (word, rest) = field(rest)?;
    let project = Code::read(word)?;
    let (events, rest) = number_field(rest, MAX_DIGITS)?;
    let (activities, rest) = number_field(rest, MAX_DIGITS)?;
    if version < 1 || 2 < version {
        return None;
    }
    alone(
        rest,
        CertLine::Head {
            version,
            project,
            events,
            activities,
        },
    )
}

#[tactic(auto, unfolding(crate::specs::inside::Reading::step_from, pc_text::specs::Fields::field_by))]
fn step_of(fields: &[u8]) -> Option<CertLine>
    ensures { result ≡ step_from fields.now }
{
    let (word, rest) = field(fields)?;
    let code = Code::read(word)?;
    alone(rest, CertLine::Step(code))
}

#[tactic(auto, unfolding(crate::specs::inside::Reading::segment_from))]
fn segment_of(fields: &[u8]) -> Option<CertLine>
    ensures { result ≡ segment_from fields.now }
{
    let (upper, rest) = number_field(fields, MAX_DIGITS)?;
    let (lower, rest) = number_field(rest, MAX_DIGITS)?;
    let (cost, rest) = number_field(rest, MAX_DIGITS)?;
    let (slope, rest) = number_field(rest, MAX_DIGITS)?;
    alone(
        rest,
        CertLine::Segment {
            upper,
            lower,
            cost,
            slope,
        },
    )
}

#[tactic(auto, unfolding(crate::specs::inside::Reading::event_from, pc_text::specs::Fields::field_by))]
fn event_of(fields: &[u8]) -> Option<CertLine>
    ensures { result ≡ event_from fields.now }
{
    let (word, rest) = field(fields)?;
    let code = Code::read(word)?;
    let (time, rest) = number_field(rest, MAX_DIGITS)?;
    let (moves, rest) = bit_field(rest)?;
    alone(rest, CertLine::Event { code, time, moves })
}

/// Reads a space and a bit, `0` or `1`. Returns the bit and the bytes after it.
#[tactic(auto, unfolding(crate::specs::inside::Fields::bit_field, pc_text::specs::Fields::field_by))]
pub(crate) fn bit_field(bytes: &[u8]) -> Option<(bool, &[u8])>
    ensures { option_map (λ parts. (parts.0, parts.1.now)) result ≡ bit_field bytes.now }
{
    let (word, rest) = field(bytes)?;
    let bit = bit_of(word)?;
    Some((bit, rest))
}

fn bit_of(word: &[u8]) -> Option<bool>
    ensures { result ≡ bit_of word.now }
{
    if word == b"0".as_slice() {
        Some(false)
    } else if word == b"1".as_slice() {
        Some(true)
    } else {
        None
    }
}

#[tactic(auto, unfolding(crate::specs::inside::Reading::act_from, pc_text::specs::Fields::field_by))]
pub(crate) fn act_of(fields: &[u8]) -> Option<CertLine>
    ensures { result ≡ act_from fields.now }
{
    let (word, rest) = field(fields)?;
    let code = Code::read(word)?;
    let (duration, rest) = number_field(rest, MAX_DIGITS)?;
    let flows = flows_of(rest)?;
    if flows.as_slice().len() < 2 {
        return None;
    }
    Some(CertLine::Act {
        code,
        duration,
        flows,
    })
}

/// Reads the fields as flows. Returns `None` if one is not a number, or if there are more than six.
fn flows_of(fields: &[u8]) -> Option<Flows>
    ensures { result ≡ flows_of fields.now }
{
    let mut flows = Flows::new();
    let mut rest = fields;
    while !rest.is_empty() {
        if flows.as_slice().len() == MAX_FLOWS {
            return None;
        }
        let (flow, behind) = number_field(rest, MAX_DIGITS)?;
        flows.push(flow);
        rest = behind;
    }
    Some(flows)
}
