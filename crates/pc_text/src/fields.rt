//! The fields of a line: each is a space and the word after it.
ghost use Rattle.std.specs.Prelude.{◌≡◌, ◌≤◌, length};
ghost use Rattle.std.specs.Option.{option_map};
ghost use Rattle.pc_text.specs.Fields.{run_len, field, number_field, alone};

use crate::number::read_numeral;

/// Returns how many bytes are before the first `stop`: all of them if there is none.
#[inline]
pub fn run_len(bytes: &[u8], stop: u8) -> usize
    ensures value { result ≡ run_len stop bytes.now }
    ensures within { result ≤ length bytes.now }
{
    for (i, byte) in bytes.iter().enumerate() {
        if *byte == stop {
            return i;
        }
    }
    bytes.len()
}

/// Splits off the first field. Returns its word and the bytes after it, or `None` if the bytes do not begin with a
/// space.
#[inline]
#[tactic(auto, unfolding(crate::specs::Fields::field))]
pub fn field(bytes: &[u8]) -> Option<(&[u8], &[u8])>
    ensures { option_map (λ parts. (parts.0.now, parts.1.now)) result ≡ field bytes.now }
{
    let (first, rest) = bytes.split_first()?;
    if *first != b' ' {
        return None;
    }
    let end = run_len(rest, b' ');
    Some((&rest[..end], &rest[end..]))
}

/// Splits off the first field, a number of at most `most` digits. Returns the number and the bytes after it, or `None`
/// if the bytes do not begin with such a field.
#[inline]
#[tactic(auto, unfolding(crate::specs::Fields::number_field, crate::specs::Fields::field_by))]
pub fn number_field(bytes: &[u8], most: usize) -> Option<(u64, &[u8])>
    requires { most ≤ 19 }
    ensures { option_map (λ parts. (parts.0, parts.1.now)) result ≡ number_field most bytes.now }
{
    let (word, rest) = field(bytes)?;
    let number = read_numeral(word, most)?;
    Some((number, rest))
}

/// Returns the value if nothing is left after it.
#[inline]
pub fn alone<T: Copy>(rest: &[u8], value: T) -> Option<T>
    ensures { result ≡ alone rest.now value }
{
    if rest.is_empty() { Some(value) } else { None }
}
