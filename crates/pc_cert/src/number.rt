//! The numbers of a certificate, which may be longer than those of a deck.
ghost use Rattle.std.specs.Prelude.{◌+◌, ◌<◌, ◌≤◌, IfSome, length};
ghost use Rattle.pc_cert.specs.inside.Number.{AreDigitsAt};
ghost use Rattle.pc_cert.specs.inside.Lines.{IsNumberAt};

use pc_text::is_unpadded;

/// The most digits of a number in a certificate.
pub const MAX_DIGITS: usize = 18;

/// The byte of the digit 0, and the greatest value of a digit. The difference of a byte and the first is above the
/// second if the byte is not a digit: a smaller byte wraps around.
const ZERO: u64 = 48;

const GREATEST_DIGIT: u64 = 9;

/// Reads a space and a number. Returns the number and the bytes after it.
///
/// Its end is found while its digits are read.
#[inline(always)]
pub(crate) fn number_at(bytes: &[u8]) -> Option<(u64, &[u8])>
    ensures { IfSome result (λ parts. IsNumberAt bytes.now parts.0 parts.1.now) }
{
    if MAX_DIGITS < bytes.len() {
        return number_within(bytes);
    }
    let (first, rest) = bytes.split_first()?;
    if *first != b' ' {
        return None;
    }
    let (number, end) = digits_to_end(rest);
    if !is_unpadded(&rest[..end], MAX_DIGITS) {
        return None;
    }
    Some((number, &rest[end..]))
}

/// Does what `number_at` does, if there are at least as many bytes as are read.
#[inline(always)]
pub(crate) fn number_within(bytes: &[u8]) -> Option<(u64, &[u8])>
    requires { MAX_DIGITS < length bytes.now }
    ensures number { IfSome result (λ parts. IsNumberAt bytes.now parts.0 parts.1.now) }
    ensures left { IfSome result (λ parts. length bytes.now ≤ length parts.1.now + (MAX_DIGITS + 1)) }
{
    if bytes[0] != b' ' {
        return None;
    }
    let rest = &bytes[1..];
    let (number, end) = digits_within(rest);
    if !is_unpadded(&rest[..end], MAX_DIGITS) {
        return None;
    }
    Some((number, &rest[end..]))
}

/// Reads at most 18 digits. Returns their value, and how many there are. There are at least as many bytes as are read:
/// it does not test for their end.
#[inline(always)]
fn digits_within(bytes: &[u8]) -> (u64, usize)
    requires { MAX_DIGITS ≤ length bytes.now }
    ensures { AreDigitsAt bytes.now result.0 result.1 }
{
    let mut number = 0;
    for i in 0..MAX_DIGITS {
        let digit = u64::from(bytes[i]).wrapping_sub(ZERO);
        if GREATEST_DIGIT < digit {
            return (number, i);
        }
        number = number * 10 + digit;
    }
    (number, MAX_DIGITS)
}

/// Does the same if there are fewer bytes.
#[inline(never)]
fn digits_to_end(bytes: &[u8]) -> (u64, usize)
    requires { length bytes.now < MAX_DIGITS }
    ensures { AreDigitsAt bytes.now result.0 result.1 }
{
    let mut number = 0;
    for (i, byte) in bytes.iter().enumerate() {
        if !byte.is_ascii_digit() {
            return (number, i);
        }
        number = number * 10 + u64::from(byte - b'0');
    }
    (number, bytes.len())
}
