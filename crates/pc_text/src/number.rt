//! Numbers: reading those of decks and of other lines, and formatting any number in decimal.
ghost use Rattle.std.specs.Prelude.{◌≡◌, ◌≤◌, ℕ, IfSome, Some, decimal, length, ◌+◌, ◌<◌, ◌/◌, ◌%◌, ◌^◌};
ghost use Rattle.std.specs.Fmt.{signed_decimal};
ghost use Rattle.pc_text.specs.Number.{numeral_of, number_of};
ghost use Rattle.pc_text.specs.inside.Number.{is_unpadded, value_of_digits, IsDecimal};

use std::marker::Model;

/// The most digits of a number in a deck.
pub const DECK_DIGITS: usize = 13;

/// Reads the number in a field of a deck. Returns `None` unless the field is the decimal form of a number: 1 to 13
/// digits, without a sign and without a leading zero.
///
/// One pass, which ends at the first byte that is not a digit.
// Inlined, because most numbers have only a few digits.
#[inline(always)]
pub fn read_number(field: &[u8]) -> Option<u64>
    ensures value { result ≡ number_of field.now }
    ensures spelled { IfSome result (IsDecimal field.now) }
    ensures read { (n : ℕ) → IsDecimal field.now n → result ≡ Some n }
{
    read_numeral(field, DECK_DIGITS)
}

/// Reads a number of 1 to `most` digits, without a sign and without a leading zero. Returns `None` if the word is none.
#[inline(always)]
pub(crate) fn read_numeral(word: &[u8], most: usize) -> Option<u64>
    requires { most ≤ 19 }
    ensures { result ≡ numeral_of most word.now }
{
    if is_unpadded(word, most) {
        value_of(word)
    } else {
        None
    }
}

/// Returns whether the word has 1 to `most` bytes, and no leading zero.
#[inline]
pub fn is_unpadded(word: &[u8], most: usize) -> bool
    ensures { result ≡ is_unpadded most word.now }
{
    1 <= word.len() && word.len() <= most && (word[0] != b'0' || word.len() == 1)
}

/// Returns the value of at most 19 digits, or `None` if one of the bytes is not a digit.
fn value_of(word: &[u8]) -> Option<u64>
    requires short { length word.now ≤ 19 }
    ensures { result ≡ value_of_digits word.now }
{
    let mut number = 0;
    for byte in word {
        // One subtraction tests for a digit and gives its value: any other byte gives more than 9.
        let digit = u64::from(*byte).wrapping_sub(u64::from(b'0'));
        if digit > 9 {
            return None;
        }
        number = number * 10 + digit;
    }
    Some(number)
}

/// Returns the decimal form of a number.
pub fn digits(n: u64) -> Digits
    ensures value { result ≡ decimal n }
    ensures short { length result ≤ 20 }
{
    decimal_of(u128::from(n))
}

/// Returns the decimal form of a number, with `-` before a negative one.
pub fn signed(n: i64) -> Signed
    ensures value { result ≡ signed_decimal n }
    ensures short { length result ≤ 20 }
{
    let digits = digits(n.unsigned_abs());
    let mut cells = digits.cells;
    let mut start = digits.start;
    if n < 0 {
        start -= 1;
        cells[start] = b'-';
    }
    Decimal { cells, start }
}

/// Returns the decimal form of a number that may be too large for 64 bits.
pub fn wide(n: u128) -> Wide
    ensures value { result ≡ decimal n }
    ensures short { length result ≤ 39 }
{
    decimal_of(n)
}

/// The most digits that a `u64` has, and the most bytes of an `i64` with its sign.
const MOST: usize = 20;

/// The most digits that a `u128` has.
const MOST_WIDE: usize = 39;

/// The decimal form of a number, in at most `N` bytes.
///
/// It is stored in the value itself and takes no memory.
#[derive(Debug, Drop)]
pub struct Decimal<const N: usize> {
    // The digits are at the end, because the last one is found first.
    cells: [u8; N],
    start: usize,
}

/// The decimal form of a `u64`, as [`digits`](crate::digits) returns it.
pub type Digits = Decimal<MOST>;

/// The decimal form of an `i64`, as [`signed`](crate::signed) returns it.
pub type Signed = Decimal<MOST>;

/// The decimal form of a `u128`, as [`wide`](crate::wide) returns it.
pub type Wide = Decimal<MOST_WIDE>;

impl<const N: usize> Model for Decimal<N> {
    ghost use Rattle.std.specs.Prelude.{◌≡◌, ◌≤◌, ℕ, List, drop, length};

    ghost Value = { List ℕ };

    ghost view = { λ s. drop s.start s.cells };

    ghost invariant = { λ s. (s.start ≤ N) × (length s.cells ≡ N) };
}

impl<const N: usize> Decimal<N> {
    /// Returns the bytes, from the first digit or the sign on.
    pub fn bytes(&self) -> &[u8]
        ensures { result.now ≡ self.now }
    {
        let cells = &self.cells[..];
        &cells[self.start..]
    }
}

/// The two digits of each number below 100, from 00 on.
static PAIRS: [u8; 200] = *b"\
    0001020304050607080910111213141516171819\
    2021222324252627282930313233343536373839\
    4041424344454647484950515253545556575859\
    6061626364656667686970717273747576777879\
    8081828384858687888990919293949596979899";

fn tens(number: usize) -> u8
    requires { number < 100 }
    ensures { result ≡ 48 + number / 10 }
{
    PAIRS[2 * number]
}

fn ones(number: usize) -> u8
    requires { number < 100 }
    ensures { result ≡ 48 + number % 10 }
{
    PAIRS[2 * number + 1]
}

/// Returns a hundredth of a number, and the number that its last two digits make.
///
/// It divides a number that fits into 64 bits in 64 bits, which is many times faster.
#[inline(always)]
fn hundredth(n: u128) -> (u128, usize)
    ensures rest { result.0 ≡ n / 100 }
    ensures pair { result.1 ≡ n % 100 }
{
    match u64::try_from(n) {
        Ok(n) => (u128::from(n / 100), (n % 100) as usize),
        Err(_) => (n / 100, (n % 100) as usize),
    }
}

/// Returns the decimal form of a number of at most `N` digits. It finds two digits with each division.
#[inline(always)]
fn decimal_of<const N: usize>(n: u128) -> Decimal<N>
    requires some { 1 ≤ N }
    requires fits { n < 10 ^ N }
    ensures { result ≡ decimal n }
{
    let mut cells = [0; N];
    let mut start = N;
    let mut rest = n;
    while rest >= 100 {
        let (hundreds, pair) = hundredth(rest);
        rest = hundreds;
        cells[start - 1] = ones(pair);
        cells[start - 2] = tens(pair);
        start -= 2;
    }
    let pair = rest as usize;
    start -= 1;
    cells[start] = ones(pair);
    if rest >= 10 {
        start -= 1;
        cells[start] = tens(pair);
    }
    Decimal { cells, start }
}
