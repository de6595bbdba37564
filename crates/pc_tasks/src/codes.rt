//! The codes of the events, links and item that are generated.
ghost use Rattle.std.specs.Prelude.{◌≡◌, ◌<◌, ◌≤◌, [], ◌∷◌, true, length};
ghost use Rattle.pc_text.specs.Code.{is_code_byte};
ghost use Rattle.pc_tasks.specs.Codes.{after_code, begin_code, drawn_code, end_code, first_code, last_code, links_code};

use arrayvec::ArrayVec;
use pc_text::{Code, Title, digits};

/// The most bytes of a code.
const LIMIT: usize = 16;

/// Returns the code of `_`, a letter and the number `i + 1`.
fn drawn_code(letter: u8, i: u32) -> Code
    requires letter { is_code_byte letter ≡ true }
    requires small { i < 20_000 }
    ensures { result ≡ drawn_code letter i }
{
    let number = digits(u64::from(i) + 1);
    let text = spelled(letter, number.bytes());
    match Code::read(text.as_slice()) {
        Some(code) => code,
        None => unreachable!(),
    }
}

fn spelled(letter: u8, digits: &[u8]) -> ArrayVec<u8, LIMIT>
    requires { length digits.now ≤ 14 }
    ensures { result.items ≡ 95 ∷ letter ∷ digits.now }
{
    let mut text = ArrayVec::new();
    text.push(b'_');
    text.push(letter);
    for digit in digits {
        text.push(*digit);
    }
    text
}

/// Returns the code of the event where a task begins.
pub(crate) fn begin_code(i: u32) -> Code
    requires { i < 20_000 }
    ensures { result ≡ begin_code i }
{
    drawn_code(b'b', i)
}

/// Returns the code of the event where a task ends.
pub(crate) fn end_code(i: u32) -> Code
    requires { i < 20_000 }
    ensures { result ≡ end_code i }
{
    drawn_code(b'e', i)
}

/// Returns the code of the link of an AFTER card.
pub(crate) fn after_code(j: u32) -> Code
    requires { j < 20_000 }
    ensures { result ≡ after_code j }
{
    drawn_code(b'a', j)
}

/// Returns the code of the link from the start to the event where a task begins.
pub(crate) fn first_code(i: u32) -> Code
    requires { i < 20_000 }
    ensures { result ≡ first_code i }
{
    drawn_code(b's', i)
}

/// Returns the code of the link from the event where a task ends to the end.
pub(crate) fn last_code(i: u32) -> Code
    requires { i < 20_000 }
    ensures { result ≡ last_code i }
{
    drawn_code(b't', i)
}

/// Returns the code of the item of the links.
pub(crate) fn links_code() -> Code
    ensures { result ≡ links_code }
{
    match Code::read(b"_links") {
        Some(code) => code,
        None => unreachable!(),
    }
}

/// Returns the title of every generated card, which is empty.
pub(crate) fn no_title() -> Title
    ensures { result ≡ [] }
{
    match Title::read(b"") {
        Some(title) => title,
        None => unreachable!(),
    }
}
