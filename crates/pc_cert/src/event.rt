//! The lines of one event: how each of them begins, and reading one by this beginning.
ghost use Rattle.std.specs.Prelude.{◌≡◌, ◌≤◌, ◌∷◌, IfSome, Some, length};
ghost use Rattle.pc_cert.specs.declared.line.CertLine.TheVariants.{Event};
ghost use Rattle.pc_text.specs.Fields.{spaced};
ghost use Rattle.pc_cert.specs.inside.Fields.{bit_text};
ghost use Rattle.pc_cert.specs.inside.Known.{IsAgain, IsFrontOf};

use crate::fast::{WIDTH, begin_same, begins};
use crate::number::{MAX_DIGITS, number_at, number_within};
use pc_text::Code;

/// How many bytes of an event's line are before its code.
pub const EVENT_NAMED: usize = 6;

/// The most bytes that are read: those of the beginning, a space and a number, and three more.
const LOOKED_AT: usize = WIDTH + MAX_DIGITS + 4;

/// What an event's line says of the event, and how many bytes the line has, with its end.
#[derive(Clone, Copy)]
pub struct EventSaid {
    pub time: u64,
    pub moves: bool,
    pub used: usize,
}

/// The beginning of each line of one event: its word, a space and the code.
///
/// With it, one comparison finds whether a line is one of the event; then only the time and the bit are read.
#[derive(Clone, Copy)]
pub struct EventFront {
    pub(crate) code: Code,
    pub(crate) cells: [u8; WIDTH],
}

impl EventFront {
    /// Returns the beginning of the lines of the event with this code.
    pub fn of(code: Code) -> EventFront
        ensures { IsFrontOf code result }
    {
        let end = EVENT_NAMED + code.bytes().len();
        let mut cells = [0; WIDTH];
        cells[..EVENT_NAMED].copy_from_slice(b"EVENT ".as_slice());
        cells[EVENT_NAMED..end].copy_from_slice(code.bytes());
        EventFront { code, cells }
    }

    /// Reads the line at the beginning of the piece. Returns `None` if it is not a line of this event.
    #[inline(always)]
    pub(crate) fn said(&self, piece: &[u8]) -> Option<EventSaid>
        requires { IsFrontOf self.now.code self.now }
        ensures { IfSome result (λ said. IsAgain
            (Some (Event self.now.code said.time said.moves)) piece.now said.used) }
    {
        if piece.len() < LOOKED_AT {
            return self.said_to_end(piece);
        }
        let front = self.code.bytes().len() + EVENT_NAMED;
        if !begin_same(piece, &self.cells, front) {
            return None;
        }
        let (time, rest) = number_within(&piece[front..])?;
        let (moves, rest) = bit_within(rest)?;
        let used = piece.len() - rest.len();
        Some(EventSaid { time, moves, used })
    }

    /// Does the same if the piece is short.
    #[inline(never)]
    fn said_to_end(&self, piece: &[u8]) -> Option<EventSaid>
        requires { IsFrontOf self.now.code self.now }
        ensures { IfSome result (λ said. IsAgain
            (Some (Event self.now.code said.time said.moves)) piece.now said.used) }
    {
        let front = self.code.bytes().len() + EVENT_NAMED;
        if !begins(piece, &self.cells, front) {
            return None;
        }
        let (time, rest) = number_at(&piece[front..])?;
        let (moves, rest) = last_bit(rest)?;
        let used = piece.len() - rest.len();
        Some(EventSaid { time, moves, used })
    }
}

/// Reads a space, a bit and the end of a line. Returns the bit and the bytes after the end.
#[inline(always)]
fn last_bit(bytes: &[u8]) -> Option<(bool, &[u8])>
    ensures { IfSome result (λ parts. bytes.now ≡ spaced (bit_text parts.0) (10 ∷ parts.1.now)) }
{
    match bytes {
        [b' ', b'0', b'\n', rest @ ..] => Some((false, rest)),
        [b' ', b'1', b'\n', rest @ ..] => Some((true, rest)),
        _ => None,
    }
}

/// Does what `last_bit` does, if there are at least as many bytes as are read.
#[inline(always)]
fn bit_within(bytes: &[u8]) -> Option<(bool, &[u8])>
    requires { 3 ≤ length bytes.now }
    ensures { IfSome result (λ parts. bytes.now ≡ spaced (bit_text parts.0) (10 ∷ parts.1.now)) }
{
    if bytes[0] != b' ' {
        return None;
    }
    if bytes[2] != b'\n' {
        return None;
    }
    match bytes[1] {
        b'0' => Some((false, &bytes[3..])),
        b'1' => Some((true, &bytes[3..])),
        _ => None,
    }
}
