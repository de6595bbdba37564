//! Titles: the free text that a card may carry.
ghost use Rattle.std.specs.Prelude.{◌≡◌, nat_eq, ◌≤◌, length};
ghost use Rattle.std.specs.Cmp.{partial_equiv_from_equiv};
ghost use Rattle.std.specs.Cmp.Lexicographic.{pointwise, nat_list_eq_equiv};
ghost use Rattle.pc_text.specs.Title.{is_title_shape};
ghost use Rattle.pc_text.specs.inside.Title.{title_of};
ghost use Rattle.pc_text.specs.inside.Words.{padded};

use std::marker::Model;

/// The most bytes that a title has.
const LIMIT: usize = 80;

/// A text of at most 80 bytes, none of them below 0x20 or equal to 0x7F. It may be empty.
///
/// A title is stored in the value itself and takes no memory.
#[derive(Clone, Copy, Debug)]
pub struct Title {
    cells: [u8; LIMIT],
    len: u8,
}

impl Model for Title {
    ghost use Rattle.std.specs.Prelude.{ℕ, List, length, take};
    ghost use Rattle.pc_text.specs.inside.Words.{padded, IsPadded, length-IsPadded};
    ghost use Rattle.std.proofs.Common.{sym};

    ghost Value = { List ℕ };

    ghost view = { λ s. take s.len s.cells };

    ghost invariant = { λ s. IsPadded 80 s.len s.cells };

    ghost inverse = { λ bytes. record { cells = padded 80 bytes; len = length bytes } };

    ghost inverse_ok = { λ s h i. record { cells = sym h.zeros i; len = length-IsPadded h i } };
}

impl Title {
    /// Reads the title in a field of a deck. Returns `None` if the field has more than 80 bytes, or a byte below 0x20
    /// or equal to 0x7F.
    pub fn read(field: &[u8]) -> Option<Title>
        ensures { result ≡ title_of field.now }
    {
        if !is_title_shape(field) || field.len() > LIMIT {
            return None;
        }
        Some(Title {
            cells: pad(field),
            len: field.len() as u8,
        })
    }

    /// Returns the bytes of the title.
    pub fn bytes(&self) -> &[u8]
        ensures { result.now ≡ self.now }
    {
        &self.cells[..self.len as usize]
    }
}

/// Returns whether the field has no byte below 0x20 or equal to 0x7F. A field of this shape is a title unless it is too
/// long.
pub fn is_title_shape(field: &[u8]) -> bool
    ensures { result ≡ is_title_shape field.now }
{
    let mut is_shape = true;
    for byte in field {
        // No early end, so that the processor can test many bytes at once.
        is_shape = is_shape & !byte.is_ascii_control();
    }
    is_shape
}

impl PartialEq for Title {
    ghost eq = { pointwise nat_eq };

    ghost laws = { partial_equiv_from_equiv nat_list_eq_equiv };

    fn eq(&self, other: &Title) -> bool {
        self.bytes() == other.bytes()
    }
}

impl Eq for Title {
    ghost laws = { nat_list_eq_equiv };
}

/// Returns the piece followed by zeros, `N` bytes in all.
pub(crate) fn pad<const N: usize>(piece: &[u8]) -> [u8; N]
    requires { length piece.now ≤ N }
    ensures { result ≡ padded N piece.now }
{
    let mut cells = [0; N];
    cells[..piece.len()].copy_from_slice(piece);
    cells
}
