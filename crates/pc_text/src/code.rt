//! Codes: the short names of projects, events, items, activities and accounts, and lists of them.
ghost use Rattle.std.specs.Prelude.{◌≡◌, ◌≤◌, [], ◌∷◌, IsTrue, Some, if◌then◌else◌, refl, not, nat_eq, length, IfOk};
ghost use Rattle.std.specs.Ordering.{nat_cmp};
ghost use Rattle.std.specs.Cmp.{partial_equiv_from_equiv};
ghost use Rattle.std.specs.Cmp.Lexicographic.{
  pointwise,
  slice_cmp,
  nat_list_eq_equiv,
  nat_list_cmp_total,
  texts_ties,
  texts_po,
};
ghost use Rattle.std.specs.List.{list_all};
ghost use Rattle.pc_text.specs.Code.{is_code_byte, is_code, code_of};
ghost use Rattle.pc_text.specs.inside.Code.{has_code_length};
ghost use Rattle.pc_text.specs.inside.CodeCells.{code_cells_of, same_cells};
ghost use Rattle.pc_text.specs.inside.CodeNumber.{number_of_code, code_in};
ghost use Rattle.pc_text.specs.inside.Words.{padded};

use std::alloc::{AllocError, Global};
use std::cmp::Ordering;
use std::hash::{Hash, Hasher};
use std::marker::Model;

/// The most bytes that a code has.
const LIMIT: usize = 16;

/// Maps each byte that is allowed in a code to itself, and every other byte to a comma.
static CODE_BYTES: [u8; 256] = *b"\
    ,,,,,,,,,,,,,,,,,,,,,,,,,,,,,,,,\
    ,,,,,,,,,,,,,-.,0123456789,,,,,,\
    ,ABCDEFGHIJKLMNOPQRSTUVWXYZ,,,,_\
    ,abcdefghijklmnopqrstuvwxyz,,,,,\
    ,,,,,,,,,,,,,,,,,,,,,,,,,,,,,,,,\
    ,,,,,,,,,,,,,,,,,,,,,,,,,,,,,,,,\
    ,,,,,,,,,,,,,,,,,,,,,,,,,,,,,,,,\
    ,,,,,,,,,,,,,,,,,,,,,,,,,,,,,,,,";

/// A short name: 1 to 16 bytes, each a letter, a digit, or one of `.`, `_` and `-`.
///
/// Codes are ordered by their bytes. A code is stored in the value itself and takes no memory.
#[derive(Clone, Copy, Debug)]
pub struct Code {
    cells: [u8; LIMIT],
    len: u8,
}

impl Model for Code {
    ghost use Rattle.std.specs.Prelude.{ℕ, List, length, take};
    ghost use Rattle.pc_text.specs.inside.Words.{padded, length-IsPadded};
    ghost use Rattle.pc_text.specs.inside.CodeCells.{IsCodeCells};
    ghost use Rattle.std.proofs.Common.{sym};

    ghost Value = { List ℕ };

    ghost view = { λ s. take s.len s.cells };

    ghost invariant = { λ s. IsCodeCells s.len s.cells };

    ghost inverse = { λ bytes. record { cells = padded 16 bytes; len = length bytes } };

    ghost inverse_ok = { λ s h i. record { cells = sym h.padded.zeros i; len = length-IsPadded h.padded i } };
}

impl Code {
    /// Reads the code in a field of a deck. Returns `None` if the field is not a code.
    pub fn read(field: &[u8]) -> Option<Code>
        ensures { result ≡ code_of field.now }
    {
        if !has_code_length(field) {
            return None;
        }
        let Some(cells) = cells_of(field) else {
            return None;
        };
        Some(Code {
            cells,
            len: field.len() as u8,
        })
    }

    /// Returns the bytes of the code.
    pub fn bytes(&self) -> &[u8]
        ensures value { result.now ≡ self.now }
        ensures code { IsTrue (is_code result.now) }
    {
        &self.cells[..self.len as usize]
    }

    /// Returns the code as one number. Two codes have the same number if and only if they are equal.
    ///
    /// Comparing numbers takes one step where comparing bytes takes up to 16.
    pub fn number(&self) -> u128
        ensures value { result ≡ number_of_code self.now }
        ensures back { code_in result ≡ self.now }
    {
        u128::from_le_bytes(self.cells)
    }
}

fn is_code_byte(byte: u8) -> bool
    ensures { result ≡ is_code_byte byte }
{
    // One look at the table, instead of five comparisons for the ranges of letters and digits.
    CODE_BYTES[byte as usize] != b','
}

/// Returns whether the field is a code: 1 to 16 bytes, each a letter, a digit, or one of `.`, `_` and `-`.
pub fn is_code(field: &[u8]) -> bool
    ensures { result ≡ is_code field.now }
{
    has_code_length(field) && has_code_bytes(field)
}

fn has_code_length(field: &[u8]) -> bool
    ensures { result ≡ has_code_length field.now }
{
    1 <= field.len() && field.len() <= LIMIT
}

fn has_code_bytes(field: &[u8]) -> bool
    ensures { result ≡ list_all is_code_byte field.now }
{
    field.iter().all(|byte| is_code_byte(*byte))
}

/// Returns the bytes followed by zeros, or `None` if one of them is not allowed in a code.
fn cells_of(field: &[u8]) -> Option<[u8; LIMIT]>
    requires { length field.now ≤ 16 }
    ensures { result ≡ code_cells_of field.now }
{
    let mut cells = [0; LIMIT];
    // No early end: a byte that is not allowed becomes a comma, and all cells are tested for commas at once.
    for i in 0..field.len() {
        cells[i] = code_byte(field[i]);
    }
    if has_no_comma(&cells) {
        Some(cells)
    } else {
        None
    }
}

/// Returns the byte if it is allowed in a code, and a comma otherwise.
fn code_byte(byte: u8) -> u8
    ensures { result ≡ (if is_code_byte byte then byte else 44) }
{
    CODE_BYTES[byte as usize]
}

fn has_no_comma(cells: &[u8; LIMIT]) -> bool
    ensures { result ≡ list_all (λ cell. not (nat_eq cell 44)) cells.now }
{
    let mut has_no_comma = true;
    for cell in cells {
        has_no_comma = has_no_comma & (*cell != b',');
    }
    has_no_comma
}

impl PartialEq for Code {
    ghost eq = { pointwise nat_eq };

    ghost laws = { partial_equiv_from_equiv nat_list_eq_equiv };

    // Compares two words instead of up to 16 bytes.
    fn eq(&self, other: &Code) -> bool {
        self.number() == other.number()
    }
}

impl Eq for Code {
    ghost laws = { nat_list_eq_equiv };
}

impl PartialOrd for Code {
    ghost partial_cmp = { λ a b. Some (slice_cmp nat_cmp a b) };

    ghost laws = { texts_po };

    fn partial_cmp(&self, other: &Code) -> Option<Ordering> {
        Some(self.cmp(other))
    }
}

impl Ord for Code {
    ghost cmp = { slice_cmp nat_cmp };

    ghost total = { nat_list_cmp_total };

    ghost matches_partial_cmp = { λ a b. refl };

    ghost matches_eq = { texts_ties };

    fn cmp(&self, other: &Code) -> Ordering {
        self.bytes().cmp(other.bytes())
    }
}

impl Hash for Code {
    ghost hash_input = { λ code. padded 16 code ∷ [] };

    ghost respects_eq = { same_cells };

    // All cells at once, the zeros among them: two codes are equal if and only if all their cells are.
    fn hash<H: Hasher>(&self, state: &mut H) {
        state.write(&self.cells);
    }
}

/// A list of codes, in the order in which they were given.
#[derive(Debug, Drop)]
pub struct Codes {
    items: Vec<Code>,
}

impl Model for Codes {
    ghost use Rattle.std.specs.Prelude.{ℕ, List};

    ghost Value = { List (List ℕ) };

    ghost view = { λ codes. codes.items.items };
}

impl Codes {
    /// Returns a list of these codes, in this order.
    ///
    /// # Errors
    ///
    /// `AllocError` if there is no memory for the copy.
    pub fn of(alloc: Global, codes: &[Code]) -> Result<Codes, AllocError>
        ensures { IfOk result (λ list. list ≡ codes.now) }
    {
        Ok(Codes {
            items: codes.to_vec(alloc)?,
        })
    }

    /// Returns the codes, in order.
    pub fn as_slice(&self) -> &[Code]
        ensures { result.now ≡ self.now }
    {
        &self.items
    }
}
