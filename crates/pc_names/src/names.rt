//! Codes that are found by their bytes.
ghost use Rattle.std.specs.Prelude.{◌≡◌, ◌∷◌, ◌++◌, [], true, false, not, nat_eq, position, IfOk, OnErr};
ghost use Rattle.std.specs.List.{list_any};
ghost use Rattle.std.specs.Cmp.Lexicographic.{pointwise};
ghost use Rattle.pc_model.specs.Codes.{IsNamedOnce};

use crate::hash::{CodeHash, key_of_codes};
use indexmap::IndexSet;
use pc_text::Code;
use std::alloc::{AllocError, Global};
use std::marker::Model;

/// Distinct codes, in the order in which they were added.
pub struct Names {
    codes: IndexSet<Code, CodeHash>,
}

impl Drop for Names {
    // Written by hand so that the proof of dropping it is done once, here.
    fn drop(self) {
        let Names { codes: _codes } = self;
    }
}

impl Model for Names {
    ghost use Rattle.std.specs.Prelude.{ℕ, List};

    ghost Value = { List (List ℕ) };

    ghost view = { λ names. names.codes.keys };
}

impl Names {
    /// Creates an empty list whose hash has this key. Allocates nothing.
    ///
    /// If others choose the codes, use a random key, or take it from [`key_of_bytes`](crate::key_of_bytes).
    pub fn new(alloc: Global, key: u128) -> Names
        ensures { result ≡ [] }
    {
        Names {
            codes: IndexSet::with_hasher(alloc, CodeHash::new(key)),
        }
    }

    /// Returns a list of these codes, whose key is [`key_of_codes`](crate::key_of_codes).
    ///
    /// # Errors
    ///
    /// Returns `AllocError` if memory runs out.
    pub fn build(alloc: Global, codes: &[Code]) -> Result<Names, AllocError>
        requires { IsNamedOnce codes.now }
        ensures { IfOk result (λ names. names ≡ codes.now) }
    {
        let hash = CodeHash::new(key_of_codes(codes));
        let mut names = Names {
            codes: IndexSet::with_capacity_and_hasher(alloc, codes.len(), hash)?,
        };
        for code in codes {
            names.add(code)?;
        }
        Ok(names)
    }

    /// Adds a code, and returns whether it is new.
    ///
    /// # Errors
    ///
    /// Returns `AllocError` if memory runs out.
    pub fn add(&mut self, code: &Code) -> Result<bool, AllocError>
        ensures added { IfOk result (λ is_new. is_new ≡ not (list_any (pointwise nat_eq code.now) self.old)) }
        ensures new { IfOk result (λ is_new. is_new ≡ true → self.new ≡ self.old ++ code.now ∷ []) }
        ensures known { IfOk result (λ is_new. is_new ≡ false → self.new ≡ self.old) }
        ensures err { OnErr result (self.new ≡ self.old) }
    {
        Ok(self.codes.insert(*code)?)
    }

    /// Returns the place of a code, from 0, or `None` if it is not among them.
    pub fn place_of(&self, code: &Code) -> Option<usize>
        ensures { result ≡ position (pointwise nat_eq code.now) self.now }
    {
        self.codes.get_index_of(code)
    }

    /// Returns the codes, in order.
    pub fn as_slice(&self) -> &[Code]
        ensures codes { result.now ≡ self.now }
        ensures apart { IsNamedOnce result.now }
    {
        self.codes.as_slice()
    }

    /// Returns the key, for other lists that are looked up with this one.
    pub fn key(&self) -> u128 {
        self.codes.hasher().key()
    }
}
