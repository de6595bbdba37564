//! A region, the spans that are live in it, and the names for parts of it.
ghost use Rattle.std.specs.Prelude.{
  ◌≡◌,
  ◌+◌,
  ◌<◌,
  ◌≤◌,
  ◌↔◌,
  ℕ,
  [],
  ◌∷◌,
  ◌++◌,
  IfOk,
  IfErr,
  OnOk,
  OnErr,
  IsOk,
  IsTrue,
  length,
  take,
  replicate,
  slice_index,
  slice_set,
  sum_by,
};
ghost use Rattle.pc_cells.specs.inside.Spans.{free_of, span_at, with_span, IsSpan, IsLive, IsTaken, IsMark};
ghost use Rattle.pc_cells.specs.inside.Layout.{IsRangeFilled, IsRangeWritten};

use std::alloc::{AllocError, Global};
use std::marker::Model;

/// A fixed number of cells with a `u64` each, and the spans of them that are live.
///
/// The first live span begins at the first cell, and each later one where the one before ends.
pub struct Region {
    cells: Vec<u64>,
    /// Where each live span begins, and then where the next one will; the entries after these `count + 1` have no
    /// meaning.
    starts: Vec<usize>,
    count: usize,
}

impl Drop for Region {
    // Written by hand so that the proof of dropping a region is done once, here.
    fn drop(self) {
        let Region {
            cells: _cells,
            starts: _starts,
            count: _count,
        } = self;
    }
}

impl Model for Region {
    ghost use Rattle.pc_cells.specs.Spans.{Cells};

    ghost Value = { Cells };

    ghost use Rattle.pc_cells.specs.inside.Layout.{cells_of, IsLaidOut};

    ghost view = { cells_of };

    ghost invariant = { IsLaidOut };
}

impl Region {
    /// Creates a region of `n` cells with no live span. Allocates all memory that its spans will need, that for where
    /// they begin included.
    ///
    /// # Errors
    ///
    /// Returns `AllocError` if memory runs out.
    pub fn with_cells(alloc: Global, n: usize) -> Result<Region, AllocError>
        ensures { IfOk result (λ region. region ≡ record { capacity = n; spans = [] }) }
    {
        let cells = vec![in alloc; 0u64; n]?;
        let starts = vec![in alloc; 0usize; cells.len() + 1]?;
        Ok(Region {
            cells,
            starts,
            count: 0,
        })
    }

    /// Returns the number of cells that are in no live span.
    pub fn free(&self) -> usize
        ensures { result ≡ free_of self.now }
    {
        self.cells.len() - self.used()
    }

    // How many cells are in live spans.
    fn used(&self) -> usize
        ensures used { result ≡ sum_by length self.now.spans }
        ensures within { result ≤ self.now.capacity }
    {
        self.starts[self.count]
    }

    /// Returns a new live span of `len` cells, each 0, after those that are live already.
    ///
    /// # Errors
    ///
    /// Returns `RegionFull` if fewer than `len` cells are free, or no further span fits. The region is unchanged.
    pub fn take(&mut self, len: usize) -> Result<Span, RegionFull>
        requires { 0 < len }
        ensures there_is_room { IsOk result ↔ (len ≤ free_of self.old) }
        ensures span { IfOk result (IsSpan self.new.spans (length self.old.spans)) }
        ensures taken { OnOk result (self.new ≡ record self.old { spans = self.old.spans ++ replicate len 0 ∷ [] }) }
        ensures full { IfErr result (λ full. full ≡ record { need = len; free = free_of self.old }) }
        ensures unchanged { OnErr result (self.new ≡ self.old) }
    {
        let place = self.starts[self.count];
        let free = self.cells.len() - place;
        if free < len {
            return Err(RegionFull { need: len, free });
        }
        fill_range(&mut self.cells, place, place + len, 0);
        self.count += 1;
        self.starts[self.count] = place + len;
        Ok(Span { place, len })
    }

    /// Returns a new live span, as [`Region::take`] does, if you know that its cells are free.
    pub fn take_free(&mut self, len: usize) -> Span
        requires some { 0 < len }
        requires room { len ≤ free_of self.old }
        ensures taken { IsTaken self.old self.new len result }
        ensures fewer { free_of self.new + len ≡ free_of self.old }
    {
        match self.take(len) {
            Ok(span) => span,
            Err(_) => unreachable!(),
        }
    }

    /// Returns the number in cell `i` of the span.
    pub fn get(&self, s: Span, i: usize) -> u64
        requires live { IsLive self.now.spans s }
        requires within { i < s.len }
        ensures { (k : ℕ) → IsSpan self.now.spans k s → result ≡ slice_index (span_at self.now.spans k) i }
    {
        self.cells[s.place + i]
    }

    /// Writes `v` to cell `i` of the span, and changes nothing else.
    pub fn set(&mut self, s: Span, i: usize, v: u64)
        requires live { IsLive self.old.spans s }
        requires within { i < s.len }
        ensures { (k : ℕ) → IsSpan self.old.spans k s →
            self.new ≡ with_span self.old k (slice_set (span_at self.old.spans k) i v) }
    {
        self.cells[s.place + i] = v;
    }

    /// Returns the numbers in the span's cells, in order.
    pub fn list(&self, s: Span) -> &[u64]
        requires { IsLive self.now.spans s }
        ensures { (k : ℕ) → IsSpan self.now.spans k s → result.now ≡ span_at self.now.spans k }
    {
        &self.cells[s.place..s.place + s.len]
    }

    /// Copies these numbers into the span's cells, and changes nothing else.
    pub fn write(&mut self, s: Span, numbers: &[u64])
        requires live { IsLive self.old.spans s }
        requires one_each { length numbers.now ≡ s.len }
        ensures { (k : ℕ) → IsSpan self.old.spans k s → self.new ≡ with_span self.old k numbers.now }
    {
        write_range(&mut self.cells, s.place, numbers);
    }

    /// Writes `v` to each cell of the span, and changes nothing else.
    pub fn fill(&mut self, s: Span, v: u64)
        requires { IsLive self.old.spans s }
        ensures { (k : ℕ) → IsSpan self.old.spans k s → self.new ≡ with_span self.old k (replicate s.len v) }
    {
        fill_range(&mut self.cells, s.place, s.place + s.len, v);
    }

    /// Returns a mark of the spans that are live now, for [`Region::release_to`].
    pub fn mark(&self) -> Mark
        ensures mark { IsMark self.now.spans result }
        ensures of_all { result.spans ≡ length self.now.spans }
    {
        Mark {
            spans: self.count,
            cells: self.used(),
        }
    }

    /// Returns whether the mark's numbers of spans and of cells are those of the first live spans, up to one of them.
    pub fn is_mark(&self, m: Mark) -> bool
        ensures { IsTrue result ↔ IsMark self.now.spans m }
    {
        m.spans <= self.count && self.starts[m.spans] == m.cells
    }

    /// Ends the spans that were taken after the mark, and changes nothing else.
    pub fn release_to(&mut self, m: Mark)
        requires { IsMark self.old.spans m }
        ensures { self.new ≡ record self.old { spans = take m.spans self.old.spans } }
    {
        self.count = m.spans;
    }
}

// Puts these numbers into the cells from place `from` on.
fn write_range(cells: &mut [u64], from: usize, numbers: &[u64])
    requires { from + length numbers.now ≤ length cells.old }
    ensures { IsRangeWritten cells.old cells.new from (from + length numbers.now) numbers.now }
{
    cells[from..from + numbers.len()].copy_from_slice(numbers);
}

// Puts `v` into each cell from place `from` up to `to`.
fn fill_range(cells: &mut [u64], from: usize, to: usize, v: u64)
    requires ordered { from ≤ to }
    requires within { to ≤ length cells.old }
    ensures { IsRangeFilled cells.old cells.new from to v }
{
    cells[from..to].fill(v);
}

/// Consecutive cells of a region: the place of the first one, and their number.
#[derive(Clone, Copy, Debug, PartialEq, Eq)]
pub struct Span {
    pub place: usize,
    pub len: usize,
}

/// How much of a region was in use at some time: the number of spans, and the number of cells that they had together.
#[derive(Clone, Copy, Debug, PartialEq, Eq)]
pub struct Mark {
    pub spans: usize,
    pub cells: usize,
}

/// The error of [`Region::take`](crate::Region::take): a span of `need` cells was asked for, and `free` cells are left.
#[derive(Clone, Copy, Debug, PartialEq, Eq)]
pub struct RegionFull {
    pub need: usize,
    pub free: usize,
}
