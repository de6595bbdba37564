//! Comparing the first bytes of two slices, 32 at once.
ghost use Rattle.std.specs.Prelude.{◌≡◌, ℕ, ◌<◌, ◌≤◌, IsTrue, length, take, slice_index};
ghost use Rattle.std.specs.Int.{bit_at};

use std::simd::prelude::*;

/// How many bytes are compared at once.
pub const WIDTH: usize = 32;

/// Returns whether the first `count` bytes of the two slices are the same. Each has at least 32.
#[inline(always)]
pub(crate) fn begin_same(bytes: &[u8], others: &[u8], count: usize) -> bool
    requires bytes { WIDTH ≤ length bytes.now }
    requires others { WIDTH ≤ length others.now }
    requires count { count ≤ WIDTH }
    ensures { IsTrue result → take count bytes.now ≡ take count others.now }
{
    let first = low_bits(count);
    same_lanes(bytes, others) & first == first
}

/// Returns a bit for each of the first 32 bytes, which is set if the two are the same.
#[inline(always)]
fn same_lanes(bytes: &[u8], others: &[u8]) -> u64
    requires bytes { WIDTH ≤ length bytes.now }
    requires others { WIDTH ≤ length others.now }
    ensures { (k : ℕ) → k < WIDTH → bit_at result k ≡ 1 → slice_index bytes.now k ≡ slice_index others.now k }
{
    u8x32::from_slice(bytes)
        .simd_eq(u8x32::from_slice(others))
        .to_bitmask()
}

#[inline(always)]
fn low_bits(count: usize) -> u64
    requires { count ≤ WIDTH }
    ensures { (k : ℕ) → k < count → bit_at result k ≡ 1 }
{
    (1 << count) - 1
}

/// Returns whether the piece begins with the first `count` of the bytes.
#[inline(always)]
pub(crate) fn begins(piece: &[u8], bytes: &[u8], count: usize) -> bool
    requires room { WIDTH ≤ length bytes.now }
    requires count { count ≤ length bytes.now }
    ensures within { IsTrue result → count ≤ length piece.now }
    ensures same { IsTrue result → take count piece.now ≡ take count bytes.now }
{
    if count <= WIDTH && WIDTH <= piece.len() {
        return begin_same(piece, bytes, count);
    }
    begins_far(piece, bytes, count)
}

/// Does the same if more than 32 bytes are compared, or if a slice is shorter. It is a function of its own so that
/// loops that compare keep what they need in registers.
#[inline(never)]
fn begins_far(piece: &[u8], bytes: &[u8], count: usize) -> bool
    requires count { count ≤ length bytes.now }
    ensures within { IsTrue result → count ≤ length piece.now }
    ensures same { IsTrue result → take count piece.now ≡ take count bytes.now }
{
    count <= piece.len() && piece[..count] == bytes[..count]
}
