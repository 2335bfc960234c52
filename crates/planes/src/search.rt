//! Looks at classes: vectors over equal chunks, and a plain loop for the rest.
ghost use Rattle.std.specs.Prelude.{◌≡◌, ◌+◌, ◌≤◌, ◌↔◌, length, take, drop, IsTrue};
ghost use Rattle.planes.specs.Lanes.{low_front, same_front, are_at_most};

use crate::class::LANES;
use std::simd::prelude::*;

/// The vector of the bytes from `at` on.
#[inline(always)]
fn lanes(bytes: &[u8], at: usize) -> u8x32
    requires { at + 32 ≤ length bytes.now }
    ensures { result ≡ take 32 (drop at bytes.now) }
{
    u8x32::from_slice(&bytes[at..])
}

/// Whether none of the bytes of a vector has a class above `class`.
#[inline(always)]
fn are_low(bytes: &[u8], at: usize, class: u8) -> bool
    requires { at + 32 ≤ length bytes.now }
    ensures { IsTrue result ↔ (low_front class (take 32 (drop at bytes.now)) ≡ 32) }
{
    lanes(bytes, at).simd_gt(u8x32::splat(class)).to_bitmask() == 0
}

/// Whether each of the bytes of a vector has this class.
#[inline(always)]
fn are_same(bytes: &[u8], at: usize, class: u8) -> bool
    requires { at + 32 ≤ length bytes.now }
    ensures { IsTrue result ↔ (same_front class (take 32 (drop at bytes.now)) ≡ 32) }
{
    lanes(bytes, at).simd_ne(u8x32::splat(class)).to_bitmask() == 0
}

/// Whether none of the bytes of a vector has a class above that in another.
#[inline(always)]
fn are_below(left: &[u8], right: &[u8], at: usize) -> bool
    requires left { at + 32 ≤ length left.now }
    requires right { at + 32 ≤ length right.now }
    ensures { result ≡ are_at_most (take 32 (drop at left.now)) (take 32 (drop at right.now)) }
{
    lanes(left, at).simd_gt(lanes(right, at)).to_bitmask() == 0
}

/// How many bytes stand before the first that has a class above `class`.
pub(crate) fn low_front(bytes: &[u8], class: u8) -> usize
    ensures { result ≡ low_front class bytes.now }
{
    let mut at = 0;
    while bytes.len() - at >= LANES && are_low(bytes, at, class) {
        at += LANES;
    }
    while at < bytes.len() && bytes[at] <= class {
        at += 1;
    }
    at
}

/// How many bytes stand before the first that has another class.
pub(crate) fn same_front(bytes: &[u8], class: u8) -> usize
    ensures { result ≡ same_front class bytes.now }
{
    let mut at = 0;
    while bytes.len() - at >= LANES && are_same(bytes, at, class) {
        at += LANES;
    }
    while at < bytes.len() && bytes[at] == class {
        at += 1;
    }
    at
}

/// Whether no byte has a class above that in the second list.
pub(crate) fn is_at_most(left: &[u8], right: &[u8]) -> bool
    requires { length left.now ≡ length right.now }
    ensures { result ≡ are_at_most left.now right.now }
{
    let mut at = 0;
    while left.len() - at >= LANES {
        if !are_below(left, right, at) {
            return false;
        }
        at += LANES;
    }
    while at < left.len() {
        if right[at] < left[at] {
            return false;
        }
        at += 1;
    }
    true
}
