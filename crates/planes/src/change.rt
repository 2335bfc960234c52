//! Changes of classes in place: vectors over equal chunks, and a plain loop for the rest.
ghost use Rattle.std.specs.Prelude.{◌≡◌, ◌+◌, ◌≤◌, ◌++◌, length, take, drop, replicate};
ghost use Rattle.planes.specs.Classes.{highest};

use crate::class::LANES;
use std::simd::prelude::*;

/// Gives each byte a class.
pub(crate) fn fill_bytes(bytes: &mut [u8], class: u8)
    ensures { bytes.new ≡ replicate (length bytes.old) class }
{
    let lanes = u8x32::splat(class);
    let mut at = 0;
    while bytes.len() - at >= LANES {
        lanes.copy_to_slice(&mut bytes[at..]);
        at += LANES;
    }
    while at < bytes.len() {
        bytes[at] = class;
        at += 1;
    }
}

/// Gives each byte the class of that in `others`.
pub(crate) fn copy_bytes(bytes: &mut [u8], others: &[u8])
    requires { length bytes.old ≡ length others.now }
    ensures { bytes.new ≡ others.now }
{
    let mut at = 0;
    while bytes.len() - at >= LANES {
        u8x32::from_slice(&others[at..]).copy_to_slice(&mut bytes[at..]);
        at += LANES;
    }
    while at < bytes.len() {
        bytes[at] = others[at];
        at += 1;
    }
}

/// The greater class of each byte of two vectors.
#[inline(always)]
fn higher(bytes: &[u8], others: &[u8], at: usize) -> u8x32
    requires bytes { at + 32 ≤ length bytes.now }
    requires others { at + 32 ≤ length others.now }
    ensures { result ≡ highest (take 32 (drop at bytes.now)) (take 32 (drop at others.now)) }
{
    let left = u8x32::from_slice(&bytes[at..]);
    let right = u8x32::from_slice(&others[at..]);
    left.simd_lt(right).select(right, left)
}

/// Gives each byte the greater of its class and that in `others`.
pub(crate) fn raise_bytes(bytes: &mut [u8], others: &[u8])
    requires { length bytes.old ≡ length others.now }
    ensures { bytes.new ≡ highest bytes.old others.now }
{
    let mut at = 0;
    while bytes.len() - at >= LANES {
        let lanes = higher(bytes, others, at);
        lanes.copy_to_slice(&mut bytes[at..]);
        at += LANES;
    }
    while at < bytes.len() {
        bytes[at] = bytes[at].max(others[at]);
        at += 1;
    }
}
