//! Words that change the planes of a row.
ghost use Rattle.std.specs.Prelude.{◌↔◌, ◌+◌, ◌≤◌, length, IsTrue};

use crate::row::{Planes, Word};
use cbase::NoMemory;
use planes::{ANYTHING, MOST_BYTES, Plane};
use std::alloc::Global;
use std::mem;

/// Whether a plane has a range of bytes.
pub fn has_range(plane: &Plane, from: u32, count: u32) -> bool
    ensures { IsTrue result ↔ (from + count ≤ length plane.now) }
{
    u64::from(from) + u64::from(count) <= u64::from(plane.len())
}

/// `new=LENGTH:CLASS` makes the plane anew, `fill=FROM:COUNT:CLASS` fills a range, `copy=FROM:FROM:COUNT` copies a range from the other
/// plane, `max` raises each class to that in the other one, `again` copies the plane whole, and `swap` exchanges the two. Whether the
/// word is one of these; where a plane has no such bytes, nothing is done.
pub fn changed(alloc: Global, planes: &mut Planes, word: Word<'_>) -> Result<bool, NoMemory> {
    match word.name {
        "new" => planes.plane = Plane::new(
            alloc,
            word.first.min(MOST_BYTES),
            word.second.min(2) as u8,
        )?,
        "fill" => fill(&mut planes.plane, word),
        "copy" => copy(&mut planes.plane, &planes.other, word),
        "max" => raise(&mut planes.plane, &planes.other),
        "again" => planes.plane = planes.plane.copied(alloc)?,
        "swap" => mem::swap(&mut planes.plane, &mut planes.other),
        _ => return Ok(false),
    }
    Ok(true)
}

/// Fills a range that the plane has.
fn fill(plane: &mut Plane, word: Word<'_>) {
    if has_range(plane, word.first, word.second) && word.third <= u32::from(ANYTHING) {
        plane.fill(word.first, word.second, word.third as u8);
    }
}

/// Copies a range that both planes have.
fn copy(plane: &mut Plane, other: &Plane, word: Word<'_>) {
    if has_range(plane, word.first, word.third) && has_range(other, word.second, word.third) {
        plane.copy_range(word.first, other, word.second, word.third);
    }
}

/// Raises the classes where both planes are as long.
fn raise(plane: &mut Plane, other: &Plane) {
    if plane.len() == other.len() {
        plane.max_with(other);
    }
}
