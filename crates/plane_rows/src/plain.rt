//! What the calls of planes are measured against: plain loops over bytes.
use crate::change::has_range;
use crate::row::{Planes, Word};
use cbase::NoMemory;
use planes::{NUMBER, Plane};
use std::alloc::Global;

/// The classes of a plane, as bytes.
fn bytes_of(alloc: Global, plane: &Plane) -> Result<Vec<u8>, NoMemory> {
    let mut bytes = Vec::new(alloc);
    for at in 0..plane.len() {
        bytes.push(plane.class_at(at))?;
    }
    Ok(bytes)
}

/// How many bytes stand before the first above a class.
fn plain_first(bytes: &[u8], class: u8) -> usize {
    for (at, byte) in bytes.iter().enumerate() {
        if *byte > class {
            return at;
        }
    }
    bytes.len()
}

/// How many bytes stand before the first of another class.
fn plain_all(bytes: &[u8], class: u8) -> usize {
    for (at, byte) in bytes.iter().enumerate() {
        if *byte != class {
            return at;
        }
    }
    bytes.len()
}

/// Whether no byte is above that in the other list.
fn plain_below(bytes: &[u8], others: &[u8]) -> bool {
    for (byte, other) in bytes.iter().zip(others) {
        if *byte > *other {
            return false;
        }
    }
    true
}

/// `time=COUNT:CALL:PLAIN`: asks so many times, of the bytes from 0 or 1 on, call 0 for the first byte above a number, 1 for whether each is a
/// number, 2 for whether none is above the other plane; with lanes, or with a plain loop where PLAIN is 1. The sum of what is answered.
pub fn timed(alloc: Global, planes: &Planes, word: Word<'_>) -> Result<u32, NoMemory> {
    let bytes = bytes_of(alloc, &planes.plane)?;
    let others = bytes_of(alloc, &planes.other)?;
    let mut sum: u32 = 0;
    for turn in 0..word.first {
        let from = turn % 2;
        let found = if word.third == 1 {
            by_loop(bytes.as_slice(), others.as_slice(), word.second, from)
        } else {
            by_lanes(planes, word.second, from)
        };
        sum = sum.wrapping_add(found);
    }
    Ok(sum)
}

fn by_loop(bytes: &[u8], others: &[u8], call: u32, from: u32) -> u32 {
    if from as usize > bytes.len() {
        return 0;
    }
    let rest = &bytes[from as usize..];
    match call {
        0 => from.wrapping_add(plain_first(rest, NUMBER).min(65_536) as u32),
        1 => u32::from(plain_all(rest, NUMBER) == rest.len()),
        _ => u32::from(plain_below(bytes, others)),
    }
}

fn by_lanes(planes: &Planes, call: u32, from: u32) -> u32 {
    let plane = &planes.plane;
    if from > plane.len() {
        return 0;
    }
    match call {
        0 => match plane.first_above(from, NUMBER) {
            Some(at) => at,
            None => plane.len(),
        },
        1 => u32::from(plane.all_are(from, plane.len() - from, NUMBER)),
        _ => u32::from(plane.len() == planes.other.len() && plane.at_most(&planes.other)),
    }
}
