//! Words that ask something of the planes of a row.
use crate::change::has_range;
use crate::plain::timed;
use crate::row::{Planes, Word};
use cbase::NoMemory;
use planes::{ANYTHING, Plane};
use std::alloc::Global;
use std::fmt::Write;

/// What is answered.
#[derive(Clone, Copy)]
pub enum Answer {
    /// Whether it is so.
    Truth(bool),
    /// A number, or that there is none.
    Place(Option<u32>),
    /// The planes have no such bytes, or there is no such word.
    Nothing,
}

/// Puts what a word asks behind what is shown: `runs` lists the classes of the plane, each with how often it stands one behind the other,
/// and all others answer as `told` says.
pub fn asked(
    alloc: Global,
    planes: &Planes,
    shown: &mut String,
    word: Word<'_>,
) -> Result<(), NoMemory> {
    match word.name {
        "runs" => show_runs(&planes.plane, shown),
        "time" => show(shown, Answer::Place(Some(timed(alloc, planes, word)?))),
        _ => show(shown, told(planes, word)),
    }
}

/// `len`, `empty`, `class=AT`, `first=FROM:CLASS` (the first byte above the class), `low=FROM:COUNT:CLASS` (whether none is above it),
/// `all=FROM:COUNT:CLASS` (whether each is of the class), and `below` (whether no class is above that in the other plane).
fn told(planes: &Planes, word: Word<'_>) -> Answer {
    let plane = &planes.plane;
    match word.name {
        "len" => Answer::Place(Some(plane.len())),
        "empty" => Answer::Truth(plane.is_empty()),
        "class" => class(plane, word),
        "first" => first(plane, word),
        "low" => low(plane, word),
        "all" => all(plane, word),
        "below" => below(plane, &planes.other),
        _ => Answer::Nothing,
    }
}

fn class(plane: &Plane, word: Word<'_>) -> Answer {
    if word.first >= plane.len() {
        return Answer::Nothing;
    }
    Answer::Place(Some(u32::from(plane.class_at(word.first))))
}

fn first(plane: &Plane, word: Word<'_>) -> Answer {
    if word.first > plane.len() || word.second > u32::from(ANYTHING) {
        return Answer::Nothing;
    }
    Answer::Place(plane.first_above(word.first, word.second as u8))
}

fn low(plane: &Plane, word: Word<'_>) -> Answer {
    if !has_range(plane, word.first, word.second) || word.third > u32::from(ANYTHING) {
        return Answer::Nothing;
    }
    Answer::Truth(plane.all_at_most(word.first, word.second, word.third as u8))
}

fn all(plane: &Plane, word: Word<'_>) -> Answer {
    if !has_range(plane, word.first, word.second) || word.third > u32::from(ANYTHING) {
        return Answer::Nothing;
    }
    Answer::Truth(plane.all_are(word.first, word.second, word.third as u8))
}

fn below(plane: &Plane, other: &Plane) -> Answer {
    if plane.len() != other.len() {
        return Answer::Nothing;
    }
    Answer::Truth(plane.at_most(other))
}

/// Puts an answer behind what is shown.
fn show(shown: &mut String, answer: Answer) -> Result<(), NoMemory> {
    match answer {
        Answer::Place(Some(number)) => write!(shown, "{number}")?,
        Answer::Place(None) => shown.push_str("none")?,
        Answer::Truth(true) => shown.push_str("yes")?,
        Answer::Truth(false) => shown.push_str("no")?,
        Answer::Nothing => shown.push_str("?")?,
    }
    Ok(())
}

/// Puts the classes of a plane behind what is shown, as in `2*31,0*1`.
fn show_runs(plane: &Plane, shown: &mut String) -> Result<(), NoMemory> {
    let mut from = 0;
    for at in 0..plane.len() {
        if at + 1 == plane.len() || plane.class_at(at) != plane.class_at(at + 1) {
            let class = plane.class_at(at);
            let count = (at + 1).saturating_sub(from);
            write!(shown, "{class}*{count},")?;
            from = at + 1;
        }
    }
    Ok(())
}
