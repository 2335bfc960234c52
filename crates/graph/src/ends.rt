//! Whether following addresses through segments that may be empty comes to an end.
//!
//! An end of a segment that may have no node leads to the value beyond it. From each end that is not known yet the ends are
//! followed, and when they come to an end all of them are known. So each is followed twice at most. Where memory is wanting
//! nothing is known, and the answer is the same. Where there are more steps than ends, an end has come back.
ghost use Rattle.std.specs.Prelude.{◌≡◌, ◌↔◌, true, false, None, Some, IsTrue, IfOk, IfSome, replicate, slice_index_or, slice_set};
ghost use Rattle.graph.specs.declared.parts.Parts.{Parts};
ghost use Rattle.graph.specs.Ends.{AllStop, AreKnown, Runs, SomeRuns, Stops, end_at, followed, is_known, next_end, target_end, value_end};
ghost use Rattle.graph.specs.WellFormed.{ComesToAnEnd, HasAscendingKeys};

use crate::look_up::{object_with, value_with};
use crate::parts::Parts;
use crate::value::{Target, Value};
use cbase::NoMemory;
use std::alloc::Global;

/// An end of an object.
#[derive(Clone, Copy)]
pub(crate) struct End {
    /// The key of the object.
    pub(crate) object: u32,
    /// Whether it is the last node's end.
    pub(crate) last: bool,
}

/// The ends that are known to lead to an end, by the keys of their objects. A key beyond the lists is not known.
#[derive(Drop)]
pub(crate) struct Known {
    pub(crate) first: Vec<bool>,
    pub(crate) last: Vec<bool>,
}

/// The end that a value leads to.
fn value_end(value: Value) -> Option<End>
    ensures { result ≡ value_end (Some value) }
{
    match value {
        Value::Const { number: _, size: _ } => None,
        Value::Number { size: _ } => None,
        Value::Any => None,
        Value::Address {
            object,
            offset: _,
            target,
        } => target_end(object, target),
    }
}

/// The end that a target means.
fn target_end(object: u32, target: Target) -> Option<End>
    ensures { result ≡ target_end object target }
{
    match target {
        Target::Region => None,
        Target::First => Some(End {
            object,
            last: false,
        }),
        Target::Last => Some(End { object, last: true }),
        Target::Each => None,
    }
}

/// The end that the value with a key leads to.
fn end_of(parts: &Parts, key: u32) -> Option<End>
    requires { HasAscendingKeys parts.now }
    ensures { result ≡ end_at parts.now (Some key) }
{
    match value_with(parts, key) {
        None => None,
        Some(value) => value_end(value),
    }
}

/// The end that an end leads to, where there may be no node.
fn next_end(parts: &Parts, end: End) -> Option<End>
    requires { HasAscendingKeys parts.now }
    ensures { result ≡ next_end parts.now end }
{
    match object_with(parts, end.object) {
        None => None,
        Some(object) => match object.shape.links() {
            None => None,
            Some(links) => {
                if links.least != 0 {
                    return None;
                }
                if end.last {
                    end_of(parts, links.prev_value)
                } else {
                    end_of(parts, links.next_value)
                }
            }
        },
    }
}

/// Whether an end is known.
fn is_known(known: &Known, end: End) -> bool
    ensures { result ≡ is_known known.now end }
{
    if end.last {
        is_marked(known.last.as_slice(), end.object)
    } else {
        is_marked(known.first.as_slice(), end.object)
    }
}

/// Whether a mark stands at a place.
fn is_marked(marks: &[bool], place: u32) -> bool
    ensures { result ≡ slice_index_or marks.now place false }
{
    match marks.get(place as usize) {
        None => false,
        Some(mark) => *mark,
    }
}

/// Puts a mark at a place, if it is one.
fn mark(marks: &mut Vec<bool>, place: u32)
    ensures { marks.new.items ≡ slice_set marks.old.items place true }
{
    let place = place as usize;
    if place < marks.len() {
        marks[place] = true;
    }
}

/// Makes an end known that comes to an end.
fn learn_end(parts: &Parts, known: &mut Known, end: End)
    requires known { AreKnown parts.now known.old }
    requires stops { Stops parts.now end }
    ensures { AreKnown parts.now known.new }
{
    if end.last {
        mark(&mut known.last, end.object);
    } else {
        mark(&mut known.first, end.object);
    }
}

/// Follows so many steps from an end. None where this comes to an end, or to one that is known; else where it leads.
fn go(parts: &Parts, known: &Known, start: End, steps: usize) -> Option<End>
    requires ascending { HasAscendingKeys parts.now }
    requires known { AreKnown parts.now known.now }
    ensures stops { result ≡ None → Stops parts.now start }
    ensures runs { IfSome result (λ end. followed parts.now steps (Some start) ≡ Some end) }
{
    let mut end = start;
    for _ in 0..steps {
        if is_known(known, end) {
            return None;
        }
        match next_end(parts, end) {
            None => return None,
            Some(next) => end = next,
        }
    }
    Some(end)
}

/// Whether following from an end comes to an end: where it does, it takes no more steps than there are ends.
fn stops(parts: &Parts, known: &Known, start: End) -> bool
    requires ascending { HasAscendingKeys parts.now }
    requires known { AreKnown parts.now known.now }
    ensures stops { result ≡ true → Stops parts.now start }
    ensures runs { result ≡ false → Runs parts.now start }
{
    let count = parts.objects.len();
    let Some(one) = go(parts, known, start, count) else {
        return true;
    };
    let Some(two) = go(parts, known, one, count) else {
        return true;
    };
    go(parts, known, two, 2).is_none()
}

/// Makes each end known that is followed from one that comes to an end.
fn learn(parts: &Parts, known: &mut Known, start: End, steps: usize)
    requires ascending { HasAscendingKeys parts.now }
    requires known { AreKnown parts.now known.old }
    requires stops { Stops parts.now start }
    ensures { AreKnown parts.now known.new }
{
    let mut end = start;
    for _ in 0..steps {
        if is_known(known, end) {
            return;
        }
        learn_end(parts, known, end);
        match next_end(parts, end) {
            None => return,
            Some(next) => end = next,
        }
    }
}

/// Whether following from an end comes to an end. What is followed is known then.
fn end_stops(parts: &Parts, known: &mut Known, end: End) -> bool
    requires ascending { HasAscendingKeys parts.now }
    requires known { AreKnown parts.now known.old }
    ensures known { AreKnown parts.now known.new }
    ensures stops { result ≡ true → Stops parts.now end }
    ensures runs { result ≡ false → Runs parts.now end }
{
    if !stops(parts, known, end) {
        return false;
    }
    learn(parts, known, end, parts.objects.len());
    true
}

/// Nothing is known.
fn unknown(alloc: Global, count: usize) -> Known
    ensures { (parts : Parts) → AreKnown parts result }
{
    match marks_of(alloc, count) {
        Ok(first) => match marks_of(alloc, count) {
            Ok(last) => Known { first, last },
            Err(_) => Known {
                first,
                last: Vec::new(alloc),
            },
        },
        Err(_) => Known {
            first: Vec::new(alloc),
            last: Vec::new(alloc),
        },
    }
}

/// So many places without a mark.
fn marks_of(alloc: Global, count: usize) -> Result<Vec<bool>, NoMemory>
    ensures { IfOk result (λ marks. marks.items ≡ replicate count false) }
{
    let marks = vec![in alloc; false; count]?;
    Ok(marks)
}

/// Whether following from each end comes to an end.
fn all_stop(parts: &Parts, known: &mut Known) -> bool
    requires ascending { HasAscendingKeys parts.now }
    requires known { AreKnown parts.now known.old }
    ensures stops { result ≡ true → AllStop parts.now parts.now.objects }
    ensures runs { result ≡ false → SomeRuns parts.now }
{
    let mut left = parts.objects.as_slice();
    while let [first, rest @ ..] = left {
        let object = first.key;
        if !end_stops(
            parts,
            known,
            End {
                object,
                last: false,
            },
        ) {
            return false;
        }
        if !end_stops(parts, known, End { object, last: true }) {
            return false;
        }
        left = rest;
    }
    true
}

/// Whether following addresses through segments that may be empty comes to an end.
#[tactic(auto, using(crate::proofs::Following::comes_to_an_end, crate::proofs::Following::never_ends))]
pub(crate) fn comes_to_an_end(alloc: Global, parts: &Parts) -> bool
    requires { HasAscendingKeys parts.now }
    ensures { IsTrue result ↔ ComesToAnEnd parts.now }
{
    let mut known = unknown(alloc, parts.objects.len());
    let result = all_stop(parts, &mut known);
    drop(known);
    result
}
