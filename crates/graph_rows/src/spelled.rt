//! The parts that words spell.
ghost use Rattle.std.specs.Prelude.{◌≤◌, IfSome};

use crate::fault::Fault;
use crate::word::{Name, Word, large, number, offset, small, word_of};
use bytes_core::BlockKind;
use cbase::{List, NoMemory};
use graph::{
    Edges, HasValue, Held, KeyedObject, KeyedValue, Named, Node, Object, Pair, Parts, Shape,
    Target, Template, Value,
};
use planes::{ANYTHING, MOST_BYTES, Plane, ZERO};
use std::alloc::Global;

/// The parts that a text spells.
pub fn parts_of_text(alloc: Global, text: &str) -> Result<Parts, Fault> {
    let words = words_of(alloc, text)?;
    let mut parts = no_parts(alloc);
    match take_words(alloc, &mut parts, words.as_slice()) {
        Ok(()) => Ok(parts),
        Err(fault) => {
            drop(parts);
            Err(fault)
        }
    }
}

/// The words of a text.
fn words_of(alloc: Global, text: &str) -> Result<List<Word>, Fault> {
    let mut words = List::new(alloc);
    for word in text.split_whitespace() {
        match word_of(word) {
            Some(word) => words.push(word)?,
            None => return Err(Fault::NoRow),
        }
    }
    Ok(words)
}

fn no_parts(alloc: Global) -> Parts {
    Parts {
        objects: List::new(alloc),
        values: List::new(alloc),
        variables: List::new(alloc),
        registers: List::new(alloc),
        ports: List::new(alloc),
        unequal: List::new(alloc),
    }
}

/// Takes what words say, one after another.
fn take_words(alloc: Global, parts: &mut Parts, words: &[Word]) -> Result<(), Fault> {
    let mut left = words;
    while let [first, rest @ ..] = left {
        take_word(alloc, parts, *first, rest)?;
        left = rest;
    }
    Ok(())
}

/// Takes what a word says. Classes, edges and links that follow no object are no row.
fn take_word(alloc: Global, parts: &mut Parts, word: Word, rest: &[Word]) -> Result<(), Fault> {
    let [first, second, third, ..] = word.fields;
    match word.name {
        Name::Object => take_object(alloc, parts, word, details(rest)),
        Name::Class | Name::Edge | Name::Singly | Name::Twofold => {
            if parts.objects.is_empty() {
                Err(Fault::NoRow)
            } else {
                Ok(())
            }
        }
        Name::Const => take_value(
            parts,
            first,
            Value::Const {
                number: large(second),
                size: small(third),
            },
        ),
        Name::Number => take_value(
            parts,
            first,
            Value::Number {
                size: small(second),
            },
        ),
        Name::Any => take_value(parts, first, Value::Any),
        Name::Address => take_address(parts, word, Target::Region),
        Name::First => take_address(parts, word, Target::First),
        Name::Last => take_address(parts, word, Target::Last),
        Name::Each => take_address(parts, word, Target::Each),
        Name::Variable => {
            parts.variables.push(Named {
                variable: number(first),
                object: number(second),
            })?;
            Ok(())
        }
        Name::Register => {
            parts.registers.push(Held {
                register: number(first),
                value: number(second),
            })?;
            Ok(())
        }
        Name::Port => {
            parts.ports.push(number(first))?;
            Ok(())
        }
        Name::Unequal => {
            parts.unequal.push(Pair {
                left: number(first),
                right: number(second),
            })?;
            Ok(())
        }
    }
}

/// Puts a value to the others.
fn take_value(parts: &mut Parts, key: i128, value: Value) -> Result<(), Fault> {
    parts.values.push(KeyedValue {
        key: number(key),
        value,
    })?;
    Ok(())
}

/// Puts an address to the other values.
fn take_address(parts: &mut Parts, word: Word, target: Target) -> Result<(), Fault> {
    let [key, object, at, ..] = word.fields;
    take_value(
        parts,
        key,
        Value::Address {
            object: number(object),
            offset: offset(at),
            target,
        },
    )
}

/// The classes, edges and links before the first other word.
fn details(words: &[Word]) -> &[Word] {
    let mut count: usize = 0;
    for word in words {
        match word.name {
            Name::Class | Name::Edge | Name::Singly | Name::Twofold => {
                count = count.wrapping_add(1);
            }
            _ => break,
        }
    }
    words.get(..count).unwrap_or(words)
}

/// How many classes and edges stand before the first links, or in all.
fn own_count(details: &[Word]) -> usize {
    let mut count: usize = 0;
    for word in details {
        match word.name {
            Name::Class | Name::Edge => count = count.wrapping_add(1),
            _ => break,
        }
    }
    count
}

/// The shape that links spell, with the classes and edges behind them.
fn shape_of(alloc: Global, links: &[Word]) -> Result<Shape, Fault> {
    match links {
        [] => Ok(Shape::Region),
        [word, rest @ ..] => {
            let node = node_of(alloc, rest)?;
            let twofold = matches!(word.name, Name::Twofold);
            let [head, next, prev, back, least, next_value, prev_value] = word.fields;
            Ok(Shape::Segment {
                twofold,
                head: number(head),
                next: number(next),
                prev: number(prev),
                back: number(back),
                least: number(least),
                next_value: number(next_value),
                prev_value: number(prev_value),
                node: Template::new(alloc, node)?,
            })
        }
    }
}

/// The node that classes and edges spell.
fn node_of(alloc: Global, details: &[Word]) -> Result<Node, Fault> {
    let edges = edges_of(alloc, details)?;
    match plane_of(alloc, details) {
        Ok(plane) => Ok(Node { edges, plane }),
        Err(fault) => {
            drop(edges);
            Err(fault)
        }
    }
}

/// Puts an object to the others, with its classes, edges and links.
fn take_object(
    alloc: Global,
    parts: &mut Parts,
    word: Word,
    details: &[Word],
) -> Result<(), Fault> {
    let [key, size, kind, life, ..] = word.fields;
    let count = own_count(details);
    let own = details.get(..count).unwrap_or(details);
    let links = details.get(count..).unwrap_or(details);
    let Node { edges, plane } = node_of(alloc, own)?;
    match shape_of(alloc, links) {
        Ok(shape) => {
            parts.objects.push(KeyedObject {
                key: number(key),
                object: Object {
                    size: number(size),
                    kind: kind_of(kind),
                    live: life == 4,
                    shape,
                    edges,
                    plane,
                },
            })?;
            Ok(())
        }
        Err(fault) => {
            drop(edges);
            drop(plane);
            Err(fault)
        }
    }
}

/// The kind that a field spells.
fn kind_of(field: i128) -> BlockKind {
    match field {
        0 => BlockKind::Static,
        1 => BlockKind::Local,
        _ => BlockKind::Heap,
    }
}

/// The edges among classes and edges.
fn edges_of(alloc: Global, details: &[Word]) -> Result<Edges, NoMemory> {
    let mut edges = List::new(alloc);
    for word in details {
        if let Name::Edge = word.name {
            let [at, size, value, ..] = word.fields;
            edges.push(HasValue {
                at: number(at),
                size: small(size),
                value: number(value),
            })?;
        }
    }
    Edges::of(alloc, edges.as_slice())
}

/// How many bytes have a class, if a plane has so many.
fn bytes_of(details: &[Word]) -> Option<u32>
    ensures { IfSome result (λ bytes. bytes ≤ MOST_BYTES) }
{
    let mut bytes: u32 = 0;
    for word in details {
        if let Name::Class = word.name {
            bytes = bytes.checked_add(number(word.fields[0]))?;
        }
    }
    if bytes <= MOST_BYTES {
        Some(bytes)
    } else {
        None
    }
}

/// The classes among classes and edges, one behind the other.
fn plane_of(alloc: Global, details: &[Word]) -> Result<Plane, Fault> {
    let Some(bytes) = bytes_of(details) else {
        return Err(Fault::NoRow);
    };
    let mut plane = Plane::new(alloc, bytes, ZERO)?;
    match fill(&mut plane, details) {
        Some(()) => Ok(plane),
        None => Err(Fault::NoRow),
    }
}

/// Gives bytes their classes.
fn fill(plane: &mut Plane, details: &[Word]) -> Option<()> {
    let mut from: u32 = 0;
    for word in details {
        if let Name::Class = word.name {
            let count = number(word.fields[0]);
            let class = small(word.fields[1]);
            if class > ANYTHING {
                return None;
            }
            let end = from.checked_add(count)?;
            if end > plane.len() {
                return None;
            }
            plane.fill(from, count, class);
            from = end;
        }
    }
    Some(())
}
