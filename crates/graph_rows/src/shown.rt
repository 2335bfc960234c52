//! Parts as text, in the words that spell them.
use bytes_core::BlockKind;
use cbase::NoMemory;
use graph::{Edges, HasValue, KeyedObject, KeyedValue, Parts, Shape, Target, Value};
use planes::Plane;
use std::alloc::Global;

/// Parts as the words that spell them, behind `graph`.
pub fn shown(alloc: Global, parts: &Parts) -> Result<String, NoMemory> {
    let mut text = String::from_str(alloc, "graph")?;
    match show_parts(alloc, &mut text, parts) {
        Ok(()) => Ok(text),
        Err(error) => {
            drop(text);
            Err(error)
        }
    }
}

/// Puts a word for each part.
fn show_parts(alloc: Global, text: &mut String, parts: &Parts) -> Result<(), NoMemory> {
    for entry in parts.objects.as_slice() {
        show_object(alloc, text, entry)?;
    }
    for entry in parts.values.as_slice() {
        show_value(alloc, text, *entry)?;
    }
    for named in parts.variables.as_slice() {
        show_pair(alloc, text, "variable", named.variable, named.object)?;
    }
    for held in parts.registers.as_slice() {
        show_pair(alloc, text, "register", held.register, held.value)?;
    }
    for port in parts.ports.as_slice() {
        show(alloc, text, "port", &[*port as i128])?;
    }
    for pair in parts.unequal.as_slice() {
        show_pair(alloc, text, "unequal", pair.left, pair.right)?;
    }
    Ok(())
}

/// Puts a word behind others.
fn show(alloc: Global, text: &mut String, name: &str, fields: &[i128]) -> Result<(), NoMemory> {
    text.push_str(" ")?;
    text.push_str(name)?;
    let mut before = "=";
    for field in fields {
        let shown = format!(in alloc; "{before}{field}")?;
        text.push_str(shown.as_str())?;
        before = ":";
    }
    Ok(())
}

/// Puts a word of two fields behind others.
fn show_pair(
    alloc: Global,
    text: &mut String,
    name: &str,
    left: u32,
    right: u32,
) -> Result<(), NoMemory> {
    show(alloc, text, name, &[left as i128, right as i128])
}

fn show_object(alloc: Global, text: &mut String, entry: &KeyedObject) -> Result<(), NoMemory> {
    let object = &entry.object;
    show_pair(alloc, text, "object", entry.key, object.size)?;
    text.push_str(storage_of(object.kind, object.live))?;
    show_bytes(alloc, text, &object.edges, &object.plane)?;
    show_shape(alloc, text, &object.shape)
}

/// Puts a word for each run of bytes of one class and for each edge.
fn show_bytes(
    alloc: Global,
    text: &mut String,
    edges: &Edges,
    plane: &Plane,
) -> Result<(), NoMemory> {
    show_plane(alloc, text, plane)?;
    for edge in edges.as_slice() {
        show_edge(alloc, text, *edge)?;
    }
    Ok(())
}

/// Puts a word for the links of a segment, and those of its node.
fn show_shape(alloc: Global, text: &mut String, shape: &Shape) -> Result<(), NoMemory> {
    match shape {
        Shape::Region => Ok(()),
        Shape::Segment {
            twofold,
            head,
            next,
            prev,
            back,
            least,
            next_value,
            prev_value,
            node,
        } => {
            let name = if *twofold { "twofold" } else { "singly" };
            let fields = [
                *head as i128,
                *next as i128,
                *prev as i128,
                *back as i128,
                *least as i128,
                *next_value as i128,
                *prev_value as i128,
            ];
            show(alloc, text, name, &fields)?;
            let node = node.get();
            show_bytes(alloc, text, &node.edges, &node.plane)
        }
    }
}

fn show_edge(alloc: Global, text: &mut String, edge: HasValue) -> Result<(), NoMemory> {
    show(
        alloc,
        text,
        "edge",
        &[edge.at as i128, edge.size as i128, edge.value as i128],
    )
}

fn storage_of(kind: BlockKind, live: bool) -> &'static str {
    match kind {
        BlockKind::Static if live => ":static:live",
        BlockKind::Static => ":static:dead",
        BlockKind::Local if live => ":local:live",
        BlockKind::Local => ":local:dead",
        BlockKind::Heap if live => ":heap:live",
        BlockKind::Heap => ":heap:dead",
    }
}

/// Puts a word for each run of bytes of one class.
fn show_plane(alloc: Global, text: &mut String, plane: &Plane) -> Result<(), NoMemory> {
    let mut from: u32 = 0;
    for at in 0..plane.len() {
        let next = at + 1;
        let class = plane.class_at(at);
        if next == plane.len() || plane.class_at(next) != class {
            show_pair(alloc, text, "class", next.wrapping_sub(from), class as u32)?;
            from = next;
        }
    }
    Ok(())
}

fn show_value(alloc: Global, text: &mut String, entry: KeyedValue) -> Result<(), NoMemory> {
    let key = entry.key as i128;
    match entry.value {
        Value::Const { number, size } => {
            show(alloc, text, "const", &[key, number as i128, size as i128])
        }
        Value::Number { size } => show(alloc, text, "number", &[key, size as i128]),
        Value::Any => show(alloc, text, "any", &[key]),
        Value::Address {
            object,
            offset,
            target,
        } => show(
            alloc,
            text,
            target_of(target),
            &[key, object as i128, offset as i128],
        ),
    }
}

/// The name of an address with this target.
fn target_of(target: Target) -> &'static str {
    match target {
        Target::Region => "address",
        Target::First => "first",
        Target::Last => "last",
        Target::Each => "each",
    }
}
