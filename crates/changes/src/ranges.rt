//! Other edges in place of those of a range of an object's bytes.
ghost use Rattle.std.specs.Prelude.{◌≡◌, ◌+◌, ◌≤◌, ◌++◌, true, IfOk, OnOk};
ghost use Rattle.std.specs.List.{filter, list_all};
ghost use Rattle.graph.specs.WellFormed.{lies_in};
ghost use Rattle.changes.specs.Ranges.{ends_before, begins_behind, is_inside, cuts_none, edges_around};

use cbase::{List, NoMemory};
use graph::{Edges, HasValue};
use std::alloc::Global;

/// Whether an edge ends where a range begins, or before.
fn ends_before(edge: &HasValue, from: u32) -> bool
    requires inside { edge.now.at + edge.now.size ≤ 65536 }
    ensures { result ≡ ends_before from edge.now }
{
    edge.at + edge.size as u32 <= from
}

/// Whether an edge lies in a range.
fn is_inside(edge: &HasValue, from: u32, count: u32) -> bool
    requires range { from + count ≤ 65536 }
    requires inside { edge.now.at + edge.now.size ≤ 65536 }
    ensures { result ≡ is_inside from count edge.now }
{
    if from <= edge.at {
        edge.at + edge.size as u32 <= from + count
    } else {
        false
    }
}

/// Whether no edge overlaps a range in part.
pub fn cuts_none(edges: &[HasValue], from: u32, count: u32) -> bool
    requires range { from + count ≤ 65536 }
    requires inside { list_all (lies_in 65536) edges.now ≡ true }
    ensures { result ≡ cuts_none from count edges.now }
{
    let mut left = edges;
    while let [first, rest @ ..] = left {
        if !ends_before(first, from) {
            if first.at < from + count {
                if !is_inside(first, from, count) {
                    return false;
                }
            }
        }
        left = rest;
    }
    true
}

/// Puts the edges that end where a range begins, or before, behind others.
fn keep_before(edges: &[HasValue], from: u32, kept: &mut List<HasValue>) -> Result<(), NoMemory>
    requires inside { list_all (lies_in 65536) edges.now ≡ true }
    ensures { OnOk result (kept.new ≡ kept.old ++ filter (ends_before from) edges.now) }
{
    let mut left = edges;
    while let [first, rest @ ..] = left {
        if ends_before(first, from) {
            kept.push(*first)?;
        }
        left = rest;
    }
    Ok(())
}

/// Puts the edges that begin where a range ends, or behind, behind others.
fn keep_behind(edges: &[HasValue], end: u32, kept: &mut List<HasValue>) -> Result<(), NoMemory>
    ensures { OnOk result (kept.new ≡ kept.old ++ filter (begins_behind end) edges.now) }
{
    let mut left = edges;
    while let [first, rest @ ..] = left {
        if end <= first.at {
            kept.push(*first)?;
        }
        left = rest;
    }
    Ok(())
}

/// Puts edges behind others.
fn put_edges(edges: &[HasValue], kept: &mut List<HasValue>) -> Result<(), NoMemory>
    ensures { OnOk result (kept.new ≡ kept.old ++ edges.now) }
{
    let mut left = edges;
    while let [first, rest @ ..] = left {
        kept.push(*first)?;
        left = rest;
    }
    Ok(())
}

/// Edges with others in place of those that share a byte with a range.
pub fn edges_around(
    alloc: Global,
    edges: &[HasValue],
    from: u32,
    count: u32,
    new: &[HasValue],
) -> Result<Edges, NoMemory>
    requires range { from + count ≤ 65536 }
    requires inside { list_all (lies_in 65536) edges.now ≡ true }
    ensures { IfOk result (λ around. around ≡ edges_around edges.now from count new.now) }
{
    let mut kept = List::new(alloc);
    keep_before(edges, from, &mut kept)?;
    put_edges(new, &mut kept)?;
    keep_behind(edges, from + count, &mut kept)?;
    Edges::of(alloc, kept.as_slice())
}
