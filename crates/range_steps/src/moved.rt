//! Edges of one range, moved to another.
ghost use Rattle.std.specs.Prelude.{◌≡◌, ◌+◌, ◌≤◌, ◌++◌, true, OnOk};
ghost use Rattle.std.specs.List.{list_all};
ghost use Rattle.graph.specs.WellFormed.{lies_in};
ghost use Rattle.changes.specs.Ranges.{is_inside};
ghost use Rattle.range_steps.specs.Copying.{moved_edge, moved_edges};

use cbase::{List, NoMemory};
use graph::HasValue;

/// Whether an edge lies in a range.
fn is_inside(edge: &HasValue, from: u32, count: u32) -> bool
    requires range { from + count ≤ 65536 }
    requires inside { edge.now.at + edge.now.size ≤ 65536 }
    ensures { result ≡ is_inside from count edge.now }
{
    if from <= edge.at {
        edge.at + edge.size as u32 <= from + count
    } else {
        false
    }
}

/// An edge of one range, as far behind the beginning of another.
fn moved_edge(edge: &HasValue, from: u32, at: u32) -> HasValue
    requires from { from ≤ edge.now.at }
    requires inside { edge.now.at + edge.now.size ≤ 65536 }
    requires at { at ≤ 65536 }
    ensures { result ≡ moved_edge from at edge.now }
{
    HasValue {
        at: at + (edge.at - from),
        size: edge.size,
        value: edge.value,
    }
}

/// Puts the edges that lie whole in a range, moved to another one, behind others.
pub(crate) fn put_moved(
    edges: &[HasValue],
    from: u32,
    count: u32,
    at: u32,
    kept: &mut List<HasValue>,
) -> Result<(), NoMemory>
    requires range { from + count ≤ 65536 }
    requires at { at ≤ 65536 }
    requires inside { list_all (lies_in 65536) edges.now ≡ true }
    ensures { OnOk result (kept.new ≡ kept.old ++ moved_edges edges.now from count at) }
{
    let mut left = edges;
    while let [first, rest @ ..] = left {
        if is_inside(first, from, count) {
            kept.push(moved_edge(first, from, at))?;
        }
        left = rest;
    }
    Ok(())
}
