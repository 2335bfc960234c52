ghost use Rattle.std.specs.Prelude.{◌≡◌, ◌<◌, length, slice_index, slice_set, OnOk};
ghost use Rattle.flow.specs.InRange.{IsInRange};
ghost use Rattle.flow.specs.Owning.{AreOwned, is_open};

use crate::flow_graph::{Flow, FlowEdge};
use crate::links::{Links, links_of};
use cbase::NoMemory;
use std::alloc::Global;

/// What is noted of a point; 0 where there is no such point.
pub fn owner_at(owners: &[usize], point: u32) -> usize
    ensures { result ≡ slice_index owners.now point }
{
    match owners.get(point as usize) {
        None => 0,
        Some(owner) => *owner,
    }
}

/// Whether an edge leads from a point that is noted to one of which another thing is, or nothing.
pub fn is_open(owners: &[usize], edge: &FlowEdge) -> bool
    ensures { result ≡ is_open owners.now edge.now }
{
    let owner = owner_at(owners, edge.from);
    owner != 0 && owner != owner_at(owners, edge.to)
}

/// Notes of the end of an edge what is noted of its beginning.
pub fn own(owners: &mut Vec<usize>, edge: &FlowEdge)
    requires { edge.now.to < length owners.old.items }
    ensures { owners.new.items ≡ slice_set owners.old.items edge.now.to (slice_index owners.old.items edge.now.from) }
{
    let owner = owner_at(owners.as_slice(), edge.from);
    owners[edge.to as usize] = owner;
}

/// Notes of the end of the edge of this number what is noted of its beginning, where nothing is noted of the end yet.
/// It gives the end where it did so.
fn follow(flow: &Flow, owners: &mut Vec<usize>, at: usize) -> Option<u32>
    requires range { IsInRange flow.now }
    requires owned { AreOwned flow.now (length flow.now.functions) owners.old.items }
    ensures { AreOwned flow.now (length flow.now.functions) owners.new.items }
{
    let edges = flow.edges.as_slice();
    if at >= edges.len() {
        return None;
    }
    let edge = &edges[at];
    if !is_open(owners.as_slice(), edge) || owner_at(owners.as_slice(), edge.to) != 0 {
        return None;
    }
    own(owners, edge);
    Some(edge.to)
}

/// A cursor of a list, or 0 where there is no such one.
fn cursor_at(cursors: &[usize], at: usize) -> usize
    ensures { result ≡ slice_index cursors.now at }
{
    match cursors.get(at) {
        None => 0,
        Some(cursor) => *cursor,
    }
}

/// The cursors of the last edges out of the entries of functions.
fn first_cursors(alloc: Global, flow: &Flow, links: &Links) -> Result<Vec<usize>, NoMemory> {
    let mut cursors = Vec::new(alloc);
    for function in flow.functions.as_slice() {
        cursors.push(cursor_at(links.first.as_slice(), function.entry as usize))?;
    }
    Ok(cursors)
}

/// Looks at the edge of a cursor: the one before it is looked at later, and so are those out of its end where that is new.
fn take_step(
    flow: &Flow,
    owners: &mut Vec<usize>,
    links: &Links,
    cursors: &mut Vec<usize>,
    cursor: usize,
) -> Result<(), NoMemory>
    requires range { IsInRange flow.now }
    requires owned { AreOwned flow.now (length flow.now.functions) owners.old.items }
    ensures { OnOk result (AreOwned flow.now (length flow.now.functions) owners.new.items) }
{
    if cursor == 0 {
        return Ok(());
    }
    cursors.push(cursor_at(links.next.as_slice(), cursor - 1))?;
    match follow(flow, owners, cursor - 1) {
        None => Ok(()),
        Some(end) => {
            cursors.push(cursor_at(links.first.as_slice(), end as usize))?;
            Ok(())
        }
    }
}

/// Goes along the edges out of each point that is noted, but along no return, and notes their ends.
///
/// It takes as many steps as there are edges, points and functions at most. What it misses is noted later.
fn go_along(alloc: Global, flow: &Flow, owners: &mut Vec<usize>) -> Result<(), NoMemory>
    requires range { IsInRange flow.now }
    requires owned { AreOwned flow.now (length flow.now.functions) owners.old.items }
    ensures { OnOk result (AreOwned flow.now (length flow.now.functions) owners.new.items) }
{
    let links = links_of(alloc, flow.edges.as_slice(), flow.points)?;
    let mut cursors = first_cursors(alloc, flow, &links)?;
    let steps = flow
        .edges
        .len()
        .saturating_add(flow.points as usize)
        .saturating_add(flow.functions.len());
    for _ in 0..steps {
        let Some(cursor) = cursors.pop() else {
            return Ok(());
        };
        take_step(flow, owners, &links, &mut cursors, cursor)?;
    }
    Ok(())
}

/// Notes the ends of all edges once, in order.
fn go_through(flow: &Flow, owners: &mut Vec<usize>)
    requires range { IsInRange flow.now }
    requires owned { AreOwned flow.now (length flow.now.functions) owners.old.items }
    ensures { AreOwned flow.now (length flow.now.functions) owners.new.items }
{
    for at in 0..flow.edges.len() {
        let _ = follow(flow, owners, at);
    }
}

/// Notes of points that are reached from which entry they are.
///
/// It is in proportion to the edges and points, and notes all that is reached along edges that are no returns, and the
/// ends of these edges and of returns out of such points.
pub fn spread(alloc: Global, flow: &Flow, owners: &mut Vec<usize>) -> Result<(), NoMemory>
    requires range { IsInRange flow.now }
    requires owned { AreOwned flow.now (length flow.now.functions) owners.old.items }
    ensures { OnOk result (AreOwned flow.now (length flow.now.functions) owners.new.items) }
{
    go_along(alloc, flow, owners)?;
    go_through(flow, owners);
    Ok(())
}
