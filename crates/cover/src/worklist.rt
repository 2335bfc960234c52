//! What objects that are paired force to be paired.
ghost use Rattle.std.specs.Prelude.{◌≡◌, true, Some, None, IfOk, slice_index_or, length, ◌<◌};
ghost use Rattle.graph.specs.Maps.{object_at};
ghost use Rattle.graph.specs.Meaning.{maps_of};
ghost use Rattle.cover.specs.Covers.{Objects, IsReached};
ghost use Rattle.cover.specs.Found.{IsSound, LinksEnds, LinksContents, Follows, FollowsAll};

use crate::edges::{content_of, pair_edges};
use crate::found::{Found, pair_value};
use cbase::NoMemory;
use graph::{Graph, Object};

/// The partner of an object.
pub(crate) fn partner(found: &Found, one: u32) -> Option<u32>
    ensures { result ≡ slice_index_or found.now.objects.items one None }
{
    if one as usize >= found.objects.len() {
        return None;
    }
    found.objects[one as usize]
}

/// Pairs what lies behind a segment, and before it, with what lies there of its partner. False only where nothing covers.
fn pair_ends(
    found: &mut Found,
    wide: &Graph,
    narrow: &Graph,
    one: u32,
    other: u32,
    object: &Object,
    with: &Object,
) -> Result<bool, NoMemory>
    requires sound { IsSound (maps_of wide.now) (maps_of narrow.now) found.old }
    requires reached { IsReached (maps_of wide.now) (maps_of narrow.now) (Objects one other) }
    requires stands { object_at wide.now.objects one ≡ Some object.now }
    requires with_stands { object_at narrow.now.objects other ≡ Some with.now }
    ensures { IfOk result (λ fine. LinksEnds (maps_of wide.now) (maps_of narrow.now) found.old found.new object.now with.now fine) }
{
    let links = match object.shape.links() {
        Some(links) => links,
        None => return Ok(true),
    };
    let others = match with.shape.links() {
        Some(others) => others,
        None => return Ok(true),
    };
    let next = content_of(narrow, others.next_value);
    if !pair_value(found, wide, narrow, links.next_value, next)? {
        return Ok(false);
    }
    let prev = content_of(narrow, others.prev_value);
    let fine = pair_value(found, wide, narrow, links.prev_value, prev)?;
    Ok(fine)
}

/// Pairs the values of the edges of an object that lives with what its partner holds. False only where nothing covers.
fn pair_contents(
    found: &mut Found,
    wide: &Graph,
    narrow: &Graph,
    one: u32,
    other: u32,
    object: &Object,
    with: &Object,
) -> Result<bool, NoMemory>
    requires sound { IsSound (maps_of wide.now) (maps_of narrow.now) found.old }
    requires reached { IsReached (maps_of wide.now) (maps_of narrow.now) (Objects one other) }
    requires stands { object_at wide.now.objects one ≡ Some object.now }
    requires with_stands { object_at narrow.now.objects other ≡ Some with.now }
    ensures { IfOk result (λ fine. LinksContents (maps_of wide.now) (maps_of narrow.now) found.old found.new object.now with.now fine) }
{
    if !object.live {
        return Ok(true);
    }
    let fine = pair_edges(found, wide, narrow, one, other, object, with)?;
    Ok(fine)
}

/// Pairs the values that an object names with what its partner holds. False only where nothing covers.
fn pair_object(found: &mut Found, wide: &Graph, narrow: &Graph, one: u32) -> Result<bool, NoMemory>
    requires sound { IsSound (maps_of wide.now) (maps_of narrow.now) found.old }
    ensures { IfOk result (λ fine. Follows (maps_of wide.now) (maps_of narrow.now) found.old found.new one fine) }
{
    let other = match partner(found, one) {
        Some(other) => other,
        None => return Ok(true),
    };
    let object = match wide.object(one) {
        Some(object) => object,
        None => return Ok(true),
    };
    let with = match narrow.object(other) {
        Some(with) => with,
        None => return Ok(true),
    };
    if !pair_ends(found, wide, narrow, one, other, object, with)? {
        return Ok(false);
    }
    let fine = pair_contents(found, wide, narrow, one, other, object, with)?;
    Ok(fine)
}

/// The object at a place of the queue.
fn queued(found: &Found, at: usize) -> u32
    requires { at < length found.now.queue.items }
    ensures { result ≡ slice_index_or found.now.queue.items at 0 }
{
    found.queue[at]
}

/// Pairs the values that all objects name that are paired, also of those that are paired meanwhile. False only where nothing covers.
pub(crate) fn pair_objects_of_queue(
    found: &mut Found,
    wide: &Graph,
    narrow: &Graph,
) -> Result<bool, NoMemory>
    requires sound { IsSound (maps_of wide.now) (maps_of narrow.now) found.old }
    ensures { IfOk result (λ fine. FollowsAll (maps_of wide.now) (maps_of narrow.now) found.old found.new fine) }
{
    let mut at = 0;
    while at < found.queue.len() {
        let one = queued(found, at);
        if !pair_object(found, wide, narrow, one)? {
            return Ok(false);
        }
        at += 1;
    }
    Ok(true)
}
