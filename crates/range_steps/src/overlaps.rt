//! Whether the source and the target of a copy may overlap.
ghost use Rattle.std.specs.Prelude.{◌≡◌, ◌+◌, ◌≤◌, ◌&&◌, nat_le, false, IfOk};
ghost use Rattle.std.specs.Option.{option_map_or};
ghost use Rattle.changes.specs.Posted.{IsPost, reach_faults};
ghost use Rattle.changes.specs.declared.reach.Reach.TheVariants.{Anything};
ghost use Rattle.graph.specs.Maps.{object_at};
ghost use Rattle.range_steps.specs.Copying.{overlap, has_room, may_be_right, is_anywhere, may_overlap, with_overlap};

use cbase::NoMemory;
use changes::{Reach, without_graph};
use graph::{Graph, Post};
use std::alloc::Global;

/// Whether two ranges of one object share a byte.
pub(crate) fn overlap(key: u32, from: u32, other: u32, at: u32, count: u32) -> bool
    requires from { from + count ≤ 65536 }
    requires at { at + count ≤ 65536 }
    ensures { result ≡ overlap key from other at count }
{
    if key != other {
        return false;
    }
    if from < at + count {
        at < from + count
    } else {
        false
    }
}

/// Whether the object with a key is there, lives and has so many bytes.
fn is_roomy(graph: &Graph, key: u32, count: u32) -> bool
    ensures { result ≡ option_map_or (λ object. object.live && nat_le count object.size) (object_at graph.now.objects key) false }
{
    match graph.object(key) {
        None => false,
        Some(object) => {
            if object.live {
                count <= object.size
            } else {
                false
            }
        }
    }
}

/// Whether a live object has so many bytes.
#[tactic(auto, using(crate::proofs::Roomy::roomy_next, crate::proofs::Roomy::roomy_done))]
fn has_room(graph: &Graph, count: u32) -> bool
    ensures { result ≡ has_room graph.now count }
{
    for key in 0..graph.object_count() {
        if is_roomy(graph, key, count) {
            return true;
        }
    }
    false
}

/// Whether an access may meet no fault.
fn may_be_right(graph: &Graph, count: u32, reach: Reach) -> bool
    ensures { result ≡ may_be_right graph.now count reach }
{
    match reach {
        Reach::Nothing => false,
        Reach::Fault(_) => false,
        Reach::Number { .. } => false,
        Reach::Anything { .. } => has_room(graph, count),
        Reach::Room { .. } => true,
    }
}

/// Whether an access leads through any word.
fn is_anywhere(reach: Reach) -> bool
    ensures { result ≡ is_anywhere reach }
{
    match reach {
        Reach::Anything { .. } => true,
        _ => false,
    }
}

/// Whether a source or a target that may be any word may overlap the other.
pub(crate) fn may_overlap(graph: &Graph, count: u32, source: Reach, target: Reach) -> bool
    ensures { result ≡ may_overlap graph.now count source target }
{
    if !is_anywhere(source) {
        if !is_anywhere(target) {
            return false;
        }
    }
    if !may_be_right(graph, count, source) {
        return false;
    }
    may_be_right(graph, count, target)
}

/// The post of a copy through any word.
pub(crate) fn anywhere_post(alloc: Global, live: bool, overlaps: bool) -> Result<Post, NoMemory>
    ensures { IfOk result (λ post. IsPost (with_overlap overlaps (reach_faults (Anything live))) post) }
{
    if live {
        if overlaps {
            return without_graph(alloc, &[1, 2, 3, 4, 8], Some(4));
        }
        return without_graph(alloc, &[1, 2, 3, 4], Some(4));
    }
    if overlaps {
        return without_graph(alloc, &[1, 3, 4, 8], Some(4));
    }
    without_graph(alloc, &[1, 3, 4], Some(4))
}
