ghost use Rattle.std.specs.Prelude.{◌≡◌, ◌↔◌, false, nat_lt, sum_by, IfOk, IfSome};
ghost use Rattle.graph.specs.WellFormed.{HasAscendingKeys, IsWellFormed, is_within_limits, nodes_of};
ghost use Rattle.graph.specs.Renaming.{numbered};

use crate::graph::Graph;
use crate::object::Shape;
use crate::parts::{KeyedObject, Parts};
use crate::points::is_well_formed;
use cbase::{NoMemory, Stop};
use std::alloc::Global;

/// How many nodes, and how many unequal pairs, are too many.
const TOO_MANY: usize = 1_073_741_824;

/// For how many nodes an object of this shape counts.
pub(crate) fn nodes_of(shape: &Shape) -> u32
    ensures { result ≡ nodes_of shape.now }
{
    match shape.links() {
        None => 1,
        Some(links) => { if links.least == 0 { 1 } else { links.least } }
    }
}

/// Whether objects count for fewer nodes than are too many.
fn has_few_nodes(objects: &[KeyedObject]) -> bool
    ensures { result ≡ nat_lt (sum_by (λ entry. nodes_of entry.object.shape) objects.now) 1073741824 }
{
    let mut count: u64 = 0;
    let mut left = objects;
    while let [first, rest @ ..] = left {
        count += nodes_of(&first.object.shape) as u64;
        if count >= TOO_MANY as u64 {
            return false;
        }
        left = rest;
    }
    true
}

/// Whether a graph may have so many nodes and unequal pairs.
fn is_within_limits(parts: &Parts) -> bool
    ensures { result ≡ is_within_limits parts.now }
{
    if has_few_nodes(parts.objects.as_slice()) {
        parts.unequal.len() < TOO_MANY
    } else {
        false
    }
}

/// The graph with these parts, in the same order. In place of its key each object and each value has its place
/// in its list. Planes, nodes, edges and lists are moved, and not copied.
///
/// `Large` comes exactly where there are 2^30 nodes or more, or 2^30 unequal pairs or more.
pub fn built(alloc: Global, parts: Parts) -> Result<Graph, Stop>
    requires ascending { HasAscendingKeys parts }
    requires well_formed { IsWellFormed parts }
    ensures ok { IfOk result (λ graph. graph ≡ numbered parts) }
    ensures large { (result ≡ Err Stop.Large) ↔ (is_within_limits parts ≡ false) }
{
    if !is_within_limits(&parts) {
        drop(parts);
        return Err(Stop::Large);
    }
    match Graph::numbered(alloc, parts) {
        Ok(graph) => Ok(graph),
        Err(NoMemory) => Err(Stop::NoMemory),
    }
}

/// The graph with these parts, as `built` makes it. None exactly where they make no graph, the limits aside.
///
/// `Large` comes exactly where they do, but for 2^30 nodes or more, or 2^30 unequal pairs or more.
pub fn graph_of(alloc: Global, parts: Parts) -> Result<Option<Graph>, Stop>
    requires { HasAscendingKeys parts }
    ensures some { IfOk result (λ answer. IfSome answer (λ graph. graph ≡ numbered parts)) }
    ensures none { (result ≡ Ok None) ↔ (IsWellFormed parts → ⊥) }
    ensures large { (result ≡ Err Stop.Large) ↔ (IsWellFormed parts × (is_within_limits parts ≡ false)) }
{
    if !is_well_formed(alloc, &parts) {
        drop(parts);
        return Ok(None);
    }
    match built(alloc, parts) {
        Ok(graph) => Ok(Some(graph)),
        Err(stop) => Err(stop),
    }
}
