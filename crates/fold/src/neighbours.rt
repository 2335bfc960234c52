//! Whether two objects are neighbours.
ghost use Rattle.std.specs.Prelude.{◌≡◌, ◌+◌, ◌||◌, not, nat_le, IfOk};
ghost use Rattle.graph.specs.Nodes.{node_of};
ghost use Rattle.fold.specs.Foldable.{link_passes, are_linked, is_inside, may_be_neighbours, are_neighbours, has_neighbours};
ghost use Rattle.fold.specs.Linked.{onward, backward, leads_on, leads_back};
ghost use Rattle.fold.specs.Standing.{others, are_met};

use crate::fold::Fold;
use crate::holders::is_one_free;
use crate::joined::edges_of;
use crate::links::{backward, is_list, leads_back, leads_on, onward};
use crate::standing::{are_met, push_others};
use cbase::{List, NoMemory};
use graph::{Graph, Object};
use std::alloc::Global;

/// Whether there is a link, and leads to the first node of an object.
fn goes_on(graph: &Graph, key: u32, place: u32, link: Option<u32>) -> bool
    ensures { result ≡ link_passes graph.now (leads_on key place) link }
{
    match link {
        None => false,
        Some(value) => match graph.value(value) {
            None => false,
            Some(value) => leads_on(key, place, *value),
        },
    }
}

/// Whether there is a link, and leads to the last node of an object.
fn goes_back(graph: &Graph, key: u32, place: u32, link: Option<u32>) -> bool
    ensures { result ≡ link_passes graph.now (leads_back key place) link }
{
    match link {
        None => false,
        Some(value) => match graph.value(value) {
            None => false,
            Some(value) => leads_back(key, place, *value),
        },
    }
}

/// Whether the second object leads back to the first one, where nodes are linked both ways.
fn is_linked_back(graph: &Graph, null: u32, fold: &Fold, other: &Object) -> bool
    ensures { result ≡ (not fold.now.twofold || link_passes graph.now (leads_back fold.now.first fold.now.back) (backward null fold.now other.now)) }
{
    if !fold.twofold {
        return true;
    }
    goes_back(graph, fold.first, fold.back, backward(null, fold, other))
}

/// Whether two objects are linked, and what they hold as links to others are values or zeros.
fn are_linked(graph: &Graph, fold: &Fold, one: &Object, other: &Object) -> bool
    ensures { result ≡ are_linked graph.now fold.now one.now other.now }
{
    let null = graph.value_count();
    if !goes_on(graph, fold.second, fold.head, onward(null, fold, one)) {
        return false;
    }
    if !is_linked_back(graph, null, fold, other) {
        return false;
    }
    match onward(null, fold, other) {
        None => false,
        Some(_) => match backward(null, fold, one) {
            None => false,
            Some(_) => true,
        },
    }
}

/// Whether a link of eight bytes lies in a node.
fn link_lies_in(at: u32, size: u32) -> bool
    ensures { result ≡ nat_le (at + 8) size }
{
    if size < 8 {
        return false;
    }
    at <= size - 8
}

/// Whether the links lie in a node of this size, and lead into it.
fn is_inside(fold: &Fold, size: u32) -> bool
    ensures { result ≡ is_inside fold.now size }
{
    if fold.head >= size {
        return false;
    }
    if !link_lies_in(fold.next, size) {
        return false;
    }
    if !fold.twofold {
        return true;
    }
    link_lies_in(fold.prev, size)
}

/// Whether two objects agree in all that is no link.
fn agree(
    alloc: Global,
    graph: &Graph,
    fold: &Fold,
    one: &Object,
    other: &Object,
) -> Result<bool, NoMemory>
    ensures { IfOk result (λ fine. fine ≡ are_met graph.now fold.now (others fold.now (node_of one.now).edges) (others fold.now (node_of other.now).edges)) }
{
    let mut before = List::new(alloc);
    let mut behind = List::new(alloc);
    push_others(fold, edges_of(one), &mut before)?;
    push_others(fold, edges_of(other), &mut behind)?;
    Ok(are_met(graph, fold, before.as_slice(), behind.as_slice()))
}

/// Whether two objects are of one list, without what they hold.
fn may_be_neighbours(fold: &Fold, one: &Object, other: &Object) -> bool
    ensures { result ≡ may_be_neighbours fold.now one.now other.now }
{
    if fold.first == fold.second {
        return false;
    }
    if !is_list(fold, one) {
        return false;
    }
    if !is_list(fold, other) {
        return false;
    }
    if one.size != other.size {
        return false;
    }
    is_inside(fold, one.size)
}

/// Whether two objects are neighbours. It takes time in proportion to the two, and to the graph where they are two regions that are linked both ways.
fn are_neighbours(
    alloc: Global,
    graph: &Graph,
    fold: &Fold,
    one: &Object,
    other: &Object,
) -> Result<bool, NoMemory>
    ensures { IfOk result (λ fine. fine ≡ are_neighbours graph.now fold.now one.now other.now) }
{
    if !may_be_neighbours(fold, one, other) {
        return Ok(false);
    }
    if !are_linked(graph, fold, one, other) {
        return Ok(false);
    }
    match agree(alloc, graph, fold, one, other) {
        Err(error) => Err(error),
        Ok(fine) => {
            if fine {
                Ok(is_one_free(graph, fold, one, other))
            } else {
                Ok(false)
            }
        }
    }
}

/// Whether the objects of a fold are there and are neighbours.
pub(crate) fn has_neighbours(alloc: Global, graph: &Graph, fold: &Fold) -> Result<bool, NoMemory>
    ensures { IfOk result (λ fine. fine ≡ has_neighbours graph.now fold.now) }
{
    match graph.object(fold.first) {
        None => Ok(false),
        Some(one) => match graph.object(fold.second) {
            None => Ok(false),
            Some(other) => are_neighbours(alloc, graph, fold, one, other),
        },
    }
}
