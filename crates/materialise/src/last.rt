//! A graph in which the last node of a segment is a region of its own.
ghost use Rattle.std.specs.Prelude.{◌≡◌, ◌≤◌, ◌<◌, ◌+◌, ◌++◌, [], ◌∷◌, true, map, length, nat_le, Some, pos, is_some, OnOk, IfOk};
ghost use Rattle.std.specs.List.{filter};
ghost use Rattle.graph.specs.declared.object.Links.{Links};
ghost use Rattle.graph.specs.declared.value.Target.TheVariants.{Last};
ghost use Rattle.graph.specs.declared.value.Value.TheVariants.{Address};
ghost use Rattle.graph.specs.Maps.{object_at};
ghost use Rattle.graph.specs.Nodes.{links_in, node_of};
ghost use Rattle.graph.specs.Renaming.{values_from};
ghost use Rattle.graph.specs.Whole.{IsGraph};
ghost use Rattle.materialise.specs.SplitFirst.{own_values, at_region, link_value, node_region, with_link};
ghost use Rattle.materialise.specs.SplitLast.{last_target, last_value, split_last_by, split_last};
ghost use Rattle.materialise.specs.WithOne.{is_twofold, HaveOffsets};
ghost use Rattle.materialise.specs.Splitting.{alone_node};
ghost use Rattle.materialise.specs.SplittingLast.{rest_before_entry, last_entry, back_linked_node, last_node_of, ends_of_last};

use crate::first::{have_keys, link_value};
use crate::links::with_link;
use crate::offsets::parts_of;
use crate::own_addresses::{bare_node, push_own, push_turned};
use crate::rest_before::push_rest_before;
use cbase::{List, NoMemory};
use graph::{
    Graph, HasValue, KeyedObject, KeyedValue, Links, Node, Object, Parts, Shape, Target, Value,
};
use std::alloc::Global;

/// An address of the segment with a key, where its last node is a region.
fn last_target(region: u32, key: u32, target: Target, offset: i64) -> Value
    ensures { result ≡ last_target region key target offset }
{
    match target {
        Target::Region => Value::Address {
            object: key,
            offset,
            target: Target::Region,
        },
        Target::First => Value::Address {
            object: key,
            offset,
            target: Target::First,
        },
        Target::Last => Value::Address {
            object: region,
            offset,
            target: Target::Region,
        },
        Target::Each => Value::Address {
            object: key,
            offset,
            target: Target::Each,
        },
    }
}

/// A value where the last node of the segment with a key is a region.
fn last_value(region: u32, key: u32, value: Value) -> Value
    ensures { result ≡ last_value region key value }
{
    match value {
        Value::Address {
            object,
            offset,
            target,
        } => {
            if object == key {
                last_target(region, key, target, offset)
            } else {
                value
            }
        }
        _ => value,
    }
}

/// Puts what values become behind others.
fn push_last_values(
    region: u32,
    key: u32,
    values: &[KeyedValue],
    after: &mut List<KeyedValue>,
) -> Result<(), NoMemory>
    ensures { OnOk result (after.new ≡ after.old ++ map (last_entry region key) values.now) }
{
    let mut left = values;
    while let [first, rest @ ..] = left {
        after.push(KeyedValue {
            key: first.key,
            value: last_value(region, key, first.value),
        })?;
        left = rest;
    }
    Ok(())
}

/// Puts the addresses to which the links between the region and the rest lead, with keys from one on, behind values.
fn push_ends(
    region: u32,
    key: u32,
    from: u32,
    links: &Links,
    values: &mut List<KeyedValue>,
) -> Result<(), NoMemory>
    requires few { from + 1 < 4294967296 }
    ensures { OnOk result (values.new ≡ values.old ++ values_from from (ends_of_last region key links.now)) }
{
    values.push(KeyedValue {
        key: from,
        value: Value::Address {
            object: key,
            offset: links.back as i64,
            target: Target::Last,
        },
    })?;
    values.push(KeyedValue {
        key: from + 1,
        value: Value::Address {
            object: region,
            offset: links.head as i64,
            target: Target::Region,
        },
    })
}

/// Puts the values of the graph that is split into an empty list.
#[tactic(auto, using(crate::proofs::SplitSteps::values_whole))]
fn push_values(
    region: u32,
    key: u32,
    links: &Links,
    own: &[KeyedValue],
    values: &[KeyedValue],
    after: &mut List<KeyedValue>,
) -> Result<(), NoMemory>
    requires empty { after.old ≡ [] }
    requires few { length values.now + length own.now + 1 < 4294967296 }
    ensures { OnOk result (after.new ≡ map (last_entry region key) values.now ++ values_from (length values.now) (map (λ entry. at_region region entry.value) own.now ++ ends_of_last region key links.now)) }
{
    push_last_values(region, key, values, after)?;
    push_turned(region, values.len() as u32, own, after)?;
    push_ends(
        region,
        key,
        values.len() as u32 + own.len() as u32,
        links,
        after,
    )
}

/// What is said of bytes, with the link back to the rest.
fn back_linked_node(
    alloc: Global,
    key: u32,
    owned: u32,
    links: &Links,
    node: Node,
) -> Result<Node, NoMemory>
    requires back { links.now.prev + 8 ≤ length node.plane }
    ensures { IfOk result (λ after. after ≡ back_linked_node key owned links.now node) }
{
    with_link(
        alloc,
        Value::Address {
            object: key,
            offset: links.back as i64,
            target: Target::Last,
        },
        HasValue {
            at: links.prev,
            size: 8,
            value: owned,
        },
        node,
    )
}

/// And with the link to what lay behind the segment.
fn with_next(alloc: Global, behind: Value, links: &Links, node: Node) -> Result<Node, NoMemory>
    requires next { links.now.next + 8 ≤ length node.plane }
    ensures { IfOk result (λ after. after ≡ with_link behind (record { at = links.now.next; size = 8; value = links.now.next_value }) node) }
{
    with_link(
        alloc,
        behind,
        HasValue {
            at: links.next,
            size: 8,
            value: links.next_value,
        },
        node,
    )
}

/// What is said of the bytes of the new region.
#[tactic(auto, using(crate::proofs::FinalCode::linked_room))]
fn new_node(
    alloc: Global,
    key: u32,
    behind: Value,
    owned: u32,
    links: &Links,
    node: Node,
) -> Result<Node, NoMemory>
    requires next { links.now.next + 8 ≤ length node.plane }
    requires back { links.now.prev + 8 ≤ length node.plane }
    ensures { IfOk result (λ after. after ≡ last_node_of key owned links.now behind node) }
{
    match back_linked_node(alloc, key, owned, links, node) {
        Err(error) => Err(error),
        Ok(node) => with_next(alloc, behind, links, node),
    }
}

/// The new region.
#[tactic(auto, using(crate::proofs::SplitCode::next_room, crate::proofs::SplitCode::back_room))]
fn new_region(
    alloc: Global,
    graph: &Graph,
    key: u32,
    region: u32,
    own: &[KeyedValue],
    from: u32,
    object: &Object,
    links: &Links,
) -> Result<Object, NoMemory>
    requires graph { IsGraph graph.now }
    requires object { object_at graph.now.objects key ≡ Some object.now }
    requires links { links_in object.now.shape ≡ Some links.now }
    requires both { links.now.twofold ≡ true }
    requires few { from + length own.now < 4294967296 }
    ensures { IfOk result (λ new. new ≡ node_region object.now (last_node_of key (from + length own.now) links.now (last_value region key (link_value graph.now links.now.next_value)) (alone_node own.now from (node_of object.now)))) }
{
    match bare_node(alloc, own, from, object) {
        Err(error) => Err(error),
        Ok(node) => {
            let behind = last_value(region, key, link_value(graph, links.next_value));
            match new_node(alloc, key, behind, from + own.len() as u32, links, node) {
                Err(error) => Err(error),
                Ok(Node { edges, plane }) => Ok(Object {
                    size: object.size,
                    kind: object.kind,
                    live: object.live,
                    shape: Shape::Region,
                    edges,
                    plane,
                }),
            }
        }
    }
}

/// Puts the objects of the graph that is split into an empty list.
fn push_objects(
    alloc: Global,
    graph: &Graph,
    key: u32,
    own: &[KeyedValue],
    object: &Object,
    links: &Links,
    objects: List<KeyedObject>,
    kept: &mut List<KeyedObject>,
) -> Result<(), NoMemory>
    requires same { objects ≡ graph.now.objects }
    requires graph { IsGraph graph.now }
    requires object { object_at graph.now.objects key ≡ Some object.now }
    requires links { links_in object.now.shape ≡ Some links.now }
    requires both { links.now.twofold ≡ true }
    requires own { own.now ≡ own_values key graph.now }
    requires few { length graph.now.values + length own.now + 1 < 4294967296 }
    requires empty { kept.old ≡ [] }
    ensures { OnOk result (kept.new ≡ (split_last_by graph.now key object.now links.now).objects) }
{
    let region = graph.object_count();
    let from = graph.value_count();
    match new_region(alloc, graph, key, region, own, from, object, links) {
        Err(error) => Err(error),
        Ok(new) => match push_rest_before(key, from + own.len() as u32 + 1, objects, kept) {
            Err(error) => {
                drop(new);
                Err(error)
            }
            Ok(()) => kept.push(KeyedObject {
                key: region,
                object: new,
            }),
        },
    }
}

/// Puts the objects and the values of the graph that is split into empty lists.
fn fill(
    alloc: Global,
    graph: &Graph,
    key: u32,
    object: &Object,
    links: &Links,
    objects: List<KeyedObject>,
    values: &[KeyedValue],
    kept: &mut List<KeyedObject>,
    after: &mut List<KeyedValue>,
) -> Result<(), NoMemory>
    requires objects { objects ≡ graph.now.objects }
    requires values { values.now ≡ graph.now.values }
    requires graph { IsGraph graph.now }
    requires object { object_at graph.now.objects key ≡ Some object.now }
    requires links { links_in object.now.shape ≡ Some links.now }
    requires both { links.now.twofold ≡ true }
    requires kept { kept.old ≡ [] }
    requires after { after.old ≡ [] }
    ensures objects { OnOk result (kept.new ≡ (split_last_by graph.now key object.now links.now).objects) }
    ensures values { OnOk result (after.new ≡ (split_last_by graph.now key object.now links.now).values) }
{
    let mut own = List::new(alloc);
    push_own(key, values, &mut own)?;
    if !have_keys(graph.value_count(), own.len()) {
        return Err(NoMemory);
    }
    push_objects(
        alloc,
        graph,
        key,
        own.as_slice(),
        object,
        links,
        objects,
        kept,
    )?;
    push_values(
        graph.object_count(),
        key,
        links,
        own.as_slice(),
        values,
        after,
    )
}

/// The parts of the graph in which the last node of a segment is a region.
fn split(
    alloc: Global,
    graph: &Graph,
    key: u32,
    object: &Object,
    links: &Links,
    parts: Parts,
) -> Result<Parts, NoMemory>
    requires same { parts ≡ graph.now }
    requires graph { IsGraph graph.now }
    requires object { object_at graph.now.objects key ≡ Some object.now }
    requires links { links_in object.now.shape ≡ Some links.now }
    requires both { links.now.twofold ≡ true }
    ensures { IfOk result (λ after. after ≡ split_last_by graph.now key object.now links.now) }
{
    let Parts {
        objects,
        values,
        variables,
        registers,
        ports,
        unequal,
    } = parts;
    let mut kept = List::new(alloc);
    let mut after = List::new(alloc);
    match fill(
        alloc,
        graph,
        key,
        object,
        links,
        objects,
        values.as_slice(),
        &mut kept,
        &mut after,
    ) {
        Ok(()) => Ok(Parts {
            objects: kept,
            values: after,
            variables,
            registers,
            ports,
            unequal,
        }),
        Err(error) => {
            drop(kept);
            Err(error)
        }
    }
}

/// The parts of the graph in which the last node of the segment with a key, whose nodes are linked both ways, is a region. The offsets of the graph's addresses are numbers of 64 bits.
#[tactic(auto, using(crate::proofs::FinalCode::both_at))]
pub(crate) fn split_last(alloc: Global, graph: &Graph, key: u32) -> Result<Parts, NoMemory>
    requires { is_twofold graph.now key ≡ true }
    ensures ok { IfOk result (λ after. after ≡ split_last key graph.now) }
    ensures graph { IsGraph graph.now }
    ensures offsets { OnOk result (HaveOffsets graph.now.values) }
{
    match parts_of(alloc, graph) {
        Err(error) => Err(error),
        Ok(parts) => match graph.object(key) {
            None => Ok(parts),
            Some(object) => match object.shape.links() {
                None => Ok(parts),
                Some(links) => split(alloc, graph, key, object, &links, parts),
            },
        },
    }
}
