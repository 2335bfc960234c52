//! Reads.
ghost use Rattle.std.specs.Prelude.{◌≡◌, ◌+◌, ◌≤◌, ◌∷◌, [], true, false, not, ◌&&◌, nat_lt, take, drop, length, None, Some, IfOk, IfSome, if◌then◌else◌};
ghost use Rattle.std.specs.List.{list_all};
ghost use Rattle.graph.specs.Maps.{object_at};
ghost use Rattle.graph.specs.Sizes.{is_scalar_size, is_sized};
ghost use Rattle.graph.specs.WellFormed.{lies_in, passes_at, may_be_held, leads_to_object};
ghost use Rattle.graph.specs.Whole.{IsGraph};
ghost use Rattle.changes.specs.AnyWords.{MeetsListed};
ghost use Rattle.changes.specs.Parts.{with_value};
ghost use Rattle.changes.specs.Places.{IsRoom};
ghost use Rattle.changes.specs.Posted.{IsPost, on_object, on_reach};
ghost use Rattle.changes.specs.Ranges.{is_beside, meets_none};
ghost use Rattle.changes.specs.Reaching.{is_address_held, reach_of};
ghost use Rattle.changes.specs.Following.{LeadsToRegion};
ghost use Rattle.changes.specs.Following.{StepMeans};
ghost use Rattle.reinterpret.specs.Means.{ReadTail};
ghost use Rattle.reinterpret.specs.Reading.{value_of, may_be_read, readable, are_class, unknown, one_graph, with_fresh, number_read, bytes_read, value_read, read_post};
ghost use Rattle.reinterpret.specs.States.{Reads, FaultsReading};

use cbase::NoMemory;
use changes::{
    Reach, fault_post, held_by, reach_of, with_graph, with_register, with_value, without_registers,
    write_object,
};
use graph::{Graph, HasValue, Held, Parts, Post, Value};
use planes::Plane;
use std::alloc::Global;

/// The key of the value that the edge of a place and size holds.
fn value_of(edges: &[HasValue], from: u32, size: u8) -> Option<u32>
    ensures { result ≡ value_of edges.now from size }
{
    let mut left = edges;
    while let [first, rest @ ..] = left {
        if first.at == from {
            if first.size == size {
                return Some(first.value);
            }
        }
        left = rest;
    }
    None
}

/// Whether a value is read as it is.
fn may_be_read(pointer: bool, value: Value) -> bool
    ensures { result ≡ may_be_read pointer value }
{
    match value {
        Value::Const { .. } => true,
        Value::Number { .. } => true,
        Value::Any => pointer,
        Value::Address { .. } => pointer,
    }
}

/// The key of a value, if that is read as it is.
fn readable(graph: &Graph, pointer: bool, key: Option<u32>) -> Option<u32>
    ensures { result ≡ readable graph.now pointer key }
{
    match key {
        None => None,
        Some(key) => match graph.value(key) {
            None => None,
            Some(value) => {
                if may_be_read(pointer, *value) {
                    Some(key)
                } else {
                    None
                }
            }
        },
    }
}

/// Whether no edge shares a byte with a range.
fn meets_none(edges: &[HasValue], from: u32, count: u32) -> bool
    requires range { from + count ≤ 65536 }
    requires inside { list_all (lies_in 65536) edges.now ≡ true }
    ensures { result ≡ meets_none from count edges.now }
{
    let mut left = edges;
    while let [first, rest @ ..] = left {
        if first.at + first.size as u32 > from {
            if first.at < from + count {
                return false;
            }
        }
        left = rest;
    }
    true
}

/// Whether all bytes of a range have a class.
fn are_class(class: u8, plane: &Plane, from: u32, size: u8) -> bool
    requires range { from + size ≤ length plane.now }
    requires class { class ≤ 2 }
    ensures { result ≡ are_class class plane.now from size }
{
    plane.all_are(from, size as u32, class)
}

/// Whether no byte of a range may be part of a pointer.
fn is_low(plane: &Plane, from: u32, size: u8) -> bool
    requires range { from + size ≤ length plane.now }
    ensures { result ≡ list_all (λ class. nat_lt class 2) (take size (drop from plane.now)) }
{
    plane.all_at_most(from, size as u32, 1)
}

/// What is read of bytes that are not known.
fn unknown(pointer: bool, size: u8, plane: &Plane, from: u32) -> Value
    requires range { from + size ≤ length plane.now }
    ensures { result ≡ unknown pointer size (take size (drop from plane.now)) }
{
    if pointer {
        if !is_low(plane, from, size) {
            return Value::Any;
        }
    }
    Value::Number { size }
}

/// The post of which the graph is this one with a value in a register, and others emptied.
fn put(
    alloc: Global,
    parts: Parts,
    gone: &[u32],
    into: u32,
    key: u32,
    loss: Option<u8>,
) -> Result<Post, NoMemory>
    requires graph { IsGraph parts }
    requires value { passes_at parts may_be_held key ≡ true }
    ensures { IfOk result (λ post. IsPost (one_graph (with_fresh gone.now into key parts) loss) post) }
{
    match without_registers(alloc, parts, gone) {
        Err(error) => Err(error),
        Ok(emptied) => match with_register(alloc, emptied, into, key) {
            Err(error) => Err(error),
            Ok(after) => with_graph(alloc, after, loss),
        },
    }
}

/// The post of a read that gives a value more.
fn put_fresh(
    alloc: Global,
    graph: &Graph,
    gone: &[u32],
    into: u32,
    value: Value,
    loss: Option<u8>,
) -> Result<Post, NoMemory>
    requires graph { IsGraph graph.now }
    requires sized { is_sized value ≡ true }
    requires leads { leads_to_object graph.now value ≡ true }
    requires held { may_be_held value ≡ true }
    ensures { IfOk result (λ post. IsPost (one_graph (with_fresh gone.now into (length graph.now.values) (with_value value graph.now)) loss) post) }
{
    let key = graph.value_count();
    match graph.parts(alloc) {
        Err(error) => Err(error),
        Ok(parts) => match with_value(parts, value) {
            Err(error) => Err(error),
            Ok(more) => put(alloc, more, gone, into, key, loss),
        },
    }
}

/// The post of a read that gives a number more, which the object holds from then on.
fn put_number(
    alloc: Global,
    graph: &Graph,
    gone: &[u32],
    into: u32,
    size: u8,
    key: u32,
    from: u32,
) -> Result<Post, NoMemory>
    requires graph { IsGraph graph.now }
    requires size { is_scalar_size size ≡ true }
    requires room { IsRoom graph.now key from size }
    ensures { IfOk result (λ post. IsPost (on_object (object_at graph.now.objects key) (λ object. number_read graph.now gone.now into size key object from)) post) }
{
    let fresh = graph.value_count();
    let value = Value::Number { size };
    let edge = HasValue {
        at: from,
        size,
        value: fresh,
    };
    match graph.parts(alloc) {
        Err(error) => Err(error),
        Ok(parts) => match with_value(parts, value) {
            Err(error) => Err(error),
            Ok(more) => match write_object(alloc, more, key, edge, value) {
                Err(error) => Err(error),
                Ok(written) => put(alloc, written, gone, into, fresh, None),
            },
        },
    }
}

/// The key of the value that an edge tells of a range, if that is read as it is.
fn told(graph: &Graph, key: u32, from: u32, size: u8, pointer: bool) -> Option<u32>
    ensures { IfSome (object_at graph.now.objects key) (λ object. result ≡ readable graph.now pointer (value_of object.edges from size)) }
{
    match graph.object(key) {
        None => None,
        Some(object) => readable(
            graph,
            pointer,
            value_of(object.edges.as_slice(), from, size),
        ),
    }
}

/// The post of a read that gives the value of an edge.
fn put_told(
    alloc: Global,
    graph: &Graph,
    gone: &[u32],
    into: u32,
    key: u32,
) -> Result<Post, NoMemory>
    requires graph { IsGraph graph.now }
    requires value { passes_at graph.now may_be_held key ≡ true }
    ensures { IfOk result (λ post. IsPost (one_graph (with_fresh gone.now into key graph.now) None) post) }
{
    match graph.parts(alloc) {
        Err(error) => Err(error),
        Ok(parts) => put(alloc, parts, gone, into, key, None),
    }
}

/// The post of a read of bytes of which no edge tells.
fn read_bytes(
    alloc: Global,
    graph: &Graph,
    gone: &[u32],
    into: u32,
    size: u8,
    pointer: bool,
    key: u32,
    from: u32,
) -> Result<Post, NoMemory>
    requires graph { IsGraph graph.now }
    requires size { is_scalar_size size ≡ true }
    requires room { IsRoom graph.now key from size }
    ensures { IfOk result (λ post. IsPost (on_object (object_at graph.now.objects key) (λ object. bytes_read graph.now gone.now into size pointer key object from)) post) }
{
    match graph.object(key) {
        None => unreachable!(),
        Some(object) => {
            if are_class(0, &object.plane, from, size) {
                return put_fresh(
                    alloc,
                    graph,
                    gone,
                    into,
                    Value::Const { number: 0, size },
                    None,
                );
            }
            if are_class(1, &object.plane, from, size) {
                if meets_none(object.edges.as_slice(), from, size as u32) {
                    return put_number(alloc, graph, gone, into, size, key, from);
                }
            }
            put_fresh(
                alloc,
                graph,
                gone,
                into,
                unknown(pointer, size, &object.plane, from),
                Some(3),
            )
        }
    }
}

/// The post of a read of bytes of an object.
fn read_room(
    alloc: Global,
    graph: &Graph,
    gone: &[u32],
    into: u32,
    size: u8,
    pointer: bool,
    key: u32,
    from: u32,
) -> Result<Post, NoMemory>
    requires graph { IsGraph graph.now }
    requires size { is_scalar_size size ≡ true }
    requires room { IsRoom graph.now key from size }
    ensures { IfOk result (λ post. IsPost (on_object (object_at graph.now.objects key) (λ object. value_read graph.now gone.now into size pointer key object from)) post) }
{
    match told(graph, key, from, size, pointer) {
        None => read_bytes(alloc, graph, gone, into, size, pointer, key, from),
        Some(value) => put_told(alloc, graph, gone, into, value),
    }
}

/// The post of a read from where an access leads.
fn read_reached(
    alloc: Global,
    graph: &Graph,
    gone: &[u32],
    target: u32,
    size: u8,
    pointer: bool,
    into: u32,
) -> Result<Post, NoMemory>
    requires graph { IsGraph graph.now }
    requires size { is_scalar_size size ≡ true }
    requires target { LeadsToRegion graph.now target }
    ensures { IfOk result (λ post. IsPost (on_reach graph.now (reach_of graph.now target size) (value_read graph.now gone.now into size pointer)) post) }
{
    match reach_of(graph, target, size as u32) {
        Reach::Room { key, from } => read_room(alloc, graph, gone, into, size, pointer, key, from),
        Reach::Nothing => fault_post(alloc, Reach::Nothing),
        Reach::Fault(kind) => fault_post(alloc, Reach::Fault(kind)),
        Reach::Number { small } => fault_post(alloc, Reach::Number { small }),
        Reach::Anything { live } => fault_post(alloc, Reach::Anything { live }),
    }
}

/// The post of a read, by what the register holds.
fn read_by(
    alloc: Global,
    graph: &Graph,
    registers: &[Held],
    at: u32,
    size: u8,
    pointer: bool,
    into: u32,
) -> Result<Post, NoMemory>
    requires graph { IsGraph graph.now }
    requires registers { registers.now ≡ graph.now.registers }
    requires address { is_address_held graph.now at ≡ true }
    requires size { is_scalar_size size ≡ true }
    ensures { IfOk result (λ post. IsPost (read_post graph.now at size pointer into) post) }
{
    match held_by(registers, at) {
        None => unreachable!(),
        Some(target) => read_reached(alloc, graph, &[at], target, size, pointer, into),
    }
}

/// Reads so many bytes from where the register `at` leads, at a pointer type or at an integer type, into the register `into`
/// (C11 6.3.2.1p2). The register `at` is empty then.
///
/// The size is 1, 2, 4 or 8, and 8 for a pointer. The address is none of a node of a segment. Loss 3 is named where no edge tells what is read and it is not known from the
/// classes of the bytes, and loss 4 where the address may be any word: no graph then stands for what follows. Each fault that is listed is met by
/// some state, through any word where with an object a region lives and the graph may have one object more.
pub fn read(
    alloc: Global,
    graph: &Graph,
    at: u32,
    size: u8,
    pointer: bool,
    into: u32,
) -> Result<Post, NoMemory>
    requires address { is_address_held graph.now at ≡ true }
    requires size { is_scalar_size size ≡ true }
    requires whole { pointer ≡ true → size ≡ 8 }
    ensures post { IfOk result (λ post. IsPost (read_post graph.now at size pointer into) post) }
    ensures means { IfOk result (λ post. StepMeans graph.now (Reads at size pointer into) (λ kind. FaultsReading at size kind) (ReadTail graph.now (at ∷ []) into size) post) }
    ensures listed { IfOk result (λ post. MeetsListed graph.now (λ kind. FaultsReading at size kind) post) }
{
    let registers = graph.registers();
    read_by(alloc, graph, registers, at, size, pointer, into)
}
