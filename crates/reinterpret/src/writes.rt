//! Writes.
ghost use Rattle.std.specs.Prelude.{◌≡◌, ◌∷◌, [], true, None, Some, IfOk, IfSome, if◌then◌else◌};
ghost use Rattle.graph.specs.Maps.{object_at};
ghost use Rattle.graph.specs.Whole.{IsGraph};
ghost use Rattle.changes.specs.AnyWords.{MeetsListed};
ghost use Rattle.changes.specs.Places.{IsRoom};
ghost use Rattle.changes.specs.Posted.{IsPost, on_object, on_reach};
ghost use Rattle.changes.specs.Ranges.{cuts_none};
ghost use Rattle.changes.specs.Reaching.{is_address_held, reach_of};
ghost use Rattle.changes.specs.Following.{holds_size, LeadsToRegion};
ghost use Rattle.reinterpret.specs.Exact.{IsWritable};
ghost use Rattle.changes.specs.Following.{StepMeans, WriteTail};
ghost use Rattle.reinterpret.specs.States.{Writes, FaultsWriting};
ghost use Rattle.reinterpret.specs.Writing.{value_written, write_post};

use cbase::NoMemory;
use changes::{
    Reach, cuts_none, fault_post, held_by, reach_of, with_graph, without_registers, write_object,
};
use graph::{Graph, HasValue, Held, Post, Value};
use std::alloc::Global;

/// What a write to bytes of an object loses: what is known of an edge that reaches into them from outside.
#[tactic(auto, using(changes::proofs::Led::edges_small))]
fn loss_at(graph: &Graph, key: u32, from: u32, size: u8) -> Option<u8>
    requires graph { IsGraph graph.now }
    requires room { IsRoom graph.now key from size }
    ensures { IfSome (object_at graph.now.objects key) (λ object. result ≡ (if cuts_none from size object.edges then None else Some 3)) }
{
    match graph.object(key) {
        None => None,
        Some(object) => {
            if cuts_none(object.edges.as_slice(), from, size as u32) {
                None
            } else {
                Some(3)
            }
        }
    }
}

/// The post of a write to bytes of an object.
fn write_room(
    alloc: Global,
    graph: &Graph,
    gone: &[u32],
    key: u32,
    edge: HasValue,
    value: Value,
) -> Result<Post, NoMemory>
    requires graph { IsGraph graph.now }
    requires room { IsRoom graph.now key edge.at edge.size }
    requires value { IsWritable graph.now edge.value edge.size value }
    ensures { IfOk result (λ post. IsPost (on_object (object_at graph.now.objects key) (λ object. value_written graph.now gone.now edge.size edge.value (Some value) key object edge.at)) post) }
{
    let loss = loss_at(graph, key, edge.at, edge.size);
    match graph.parts(alloc) {
        Err(error) => Err(error),
        Ok(parts) => match write_object(alloc, parts, key, edge, value) {
            Err(error) => Err(error),
            Ok(written) => match without_registers(alloc, written, gone) {
                Err(error) => Err(error),
                Ok(after) => with_graph(alloc, after, loss),
            },
        },
    }
}

/// The post of a write to where an access leads.
fn write_reached(
    alloc: Global,
    graph: &Graph,
    gone: &[u32],
    target: u32,
    size: u8,
    source: u32,
    value: Value,
) -> Result<Post, NoMemory>
    requires graph { IsGraph graph.now }
    requires target { LeadsToRegion graph.now target }
    requires value { IsWritable graph.now source size value }
    ensures { IfOk result (λ post. IsPost (on_reach graph.now (reach_of graph.now target size) (value_written graph.now gone.now size source (Some value))) post) }
{
    match reach_of(graph, target, size as u32) {
        Reach::Room { key, from } => {
            let edge = HasValue {
                at: from,
                size,
                value: source,
            };
            write_room(alloc, graph, gone, key, edge, value)
        }
        Reach::Nothing => fault_post(alloc, Reach::Nothing),
        Reach::Fault(kind) => fault_post(alloc, Reach::Fault(kind)),
        Reach::Number { small } => fault_post(alloc, Reach::Number { small }),
        Reach::Anything { live } => fault_post(alloc, Reach::Anything { live }),
    }
}

/// The post of a write, by what the registers hold.
fn write_by(
    alloc: Global,
    graph: &Graph,
    registers: &[Held],
    at: u32,
    size: u8,
    from: u32,
) -> Result<Post, NoMemory>
    requires graph { IsGraph graph.now }
    requires registers { registers.now ≡ graph.now.registers }
    requires address { is_address_held graph.now at ≡ true }
    requires value { holds_size graph.now from size ≡ true }
    ensures { IfOk result (λ post. IsPost (write_post graph.now at size from) post) }
{
    match held_by(registers, at) {
        None => unreachable!(),
        Some(target) => match held_by(registers, from) {
            None => unreachable!(),
            Some(source) => match graph.value(source) {
                None => unreachable!(),
                Some(value) => write_reached(
                    alloc,
                    graph,
                    &[at, from],
                    target,
                    size,
                    source,
                    *value,
                ),
            },
        },
    }
}

/// Writes the lowest bytes of what the register `from` holds where the register `at` leads (C11 6.5.16). Both registers are empty
/// then.
///
/// The value has `size` bytes, and the address eight; it is none of a node of a segment. The edges of the bytes that are written
/// go, and the others stay. Loss 3 is named where one of these reached into the bytes from outside, and loss 4 where the address may
/// be any word: no graph then stands for what follows. Each fault that is listed is met by some state, through any word where with an
/// object a region lives and the graph may have one object more. It costs one copy of the graph, and
/// where no graph comes what `reach_of` of `changes` costs.
pub fn write(alloc: Global, graph: &Graph, at: u32, size: u8, from: u32) -> Result<Post, NoMemory>
    requires address { is_address_held graph.now at ≡ true }
    requires value { holds_size graph.now from size ≡ true }
    ensures post { IfOk result (λ post. IsPost (write_post graph.now at size from) post) }
    ensures means { IfOk result (λ post. StepMeans graph.now (Writes at size from) (λ kind. FaultsWriting at size from kind) (WriteTail graph.now (at ∷ from ∷ [])) post) }
    ensures listed { IfOk result (λ post. MeetsListed graph.now (λ kind. FaultsWriting at size from kind) post) }
{
    let registers = graph.registers();
    write_by(alloc, graph, registers, at, size, from)
}
