//! Fills of bytes with one number.
ghost use Rattle.std.specs.Prelude.{◌≡◌, ◌≤◌, [], ◌∷◌, true, Some, IfOk, IfErr, IfSome, IsSome};
ghost use Rattle.changes.specs.AnyWords.{MeetsListed};
ghost use Rattle.changes.specs.Following.{StepMeans, WriteTail, LeadsToRegion};
ghost use Rattle.changes.specs.Places.{IsRoom};
ghost use Rattle.changes.specs.Posted.{IsPost, on_object, on_reach};
ghost use Rattle.changes.specs.Ranges.{cuts_none};
ghost use Rattle.changes.specs.Reaching.{is_address_held, reach_of};
ghost use Rattle.graph.specs.Maps.{object_at, value_at, held_by};
ghost use Rattle.graph.specs.Whole.{IsGraph};
ghost use Rattle.range_steps.specs.Filling.{Fills, FaultsFilling, fills_zeros, class_filled, loss_filled, bytes_filled, filled_by, fill_post};

use cbase::{NoMemory, Stop};
use changes::{
    Reach, cuts_none, emptied_post, fault_post, held_by, put_range, reach_of, with_graph,
    without_registers,
};
use graph::{Graph, Held, Post, Value};
use std::alloc::Global;

/// Whether a value is a constant whose lowest byte is 0.
fn fills_zeros(value: Value) -> bool
    ensures { result ≡ fills_zeros value }
{
    match value {
        Value::Const { number, .. } => number % 256 == 0,
        _ => false,
    }
}

/// The class of the bytes that are filled in.
fn class_filled(zeros: bool) -> u8
    ensures class { result ≡ class_filled zeros }
    ensures few { result ≤ 2 }
{
    if zeros { 0 } else { 1 }
}

/// What is lost where an edge is cut, or not, and zeros are filled in, or another number.
fn loss_filled(uncut: bool, zeros: bool) -> Option<u8>
    ensures { result ≡ loss_filled uncut zeros }
{
    if !uncut {
        return Some(3);
    }
    if zeros { None } else { Some(6) }
}

/// What a fill of bytes of the object with a key loses.
fn loss_at(graph: &Graph, key: u32, from: u32, length: u32, zeros: bool) -> Option<u8>
    requires graph { IsGraph graph.now }
    requires room { IsRoom graph.now key from length }
    ensures { IfSome (object_at graph.now.objects key) (λ object. result ≡ loss_filled (cuts_none from length object.edges) zeros) }
{
    match graph.object(key) {
        None => None,
        Some(object) => loss_filled(cuts_none(object.edges.as_slice(), from, length), zeros),
    }
}

/// The post of a fill of bytes of an object.
fn fill_room(
    alloc: Global,
    graph: &Graph,
    gone: &[u32],
    key: u32,
    from: u32,
    length: u32,
    zeros: bool,
) -> Result<Post, NoMemory>
    requires graph { IsGraph graph.now }
    requires room { IsRoom graph.now key from length }
    ensures { IfOk result (λ post. IsPost (on_object (object_at graph.now.objects key) (λ object. bytes_filled graph.now gone.now length zeros key object from)) post) }
{
    let loss = loss_at(graph, key, from, length, zeros);
    match graph.parts(alloc) {
        Err(error) => Err(error),
        Ok(parts) => match put_range(alloc, parts, key, from, length, &[], class_filled(zeros)) {
            Err(error) => Err(error),
            Ok(filled) => match without_registers(alloc, filled, gone) {
                Err(error) => Err(error),
                Ok(after) => with_graph(alloc, after, loss),
            },
        },
    }
}

/// The post of a fill where an access leads.
fn fill_reached(
    alloc: Global,
    graph: &Graph,
    gone: &[u32],
    target: u32,
    length: u32,
    zeros: bool,
) -> Result<Post, NoMemory>
    requires graph { IsGraph graph.now }
    requires target { LeadsToRegion graph.now target }
    ensures { IfOk result (λ post. IsPost (on_reach graph.now (reach_of graph.now target length) (bytes_filled graph.now gone.now length zeros)) post) }
{
    match reach_of(graph, target, length) {
        Reach::Room { key, from } => fill_room(alloc, graph, gone, key, from, length, zeros),
        Reach::Nothing => fault_post(alloc, Reach::Nothing),
        Reach::Fault(kind) => fault_post(alloc, Reach::Fault(kind)),
        Reach::Number { small } => fault_post(alloc, Reach::Number { small }),
        Reach::Anything { live } => fault_post(alloc, Reach::Anything { live }),
    }
}

/// The post of a fill with a value.
fn fill_value(
    alloc: Global,
    graph: &Graph,
    gone: &[u32],
    target: u32,
    length: u32,
    value: Value,
) -> Result<Post, NoMemory>
    requires graph { IsGraph graph.now }
    requires target { LeadsToRegion graph.now target }
    ensures { IfOk result (λ post. IsPost (filled_by graph.now gone.now length target (Some value)) post) }
{
    if length == 0 {
        emptied_post(alloc, graph, gone)
    } else {
        fill_reached(alloc, graph, gone, target, length, fills_zeros(value))
    }
}

/// The post of a fill, by what the registers hold.
fn fill_by(
    alloc: Global,
    graph: &Graph,
    registers: &[Held],
    at: u32,
    from: u32,
    length: u32,
) -> Result<Post, NoMemory>
    requires graph { IsGraph graph.now }
    requires registers { registers.now ≡ graph.now.registers }
    requires address { is_address_held graph.now at ≡ true }
    requires value { IsSome (held_by graph.now.registers from) }
    ensures { IfOk result (λ post. IsPost (fill_post graph.now at from length) post) }
{
    match held_by(registers, at) {
        None => unreachable!(),
        Some(target) => match held_by(registers, from) {
            None => unreachable!(),
            Some(source) => match graph.value(source) {
                None => unreachable!(),
                Some(value) => fill_value(alloc, graph, &[at, from], target, length, *value),
            },
        },
    }
}

/// Fills `length` bytes, from where the register `at` leads on, with the lowest byte of what the register `from` holds, as `memset`
/// does (C11 7.24.6.1). Both registers are empty then.
///
/// The address has eight bytes, and is none of a node of a segment. A fill of no byte is no access. The edges of the bytes that are filled
/// go, and the others stay. Loss 3 is named where one of these reached into the bytes from outside, loss 4 where the address may be any
/// word, so that no graph stands for what follows, and loss 6 where the number is not known to be 0: that the bytes are one and the same is
/// not kept. Each fault that is listed is met by some state, through any word where with an object a region lives and the graph may have one
/// object more. It costs one copy of the graph, and where no graph comes what `reach_of` of `changes` costs.
pub fn fill(alloc: Global, graph: &Graph, at: u32, from: u32, length: u32) -> Result<Post, Stop>
    requires address { is_address_held graph.now at ≡ true }
    requires value { IsSome (held_by graph.now.registers from) }
    ensures post { IfOk result (λ post. IsPost (fill_post graph.now at from length) post) }
    ensures means { IfOk result (λ post. StepMeans graph.now (Fills at from length) (λ kind. FaultsFilling at from length kind) (WriteTail graph.now (at ∷ from ∷ [])) post) }
    ensures listed { IfOk result (λ post. MeetsListed graph.now (λ kind. FaultsFilling at from length kind) post) }
    ensures small { IfErr result (λ stop. stop ≡ Stop.NoMemory) }
{
    let registers = graph.registers();
    match fill_by(alloc, graph, registers, at, from, length) {
        Ok(post) => Ok(post),
        Err(NoMemory) => Err(Stop::NoMemory),
    }
}
