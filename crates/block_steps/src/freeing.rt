//! The release of a block.
ghost use Rattle.std.specs.Prelude.{◌≡◌, ◌&&◌, [], ◌∷◌, length, true, None, Some, pos, IfOk, IfErr, IfSome};
ghost use Rattle.std.specs.Ordering.{int_eq};
ghost use Rattle.bytes_core.specs.Release.{is_heap};
ghost use Rattle.heap_steps.specs.Regions.{IsExactOfRegions};
ghost use Rattle.block_steps.specs.Releasing.{Releases, FaultsReleasing, MeetsReleased, ReleaseTail, IsRegionFound, IsFreeable, with_null, only_graph, object_released, number_released, value_released, release_post};
ghost use Rattle.changes.specs.Dying.{died};
ghost use Rattle.changes.specs.FollowingAlike.{StepMeansAlike};
ghost use Rattle.changes.specs.Parts.{with_object, without_registers};
ghost use Rattle.changes.specs.Posted.{IsPost, on_object};
ghost use Rattle.changes.specs.Reaching.{is_address_held, names_no_segment};
ghost use Rattle.graph.specs.Maps.{object_at, value_at};
ghost use Rattle.graph.specs.Numbers.{HasRoom};
ghost use Rattle.graph.specs.Sizes.{value_size};
ghost use Rattle.graph.specs.Whole.{IsGraph};
ghost use Rattle.graph.specs.declared.value.Value.TheVariants.{Number};

use bytes_core::BlockKind;
use cbase::{List, NoMemory, Stop};
use changes::{
    emptied_post, held_by, is_excluded, merged, with_dead, with_graph, with_value, without_graph,
    without_registers,
};
use graph::{Graph, Held, Object, Parts, Post, Value, built};
use std::alloc::Global;

/// Whether an offset of an object is that of the first byte of an allocated block.
fn may_be_freed(object: &Object, offset: i64) -> bool
    ensures { result ≡ (is_heap object.now.kind && int_eq offset (pos 0)) }
{
    match object.kind {
        BlockKind::Static => false,
        BlockKind::Local => false,
        BlockKind::Heap => offset == 0,
    }
}

/// The post in which the object with a key is dead.
fn end_post(alloc: Global, graph: &Graph, gone: &[u32], key: u32) -> Result<Post, NoMemory>
    requires there { IsFreeable graph.now key }
    ensures { IfOk result (λ post. IfSome (object_at graph.now.objects key) (λ object. IsPost (only_graph (without_registers gone.now (with_object key (died object) graph.now))) post)) }
{
    match graph.parts(alloc) {
        Err(error) => Err(error),
        Ok(parts) => match with_dead(alloc, parts, key) {
            Err(error) => Err(error),
            Ok(dead) => match without_registers(alloc, dead, gone) {
                Err(error) => Err(error),
                Ok(after) => with_graph(alloc, after, None),
            },
        },
    }
}

/// The post of a release at an offset of the object with a key.
fn release_object(
    alloc: Global,
    graph: &Graph,
    gone: &[u32],
    key: u32,
    offset: i64,
) -> Result<Post, NoMemory>
    requires region { IsRegionFound graph.now key }
    ensures { IfOk result (λ post. IsPost (on_object (object_at graph.now.objects key) (object_released graph.now gone.now key offset)) post) }
{
    match graph.object(key) {
        None => without_graph(alloc, &[], None),
        Some(object) => {
            if !may_be_freed(object, offset) {
                return without_graph(alloc, &[6], None);
            }
            if !object.live {
                return without_graph(alloc, &[5], None);
            }
            end_post(alloc, graph, gone, key)
        }
    }
}

/// The graph of some parts that are those of one.
#[tactic(auto, using(changes::proofs::Built::built_same))]
fn graph_of_parts(alloc: Global, parts: Parts) -> Result<Graph, NoMemory>
    requires graph { IsGraph parts }
    ensures { IfOk result (λ graph. graph ≡ parts) }
{
    match built(alloc, parts) {
        Ok(graph) => Ok(graph),
        Err(_) => Err(NoMemory),
    }
}

/// A graph's parts in which the number with a key is 0.
fn null_parts(alloc: Global, graph: &Graph, key: u32) -> Result<Parts, NoMemory>
    ensures { IfOk result (λ parts. parts ≡ with_null key graph.now) }
{
    let kept = graph.value_count();
    let parts = graph.parts(alloc)?;
    let valued = with_value(parts, Value::Const { number: 0, size: 8 })?;
    let graph = graph_of_parts(alloc, valued)?;
    merged(alloc, &graph, kept, key)
}

/// A post with the graph of some parts, where a release that is not allowed is met.
fn with_fault(alloc: Global, parts: Parts) -> Result<Post, NoMemory>
    requires graph { IsGraph parts }
    ensures { IfOk result (λ post. IsPost (record { graphs = parts ∷ []; kinds = 6 ∷ []; loss = None }) post) }
{
    match Vec::from_slice(alloc, &[6]) {
        Err(_) => {
            drop(parts);
            Err(NoMemory)
        }
        Ok(kinds) => match with_graph(alloc, parts, None) {
            Err(error) => Err(error),
            Ok(post) => {
                let mut post = post;
                post.kinds = List::from_vec(kinds);
                Ok(post)
            }
        },
    }
}

/// The post of a release of the number with a key.
fn release_number(alloc: Global, graph: &Graph, gone: &[u32], key: u32) -> Result<Post, NoMemory>
    requires graph { IsGraph graph.now }
    requires number { value_at graph.now.values key ≡ Some (Number 8) }
    ensures { IfOk result (λ post. IsPost (number_released graph.now gone.now key) post) }
{
    if is_excluded(graph, key, 0) {
        return without_graph(alloc, &[6], None);
    }
    match null_parts(alloc, graph, key) {
        Err(error) => Err(error),
        Ok(null) => match without_registers(alloc, null, gone) {
            Err(error) => Err(error),
            Ok(after) => with_fault(alloc, after),
        },
    }
}

/// The post of a release of the value with a key.
fn release_value(
    alloc: Global,
    graph: &Graph,
    gone: &[u32],
    key: u32,
    value: Value,
) -> Result<Post, NoMemory>
    requires graph { IsGraph graph.now }
    requires value { value_at graph.now.values key ≡ Some value }
    requires size { value_size value ≡ 8 }
    requires names { names_no_segment value ≡ true }
    ensures { IfOk result (λ post. IsPost (value_released graph.now gone.now key (Some value)) post) }
{
    match value {
        Value::Const { number, .. } => {
            if number == 0 {
                emptied_post(alloc, graph, gone)
            } else {
                without_graph(alloc, &[6], None)
            }
        }
        Value::Number { .. } => release_number(alloc, graph, gone, key),
        Value::Any => without_graph(alloc, &[5, 6], Some(4)),
        Value::Address { object, offset, .. } => release_object(alloc, graph, gone, object, offset),
    }
}

/// The post of a release, by what the register holds.
fn release_by(alloc: Global, graph: &Graph, registers: &[Held], at: u32) -> Result<Post, NoMemory>
    requires graph { IsGraph graph.now }
    requires registers { registers.now ≡ graph.now.registers }
    requires address { is_address_held graph.now at ≡ true }
    ensures { IfOk result (λ post. IsPost (release_post graph.now at) post) }
{
    match held_by(registers, at) {
        None => unreachable!(),
        Some(key) => match graph.value(key) {
            None => unreachable!(),
            Some(value) => release_value(alloc, graph, &[at], key, *value),
        },
    }
}

/// Releases the block to which the register `at` leads, as `free` does (C11 7.22.3.3). The register is empty then.
///
/// The value has eight bytes, and is no address of a node of a segment. A null pointer changes nothing. Kind 5 is for the first byte of a
/// dead allocated object, and kind 6 for all else that is not null and not the first byte of a live allocated object, so a number always
/// lists it; where it may be null there is a graph in which it is. Of an object that dies nothing is said any more, neither its edges nor
/// the classes of its bytes. Where the value may be any word, kinds 5 and 6 are listed with loss 4, and no graph stands for what follows;
/// some state meets each of them, where the graph may have one object more.
///
/// Each state of the graphs is alike one that follows, where its memory has room for the block that died: of that the graph says not where it
/// lay. Where all the graph's objects are regions it has room. It costs a copy of the graph, and two where the value is a number.
pub fn release(alloc: Global, graph: &Graph, at: u32) -> Result<Post, Stop>
    requires address { is_address_held graph.now at ≡ true }
    ensures post { IfOk result (λ post. IsPost (release_post graph.now at) post) }
    ensures means { IfOk result (λ post. StepMeansAlike graph.now (Releases at) (λ kind. FaultsReleasing at kind) (ReleaseTail graph.now (at ∷ [])) (λ memory. HasRoom memory) post) }
    ensures regions { IfOk result (λ post. IsExactOfRegions graph.now (Releases at) post) }
    ensures listed { IfOk result (λ post. MeetsReleased graph.now at post) }
    ensures small { IfErr result (λ stop. stop ≡ Stop.NoMemory) }
{
    let registers = graph.registers();
    match release_by(alloc, graph, registers, at) {
        Ok(post) => Ok(post),
        Err(NoMemory) => Err(Stop::NoMemory),
    }
}
