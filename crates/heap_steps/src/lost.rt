//! The live heap objects that no chain of stored pointers has to reach.
ghost use Rattle.std.specs.Prelude.{◌≡◌, ◌+◌, ◌*◌, ◌&&◌, ◌<◌, ◌++◌, ◌∷◌, ℕ, [], true, map, length, if◌then◌else◌, IfOk, OnOk, Contains, ◌↔◌};
ghost use Rattle.std.specs.List.{filter};
ghost use Rattle.bytes_core.specs.Marking.{is_open};
ghost use Rattle.bytes_core.specs.Release.{is_heap};
ghost use Rattle.graph.specs.WellFormed.{are_ascending};
ghost use Rattle.heap_steps.specs.Unreached.{unreached, SomeMemoryLoses, is_unmarked_object, is_unmarked};

use crate::marks::{follow, is_open, mark_first};
use bytes_core::BlockKind;
use cbase::{List, NoMemory};
use graph::{Graph, Object};
use std::alloc::Global;

/// Whether blocks of a kind are allocated.
pub(crate) fn is_heap(kind: BlockKind) -> bool
    ensures { result ≡ is_heap kind }
{
    match kind {
        BlockKind::Static => false,
        BlockKind::Local => false,
        BlockKind::Heap => true,
    }
}

/// Whether an object is live and allocated, and neither of its ends is marked.
fn is_unmarked(object: &Object, count: u32, key: u32, marks: &[bool]) -> bool
    ensures { result ≡ is_unmarked_object count marks.now key object.now }
{
    if !object.live {
        return false;
    }
    if !is_heap(object.kind) {
        return false;
    }
    if !is_open(marks, key as usize) {
        return false;
    }
    is_open(marks, count as usize + key as usize)
}

/// Puts a key behind others, or leaves them.
fn push_if(keys: &mut List<u32>, key: u32, passes: bool) -> Result<(), NoMemory>
    ensures { OnOk result (keys.new ≡ (if passes then keys.old ++ key ∷ [] else keys.old)) }
{
    if passes {
        keys.push(key)?;
    }
    Ok(())
}

/// Puts the keys of the live heap objects that are not marked into an empty list.
fn unmarked(graph: &Graph, marks: &[bool], keys: &mut List<u32>) -> Result<(), NoMemory>
    requires empty { keys.old ≡ [] }
    ensures { OnOk result (keys.new ≡ map (λ entry. entry.key) (filter (is_unmarked (length graph.now.objects) marks.now) graph.now.objects)) }
{
    let count = graph.object_count();
    for key in 0..count {
        match graph.object(key) {
            None => unreachable!(),
            Some(object) => push_if(keys, key, is_unmarked(object, count, key, marks))?,
        }
    }
    Ok(())
}

/// The keys of the live heap objects of which some memory that the graph stands for loses a block, in ascending order.
///
/// A block is lost where no chain of whole stored pointers leads to it from a variable, from a register or from what ports
/// lead to (C11 has no word for it; the block can never be freed any more). A segment that may have no nodes is listed where
/// a memory in which it has some loses one. It takes one marking of the graph.
pub fn unreached(alloc: Global, graph: &Graph) -> Result<List<u32>, NoMemory>
    ensures list { IfOk result (λ keys. keys ≡ unreached graph.now) }
    ensures exact { IfOk result (λ keys. (key : ℕ) → (Contains keys key ↔ SomeMemoryLoses graph.now key)) }
    ensures ascending { IfOk result (λ keys. are_ascending keys ≡ true) }
{
    let count = graph.object_count() as usize;
    let mut marks: Vec<bool> = vec![in alloc; false; 2 * count]?;
    let mut waiting: Vec<usize> = Vec::new(alloc);
    mark_first(graph, &mut marks, &mut waiting)?;
    follow(graph, &mut marks, &mut waiting)?;
    let mut keys = List::new(alloc);
    unmarked(graph, marks.as_slice(), &mut keys)?;
    Ok(keys)
}
