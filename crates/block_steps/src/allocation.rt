//! Allocations that give a block.
ghost use Rattle.std.specs.Prelude.{◌≡◌, ◌≤◌, ◌↔◌, true, false, IfOk};
ghost use Rattle.block_steps.specs.Allocating.{Allocates, AllocateTail, allocate_post};
ghost use Rattle.block_steps.specs.Blocks.{NoFault, AnyMemory, dead_are_addressed, has_room};
ghost use Rattle.changes.specs.FollowingAlike.{StepMeansAlike};
ghost use Rattle.changes.specs.Posted.{IsPost};
ghost use Rattle.graph.specs.Large.{is_large};

use crate::objects::{loss_beside, with_new_object};
use crate::room::has_room;
use bytes_core::BlockKind;
use cbase::{NoMemory, Stop};
use changes::{with_graph, with_register, with_value};
use graph::{Graph, Post, Target, Value};
use std::alloc::Global;

/// The post of an allocation, where an object more may stand in the graph.
fn allocated(
    alloc: Global,
    graph: &Graph,
    size: u32,
    zeroed: bool,
    into: u32,
) -> Result<Post, NoMemory>
    requires size { size ≤ 65536 }
    requires room { has_room graph.now 1 ≡ true }
    ensures { IfOk result (λ post. IsPost (allocate_post graph.now size zeroed into) post) }
{
    let object = graph.object_count();
    let key = graph.value_count();
    let loss = loss_beside(alloc, graph)?;
    let parts = graph.parts(alloc)?;
    let grown = with_new_object(alloc, parts, BlockKind::Heap, size, zeroed)?;
    let address = Value::Address {
        object,
        offset: 0,
        target: Target::Region,
    };
    let valued = with_value(grown, address)?;
    let after = with_register(alloc, valued, into, key)?;
    with_graph(alloc, after, loss)
}

/// The branch in which an allocation gives a block of this size, in bytes (C11 7.22.3.2, 7.22.3.4): the register `into` gets its
/// address.
///
/// The graph has a live region more, whose bytes are numbers, and zeros where `zeroed` says so, and its address as a value more. There
/// is no fault. Loss 3 is named where a byte that may be part of a pointer lies in no edge, or a value that is held may be any
/// word: the graph stands for states in which that leads to the new block, too. `Large` comes exactly where the graph has 2^30 - 1
/// nodes; where each dead object is addressed, the graph is large then. It costs one copy of the graph.
pub fn allocate(
    alloc: Global,
    graph: &Graph,
    size: u32,
    zeroed: bool,
    into: u32,
) -> Result<Post, Stop>
    requires size { size ≤ 65536 }
    ensures post { IfOk result (λ post. IsPost (allocate_post graph.now size zeroed into) post) }
    ensures means { IfOk result (λ post. StepMeansAlike graph.now (Allocates size zeroed into) NoFault (AllocateTail graph.now size zeroed into) AnyMemory post) }
    ensures large { (result ≡ Err Stop.Large) ↔ (has_room graph.now 1 ≡ false) }
    ensures many { (result ≡ Err Stop.Large) → dead_are_addressed graph.now ≡ true → is_large 134217728 graph.now ≡ true }
{
    let _ = graph.object_count();
    let room = has_room(graph, 1);
    if !room {
        return Err(Stop::Large);
    }
    match allocated(alloc, graph, size, zeroed, into) {
        Ok(post) => Ok(post),
        Err(NoMemory) => Err(Stop::NoMemory),
    }
}
