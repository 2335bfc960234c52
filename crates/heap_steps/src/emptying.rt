//! Steps that change what registers hold, and nothing else.
ghost use Rattle.std.specs.Prelude.{◌≡◌, ℕ, [], IfOk, IfErr, Contains, ◌↔◌, None};
ghost use Rattle.changes.specs.Following.{Follows, SomeFaults};
ghost use Rattle.changes.specs.Posted.{IsPost, SomeStandsFor};
ghost use Rattle.graph.specs.Meaning.{StandsFor};
ghost use Rattle.graph.specs.State.{State, IsState};
ghost use Rattle.graph.specs.Whole.{IsGraph};
ghost use Rattle.heap_steps.specs.Posts.{refuse_post, finish_post};
ghost use Rattle.heap_steps.specs.Steps.{Refuses, Finishes, FaultsFinishing};

use crate::look::look;
use cbase::{List, NoMemory, Stop};
use changes::{with_graph, with_register, with_value, without_registers};
use graph::{Graph, Post, Value};
use std::alloc::Global;

/// The post of an allocation that gives null.
fn refused(alloc: Global, graph: &Graph, into: u32) -> Result<Post, NoMemory>
    ensures post { IfOk result (λ post. IsPost (refuse_post graph.now into) post) }
    ensures graph { IsGraph graph.now }
{
    let key = graph.value_count();
    let parts = graph.parts(alloc)?;
    let valued = with_value(parts, Value::Const { number: 0, size: 8 })?;
    let after = with_register(alloc, valued, into, key)?;
    with_graph(alloc, after, None)
}

/// The branch in which an allocation answers null (C11 7.22.3p1): the register `into` gets a null pointer.
///
/// The one graph of the post stands for exactly the states that follow. There is no fault and no loss.
pub fn refuse(alloc: Global, graph: &Graph, into: u32) -> Result<Post, Stop>
    ensures post { IfOk result (λ post. IsPost (refuse_post graph.now into) post) }
    ensures sound { IfOk result (λ post. (state next : State) → StandsFor graph.now state → Refuses into state next → SomeStandsFor post.graphs next) }
    ensures exact { IfOk result (λ post. (next : State) → IsState next → SomeStandsFor post.graphs next → Follows graph.now (Refuses into) next) }
    ensures faultless { IfOk result (λ post. post.kinds ≡ []) }
    ensures lossless { IfOk result (λ post. post.loss ≡ None) }
    ensures small { IfErr result (λ stop. stop ≡ Stop.NoMemory) }
{
    match refused(alloc, graph, into) {
        Ok(post) => Ok(post),
        Err(NoMemory) => Err(Stop::NoMemory),
    }
}

/// The post of the end of a full expression.
fn finished(alloc: Global, graph: &Graph, gone: &[u32]) -> Result<Post, NoMemory>
    ensures post { IfOk result (λ post. IsPost (finish_post graph.now gone.now) post) }
    ensures graph { IsGraph graph.now }
{
    let _ = graph.value_count();
    let parts = graph.parts(alloc)?;
    let left = without_registers(alloc, parts, gone)?;
    look(alloc, left)
}

/// The end of a full expression: these registers are emptied, and lost blocks are looked for.
///
/// The graphs of the post stand for each state that follows, and where no loss is named for no others, but for dead blocks that
/// nothing names. Kind 7 is listed exactly where some state that the graph stands for loses a block then.
pub fn finish(alloc: Global, graph: &Graph, registers: &List<u32>) -> Result<Post, Stop>
    ensures post { IfOk result (λ post. IsPost (finish_post graph.now registers.now) post) }
    ensures sound { IfOk result (λ post. (state next : State) → IsState state → StandsFor graph.now state → Finishes registers.now state next → SomeStandsFor post.graphs next) }
    ensures exact { IfOk result (λ post. post.loss ≡ None → (next : State) → IsState next → SomeStandsFor post.graphs next → Follows graph.now (Finishes registers.now) next) }
    ensures kinds { IfOk result (λ post. (kind : ℕ) → (Contains post.kinds kind ↔ SomeFaults graph.now (FaultsFinishing registers.now kind))) }
    ensures small { IfErr result (λ stop. stop ≡ Stop.NoMemory) }
{
    match finished(alloc, graph, registers.as_slice()) {
        Ok(post) => Ok(post),
        Err(NoMemory) => Err(Stop::NoMemory),
    }
}
