//! The graph of the states in which runs begin.
ghost use Rattle.std.specs.Prelude.{◌≡◌, ◌<◌, ◌≤◌, [], ◌∷◌, length, map, IfOk, IfErr};
ghost use Rattle.block_steps.specs.Entering.{with_entered};
ghost use Rattle.flow.specs.InRange.{entry_of};
ghost use Rattle.flow.specs.Machine.{size_in};
ghost use Rattle.flow.specs.Runs.{parameters_of};
ghost use Rattle.flow.specs.Valid.{IsFlow};
ghost use Rattle.graph.specs.Whole.{IsGraph, no_parts};
ghost use Rattle.heap_steps.specs.Regions.{AreRegions};
ghost use Rattle.transfer.specs.Fitting.{FitsAt};
ghost use Rattle.transfer.specs.Start.{static_graph, IsStartGraph};

use crate::initials::put_initials;
use crate::sizes::sizes_in;
use crate::statics::put_statics;
use block_steps::enter;
use cbase::{List, NoMemory, Stop};
use flow::Flow;
use graph::{Graph, Parts, Post, built};
use std::alloc::Global;

/// So many variables are too many.
const TOO_MANY: usize = 33_554_432;

/// Parts of which there is none.
fn no_parts(alloc: Global) -> Parts
    ensures { result ≡ no_parts }
{
    Parts {
        objects: List::new(alloc),
        values: List::new(alloc),
        variables: List::new(alloc),
        registers: List::new(alloc),
        ports: List::new(alloc),
        unequal: List::new(alloc),
    }
}

/// The parts of the graph of the static variables, with what they hold at the start.
fn static_parts(alloc: Global, flow: &Flow) -> Result<Parts, NoMemory>
    requires flow { IsFlow flow.now }
    requires few { length flow.now.variables < 33554432 }
    ensures { IfOk result (λ parts. parts ≡ static_graph flow.now) }
{
    if flow.initial.len() >= 4_294_967_295 {
        return Err(NoMemory);
    }
    let mut parts = no_parts(alloc);
    match put_statics(alloc, &mut parts, flow.variables.as_slice()) {
        Ok(()) => put_initials(alloc, flow, parts),
        Err(error) => {
            drop(parts);
            Err(error)
        }
    }
}

/// The graph of some parts that are those of one.
#[tactic(auto, using(changes::proofs::Built::built_same))]
fn graph_of_parts(alloc: Global, parts: Parts) -> Result<Graph, NoMemory>
    requires graph { IsGraph parts }
    ensures { IfOk result (λ graph. graph ≡ parts) }
{
    match built(alloc, parts) {
        Ok(graph) => Ok(graph),
        Err(_) => Err(NoMemory),
    }
}

/// The graph of the static variables.
fn static_graph(alloc: Global, flow: &Flow) -> Result<Graph, NoMemory>
    requires flow { IsFlow flow.now }
    requires few { length flow.now.variables < 33554432 }
    ensures { IfOk result (λ graph. graph ≡ static_graph flow.now) }
{
    match static_parts(alloc, flow) {
        Err(error) => Err(error),
        Ok(parts) => graph_of_parts(alloc, parts),
    }
}

/// The variables of main's parameters.
fn parameters_of_main(flow: &Flow) -> &[u32]
    ensures { result.now ≡ parameters_of flow.now flow.now.main }
{
    match flow.functions.as_slice().get(flow.main as usize) {
        None => &[],
        Some(found) => found.parameters.as_slice(),
    }
}

/// The one graph of a post.
fn only(post: Post) -> Graph
    requires { length post.graphs ≡ 1 }
    ensures { post.graphs ≡ result ∷ [] }
{
    let Post { graphs, kinds, .. } = post;
    drop(kinds);
    match graphs.into_vec().pop() {
        None => unreachable!(),
        Some(graph) => graph,
    }
}

/// The graph in which main's parameters stand beside static variables.
fn begun(alloc: Global, flow: &Flow, graph: &Graph) -> Result<Graph, Stop>
    requires flow { IsFlow flow.now }
    requires few { length flow.now.variables < 33554432 }
    requires graph { graph.now ≡ static_graph flow.now }
    ensures start { IfOk result (λ graph. IsStartGraph flow.now graph) }
    ensures small { IfErr result (λ stop. stop ≡ Stop.NoMemory) }
{
    let parameters = parameters_of_main(flow);
    match sizes_in(alloc, flow, parameters) {
        Err(NoMemory) => Err(Stop::NoMemory),
        Ok(sizes) => match enter(alloc, graph, parameters, sizes.as_slice()) {
            Err(_) => Err(Stop::NoMemory),
            Ok(post) => {
                let start = only(post);
                let _ = start.object_count();
                Ok(start)
            }
        },
    }
}

/// The graph of all states in which runs of a flow graph begin: each static variable with what it holds at the start, and main's
/// parameters with any numbers in their bytes.
///
/// It stands for each state in which a run begins, and its objects are regions. `Large` comes only where the flow graph has 2^25 variables. It takes time in proportion to the
/// variables and, for each scalar of an initialiser, to the static variables and to the scalars that stand in its own.
pub fn start(alloc: Global, flow: &Flow) -> Result<Graph, Stop>
    requires flow { IsFlow flow.now }
    ensures start { IfOk result (λ graph. IsStartGraph flow.now graph) }
    ensures fits { IfOk result (λ graph. FitsAt flow.now (entry_of flow.now flow.now.main) graph) }
    ensures regions { IfOk result (λ graph. AreRegions graph.objects) }
    ensures large { IfErr result (λ stop. stop ≡ Stop.Large → 33554432 ≤ length flow.now.variables) }
{
    if flow.variables.len() >= TOO_MANY {
        return Err(Stop::Large);
    }
    match static_graph(alloc, flow) {
        Err(NoMemory) => Err(Stop::NoMemory),
        Ok(graph) => begun(alloc, flow, &graph),
    }
}
