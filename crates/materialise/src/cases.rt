//! The graphs that a segment stands for: without nodes, where it may be, and with its first node as a region.
ghost use Rattle.std.specs.Prelude.{◌≡◌, ◌↔◌, ◌++◌, [], ◌∷◌, true, false, map, if◌then◌else◌, IfOk, OnOk};
ghost use Rattle.std.specs.List.{All};
ghost use Rattle.std.specs.Option.{option_map_or};
ghost use Rattle.graph.specs.Meaning.{StandsFor};
ghost use Rattle.graph.specs.Renaming.{numbered};
ghost use Rattle.graph.specs.State.{State};
ghost use Rattle.graph.specs.WellFormed.{is_within_limits};
ghost use Rattle.changes.specs.Posted.{SomeStandsFor};
ghost use Rattle.materialise.specs.Dropped.{links_at, dropped};
ghost use Rattle.materialise.specs.Empty.{may_be_empty};
ghost use Rattle.materialise.specs.Kept.{HoldsAsBefore};
ghost use Rattle.materialise.specs.SplitFirst.{split_first, first_nodes};
ghost use Rattle.materialise.specs.WithOne.{is_segment, HaveOffsets};

use crate::dropped::{drop_segment, may_be_empty};
use crate::first::split_first;
use crate::room::has_room;
use cbase::{List, NoMemory, Stop};
use graph::{Graph, built};
use std::alloc::Global;

/// Whether a segment stands at a key. It takes no memory.
pub fn is_segment(graph: &Graph, key: u32) -> bool
    ensures { result ≡ is_segment graph.now key }
{
    match graph.object(key) {
        None => false,
        Some(object) => match object.shape.links() {
            None => false,
            Some(_) => true,
        },
    }
}

/// How many nodes the segment with a key has at least.
pub(crate) fn least_at(graph: &Graph, key: u32) -> u32
    ensures { result ≡ option_map_or (λ links. links.least) (links_at graph.now key) 0 }
{
    match graph.object(key) {
        None => 0,
        Some(object) => match object.shape.links() {
            None => 0,
            Some(links) => links.least,
        },
    }
}

/// Whether the graph in which the first node of a segment is a region is within the limits.
#[tactic(auto, using(crate::proofs::SplitCounts::split_limits))]
fn may_be_split(graph: &Graph, key: u32) -> bool
    requires { is_segment graph.now key ≡ true }
    ensures { result ≡ is_within_limits (split_first key graph.now) }
{
    let _ = graph.object_count();
    has_room(graph, least_at(graph, key))
}

/// The graph in which the first node of a segment is a region.
fn split_graph(alloc: Global, graph: &Graph, key: u32) -> Result<Graph, NoMemory>
    requires segment { is_segment graph.now key ≡ true }
    requires room { is_within_limits (split_first key graph.now) ≡ true }
    ensures ok { IfOk result (λ after. after ≡ numbered (split_first key graph.now)) }
    ensures offsets { OnOk result (HaveOffsets graph.now.values) }
{
    match split_first(alloc, graph, key) {
        Err(error) => Err(error),
        Ok(parts) => match built(alloc, parts) {
            Ok(after) => Ok(after),
            Err(_) => Err(NoMemory),
        },
    }
}

/// Puts the graph without a segment into an empty list, where the segment may have no nodes.
pub(crate) fn push_empty(
    alloc: Global,
    graph: &Graph,
    key: u32,
    graphs: &mut List<Graph>,
) -> Result<(), NoMemory>
    requires empty { graphs.old ≡ [] }
    ensures { OnOk result (graphs.new ≡ if may_be_empty graph.now key then numbered (dropped key graph.now) ∷ [] else []) }
{
    if !may_be_empty(graph, key) {
        return Ok(());
    }
    match drop_segment(alloc, graph, key) {
        Ok(after) => graphs.push(after),
        Err(_) => Err(NoMemory),
    }
}

/// Puts the cases of a segment into an empty list.
#[tactic(auto, using(crate::proofs::SplitCases::cases_are))]
fn push_cases(
    alloc: Global,
    graph: &Graph,
    key: u32,
    graphs: &mut List<Graph>,
) -> Result<(), NoMemory>
    requires segment { is_segment graph.now key ≡ true }
    requires room { is_within_limits (split_first key graph.now) ≡ true }
    requires empty { graphs.old ≡ [] }
    ensures ok { OnOk result (graphs.new ≡ map numbered (first_nodes key graph.now)) }
    ensures offsets { OnOk result (HaveOffsets graph.now.values) }
{
    push_empty(alloc, graph, key, graphs)?;
    match split_graph(alloc, graph, key) {
        Ok(after) => graphs.push(after),
        Err(error) => Err(error),
    }
}

/// The cases of a segment, by its first node. Where the segment may have no nodes, the first graph is the one without it, as `drop_segment` gives it. In the last
/// graph the first node is a region, behind all other objects. It holds what the template says, its own addresses in place of those of each node, and its
/// links: to the first node of the rest, and back, where nodes are linked both ways, to what lay before the segment. The segment is left with one node less at
/// least, and the region lies before it. Each address of the first node is one of the region.
///
/// The graphs stand together for exactly the states for which the graph stands. Each names the same variables, and holds values of the same sizes in the same registers and ports. `Large` comes exactly where the last graph would have
/// 2^30 nodes: the graph has one node less, and the segment has one node at least, or none. It takes time in proportion to the graph, and to the logarithm of its
/// size for each key.
pub fn first_node(alloc: Global, graph: &Graph, object: u32) -> Result<List<Graph>, Stop>
    requires { is_segment graph.now object ≡ true }
    ensures ok { IfOk result (λ graphs. graphs ≡ map numbered (first_nodes object graph.now)) }
    ensures means { IfOk result (λ graphs. (state : State) → (StandsFor graph.now state ↔ SomeStandsFor graphs state)) }
    ensures holds { IfOk result (λ graphs. All (HoldsAsBefore graph.now) graphs) }
    ensures large { (result ≡ Err Stop.Large) ↔ (is_within_limits (split_first object graph.now) ≡ false) }
{
    let _ = graph.object_count();
    let room = may_be_split(graph, object);
    if !room {
        return Err(Stop::Large);
    }
    let mut graphs = List::new(alloc);
    match push_cases(alloc, graph, object, &mut graphs) {
        Ok(()) => Ok(graphs),
        Err(NoMemory) => {
            drop(graphs);
            Err(Stop::NoMemory)
        }
    }
}
