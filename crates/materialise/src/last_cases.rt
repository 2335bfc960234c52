//! The graphs that a segment whose nodes are linked both ways stands for: without nodes, where it may be, and with its last node as a region.
ghost use Rattle.std.specs.Prelude.{◌≡◌, ◌↔◌, [], true, false, map, IfOk, OnOk};
ghost use Rattle.std.specs.List.{All};
ghost use Rattle.graph.specs.Meaning.{StandsFor};
ghost use Rattle.graph.specs.Renaming.{numbered};
ghost use Rattle.graph.specs.State.{State};
ghost use Rattle.graph.specs.WellFormed.{is_within_limits};
ghost use Rattle.changes.specs.Posted.{SomeStandsFor};
ghost use Rattle.materialise.specs.Kept.{HoldsAsBefore};
ghost use Rattle.materialise.specs.SplitLast.{split_last, last_nodes};
ghost use Rattle.materialise.specs.WithOne.{is_twofold, has_head, HaveOffsets};

use crate::cases::{least_at, push_empty};
use crate::last::split_last;
use crate::room::has_room;
use cbase::{List, NoMemory, Stop};
use graph::{Graph, built};
use std::alloc::Global;

/// Whether a segment whose nodes are linked both ways stands at a key. It takes no memory.
pub fn is_twofold(graph: &Graph, key: u32) -> bool
    ensures { result ≡ is_twofold graph.now key }
{
    match graph.object(key) {
        None => false,
        Some(object) => match object.shape.links() {
            None => false,
            Some(links) => links.twofold,
        },
    }
}

/// The place to which links lead in the nodes of such a segment is a number of 63 bits. It takes no memory.
#[tactic(auto, using(crate::proofs::FinalCode::head_small))]
fn head_fits(graph: &Graph, key: u32)
    requires { is_twofold graph.now key ≡ true }
    ensures { has_head graph.now key ≡ true }
{
    match graph.object(key) {
        None => {}
        Some(object) => match object.shape.links() {
            None => {}
            Some(links) => {
                let _head: u32 = links.head;
            }
        },
    }
}

/// Whether the graph in which the last node of a segment is a region is within the limits.
#[tactic(auto, using(crate::proofs::FinalCounts::split_limits))]
fn may_be_split(graph: &Graph, key: u32) -> bool
    requires { is_twofold graph.now key ≡ true }
    ensures { result ≡ is_within_limits (split_last key graph.now) }
{
    let _ = graph.object_count();
    has_room(graph, least_at(graph, key))
}

/// The graph in which the last node of a segment is a region.
fn split_graph(alloc: Global, graph: &Graph, key: u32) -> Result<Graph, NoMemory>
    requires segment { is_twofold graph.now key ≡ true }
    requires room { is_within_limits (split_last key graph.now) ≡ true }
    ensures ok { IfOk result (λ after. after ≡ numbered (split_last key graph.now)) }
    ensures offsets { OnOk result (HaveOffsets graph.now.values) }
{
    match split_last(alloc, graph, key) {
        Err(error) => Err(error),
        Ok(parts) => match built(alloc, parts) {
            Ok(after) => Ok(after),
            Err(_) => Err(NoMemory),
        },
    }
}

/// Puts the cases of a segment into an empty list.
#[tactic(auto, using(crate::proofs::FinalCases::cases_are))]
fn push_cases(
    alloc: Global,
    graph: &Graph,
    key: u32,
    graphs: &mut List<Graph>,
) -> Result<(), NoMemory>
    requires segment { is_twofold graph.now key ≡ true }
    requires room { is_within_limits (split_last key graph.now) ≡ true }
    requires empty { graphs.old ≡ [] }
    ensures ok { OnOk result (graphs.new ≡ map numbered (last_nodes key graph.now)) }
    ensures offsets { OnOk result (HaveOffsets graph.now.values) }
{
    push_empty(alloc, graph, key, graphs)?;
    match split_graph(alloc, graph, key) {
        Ok(after) => graphs.push(after),
        Err(error) => Err(error),
    }
}

/// The cases of a segment whose nodes are linked both ways, by its last node. Where the segment may have no nodes, the first graph is the one without it, as
/// `drop_segment` gives it. In the last graph the last node is a region, behind all other objects. It holds what the template says, its own addresses in place
/// of those of each node, and its links: to what lay behind the segment, and back to the last node of the rest. The segment is left with one node less at least,
/// and the region lies behind it. Each address of the last node is one of the region.
///
/// The graphs stand together for exactly the states for which the graph stands. Each names the same variables, and holds values of the same sizes in the same
/// registers and ports. `Large` comes exactly where the last graph would have 2^30 nodes: the graph has one node less, and the segment has one node at least, or
/// none. It takes time in proportion to the graph, and to the logarithm of its size for each key.
pub fn last_node(alloc: Global, graph: &Graph, object: u32) -> Result<List<Graph>, Stop>
    requires { is_twofold graph.now object ≡ true }
    ensures ok { IfOk result (λ graphs. graphs ≡ map numbered (last_nodes object graph.now)) }
    ensures means { IfOk result (λ graphs. (state : State) → (StandsFor graph.now state ↔ SomeStandsFor graphs state)) }
    ensures holds { IfOk result (λ graphs. All (HoldsAsBefore graph.now) graphs) }
    ensures large { (result ≡ Err Stop.Large) ↔ (is_within_limits (split_last object graph.now) ≡ false) }
{
    let _ = graph.object_count();
    head_fits(graph, object);
    let room = may_be_split(graph, object);
    if !room {
        return Err(Stop::Large);
    }
    let mut graphs = List::new(alloc);
    match push_cases(alloc, graph, object, &mut graphs) {
        Ok(()) => Ok(graphs),
        Err(NoMemory) => {
            drop(graphs);
            Err(Stop::NoMemory)
        }
    }
}
