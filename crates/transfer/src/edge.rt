//! The post of an edge.
ghost use Rattle.std.specs.Prelude.{◌≡◌, true, IfOk, IfErr, IfSome, IsSome, slice_get};
ghost use Rattle.changes.specs.Posted.{IsPost};
ghost use Rattle.flow.specs.Valid.{IsFlow};
ghost use Rattle.heap_steps.specs.Regions.{AreRegions};
ghost use Rattle.transfer.specs.Along.{is_full_along};
ghost use Rattle.transfer.specs.Fitting.{FitsAt, FitAt};
ghost use Rattle.transfer.specs.Means.{EdgeMeans};
ghost use Rattle.transfer.specs.OfRegions.{AreOfRegions};
ghost use Rattle.transfer.specs.Posts.{has_step};
ghost use Rattle.transfer.specs.Together.{post_along};

use crate::along::post_along;
use cbase::Stop;
use flow::Flow;
use graph::{Graph, Post};
use std::alloc::Global;

/// The post of an edge, by its number, on a graph that fits the point where it begins.
///
/// Where a register through which the instruction goes names a segment, that is split into its cases first; the graphs of all cases stand one behind the other,
/// and the kinds are those of all. The loss is the least of all, but that loss 4 beside a kind of one, for an access through any word, is the loss of all.
/// A graph of regions has graphs of regions. `Large` comes only where a segment cannot be split or a case has no room for what the instruction makes.
pub fn post(alloc: Global, flow: &Flow, edge: u32, graph: &Graph) -> Result<Post, Stop>
    requires flow { IsFlow flow.now }
    requires there { IsSome (slice_get flow.now.edges edge) }
    requires step { IfSome (slice_get flow.now.edges edge) (λ edge. has_step edge.instr ≡ true) }
    requires fits { IfSome (slice_get flow.now.edges edge) (λ edge. FitsAt flow.now edge.from graph.now) }
    ensures post { IfOk result (λ post. IfSome (slice_get flow.now.edges edge) (λ edge. IsPost (post_along flow.now edge.instr graph.now) post)) }
    ensures means { IfOk result (λ post. IfSome (slice_get flow.now.edges edge) (λ edge. EdgeMeans flow.now edge.from edge.instr graph.now post)) }
    ensures fits { IfOk result (λ post. IfSome (slice_get flow.now.edges edge) (λ edge. FitAt flow.now edge.to post.graphs)) }
    ensures regions { IfOk result (λ post. AreRegions graph.now.objects → AreOfRegions post.graphs) }
    ensures large { IfErr result (λ stop. stop ≡ Stop.Large → IfSome (slice_get flow.now.edges edge) (λ edge. is_full_along edge.instr graph.now ≡ true)) }
{
    match flow.edges.as_slice().get(edge as usize) {
        None => unreachable!(),
        Some(edge) => post_along(alloc, flow, edge.from, &edge.instr, graph),
    }
}
