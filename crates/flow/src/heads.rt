ghost use Rattle.std.specs.Prelude.{◌↔◌, ◌<◌, Contains, IsTrue};

use crate::flow_graph::Flow;

/// Whether a point is a loop head. A number that is no point is none.
pub fn is_head(flow: &Flow, point: u32) -> bool
    ensures { IsTrue result ↔ ((point < flow.now.points) × Contains flow.now.heads point) }
{
    point < flow.points && flow.heads.as_slice().contains(&point)
}
