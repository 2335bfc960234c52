//! Bytes of which no edge tells.
ghost use Rattle.std.specs.Prelude.{◌≡◌, ◌+◌, ◌≤◌, length, true, IfOk};
ghost use Rattle.std.specs.List.{list_all};
ghost use Rattle.graph.specs.WellFormed.{lies_in};
ghost use Rattle.range_steps.specs.Copying.{has_bare_byte};

use cbase::NoMemory;
use graph::HasValue;
use planes::Plane;
use std::alloc::Global;

/// Whether some of so many bytes from a place on may be other than 0 and stands in no edge.
///
/// The edges' bytes are taken out of a copy of the classes, so that it takes time in proportion to these and to the edges.
pub(crate) fn has_bare_byte(
    alloc: Global,
    edges: &[HasValue],
    plane: &Plane,
    from: u32,
    count: u32,
) -> Result<bool, NoMemory>
    requires range { from + count ≤ length plane.now }
    requires inside { list_all (lies_in (length plane.now)) edges.now ≡ true }
    ensures { IfOk result (λ bare. bare ≡ has_bare_byte edges.now plane.now from count) }
{
    let mut taken = plane.copied(alloc)?;
    let mut left = edges;
    while let [first, rest @ ..] = left {
        taken.fill(first.at, first.size as u32, 0);
        left = rest;
    }
    Ok(!taken.all_are(from, count, 0))
}
