//! Whether the ranges of edges stand in order, and whether they share a byte.
ghost use Rattle.std.specs.Prelude.{◌≡◌};
ghost use Rattle.std.specs.List.{list_all};
ghost use Rattle.graph.specs.Points.{neighbours};
ghost use Rattle.graph.specs.WellFormed.{are_in_order, lies_before, share_no_byte};

use crate::edges::HasValue;

/// Whether each of these edges ends before each later one begins.
#[tactic(auto, using(crate::proofs::InOrder::in_order_neighbours))]
pub(crate) fn are_in_order(edges: &[HasValue]) -> bool
    ensures { result ≡ are_in_order edges.now }
{
    lie_in_order(edges)
}

/// Whether each of these edges ends before the one behind it begins.
fn lie_in_order(edges: &[HasValue]) -> bool
    ensures order { result ≡ neighbours lies_before edges.now }
{
    let mut left = edges;
    while let [first, rest @ ..] = left {
        if let [second, ..] = rest {
            if !lies_before(first, second) {
                return false;
            }
        }
        left = rest;
    }
    true
}

/// Whether an edge ends before another begins.
pub(crate) fn lies_before(edge: &HasValue, other: &HasValue) -> bool
    ensures { result ≡ lies_before edge.now other.now }
{
    edge.at as u64 + edge.size as u64 <= other.at as u64
}

/// Whether an edge shares no byte with any of the others.
pub(crate) fn is_apart(edge: &HasValue, others: &[HasValue]) -> bool
    ensures { result ≡ list_all (share_no_byte edge.now) others.now }
{
    let mut left = others;
    while let [first, rest @ ..] = left {
        if !shares_no_byte(edge, first) {
            return false;
        }
        left = rest;
    }
    true
}

/// Whether the ranges of two edges share no byte.
fn shares_no_byte(edge: &HasValue, other: &HasValue) -> bool
    ensures { result ≡ share_no_byte edge.now other.now }
{
    if lies_before(edge, other) {
        return true;
    }
    lies_before(other, edge)
}
