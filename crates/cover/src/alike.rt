//! Whether objects that are paired look alike.
ghost use Rattle.std.specs.Prelude.{◌≡◌, ◌↔◌, true};
ghost use Rattle.graph.specs.Meaning.{maps_of};
ghost use Rattle.graph.specs.Nodes.{links_in, node_of};
ghost use Rattle.planes.specs.Lanes.{are_at_most};
ghost use Rattle.cover.specs.Covers.{IsAddress, AreLinkedAlike, AreLinksAlike};
ghost use Rattle.cover.specs.Checked.{IsFinished, Settled, StandsIfAddress, HaveAddresses, LooksAlike, LookAlikeAt, AreAlike};

use crate::content::Content;
use crate::edges::{content_of, value_in};
use crate::found::Found;
use crate::node::{edges_of, plane_of};
use crate::worklist::partner;
use graph::{Graph, HasValue, Links, Object, Shape};
use planes::Plane;

/// Whether the nodes of two segments are linked alike, and those of the first one are at least as few.
fn are_linked_alike(one: Links, other: Links) -> bool
    ensures { (result ≡ true) ↔ AreLinkedAlike one other }
{
    other.twofold == one.twofold
        && other.head == one.head
        && other.next == one.next
        && other.prev == one.prev
        && other.back == one.back
        && one.least <= other.least
}

/// Whether both are regions, or both are segments whose nodes are linked alike.
fn are_links_alike(one: &Shape, other: &Shape) -> bool
    ensures { (result ≡ true) ↔ AreLinksAlike (links_in one.now) (links_in other.now) }
{
    match one.links() {
        None => other.links().is_none(),
        Some(links) => match other.links() {
            None => false,
            Some(other_links) => are_linked_alike(links, other_links),
        },
    }
}

/// Whether a content is a pointer into an object.
fn is_address(content: Content) -> bool
    ensures { (result ≡ true) ↔ IsAddress content }
{
    match content {
        Content::Leads { .. } => true,
        _ => false,
    }
}

/// Whether each byte has at most the class of the other one.
#[tactic(auto, using(crate::proofs::Classes::most_as_long, crate::proofs::Classes::most_of_all, crate::proofs::Classes::all_of_most))]
pub(crate) fn is_at_most(low: &Plane, high: &Plane) -> bool
    ensures { (result ≡ true) ↔ (are_at_most low.now high.now ≡ true) }
{
    if low.len() != high.len() {
        return false;
    }
    low.at_most(high)
}

/// Whether one of these edges has the range of an edge that holds an address.
#[tactic(auto, using(crate::proofs::Standing::stands, crate::proofs::Standing::stands_not))]
fn stands(narrow: &Graph, ones: &[HasValue], edge: HasValue) -> bool
    ensures { (result ≡ true) ↔ StandsIfAddress (maps_of narrow.now) ones.now edge }
{
    if !is_address(content_of(narrow, edge.value)) {
        return true;
    }
    match value_in(ones, edge.at, edge.size) {
        Some(_) => true,
        None => false,
    }
}

/// Whether each edge that holds an address has one of the other edges at its range.
fn have_addresses(narrow: &Graph, ones: &[HasValue], others: &[HasValue]) -> bool
    ensures { (result ≡ true) ↔ HaveAddresses (maps_of narrow.now) ones.now others.now }
{
    let mut at = 0;
    while at < others.len() {
        if !stands(narrow, ones, others[at]) {
            return false;
        }
        at += 1;
    }
    true
}

/// Whether two objects that live look alike.
fn are_live_alike(narrow: &Graph, one: &Object, other: &Object) -> bool
    requires live { one.now.live ≡ true }
    requires both_live { other.now.live ≡ one.now.live }
    requires kind { other.now.kind ≡ one.now.kind }
    requires links { AreLinksAlike (links_in one.now.shape) (links_in other.now.shape) }
    ensures { (result ≡ true) ↔ LooksAlike (maps_of narrow.now) one.now other.now }
{
    other.size == one.size
        && is_at_most(plane_of(other), plane_of(one))
        && have_addresses(narrow, edges_of(one), edges_of(other))
}

/// Whether two objects look alike.
fn look_alike(narrow: &Graph, one: &Object, other: &Object) -> bool
    ensures { (result ≡ true) ↔ LooksAlike (maps_of narrow.now) one.now other.now }
{
    if other.live != one.live {
        return false;
    }
    if other.kind != one.kind {
        return false;
    }
    if !are_links_alike(&one.shape, &other.shape) {
        return false;
    }
    if !one.live {
        return true;
    }
    are_live_alike(narrow, one, other)
}

/// Whether the objects with two keys look alike.
fn look_alike_at(wide: &Graph, narrow: &Graph, key: u32, with: u32) -> bool
    ensures { (result ≡ true) ↔ LookAlikeAt (maps_of wide.now) (maps_of narrow.now) key with }
{
    match (wide.object(key), narrow.object(with)) {
        (Some(one), Some(other)) => look_alike(narrow, one, other),
        _ => false,
    }
}

/// Whether objects that are paired look alike. If two do not, nothing covers.
pub(crate) fn objects_are_alike(found: &Found, wide: &Graph, narrow: &Graph) -> bool
    requires finished { IsFinished (maps_of wide.now) (maps_of narrow.now) found.now }
    ensures { Settled (maps_of wide.now) (maps_of narrow.now) (AreAlike (maps_of wide.now) (maps_of narrow.now) found.now) result }
{
    let mut at = 0;
    while at < found.objects.len() {
        if let Some(with) = partner(found, at as u32) {
            if !look_alike_at(wide, narrow, at as u32, with) {
                return false;
            }
        }
        at += 1;
    }
    true
}
