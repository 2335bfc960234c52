//! What is seen at once, before all that a covering needs is paired.
ghost use Rattle.std.specs.Prelude.{◌≡◌, ◌≤◌, true};
ghost use Rattle.planes.specs.Lanes.{are_at_most};
ghost use Rattle.graph.specs.Maps.{object_at, value_at};
ghost use Rattle.graph.specs.Meaning.{maps_of};
ghost use Rattle.graph.specs.Whole.{IsGraph};
ghost use Rattle.cover.specs.Covers.{Covers};
ghost use Rattle.cover.specs.Quick.{is_fixed, is_pointer, may_fit, are_met, may_be_paired, variables_agree, registers_agree, may_cover, one_if_live, live_count};

use crate::alike::is_at_most;
use crate::content::Content;
use crate::edges::{content_of, held_in};
use crate::node::{edges_of, plane_of};
use graph::{Graph, HasValue, Held, Named, Object, Value};
use planes::Plane;

/// Whether this constant is held.
fn is_fixed(held: Option<Content>, number: u64, size: u8) -> bool
    ensures { result ≡ is_fixed number size held }
{
    match held {
        Some(
            Content::Fixed {
                number: other,
                size: other_size,
            },
        ) => other == number && other_size == size,
        _ => false,
    }
}

/// Whether an address is held.
fn is_pointer(held: Option<Content>) -> bool
    ensures { result ≡ is_pointer held }
{
    match held {
        Some(Content::Leads { .. }) => true,
        _ => false,
    }
}

/// Whether the value with a key may be paired with what is held.
fn may_fit(wide: &Graph, key: u32, held: Option<Content>) -> bool
    ensures { result ≡ may_fit (value_at wide.now.values key) held }
{
    match wide.value(key) {
        Some(Value::Const { number, size }) => is_fixed(held, *number, *size),
        Some(Value::Address { .. }) => is_pointer(held),
        _ => true,
    }
}

/// Whether the value of each of these edges may be paired with what the other object holds there.
fn are_met(wide: &Graph, narrow: &Graph, other: &Object, edges: &[HasValue]) -> bool
    ensures { result ≡ are_met (maps_of wide.now) (maps_of narrow.now) other.now edges.now }
{
    let mut left = edges;
    while let [first, rest @ ..] = left {
        if !may_fit(
            wide,
            first.value,
            held_in(narrow, other, first.at, first.size),
        ) {
            return false;
        }
        left = rest;
    }
    true
}

/// Whether each byte has at most the class of the other one.
#[tactic(auto, using(crate::proofs::Sight::same_truth))]
fn are_at_most(low: &Plane, high: &Plane) -> bool
    ensures { result ≡ are_at_most low.now high.now }
{
    is_at_most(low, high)
}

/// Whether two live objects may be paired.
fn may_be_paired(wide: &Graph, narrow: &Graph, key: u32, with: u32) -> bool
    ensures { result ≡ may_be_paired (maps_of wide.now) (maps_of narrow.now) (object_at wide.now.objects key) (object_at narrow.now.objects with) }
{
    match (wide.object(key), narrow.object(with)) {
        (Some(one), Some(other)) => {
            are_at_most(plane_of(other), plane_of(one))
                && are_met(wide, narrow, other, edges_of(one))
        }
        _ => false,
    }
}

/// Whether the same variables are named, and their objects may be paired.
fn variables_agree(wide: &Graph, narrow: &Graph, ones: &[Named], others: &[Named]) -> bool
    ensures { result ≡ variables_agree (maps_of wide.now) (maps_of narrow.now) ones.now others.now }
{
    let mut left = ones;
    let mut others_left = others;
    while let [one, rest @ ..] = left {
        match others_left {
            [] => return false,
            [other, more @ ..] => {
                if one.variable != other.variable {
                    return false;
                }
                if !may_be_paired(wide, narrow, one.object, other.object) {
                    return false;
                }
                others_left = more;
            }
        }
        left = rest;
    }
    match others_left {
        [] => true,
        [_, ..] => false,
    }
}

/// Whether the same registers hold something, and their values may be paired.
fn registers_agree(wide: &Graph, narrow: &Graph, ones: &[Held], others: &[Held]) -> bool
    ensures { result ≡ registers_agree (maps_of wide.now) (maps_of narrow.now) ones.now others.now }
{
    let mut left = ones;
    let mut others_left = others;
    while let [one, rest @ ..] = left {
        match others_left {
            [] => return false,
            [other, more @ ..] => {
                if one.register != other.register {
                    return false;
                }
                if !may_fit(wide, one.value, Some(content_of(narrow, other.value))) {
                    return false;
                }
                others_left = more;
            }
        }
        left = rest;
    }
    match others_left {
        [] => true,
        [_, ..] => false,
    }
}

/// Whether the wider graph may cover the narrower one, as far as is seen at once: the same variables are named and the same registers hold something, and where
/// the object of a variable or a register of the wider one holds a constant or an address, the other one holds the same constant, or an address. Where this is
/// false nothing covers; where it is true `covers` decides. It takes no memory, and time in proportion to what the two graphs say of variables and registers, but
/// for the edges of one object, which are looked for one by one.
#[tactic(auto, using(crate::proofs::Sight::passes_test, crate::proofs::Sight::registers_apart, crate::proofs::Sight::both_agree))]
pub fn may_cover(wide: &Graph, narrow: &Graph) -> bool
    ensures tells { result ≡ may_cover wide.now narrow.now }
    ensures passes { Covers wide.now narrow.now → result ≡ true }
{
    if !registers_agree(wide, narrow, wide.registers(), narrow.registers()) {
        return false;
    }
    variables_agree(wide, narrow, wide.variables(), narrow.variables())
}

/// How an object counts among those that live.
fn one_if_live(graph: &Graph, key: u32) -> u32
    ensures result { result ≡ one_if_live (object_at graph.now.objects key) }
    ensures at_most_one { result ≤ 1 }
{
    match graph.object(key) {
        Some(object) => { if object.live { 1 } else { 0 } }
        None => 0,
    }
}

/// How many objects live. Where one graph covers another one, equally many live in both (`what_covers_has_as_many_live_objects`). It takes no memory.
#[tactic(auto, using(crate::proofs::Counting::count_start, crate::proofs::Counting::count_end))]
pub fn live_count(graph: &Graph) -> u32
    ensures count { result ≡ live_count graph.now }
    ensures graph { IsGraph graph.now }
{
    let count = graph.object_count();
    let mut live = 0;
    let mut key = 0;
    while key < count {
        live += one_if_live(graph, key);
        key += 1;
    }
    live
}
