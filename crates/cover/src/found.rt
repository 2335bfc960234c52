//! What is paired so far.
ghost use Rattle.std.specs.Prelude.{◌≡◌, ◌↔◌, ◌<◌, true, length, None, Some, IfOk, slice_index_or};
ghost use Rattle.graph.specs.Maps.{value_at};
ghost use Rattle.graph.specs.Meaning.{maps_of};
ghost use Rattle.cover.specs.Covers.{Objects, Values, IsReached};
ghost use Rattle.cover.specs.Found.{led_from, led_to, Pairs, Puts, Aims, IsCounted, AreMutual, IsSound, Goes};

use crate::content::Content;
use cbase::NoMemory;
use graph::{Graph, Value};

/// With what each object and value of the wider graph is paired, and back from the objects of the other one; and the
/// objects of the wider graph that are paired, in the order in which they were.
#[derive(Drop)]
pub(crate) struct Found {
    pub(crate) objects: Vec<Option<u32>>,
    pub(crate) back: Vec<Option<u32>>,
    pub(crate) values: Vec<Option<Content>>,
    pub(crate) queue: Vec<u32>,
}

/// Pairs two objects. False exactly where one of them has another partner.
#[tactic(auto, using(crate::proofs::Alone::counted_more))]
pub(crate) fn pair_objects(found: &mut Found, one: u32, other: u32) -> Result<bool, NoMemory>
    requires one { one < length found.old.objects.items }
    requires other { other < length found.old.back.items }
    requires both { AreMutual found.old }
    ensures both { IfOk result (λ fine. AreMutual found.new) }
    ensures pairs { IfOk result (λ fine. Pairs found.old found.new one other fine) }
    ensures counted { IfOk result (λ fine. IsCounted found.old found.new) }
{
    match (found.objects[one as usize], found.back[other as usize]) {
        (None, None) => {
            found.queue.push(one)?;
            found.objects[one as usize] = Some(other);
            found.back[other as usize] = Some(one);
            Ok(true)
        }
        (Some(known), Some(owner)) => Ok(known == other && owner == one),
        _ => Ok(false),
    }
}

/// With what a value is paired.
pub(crate) fn content_with(found: &Found, key: u32) -> Option<Content>
    requires { key < length found.now.values.items }
    ensures { result ≡ slice_index_or found.now.values.items key None }
{
    found.values[key as usize]
}

/// Whether two contents are equal.
pub(crate) fn are_equal(one: Content, other: Content) -> bool
    ensures { (result ≡ true) ↔ (one ≡ other) }
{
    one == other
}

/// Pairs a value that has no partner yet.
fn put_value(found: &mut Found, key: u32, content: Content)
    requires within { key < length found.old.values.items }
    requires alone { slice_index_or found.old.values.items key None ≡ None }
    ensures { Puts found.old found.new key content }
{
    found.values[key as usize] = Some(content);
}

/// The object to which the value with a key leads, if it is an address.
fn led_from(wide: &Graph, key: u32) -> Option<u32>
    ensures { result ≡ led_from (value_at wide.now.values key) }
{
    match wide.value(key) {
        Some(Value::Address { object, .. }) => Some(*object),
        _ => None,
    }
}

/// The object to which a content leads, if it is an address.
fn led_to(content: Content) -> Option<u32>
    ensures { result ≡ led_to content }
{
    match content {
        Content::Leads { object, .. } => Some(object),
        _ => None,
    }
}

/// Pairs two objects that are reached together. False only where nothing covers.
#[tactic(auto, using(crate::proofs::Go::object_outside, crate::proofs::Go::other_outside))]
pub(crate) fn pair_reached(
    found: &mut Found,
    wide: &Graph,
    narrow: &Graph,
    one: u32,
    other: u32,
) -> Result<bool, NoMemory>
    requires sound { IsSound (maps_of wide.now) (maps_of narrow.now) found.old }
    requires reached { IsReached (maps_of wide.now) (maps_of narrow.now) (Objects one other) }
    ensures goes { IfOk result (λ fine. Goes (maps_of wide.now) (maps_of narrow.now) found.old found.new (Objects one other) fine) }
    ensures values { IfOk result (λ fine. found.new.values.items ≡ found.old.values.items) }
{
    if one as usize >= found.objects.len() {
        return Ok(false);
    }
    if other as usize >= found.back.len() {
        return Ok(false);
    }
    let fine = pair_objects(found, one, other)?;
    Ok(fine)
}

/// Pairs the object to which a value leads. False only where no pairing covers.
#[tactic(auto, using(crate::proofs::Go::target_stays_from, crate::proofs::Go::target_stays_to))]
fn pair_target(
    found: &mut Found,
    wide: &Graph,
    narrow: &Graph,
    key: u32,
    content: Content,
) -> Result<bool, NoMemory>
    requires sound { IsSound (maps_of wide.now) (maps_of narrow.now) found.old }
    requires reached { IsReached (maps_of wide.now) (maps_of narrow.now) (Values key content) }
    ensures { IfOk result (λ fine. Aims (maps_of wide.now) (maps_of narrow.now) found.old found.new key content fine) }
{
    let one = match led_from(wide, key) {
        Some(one) => one,
        None => return Ok(true),
    };
    let other = match led_to(content) {
        Some(other) => other,
        None => return Ok(true),
    };
    let fine = pair_reached(found, wide, narrow, one, other)?;
    Ok(fine)
}

/// Pairs a value, and the object to which it leads. False only where no pairing covers.
#[tactic(auto, using(crate::proofs::Go::value_clashes, crate::proofs::Go::value_outside))]
pub(crate) fn pair_value(
    found: &mut Found,
    wide: &Graph,
    narrow: &Graph,
    key: u32,
    content: Content,
) -> Result<bool, NoMemory>
    requires sound { IsSound (maps_of wide.now) (maps_of narrow.now) found.old }
    requires reached { IsReached (maps_of wide.now) (maps_of narrow.now) (Values key content) }
    ensures { IfOk result (λ fine. Goes (maps_of wide.now) (maps_of narrow.now) found.old found.new (Values key content) fine) }
{
    if key as usize >= found.values.len() {
        return Ok(false);
    }
    if let Some(known) = content_with(found, key) {
        return Ok(are_equal(known, content));
    }
    if !pair_target(found, wide, narrow, key, content)? {
        return Ok(false);
    }
    put_value(found, key, content);
    Ok(true)
}
