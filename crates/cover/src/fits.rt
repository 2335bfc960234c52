//! Whether values fit what they are paired with.
ghost use Rattle.std.specs.Prelude.{◌≡◌, ◌↔◌, ◌^◌, true, Some, nat_lt};
ghost use Rattle.graph.specs.Maps.{value_at};
ghost use Rattle.graph.specs.Meaning.{maps_of};
ghost use Rattle.graph.specs.declared.value.Value.TheVariants as v;
ghost use Rattle.cover.specs.declared.content.Content.TheVariants.{Fixed};
ghost use Rattle.cover.specs.Covers.{Fits, FitsNumber, FitsAny, FitsAddress, FitsAt};
ghost use Rattle.cover.specs.Found.{pairing_of};
ghost use Rattle.cover.specs.Checked.{IsFinished, Settled, AreFitting};

use crate::content::Content;
use crate::found::{Found, are_equal, content_with};
use crate::worklist::partner;
use graph::{Graph, Target, Value};

/// Whether a number has at most so many bytes.
#[tactic(auto, using(crate::proofs::Sizes::fits_any_size))]
fn fits_size(number: u64, size: u8) -> bool
    ensures { result ≡ nat_lt number (256 ^ size) }
{
    match size {
        0 => number < 1,
        1 => number < 256,
        2 => number < 65536,
        3 => number < 16777216,
        4 => number < 4294967296,
        5 => number < 1099511627776,
        6 => number < 281474976710656,
        7 => number < 72057594037927936,
        _ => true,
    }
}

/// Whether the value with a key is a number of this size.
fn is_number(graph: &Graph, key: u32, size: u8) -> bool
    ensures { (result ≡ true) ↔ (value_at graph.now.values key ≡ Some (v.Number size)) }
{
    match graph.value(key) {
        Some(Value::Number { size: other }) => *other == size,
        _ => false,
    }
}

/// Whether the value with a key may be any word.
fn is_any(graph: &Graph, key: u32) -> bool
    ensures { (result ≡ true) ↔ (value_at graph.now.values key ≡ Some v.Any) }
{
    match graph.value(key) {
        Some(Value::Any) => true,
        _ => false,
    }
}

/// Whether what a number of this size is paired with is one of its numbers.
fn fits_number(narrow: &Graph, size: u8, content: Content) -> bool
    ensures { (result ≡ true) ↔ FitsNumber (maps_of narrow.now) size content }
{
    match content {
        Content::Fixed {
            number,
            size: other,
        } => other == size && fits_size(number, size),
        Content::Leads { .. } => false,
        Content::Kept { key } => is_number(narrow, key, size),
    }
}

/// Whether what a value that may be any word is paired with is one of eight bytes that is no known address.
fn fits_any(narrow: &Graph, content: Content) -> bool
    ensures { (result ≡ true) ↔ FitsAny (maps_of narrow.now) content }
{
    match content {
        Content::Fixed { number, size } => size == 8 && fits_size(number, 8),
        Content::Leads { .. } => false,
        Content::Kept { key } => is_any(narrow, key) || is_number(narrow, key, 8),
    }
}

/// Whether what an address is paired with leads to the partner of its object.
fn fits_address(found: &Found, object: u32, offset: i64, target: Target, content: Content) -> bool
    ensures { (result ≡ true) ↔ FitsAddress (pairing_of found.now) object offset target content }
{
    match partner(found, object) {
        Some(other) => are_equal(
            content,
            Content::Leads {
                object: other,
                offset,
                target,
            },
        ),
        None => false,
    }
}

/// Whether the value with a key fits what it is paired with.
pub(crate) fn fits(found: &Found, wide: &Graph, narrow: &Graph, key: u32, content: Content) -> bool
    ensures { (result ≡ true) ↔ FitsAt (maps_of wide.now) (maps_of narrow.now) (pairing_of found.now) key content }
{
    match wide.value(key) {
        Some(Value::Const { number, size }) => are_equal(
            content,
            Content::Fixed {
                number: *number,
                size: *size,
            },
        ),
        Some(Value::Number { size }) => fits_number(narrow, *size, content),
        Some(Value::Any) => fits_any(narrow, content),
        Some(
            Value::Address {
                object,
                offset,
                target,
            },
        ) => fits_address(found, *object, *offset, *target, content),
        None => false,
    }
}

/// Whether each value fits what it is paired with. If one does not, nothing covers.
pub(crate) fn values_fit(found: &Found, wide: &Graph, narrow: &Graph) -> bool
    requires finished { IsFinished (maps_of wide.now) (maps_of narrow.now) found.now }
    ensures { Settled (maps_of wide.now) (maps_of narrow.now) (AreFitting (maps_of wide.now) (maps_of narrow.now) found.now) result }
{
    let mut at = 0;
    while at < found.values.len() {
        if let Some(content) = content_with(found, at as u32) {
            if !fits(found, wide, narrow, at as u32, content) {
                return false;
            }
        }
        at += 1;
    }
    true
}
