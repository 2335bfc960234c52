//! What a copy loses.
ghost use Rattle.std.specs.Prelude.{◌≡◌, ◌&&◌, not, None, Some, IfOk, IfSome, if◌then◌else◌};
ghost use Rattle.changes.specs.Places.{IsRoom};
ghost use Rattle.changes.specs.Ranges.{cuts_none};
ghost use Rattle.graph.specs.Maps.{object_at};
ghost use Rattle.graph.specs.Whole.{IsGraph};
ghost use Rattle.range_steps.specs.Copying.{has_bare_byte, copies_all};
ghost use Rattle.range_steps.specs.Places.{IsRange};

use crate::bare::has_bare_byte;
use cbase::NoMemory;
use changes::cuts_none;
use graph::{Graph, Object};
use std::alloc::Global;

/// Whether no edge of an object overlaps a range in part.
fn cuts_none_of(object: &Object, from: u32, count: u32) -> bool
    requires range { IsRange object.now from count }
    ensures { result ≡ cuts_none from count object.now.edges }
{
    cuts_none(object.edges.as_slice(), from, count)
}

/// Whether edges tell each byte of a range that may be other than 0, and none of these reaches out of it.
fn is_told(alloc: Global, object: &Object, from: u32, count: u32) -> Result<bool, NoMemory>
    requires range { IsRange object.now from count }
    ensures { IfOk result (λ told. told ≡ (cuts_none from count object.now.edges && not (has_bare_byte object.now.edges object.now.plane from count))) }
{
    if !cuts_none_of(object, from, count) {
        return Ok(false);
    }
    match has_bare_byte(alloc, object.edges.as_slice(), &object.plane, from, count) {
        Err(error) => Err(error),
        Ok(bare) => Ok(!bare),
    }
}

/// Whether nothing that is known of a range is lost, nor of the range that it is copied to.
fn copies_all(
    alloc: Global,
    source: &Object,
    from: u32,
    target: &Object,
    at: u32,
    count: u32,
) -> Result<bool, NoMemory>
    requires source { IsRange source.now from count }
    requires target { IsRange target.now at count }
    ensures { IfOk result (λ all. all ≡ copies_all source.now from target.now at count) }
{
    match is_told(alloc, source, from, count) {
        Err(error) => Err(error),
        Ok(told) => {
            if told {
                Ok(cuts_none_of(target, at, count))
            } else {
                Ok(false)
            }
        }
    }
}

/// What a copy of bytes of one object to those of another loses.
pub(crate) fn loss_of(
    alloc: Global,
    graph: &Graph,
    count: u32,
    key: u32,
    from: u32,
    other: u32,
    at: u32,
) -> Result<Option<u8>, NoMemory>
    requires graph { IsGraph graph.now }
    requires source { IsRoom graph.now key from count }
    requires target { IsRoom graph.now other at count }
    ensures { IfOk result (λ loss. IfSome (object_at graph.now.objects key) (λ source. IfSome (object_at graph.now.objects other) (λ target. loss ≡ (if copies_all source from target at count then None else Some 3)))) }
{
    match graph.object(key) {
        None => unreachable!(),
        Some(source) => match graph.object(other) {
            None => unreachable!(),
            Some(target) => match copies_all(alloc, source, from, target, at, count) {
                Err(error) => Err(error),
                Ok(all) => { if all { Ok(None) } else { Ok(Some(3)) } }
            },
        },
    }
}
