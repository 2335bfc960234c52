//! Whether one graph covers another one.
ghost use Rattle.std.specs.Prelude.{◌≡◌, ◌↔◌, true, IfOk};
ghost use Rattle.graph.specs.Meaning.{maps_of};
ghost use Rattle.cover.specs.Covers.{Covers};
ghost use Rattle.cover.specs.Found.{IsSound};
ghost use Rattle.cover.specs.Checked.{IsFinished, Finishes};

use crate::alike::objects_are_alike;
use crate::apart::pairs_are_apart;
use crate::fits::values_fit;
use crate::found::Found;
use crate::kept::kept_are_apart;
use crate::live::live_are_paired;
use crate::roots::{pair_ports, pair_registers, pair_variables};
use crate::tables::{no_contents, no_partners};
use crate::worklist::pair_objects_of_queue;
use cbase::NoMemory;
use graph::Graph;
use std::alloc::Global;

/// Nothing is paired yet.
fn nothing_found(alloc: Global, wide: &Graph, narrow: &Graph) -> Result<Found, NoMemory>
    ensures { IfOk result (λ found. IsSound (maps_of wide.now) (maps_of narrow.now) found) }
{
    let objects = no_partners(alloc, wide.object_count())?;
    let back = no_partners(alloc, narrow.object_count())?;
    let values = no_contents(alloc, wide.value_count())?;
    Ok(Found {
        objects,
        back,
        values,
        queue: Vec::new(alloc),
    })
}

/// Pairs all that variables, registers, ports and edges force. False only where nothing covers.
fn pair_all(found: &mut Found, wide: &Graph, narrow: &Graph) -> Result<bool, NoMemory>
    requires sound { IsSound (maps_of wide.now) (maps_of narrow.now) found.old }
    ensures { IfOk result (λ fine. Finishes (maps_of wide.now) (maps_of narrow.now) found.new fine) }
{
    if !pair_variables(found, wide, narrow)? {
        return Ok(false);
    }
    if !pair_registers(found, wide, narrow)? {
        return Ok(false);
    }
    if !pair_ports(found, wide, narrow)? {
        return Ok(false);
    }
    let fine = pair_objects_of_queue(found, wide, narrow)?;
    Ok(fine)
}

/// Whether what is paired covers, where all that is forced is paired.
fn found_covers(
    alloc: Global,
    found: &Found,
    wide: &Graph,
    narrow: &Graph,
) -> Result<bool, NoMemory>
    requires finished { IsFinished (maps_of wide.now) (maps_of narrow.now) found.now }
    ensures { IfOk result (λ covers. (covers ≡ true) ↔ Covers wide.now narrow.now) }
{
    if !values_fit(found, wide, narrow) {
        return Ok(false);
    }
    if !objects_are_alike(found, wide, narrow) {
        return Ok(false);
    }
    if !live_are_paired(wide, found.objects.as_slice()) {
        return Ok(false);
    }
    if !live_are_paired(narrow, found.back.as_slice()) {
        return Ok(false);
    }
    if !kept_are_apart(alloc, found, wide, narrow)? {
        return Ok(false);
    }
    let apart = pairs_are_apart(found, wide, narrow);
    Ok(apart)
}

/// Pairs what is forced, and looks whether that covers.
fn pairs_and_covers(
    alloc: Global,
    found: &mut Found,
    wide: &Graph,
    narrow: &Graph,
) -> Result<bool, NoMemory>
    requires sound { IsSound (maps_of wide.now) (maps_of narrow.now) found.old }
    ensures { IfOk result (λ covers. (covers ≡ true) ↔ Covers wide.now narrow.now) }
{
    if !pair_all(found, wide, narrow)? {
        return Ok(false);
    }
    let covers = found_covers(alloc, found, wide, narrow)?;
    Ok(covers)
}

/// Whether the wider graph covers the narrower one: whether there is a pairing of all that lives in both, from variables, registers and ports on, in which
/// all that the wider one says of a byte, a value or a pair of values holds of what it is paired with. Then the wider one stands for each state that the
/// narrower one stands for (`what_is_covered_is_stood_for`). A region is paired with a region, and a segment with a segment whose nodes are linked alike, of
/// which there are at least as many at least. Takes time in proportion to both graphs, but for edges of one object and for unequal pairs, which are looked
/// for one by one.
pub fn covers(alloc: Global, wide: &Graph, narrow: &Graph) -> Result<bool, NoMemory>
    ensures { IfOk result (λ covers. (covers ≡ true) ↔ Covers wide.now narrow.now) }
{
    let mut found = nothing_found(alloc, wide, narrow)?;
    match pairs_and_covers(alloc, &mut found, wide, narrow) {
        Ok(covers) => {
            drop(found);
            Ok(covers)
        }
        Err(error) => {
            drop(found);
            Err(error)
        }
    }
}
