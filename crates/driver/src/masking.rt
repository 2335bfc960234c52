//! Where the graphs at a point hold constants: a mask for each list of cells that occurs.
ghost use Rattle.std.specs.Prelude.{◌≡◌, ◌<◌, true, length, map, OnOk};
ghost use Rattle.driver.specs.Linked.{AreLinked};
ghost use Rattle.driver.specs.Peers.{HasMask, mask_key, PutsMask};
ghost use Rattle.driver.specs.SameCells.{is_same_cell, are_same_cells};

use crate::looking::mark_in;
use crate::mask::{Mask, Masks};
use cbase::{List, NoMemory};
use cover::Cell;

/// Whether two cells are one.
fn is_same(one: &Cell, other: &Cell) -> bool
    ensures { result ≡ is_same_cell one.now other.now }
{
    one.variable == other.variable && one.at == other.at && one.size == other.size
}

/// Whether two lists have the same cells.
fn are_same(ones: &[Cell], others: &[Cell]) -> bool
    ensures { result ≡ are_same_cells ones.now others.now }
{
    let mut left = ones;
    let mut others_left = others;
    while let [one, rest @ ..] = left {
        match others_left {
            [] => return false,
            [other, more @ ..] => {
                if !is_same(one, other) {
                    return false;
                }
                others_left = more;
            }
        }
        left = rest;
    }
    match others_left {
        [] => true,
        [_, ..] => false,
    }
}

/// Whether the mask of this number stands at the point and has these cells.
fn has_cells(masks: &[Mask], number: usize, point: u32, cells: &[Cell]) -> bool
    ensures { result ≡ true → HasMask masks.now point cells.now }
{
    match masks.get(number) {
        None => false,
        Some(mask) => mask.point == point && are_same(mask.cells.as_slice(), cells),
    }
}

/// Whether a mask of the point has these cells.
fn has_mask(masks: &Masks, point: u32, cells: &[Cell]) -> bool
    requires linked { AreLinked (map mask_key masks.now.items) masks.now.newest.items masks.now.before.items }
    ensures { result ≡ true → HasMask masks.now.items point cells.now }
{
    let mut mark = mark_in(masks.newest.as_slice(), point as usize);
    while mark != 0 {
        let number = mark - 1;
        if has_cells(masks.items.as_slice(), number, point, cells) {
            return true;
        }
        mark = mark_in(masks.before.as_slice(), number);
    }
    false
}

/// Puts in a mask.
fn add_mask(masks: &mut Masks, point: u32, cells: List<Cell>) -> Result<(), NoMemory>
    requires linked { AreLinked (map mask_key masks.old.items) masks.old.newest.items masks.old.before.items }
    requires within { point < length masks.old.newest.items }
    ensures { OnOk result (PutsMask masks.old masks.new point cells) }
{
    let number = masks.items.len();
    if number >= 4_000_000_000 {
        return Err(NoMemory);
    }
    let mark = mark_in(masks.newest.as_slice(), point as usize);
    masks.before.push(mark)?;
    masks.newest[point as usize] = number + 1;
    masks.items.push(Mask { point, cells })?;
    Ok(())
}

/// Puts in a mask, unless the point has one with these cells.
pub(crate) fn put_mask(masks: &mut Masks, point: u32, cells: List<Cell>) -> Result<(), NoMemory>
    requires linked { AreLinked (map mask_key masks.old.items) masks.old.newest.items masks.old.before.items }
    requires within { point < length masks.old.newest.items }
    ensures { OnOk result (PutsMask masks.old masks.new point cells) }
{
    if has_mask(masks, point, cells.as_slice()) {
        drop(cells);
        return Ok(());
    }
    add_mask(masks, point, cells)
}
