//! Whether a graph is large.
ghost use Rattle.std.specs.Prelude.{◌≡◌, nat_lt, sum_by, IfOk};
ghost use Rattle.graph.specs.Large.{is_large, live_nodes_of};
ghost use Rattle.graph.specs.Whole.{entries_of};

use crate::addressed::{dead, dead_and_marked, marks_of};
use crate::build::nodes_of;
use crate::contents::{Contents, Objects};
use crate::object::Object;
use cbase::NoMemory;
use std::alloc::Global;

/// From how many live nodes, dead objects that are addressed, or unequal pairs on a graph is large.
pub const LARGE: u32 = 33_554_432;

/// The same for a part of a step, which is lent graphs whose segments the step has split.
pub const LARGE_WITHIN_A_STEP: u32 = 134_217_728;

/// For how many live nodes an object counts.
fn live_nodes_of(object: &Object) -> u32
    ensures { result ≡ live_nodes_of object.now }
{
    if object.live {
        nodes_of(&object.shape)
    } else {
        0
    }
}

/// Whether there are fewer live nodes than this.
#[tactic(auto, using(crate::proofs::AllMarked::fold_left, crate::proofs::AllMarked::fold_all))]
fn has_fewer_live_nodes(objects: &Objects, bound: u32) -> bool
    ensures { result ≡ nat_lt (sum_by live_nodes_of objects.now) bound }
{
    let mut count: u64 = 0;
    for key in 0..objects.len() {
        match objects.get(key) {
            Some(object) => {
                count += live_nodes_of(object) as u64;
                if count >= bound as u64 {
                    return false;
                }
            }
            None => unreachable!(),
        }
    }
    count < bound as u64
}

/// Whether what a graph holds has so many live nodes, dead objects that are addressed, or unequal pairs. It takes memory only
/// where there are so many dead objects.
#[tactic(auto, using(crate::proofs::HowLarge::by_live, crate::proofs::HowLarge::by_pairs, crate::proofs::HowLarge::by_dead, crate::proofs::HowLarge::by_marks))]
pub(crate) fn is_large(alloc: Global, contents: &Contents, bound: u32) -> Result<bool, NoMemory>
    ensures { IfOk result (λ large. large ≡ is_large bound (entries_of contents.now)) }
{
    if !has_fewer_live_nodes(&contents.objects, bound) {
        return Ok(true);
    }
    if contents.unequal.len() >= bound as usize {
        return Ok(true);
    }
    if dead(&contents.objects) < bound {
        return Ok(false);
    }
    let marks = marks_of(alloc, contents)?;
    Ok(dead_and_marked(&contents.objects, marks.as_slice()) >= bound)
}
