ghost use Rattle.std.specs.Prelude.{◌≡◌, ℕ, ◌+◌, ◌<◌, ◌≤◌, ◌^◌, List as Items, [], ◌∷◌, ◌++◌, Option, None, IsTrue, IfSome, IfNone, OnOk, OnErr, length, set, slice_get, Some};
ghost use Rattle.std.specs.BTreeMap.{IsUnchanged, get};
ghost use Rattle.std.specs.Ordering.{nat_cmp};
ghost use Rattle.bytes_core.specs.Indexed.{head, heads, live_base, AreBases, heap_share, IsIndexed, IsLastBefore, BeginNotBefore};
ghost use Rattle.bytes_core.specs.Placement.{can_be_placed};
ghost use Rattle.bytes_core.specs.Release.{without};
ghost use Rattle.bytes_core.specs.Valid.{IsMemory};

use crate::block::Block;
use crate::live::{Live, count_in, count_out, make_room, none_live};
use crate::release::is_heap;
use cbase::NoMemory;
use std::alloc::Global;
use std::collections::BTreeMap;

/// What is kept beside the blocks of a memory, so that no question goes over all of them.
#[derive(Drop)]
pub(crate) struct Index {
    /// Which blocks live.
    pub(crate) live: Live,
    /// The numbers of the live blocks, by their bases.
    pub(crate) bases: BTreeMap<u64, usize>,
    /// How many live blocks are of the heap.
    pub(crate) heap: usize,
}

/// What is kept where there is no block. It takes no memory.
pub(crate) fn empty_index(alloc: Global) -> Index
    ensures { IsIndexed [] result.live.numbers.items result.live.places.items result.bases result.heap }
{
    Index {
        live: none_live(alloc),
        bases: BTreeMap::new(alloc),
        heap: 0,
    }
}

/// The number of the block that begins last of those that begin before an address, if one does. It takes a logarithm of
/// their count.
pub(crate) fn last_before(bases: &BTreeMap<u64, usize>, end: u64) -> Option<usize>
    ensures some { IfSome result (λ number. IsLastBefore bases.now end number) }
    ensures none { IfNone result (BeginNotBefore bases.now end) }
{
    match bases.range(..end).next_back() {
        None => None,
        Some((_, number)) => Some(*number),
    }
}

/// Notes where a block that is to stand behind the others begins, if it lives. Where memory is wanting all stays as it was.
fn note_base(bases: &mut BTreeMap<u64, usize>, block: &Block, number: usize) -> Result<(), NoMemory>
    ensures ok { OnOk result ((begins : Items (Option ℕ)) → number ≡ length begins → AreBases begins bases.old →
        (IsTrue block.now.live → get nat_cmp bases.old block.now.base ≡ None) → AreBases (begins ++ live_base (head block.now) ∷ []) bases.new) }
    ensures err { OnErr result (IsUnchanged bases.old bases.new) }
{
    if !block.live {
        return Ok(());
    }
    bases.insert(block.base, number)?;
    Ok(())
}

/// Forgets where a block begins that ends, if it lives.
fn forget_base(bases: &mut BTreeMap<u64, usize>, block: &Block)
    ensures { (begins : Items (Option ℕ)) (number : ℕ) → slice_get begins number ≡ Some (live_base (head block.now)) →
        AreBases begins bases.old → AreBases (set begins number None) bases.new }
{
    if !block.live {
        return;
    }
    let _ = bases.remove(&block.base);
}

/// Counts a block, if it is of the heap and lives.
fn count_heap(heap: &mut usize, block: &Block)
    requires { heap.old + 1 < 2 ^ 64 }
    ensures { heap.new ≡ heap.old + heap_share (head block.now) }
{
    if is_heap(block.kind) && block.live {
        *heap += 1;
    }
}

/// Counts a block no longer, if it is of the heap and lives.
fn discount_heap(heap: &mut usize, block: &Block)
    requires { heap_share (head block.now) ≤ heap.old }
    ensures { heap.new + heap_share (head block.now) ≡ heap.old }
{
    if is_heap(block.kind) && block.live {
        *heap -= 1;
    }
}

/// Takes a block in that is put behind the others. Where memory is wanting what is kept stays right of those.
pub(crate) fn enter(index: &mut Index, blocks: &[Block], block: &Block) -> Result<(), NoMemory>
    requires memory { IsMemory blocks.now }
    requires indexed { IsIndexed (heads blocks.now) index.old.live.numbers.items index.old.live.places.items index.old.bases index.old.heap }
    requires apart { IsTrue (can_be_placed blocks.now block.now) }
    requires few { length blocks.now < 2 ^ 32 }
    ensures ok { OnOk result (IsIndexed (heads (blocks.now ++ block.now ∷ [])) index.new.live.numbers.items index.new.live.places.items index.new.bases index.new.heap) }
    ensures err { OnErr result (IsIndexed (heads blocks.now) index.new.live.numbers.items index.new.live.places.items index.new.bases index.new.heap) }
{
    make_room(&mut index.live)?;
    note_base(&mut index.bases, block, blocks.len())?;
    count_heap(&mut index.heap, block);
    count_in(&mut index.live, block.live);
    Ok(())
}

/// Takes a block out that ends. It takes no memory.
pub(crate) fn leave(index: &mut Index, blocks: &[Block], number: usize)
    requires indexed { IsIndexed (heads blocks.now) index.old.live.numbers.items index.old.live.places.items index.old.bases index.old.heap }
    requires stands { number < length blocks.now }
    ensures { IsIndexed (heads (without blocks.now number (slice_get blocks.now number))) index.new.live.numbers.items index.new.live.places.items index.new.bases index.new.heap }
{
    let block = &blocks[number];
    forget_base(&mut index.bases, block);
    discount_heap(&mut index.heap, block);
    count_out(&mut index.live, number);
}
