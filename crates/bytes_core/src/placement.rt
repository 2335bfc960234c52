ghost use Rattle.std.specs.Prelude.{◌≡◌, ◌+◌, nat_le, slice_get, IsTrue};
ghost use Rattle.std.specs.List.{list_all};
ghost use Rattle.bytes_core.specs.Indexed.{heads, IsIndexed};
ghost use Rattle.bytes_core.specs.Living.{fits_there};
ghost use Rattle.bytes_core.specs.Placement.{extent, is_placed, are_apart, are_compatible, can_be_placed};
ghost use Rattle.bytes_core.specs.Valid.{IsMemory};

use crate::access::block_at;
use crate::block::Block;
use crate::index::{Index, last_before};

/// Where the addresses of blocks end: 2^47.
const END: u64 = 0x8000_0000_0000;

/// How many bytes of addresses a block takes.
fn extent(block: &Block) -> usize
    ensures { result ≡ extent block.now }
{
    block.bytes.len().max(16)
}

/// Whether a block lies where a block may lie.
fn is_placed(block: &Block) -> bool
    ensures { result ≡ is_placed block.now }
{
    if block.base % 16 != 0 {
        return false;
    }
    if block.base < 16 {
        return false;
    }
    if block.base > END {
        return false;
    }
    extent(block) as u64 <= END - block.base
}

/// Whether a block ends before another begins.
fn ends_before(one: &Block, other: &Block) -> bool
    ensures { result ≡ nat_le (one.now.base + extent one.now) other.now.base }
{
    if one.base > other.base {
        return false;
    }
    extent(one) as u64 <= other.base - one.base
}

/// Whether two blocks may stand in one memory.
fn are_compatible(one: &Block, other: &Block) -> bool
    ensures { result ≡ are_compatible one.now other.now }
{
    if !one.live {
        return true;
    }
    if !other.live {
        return true;
    }
    if ends_before(one, other) {
        return true;
    }
    ends_before(other, one)
}

/// Whether a block may stand in one memory with that of a number, if there is one.
fn fits_there(blocks: &[Block], number: usize, block: &Block) -> bool
    ensures { result ≡ fits_there block.now (slice_get blocks.now number) }
{
    match block_at(blocks, number) {
        None => true,
        Some(other) => are_compatible(block, other),
    }
}

/// Where the addresses of a block end that lies where a block may lie.
fn end_of(block: &Block) -> u64
    requires { IsTrue (is_placed block.now) }
    ensures { result ≡ block.now.base + extent block.now }
{
    block.base + extent(block) as u64
}

/// Whether a block that lies where a block may lie may stand in one memory with all blocks: with the one that begins last of
/// those before its end, since the others there end before that one begins.
fn fits_beside(blocks: &[Block], index: &Index, block: &Block) -> bool
    requires memory { IsMemory blocks.now }
    requires indexed { IsIndexed (heads blocks.now) index.now.live.numbers.items index.now.live.places.items index.now.bases index.now.heap }
    requires placed { IsTrue (is_placed block.now) }
    ensures { result ≡ list_all (are_compatible block.now) blocks.now }
{
    match last_before(&index.bases, end_of(block)) {
        None => true,
        Some(number) => fits_there(blocks, number, block),
    }
}

/// Whether a block may be put into a memory. It takes a logarithm of how many blocks live.
pub(crate) fn can_be_placed(blocks: &[Block], index: &Index, block: &Block) -> bool
    requires memory { IsMemory blocks.now }
    requires indexed { IsIndexed (heads blocks.now) index.now.live.numbers.items index.now.live.places.items index.now.bases index.now.heap }
    ensures { result ≡ can_be_placed blocks.now block.now }
{
    if !is_placed(block) {
        return false;
    }
    fits_beside(blocks, index, block)
}
