ghost use Rattle.std.specs.Prelude.{◌≡◌, slice_get, OnOk, OnErr, MatchResult, None, Some};
ghost use Rattle.bytes_core.specs.Answer.{answer};
ghost use Rattle.bytes_core.specs.Indexed.{heads, IsIndexed};
ghost use Rattle.bytes_core.specs.Release.{is_heap, block_free_fault, free_fault, without, freed};
ghost use Rattle.bytes_core.specs.Valid.{IsMemory};

use crate::access::block_at;
use crate::block::{Block, BlockKind};
use crate::fault::{DOUBLE_FREE, INVALID_FREE};
use crate::index::{Index, leave};
use crate::word::Word;

/// Whether a block of this kind was allocated.
pub(crate) fn is_heap(kind: BlockKind) -> bool
    ensures { result ≡ is_heap kind }
{
    match kind {
        BlockKind::Static => false,
        BlockKind::Local => false,
        BlockKind::Heap => true,
    }
}

/// Makes the block of that number dead, if there is one.
pub(crate) fn end_block(blocks: &mut Vec<Block>, index: &mut Index, number: usize)
    requires { IsIndexed (heads blocks.old.items) index.old.live.numbers.items index.old.live.places.items index.old.bases index.old.heap }
    ensures ended { blocks.new.items ≡ without blocks.old.items number (slice_get blocks.old.items number) }
    ensures memory { IsMemory blocks.old.items → IsMemory blocks.new.items }
    ensures indexed { IsIndexed (heads blocks.new.items) index.new.live.numbers.items index.new.live.places.items index.new.bases index.new.heap }
{
    if number < blocks.len() {
        leave(index, blocks.as_slice(), number);
        blocks[number].live = false;
    }
}

/// The fault of a free at an offset of a block.
fn check_block(block: &Block, offset: i64) -> Result<(), u8>
    ensures { result ≡ answer (block_free_fault (Some block.now) offset) tt }
{
    if !is_heap(block.kind) {
        return Err(INVALID_FREE);
    }
    if offset != 0 {
        return Err(INVALID_FREE);
    }
    if !block.live {
        return Err(DOUBLE_FREE);
    }
    Ok(())
}

/// The fault of a free at an offset of the block of that number.
fn check_free(blocks: &[Block], number: usize, offset: i64) -> Result<(), u8>
    ensures { result ≡ answer (block_free_fault (slice_get blocks.now number) offset) tt }
{
    match block_at(blocks, number) {
        None => Err(INVALID_FREE),
        Some(block) => check_block(block, offset),
    }
}

/// Frees what a word leads to, if that meets no fault.
pub(crate) fn free_at(blocks: &mut Vec<Block>, index: &mut Index, at: Word) -> Result<(), u8>
    requires { IsIndexed (heads blocks.old.items) index.old.live.numbers.items index.old.live.places.items index.old.bases index.old.heap }
    ensures answer { result ≡ answer (free_fault blocks.old.items at) tt }
    ensures freed { OnOk result (blocks.new.items ≡ freed blocks.old.items at) }
    ensures err { OnErr result (blocks.new.items ≡ blocks.old.items) }
    ensures memory { IsMemory blocks.old.items → IsMemory blocks.new.items }
    ensures indexed { IsIndexed (heads blocks.new.items) index.new.live.numbers.items index.new.live.places.items index.new.bases index.new.heap }
{
    match at {
        Word::Plain(number) => {
            if number != 0 {
                return Err(INVALID_FREE);
            }
            Ok(())
        }
        Word::To { block, offset } => {
            check_free(blocks.as_slice(), block as usize, offset)?;
            end_block(blocks, index, block as usize);
            Ok(())
        }
    }
}
