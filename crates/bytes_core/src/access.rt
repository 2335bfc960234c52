ghost use Rattle.std.specs.Prelude.{◌≡◌, ◌+◌, ◌≤◌, ◌<◌, [], length, pos, option_map, slice_get, true, false, None, Some, IfOk, IfSome, IfNone, MatchResult};
ghost use Rattle.std.specs.Option.{option_copied};
ghost use Rattle.bytes_core.specs.declared.word.Word.TheVariants.{Plain, To};
ghost use Rattle.bytes_core.specs.Access.{is_within, block_fault, access_fault, bytes_at, loaded};
ghost use Rattle.bytes_core.specs.Answer.{answer};
ghost use Rattle.bytes_core.specs.Valid.{WordNamesBelow, IsMemory};

use crate::block::Block;
use crate::byte::Byte;
use crate::fault::{
    ACCESS_OUTSIDE_OBJECT, ACCESS_THROUGH_INVALID_ADDRESS, ACCESS_TO_DEAD_OBJECT,
    NULL_POINTER_DEREFERENCE,
};
use crate::value::word_read;
use crate::word::Word;

/// The block of that number.
pub(crate) fn block_at(blocks: &[Block], number: usize) -> Option<&Block>
    ensures { option_copied result ≡ slice_get blocks.now number }
{
    blocks.get(number)
}

/// Where in a block of this size so many bytes from an offset on begin, if they lie in it.
fn start_within(size: usize, offset: i64, count: usize) -> Option<usize>
    ensures start { IfSome result (λ from. offset ≡ pos from) }
    ensures room { IfSome result (λ from. from + count ≤ size) }
    ensures inside { IfSome result (λ from. is_within size offset count ≡ true) }
    ensures outside { IfNone result (is_within size offset count ≡ false) }
{
    if offset < 0 {
        return None;
    }
    let from = offset as usize;
    if from > size {
        return None;
    }
    if count > size - from {
        return None;
    }
    Some(from)
}

/// Where in a block an access to so many bytes from an offset on begins, or the fault that it meets.
fn start_in(block: &Block, offset: i64, count: usize) -> Result<usize, u8>
    ensures fault { MatchResult result (λ from. block_fault (Some block.now) offset count ≡ None) (λ kind. block_fault (Some block.now) offset count ≡ Some kind) }
    ensures start { IfOk result (λ from. offset ≡ pos from) }
    ensures room { IfOk result (λ from. from + count ≤ length block.now.bytes) }
{
    if !block.live {
        return Err(ACCESS_TO_DEAD_OBJECT);
    }
    match start_within(block.bytes.len(), offset, count) {
        None => Err(ACCESS_OUTSIDE_OBJECT),
        Some(from) => Ok(from),
    }
}

/// The fault of an access through a number.
fn number_fault(number: u64) -> u8
    ensures { Some result ≡ access_fault [] (Plain number) 0 }
{
    if number < 4096 {
        NULL_POINTER_DEREFERENCE
    } else {
        ACCESS_THROUGH_INVALID_ADDRESS
    }
}

/// Where an access leads: a block, and a place in it.
#[derive(Clone, Copy)]
pub(crate) struct Spot {
    pub(crate) block: usize,
    pub(crate) from: usize,
}

/// Where an access to so many bytes of a block leads, or the fault that it meets.
fn spot_in(blocks: &[Block], number: usize, offset: i64, count: usize) -> Result<Spot, u8>
    ensures fault { MatchResult result (λ spot. block_fault (slice_get blocks.now number) offset count ≡ None) (λ kind. block_fault (slice_get blocks.now number) offset count ≡ Some kind) }
    ensures block { IfOk result (λ spot. spot.block ≡ number) }
    ensures start { IfOk result (λ spot. offset ≡ pos spot.from) }
    ensures stands { IfOk result (λ spot. number < length blocks.now) }
    ensures room { IfOk result (λ spot. IfSome (slice_get blocks.now number) (λ block. spot.from + count ≤ length block.bytes)) }
{
    match block_at(blocks, number) {
        None => Err(ACCESS_TO_DEAD_OBJECT),
        Some(block) => {
            let from = start_in(block, offset, count)?;
            Ok(Spot {
                block: number,
                from,
            })
        }
    }
}

/// Where an access to so many bytes through a word leads, or the fault that it meets (C11 6.5.3.2p4).
pub(crate) fn spot_at(blocks: &[Block], at: Word, count: usize) -> Result<Spot, u8>
    ensures fault { MatchResult result (λ spot. access_fault blocks.now at count ≡ None) (λ kind. access_fault blocks.now at count ≡ Some kind) }
    ensures place { IfOk result (λ spot. at ≡ To spot.block (pos spot.from)) }
    ensures stands { IfOk result (λ spot. spot.block < length blocks.now) }
    ensures room { IfOk result (λ spot. IfSome (slice_get blocks.now spot.block) (λ block. spot.from + count ≤ length block.bytes)) }
{
    match at {
        Word::Plain(number) => Err(number_fault(number)),
        Word::To { block, offset } => spot_in(blocks, block as usize, offset, count),
    }
}

/// The bytes to which a word leads, or the fault that an access to them meets.
pub(crate) fn bytes_at(blocks: &[Block], at: Word, count: usize) -> Result<&[Byte], u8>
    ensures fault { MatchResult result (λ bytes. access_fault blocks.now at count ≡ None) (λ kind. access_fault blocks.now at count ≡ Some kind) }
    ensures bytes { IfOk result (λ bytes. bytes.now ≡ bytes_at blocks.now at count) }
    ensures size { IfOk result (λ bytes. length bytes.now ≡ count) }
{
    let spot = spot_at(blocks, at, count)?;
    let bytes = blocks[spot.block].bytes.as_slice();
    Ok(&bytes[spot.from..spot.from + count])
}

/// Loads a word of so many bytes from where another leads, or gives the fault that the access meets.
#[tactic(auto, using(crate::proofs::Kept::names_of_loaded))]
pub(crate) fn load_at(blocks: &[Block], at: Word, size: usize, pointer: bool) -> Result<Word, u8>
    ensures answer { result ≡ answer (access_fault blocks.now at size) (loaded blocks.now at size pointer) }
    ensures names { IsMemory blocks.now → IfOk result (λ word. WordNamesBelow (length blocks.now) word) }
{
    let bytes = bytes_at(blocks, at, size)?;
    Ok(word_read(blocks, bytes, pointer))
}

/// The base of the block of that number.
pub(crate) fn base_of(blocks: &[Block], number: usize) -> Option<u64>
    ensures { result ≡ option_map (λ found. found.base) (slice_get blocks.now number) }
{
    let block = block_at(blocks, number)?;
    Some(block.base)
}
