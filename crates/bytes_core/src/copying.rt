ghost use Rattle.std.specs.Prelude.{◌≡◌, ◌<◌, Some, None, IfOk, OnOk, OnErr, MatchResult, length};
ghost use Rattle.bytes_core.specs.Access.{access_fault, bytes_at};
ghost use Rattle.bytes_core.specs.Answer.{answer};
ghost use Rattle.bytes_core.specs.Copying.{share_byte, copy_fault, copied};
ghost use Rattle.bytes_core.specs.Indexed.{heads};
ghost use Rattle.bytes_core.specs.Valid.{IsMemory};

use crate::access::bytes_at;
use crate::block::Block;
use crate::byte::Byte;
use crate::fault::OVERLAPPING_COPY;
use crate::word::Word;
use crate::writing::write_at;
use cbase::NoMemory;
use std::alloc::Global;

/// Whether so many bytes from one word on and from another share a byte of a block.
#[tactic(auto, using(crate::proofs::Copies::shared_offsets))]
fn share_byte(one: Word, other: Word, count: usize) -> bool
    ensures { result ≡ share_byte one other count }
{
    let Word::To { block, offset } = one else {
        return false;
    };
    let Word::To {
        block: beside,
        offset: at,
    } = other
    else {
        return false;
    };
    if block != beside {
        return false;
    }
    offset.abs_diff(at) < count as u64
}

/// The source of a copy, or the fault that the copy meets.
fn source_of(
    blocks: &[Block],
    to: Word,
    from: Word,
    count: usize,
    disjoint: bool,
) -> Result<&[Byte], u8>
    requires { 0 < count }
    ensures fault { MatchResult result (λ source. copy_fault blocks.now to from count disjoint ≡ None) (λ kind. copy_fault blocks.now to from count disjoint ≡ Some kind) }
    ensures source { IfOk result (λ source. source.now ≡ bytes_at blocks.now from count) }
    ensures size { IfOk result (λ source. length source.now ≡ count) }
    ensures target { IfOk result (λ source. access_fault blocks.now to count ≡ None) }
{
    let source = bytes_at(blocks, from, count)?;
    let _target = bytes_at(blocks, to, count)?;
    if disjoint {
        if share_byte(to, from, count) {
            return Err(OVERLAPPING_COPY);
        }
    }
    Ok(source)
}

/// Copies so many bytes from where one word leads to where another does, if that meets no fault.
pub(crate) fn copy_at(
    alloc: Global,
    blocks: &mut Vec<Block>,
    to: Word,
    from: Word,
    count: usize,
    disjoint: bool,
) -> Result<Result<(), u8>, NoMemory>
    ensures answer { IfOk result (λ copy. copy ≡ answer (copy_fault blocks.old.items to from count disjoint) tt) }
    ensures copied { IfOk result (λ copy. OnOk copy (blocks.new.items ≡ copied blocks.old.items to from count)) }
    ensures fault { IfOk result (λ copy. OnErr copy (blocks.new.items ≡ blocks.old.items)) }
    ensures err { OnErr result (blocks.new.items ≡ blocks.old.items) }
    ensures heads { heads blocks.new.items ≡ heads blocks.old.items }
    ensures memory { IsMemory blocks.old.items → IsMemory blocks.new.items }
{
    if count == 0 {
        return Ok(Ok(()));
    }
    let source = match source_of(blocks.as_slice(), to, from, count, disjoint) {
        Err(kind) => return Ok(Err(kind)),
        Ok(bytes) => Vec::from_slice(alloc, bytes)?,
    };
    Ok(write_at(blocks, to, source.as_slice()))
}
