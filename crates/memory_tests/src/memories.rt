//! A memory to try the calls on.
ghost use Rattle.std.specs.Prelude.{◌≡◌, ℕ, ◌+◌, true, All, IfOk, IfSome, length};
ghost use Rattle.bytes_core.specs.Valid.{NamesBelow};

use bytes_core::{Block, BlockKind, Byte, Memory};
use cbase::{List, NoMemory};
use std::alloc::Global;

/// Eight zero bytes.
fn zeros(alloc: Global) -> Result<List<Byte>, NoMemory>
    ensures { IfOk result (λ bytes. (count : ℕ) → All (NamesBelow count) bytes) }
{
    let zero = Byte::Num(0);
    let bytes = [zero, zero, zero, zero, zero, zero, zero, zero];
    Ok(List::from_vec(Vec::from_slice(alloc, &bytes)?))
}

/// Puts a live block of eight zero bytes behind the others, and whether it may lie there and gets this number.
fn puts(alloc: Global, memory: &mut Memory, base: u64, number: u32) -> Result<bool, NoMemory>
    ensures { IfOk result (λ put. put ≡ true → length memory.new ≡ length memory.old + 1) }
{
    let block = Block {
        base,
        kind: BlockKind::Heap,
        live: true,
        bytes: zeros(alloc)?,
    };
    if !memory.can_place(&block) {
        drop(block);
        return Ok(false);
    }
    match memory.place(block)? {
        Some(found) => Ok(found == number),
        None => Ok(false),
    }
}

/// A memory with two live blocks of the heap, of eight bytes each, at 32 and at 64; none where they got other numbers than 0
/// and 1.
pub fn two_blocks(alloc: Global) -> Result<Option<Memory>, NoMemory>
    ensures { IfOk result (λ found. IfSome found (λ memory. length memory ≡ 2)) }
{
    let mut memory = Memory::empty(alloc);
    let first = puts(alloc, &mut memory, 32, 0)?;
    let second = puts(alloc, &mut memory, 64, 1)?;
    if first && second {
        Ok(Some(memory))
    } else {
        drop(memory);
        Ok(None)
    }
}

/// Whether another block may lie between the two, where the second lies, and at a base that is no multiple of 16.
pub fn rooms(alloc: Global, memory: &Memory) -> Result<[bool; 3], NoMemory> {
    Ok([
        may_lie(alloc, memory, 48)?,
        may_lie(alloc, memory, 64)?,
        may_lie(alloc, memory, 88)?,
    ])
}

/// Whether a block of eight bytes may lie at a base.
fn may_lie(alloc: Global, memory: &Memory, base: u64) -> Result<bool, NoMemory> {
    let block = Block {
        base,
        kind: BlockKind::Local,
        live: true,
        bytes: zeros(alloc)?,
    };
    Ok(memory.can_place(&block))
}
