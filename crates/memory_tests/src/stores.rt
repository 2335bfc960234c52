ghost use Rattle.std.specs.Prelude.{◌≡◌};

use crate::memories::{rooms, two_blocks};
use bytes_core::{Memory, Word};
use cbase::NoMemory;
use std::alloc::Global;
use std::test::Fail;

/// Where a block's byte lies.
fn at(block: u32, offset: i64) -> Word
    ensures { result ≡ Word.To block offset }
{
    Word::To { block, offset }
}

/// Whether a load gives this word.
fn loads(memory: &Memory, from: Word, size: u8, pointer: bool, want: Word) -> bool {
    match memory.load(from, size, pointer) {
        Ok(word) => word == want,
        Err(_) => false,
    }
}

/// A pointer to the fifth byte of block 0 is stored in block 1, and then a number over its fourth byte: what is loaded, and
/// whether block 0 is lost where block 1 alone is a root.
fn stored(alloc: Global) -> Result<[bool; 7], NoMemory> {
    let Some(mut memory) = two_blocks(alloc)? else {
        return Ok([false; 7]);
    };
    let pointer = at(0, 4);
    let whole = memory.store(at(1, 0), 8, pointer).is_ok();
    let loaded = loads(&memory, at(1, 0), 8, true, pointer);
    let first = loads(&memory, at(1, 0), 1, false, Word::Plain(36));
    let kept = !memory.lost(alloc, &[1])?;
    let byte = memory.store(at(1, 3), 1, Word::Plain(9)).is_ok();
    let broken = loads(&memory, at(1, 0), 8, true, Word::Plain(150_994_980));
    let lost = memory.lost(alloc, &[1])?;
    Ok([whole, loaded, first, kept, byte, broken, lost])
}

#[test]
fn half_a_pointer_leads_nowhere(rt: HostRuntime) -> Result<(), Fail> {
    assert_eq!(rt; stored(rt.alloc())?, [true; 7]);
    Ok(())
}

/// Four bytes are filled: what is loaded of them, and of the whole block; a fill past the end, and one of no bytes behind it.
fn filled(alloc: Global) -> Result<[bool; 5], NoMemory> {
    let Some(mut memory) = two_blocks(alloc)? else {
        return Ok([false; 5]);
    };
    let four = memory.fill(at(1, 2), 7, 4).is_ok();
    let filled = loads(&memory, at(1, 2), 4, false, Word::Plain(117_901_063));
    let around = loads(&memory, at(1, 0), 8, false, Word::Plain(7_726_764_064_768));
    let past = memory.fill(at(1, 6), 7, 4) == Err(2);
    let none = memory.fill(at(1, 8), 7, 0).is_ok();
    Ok([four, filled, around, past, none])
}

#[test]
fn a_fill_gives_each_byte_its_number(rt: HostRuntime) -> Result<(), Fail> {
    assert_eq!(rt; filled(rt.alloc())?, [true; 5]);
    Ok(())
}

/// Whether another block may lie between the two, where the second lies, and at an odd base.
fn room(alloc: Global) -> Result<[bool; 3], NoMemory> {
    match two_blocks(alloc)? {
        Some(memory) => rooms(alloc, &memory),
        None => Ok([false; 3]),
    }
}

#[test]
fn live_blocks_share_no_address(rt: HostRuntime) -> Result<(), Fail> {
    assert_eq!(rt; room(rt.alloc())?, [true, false, false]);
    Ok(())
}
