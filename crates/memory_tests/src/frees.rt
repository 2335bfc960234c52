use crate::memories::two_blocks;
use bytes_core::{Memory, Word};
use cbase::NoMemory;
use std::alloc::Global;
use std::test::Fail;

/// Whether what lies in a block is dead to loads.
fn is_dead(memory: &Memory, block: u32) -> bool {
    memory.load(Word::To { block, offset: 0 }, 8, false) == Err(3)
}

/// A block is freed at its second byte, at null, at its first byte, and there again; the other one is ended, and then no block of the heap lives.
fn freed(alloc: Global) -> Result<[bool; 10], NoMemory> {
    let Some(mut memory) = two_blocks(alloc)? else {
        return Ok([false; 10]);
    };
    let first = Word::To {
        block: 0,
        offset: 0,
    };
    let second = Word::To {
        block: 0,
        offset: 1,
    };
    let inside = memory.free(second) == Err(6);
    let null = memory.free(Word::Plain(0)).is_ok();
    let lives = !is_dead(&memory, 0);
    let once = memory.free(first).is_ok();
    let twice = memory.free(first) == Err(5);
    let dead = is_dead(&memory, 0);
    let heap = memory.has_heap();
    memory.end(1);
    let none = !memory.has_heap();
    let ended = is_dead(&memory, 1);
    let bases = memory.base(1) == Some(64) && memory.base(2).is_none();
    Ok([
        inside, null, lives, once, twice, dead, heap, none, ended, bases,
    ])
}

#[test]
fn a_block_is_freed_once_and_at_its_first_byte(rt: HostRuntime) -> Result<(), Fail> {
    assert_eq!(rt; freed(rt.alloc())?, [true; 10]);
    Ok(())
}
