use crate::memories::two_blocks;
use bytes_core::Word;
use cbase::NoMemory;
use std::alloc::Global;
use std::test::Fail;

/// Four bytes of a block are copied to two bytes further on: what is answered where they have to be apart, and where not.
fn copied(alloc: Global) -> Result<[bool; 2], NoMemory> {
    let Some(mut memory) = two_blocks(alloc)? else {
        return Ok([false; 2]);
    };
    let from = Word::To {
        block: 0,
        offset: 0,
    };
    let to = Word::To {
        block: 0,
        offset: 2,
    };
    let apart = memory.copy(alloc, to, from, 4, true)? == Err(8);
    let moved = memory.copy(alloc, to, from, 4, false)?.is_ok();
    Ok([apart, moved])
}

#[test]
fn a_copy_onto_itself_asks_whether_it_may(rt: HostRuntime) -> Result<(), Fail> {
    assert_eq!(rt; copied(rt.alloc())?, [true; 2]);
    Ok(())
}
