ghost use Rattle.std.specs.Prelude.{◌≡◌, ◌+◌, ◌≤◌, All, length, replicate, OnOk, OnErr};
ghost use Rattle.bytes_core.specs.declared.byte.Byte.TheVariants.{Num};
ghost use Rattle.bytes_core.specs.Access.{access_fault, range_fault, overwritten, written_at, filled, stored};
ghost use Rattle.bytes_core.specs.Answer.{answer};
ghost use Rattle.bytes_core.specs.Indexed.{heads};
ghost use Rattle.bytes_core.specs.Valid.{NamesBelow, WordNamesBelow, IsMemory};

use crate::access::spot_at;
use crate::block::Block;
use crate::byte::Byte;
use crate::value::bytes_of;
use crate::word::Word;
use cbase::List;
use std::alloc::Global;
use std::mem;

/// Writes bytes over others from a place on.
fn overwrite(bytes: &mut [Byte], from: usize, written: &[Byte])
    requires { from + length written.now ≤ length bytes.old }
    ensures { bytes.new ≡ overwritten bytes.old from written.now }
{
    bytes[from..from + written.len()].copy_from_slice(written);
}

/// Writes bytes over those of a block from a place on.
fn overwrite_block(alloc: Global, block: &mut Block, from: usize, written: &[Byte])
    requires { from + length written.now ≤ length block.old.bytes }
    ensures { block.new ≡ record block.old { bytes = overwritten block.old.bytes from written.now } }
{
    let mut bytes = mem::replace(&mut block.bytes, List::new(alloc)).into_vec();
    overwrite(&mut bytes, from, written);
    block.bytes = List::from_vec(bytes);
}

/// Writes bytes where a word leads, if an access to them meets no fault.
pub(crate) fn write_at(blocks: &mut Vec<Block>, at: Word, written: &[Byte]) -> Result<(), u8>
    ensures answer { result ≡ answer (access_fault blocks.old.items at (length written.now)) tt }
    ensures written { OnOk result (blocks.new.items ≡ written_at blocks.old.items at written.now) }
    ensures err { OnErr result (blocks.new.items ≡ blocks.old.items) }
    ensures heads { heads blocks.new.items ≡ heads blocks.old.items }
    ensures memory { IsMemory blocks.old.items → All (NamesBelow (length blocks.old.items)) written.now → IsMemory blocks.new.items }
{
    let spot = spot_at(blocks.as_slice(), at, written.len())?;
    let alloc = *blocks.allocator();
    overwrite_block(alloc, &mut blocks[spot.block], spot.from, written);
    Ok(())
}

/// Stores the lowest bytes of a word where another leads, if that meets no fault.
pub(crate) fn store_at(blocks: &mut Vec<Block>, at: Word, size: usize, word: Word) -> Result<(), u8>
    requires { size ≤ 8 }
    ensures answer { result ≡ answer (access_fault blocks.old.items at size) tt }
    ensures stored { OnOk result (blocks.new.items ≡ stored blocks.old.items at size word) }
    ensures err { OnErr result (blocks.new.items ≡ blocks.old.items) }
    ensures heads { heads blocks.new.items ≡ heads blocks.old.items }
    ensures memory { IsMemory blocks.old.items → WordNamesBelow (length blocks.old.items) word → IsMemory blocks.new.items }
{
    let bytes = bytes_of(word);
    write_at(blocks, at, &bytes[..size])
}

/// Writes a number over so many bytes from a place on.
fn overfill(bytes: &mut [Byte], from: usize, number: u8, count: usize)
    requires { from + count ≤ length bytes.old }
    ensures { bytes.new ≡ overwritten bytes.old from (replicate count (Num number)) }
{
    bytes[from..from + count].fill(Byte::Num(number));
}

/// Writes a number over so many bytes of a block from a place on.
fn overfill_block(alloc: Global, block: &mut Block, from: usize, number: u8, count: usize)
    requires { from + count ≤ length block.old.bytes }
    ensures { block.new ≡ record block.old { bytes = overwritten block.old.bytes from (replicate count (Num number)) } }
{
    let mut bytes = mem::replace(&mut block.bytes, List::new(alloc)).into_vec();
    overfill(&mut bytes, from, number, count);
    block.bytes = List::from_vec(bytes);
}

/// Fills so many bytes with a number where a word leads, if an access to them meets no fault.
fn fill_some(blocks: &mut Vec<Block>, at: Word, number: u8, count: usize) -> Result<(), u8>
    ensures answer { result ≡ answer (access_fault blocks.old.items at count) tt }
    ensures filled { OnOk result (blocks.new.items ≡ filled blocks.old.items at number count) }
    ensures err { OnErr result (blocks.new.items ≡ blocks.old.items) }
    ensures heads { heads blocks.new.items ≡ heads blocks.old.items }
    ensures memory { IsMemory blocks.old.items → IsMemory blocks.new.items }
{
    let spot = spot_at(blocks.as_slice(), at, count)?;
    let alloc = *blocks.allocator();
    overfill_block(alloc, &mut blocks[spot.block], spot.from, number, count);
    Ok(())
}

/// Fills so many bytes with a number where a word leads, if that meets no fault: a fill of none meets none.
#[tactic(auto, using(crate::proofs::Copies::range_of_some, crate::proofs::Kept::filled_nothing))]
pub(crate) fn fill_at(blocks: &mut Vec<Block>, at: Word, number: u8, count: usize) -> Result<(), u8>
    ensures answer { result ≡ answer (range_fault blocks.old.items at count) tt }
    ensures filled { OnOk result (blocks.new.items ≡ filled blocks.old.items at number count) }
    ensures err { OnErr result (blocks.new.items ≡ blocks.old.items) }
    ensures heads { heads blocks.new.items ≡ heads blocks.old.items }
    ensures memory { IsMemory blocks.old.items → IsMemory blocks.new.items }
{
    if count == 0 {
        return Ok(());
    }
    fill_some(blocks, at, number, count)
}
