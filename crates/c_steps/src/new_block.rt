ghost use Rattle.std.specs.Prelude.{◌≡◌, ◌+◌, ◌||◌, All, false, length, map, nat_eq, not, true, IfNone, IfOk, IfSome, IsTrue};
ghost use Rattle.std.specs.List.{list_all};
ghost use Rattle.bytes_core.specs.declared.byte.Byte.TheVariants.{Num};
ghost use Rattle.bytes_core.specs.Placement.{can_be_placed, new_block};
ghost use Rattle.bytes_core.specs.Valid.{NamesBelow};
ghost use Rattle.c_steps.specs.Making.{is_choice};

use bytes_core::{Block, BlockKind, Byte, Memory};
use cbase::{List, NoMemory};
use std::alloc::Global;

/// Whether all bytes are 0.
fn are_zeros(contents: &[u8]) -> bool
    ensures { result ≡ list_all (nat_eq 0) contents.now }
{
    contents.iter().all(|byte| 0 == *byte)
}

/// Whether contents are of zeros alone, where that is asked.
fn are_asked(zeroed: bool, contents: &[u8]) -> bool
    ensures { result ≡ (not zeroed || list_all (nat_eq 0) contents.now) }
{
    if !zeroed {
        return true;
    }
    are_zeros(contents)
}

/// Bytes that are numbers.
fn bytes_of(alloc: Global, contents: &[u8]) -> Result<List<Byte>, NoMemory>
    ensures { IfOk result (λ bytes. bytes ≡ map Num contents.now) }
{
    let mut bytes = Vec::new(alloc);
    for byte in contents {
        bytes.push(Byte::Num(*byte))?;
    }
    Ok(List::from_vec(bytes))
}

/// The block of a kind and size that a base and contents make, of zeros alone where that is asked: `None` where they are no choice for it.
pub(crate) fn new_block(
    alloc: Global,
    memory: &Memory,
    kind: BlockKind,
    size: u128,
    zeroed: bool,
    base: u64,
    contents: &[u8],
) -> Result<Option<Block>, NoMemory>
    ensures block { IfOk result (λ made. IfSome made (λ block. block ≡ new_block kind base contents.now)) }
    ensures some { IfOk result (λ made. IfSome made (λ block. is_choice memory.now kind size zeroed base contents.now ≡ true)) }
    ensures none { IfOk result (λ made. IfNone made (is_choice memory.now kind size zeroed base contents.now ≡ false)) }
    ensures apart { IfOk result (λ made. IfSome made (λ block. IsTrue (can_be_placed memory.now block))) }
    ensures names { IfOk result (λ made. IfSome made (λ block. All (NamesBelow (length memory.now + 1)) block.bytes)) }
{
    if contents.len() as u128 != size {
        return Ok(None);
    }
    if !are_asked(zeroed, contents) {
        return Ok(None);
    }
    let block = Block {
        base,
        kind,
        live: true,
        bytes: bytes_of(alloc, contents)?,
    };
    if !memory.can_place(&block) {
        return Ok(None);
    }
    Ok(Some(block))
}
