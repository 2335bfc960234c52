ghost use Rattle.std.specs.Prelude.{◌≡◌, ◌+◌, ◌<◌, ◌^◌, map, length, slice_get, slice_index, if◌then◌else◌};
ghost use Rattle.std.specs.Option.{option_map_or};
ghost use Rattle.bytes_core.specs.Value.{word_bytes, address_in, address_number, byte_of, byte_number, number_of, are_parts, number_read, pointer_read};

use crate::access::block_at;
use crate::block::Block;
use crate::byte::Byte;
use crate::word::Word;

/// The bytes of a number, the lowest first.
fn number_bytes(number: u64) -> [Byte; 8]
    ensures { result ≡ word_bytes (Word.Plain number) }
{
    let bytes = number.to_le_bytes();
    [
        Byte::Num(bytes[0]),
        Byte::Num(bytes[1]),
        Byte::Num(bytes[2]),
        Byte::Num(bytes[3]),
        Byte::Num(bytes[4]),
        Byte::Num(bytes[5]),
        Byte::Num(bytes[6]),
        Byte::Num(bytes[7]),
    ]
}

/// The parts of a pointer, in order.
fn pointer_bytes(block: u32, offset: i64) -> [Byte; 8]
    ensures { result ≡ word_bytes (Word.To block offset) }
{
    [
        Byte::Part {
            block,
            offset,
            k: 0,
        },
        Byte::Part {
            block,
            offset,
            k: 1,
        },
        Byte::Part {
            block,
            offset,
            k: 2,
        },
        Byte::Part {
            block,
            offset,
            k: 3,
        },
        Byte::Part {
            block,
            offset,
            k: 4,
        },
        Byte::Part {
            block,
            offset,
            k: 5,
        },
        Byte::Part {
            block,
            offset,
            k: 6,
        },
        Byte::Part {
            block,
            offset,
            k: 7,
        },
    ]
}

/// The eight bytes that hold a word.
pub(crate) fn bytes_of(word: Word) -> [Byte; 8]
    ensures { result ≡ word_bytes word }
{
    match word {
        Word::Plain(number) => number_bytes(number),
        Word::To { block, offset } => pointer_bytes(block, offset),
    }
}

/// The base of the block of that number, or 0 where there is none.
fn base_at(blocks: &[Block], number: usize) -> u64
    ensures { result ≡ option_map_or (λ found. found.base) (slice_get blocks.now number) 0 }
{
    match block_at(blocks, number) {
        None => 0,
        Some(block) => block.base,
    }
}

/// The address number of a place in a block.
#[tactic(auto, using(crate::proofs::Addresses::wrapped_sum))]
fn address_in(blocks: &[Block], number: usize, offset: i64) -> u64
    ensures { result ≡ address_in blocks.now number offset }
{
    base_at(blocks, number).wrapping_add_signed(offset)
}

/// The address number of a word.
pub(crate) fn address_of(blocks: &[Block], word: Word) -> u64
    ensures { result ≡ address_number blocks.now word }
{
    match word {
        Word::Plain(number) => number,
        Word::To { block, offset } => address_in(blocks, block as usize, offset),
    }
}

/// A byte of a number, the lowest first.
#[tactic(auto, using(crate::proofs::Addresses::byte_of_number))]
fn byte_of(number: u64, k: usize) -> u8
    ensures { result ≡ byte_of number k }
{
    match number.to_le_bytes().get(k) {
        None => 0,
        Some(byte) => *byte,
    }
}

/// A byte as a number.
fn byte_number(blocks: &[Block], byte: Byte) -> u8
    ensures { result ≡ byte_number blocks.now byte }
{
    match byte {
        Byte::Num(number) => number,
        Byte::Part { block, offset, k } => {
            byte_of(address_in(blocks, block as usize, offset), k as usize)
        }
    }
}

/// The byte at this place as a number, or 0 where there is none.
fn number_at(blocks: &[Block], bytes: &[Byte], at: usize) -> u8
    ensures { result ≡ slice_index (map (byte_number blocks.now) bytes.now) at }
{
    match bytes.get(at) {
        None => 0,
        Some(byte) => byte_number(blocks, *byte),
    }
}

/// The number that at most eight bytes hold.
fn number_of(blocks: &[Block], bytes: &[Byte]) -> u64
    ensures { result ≡ number_of blocks.now bytes.now }
{
    u64::from_le_bytes([
        number_at(blocks, bytes, 0),
        number_at(blocks, bytes, 1),
        number_at(blocks, bytes, 2),
        number_at(blocks, bytes, 3),
        number_at(blocks, bytes, 4),
        number_at(blocks, bytes, 5),
        number_at(blocks, bytes, 6),
        number_at(blocks, bytes, 7),
    ])
}

/// Whether the bytes are the parts from `k` to 7, in order, of the pointer to a place in a block.
pub(crate) fn are_parts(number: u32, offset: i64, k: usize, bytes: &[Byte]) -> bool
    requires { k + length bytes.now < 2 ^ 64 }
    ensures { result ≡ are_parts number offset k bytes.now }
{
    match bytes {
        [] => k == 8,
        [Byte::Num(_), ..] => false,
        [
            Byte::Part {
                block,
                offset: to,
                k: part,
            },
            rest @ ..,
        ] => {
            if *block != number {
                return false;
            }
            if *to != offset {
                return false;
            }
            if *part as usize != k {
                return false;
            }
            are_parts(number, offset, k + 1, rest)
        }
    }
}

/// The word that the bytes hold at a pointer type.
fn pointer_read(blocks: &[Block], bytes: &[Byte]) -> Word
    ensures { result ≡ pointer_read blocks.now bytes.now }
{
    if let Some(Byte::Part { block, offset, .. }) = bytes.first() {
        if are_parts(*block, *offset, 0, bytes) {
            return Word::To {
                block: *block,
                offset: *offset,
            };
        }
    }
    Word::Plain(number_of(blocks, bytes))
}

/// The word that the bytes hold, at a pointer type or at an integer type.
pub(crate) fn word_read(blocks: &[Block], bytes: &[Byte], pointer: bool) -> Word
    ensures { result ≡ (if pointer then pointer_read blocks.now bytes.now else number_read blocks.now bytes.now) }
{
    if pointer {
        pointer_read(blocks, bytes)
    } else {
        Word::Plain(number_of(blocks, bytes))
    }
}
