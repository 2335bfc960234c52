ghost use Rattle.std.specs.Prelude.{◌≡◌, ℕ, ◌+◌, ◌≤◌, ◌<◌, ◌++◌, ◌∷◌, List as Items, [], false, vec_len, vec_capacity, All, length, map, option_map, slice_get, IfOk, IfNone, IsTrue, OnErr, OnOk, OnSome};
ghost use Rattle.bytes_core.specs.Access.{access_fault, range_fault, loaded, stored, filled};
ghost use Rattle.bytes_core.specs.Answer.{answer};
ghost use Rattle.bytes_core.specs.Copying.{copy_fault, copied};
ghost use Rattle.std.specs.List.{list_any};
ghost use Rattle.bytes_core.specs.Loss.{is_live_heap, is_lost};
ghost use Rattle.bytes_core.specs.Placement.{can_be_placed, next_number, placed};
ghost use Rattle.bytes_core.specs.Release.{free_fault, freed, without};
ghost use Rattle.bytes_core.specs.Valid.{NamesBelow, WordNamesBelow};
ghost use Rattle.bytes_core.specs.Value.{address_number};

use crate::access::{base_of, load_at};
use crate::block::Block;
use crate::copying::copy_at;
use crate::index::{Index, empty_index, enter};
use crate::loss::some_lost;
use crate::placement::can_be_placed;
use crate::release::{end_block, free_at};
use crate::value::address_of;
use crate::word::Word;
use crate::writing::{fill_at, store_at};
use cbase::NoMemory;
use std::alloc::Global;
use std::marker::Model;

/// The memory of a run: a list of blocks, each numbered by its place.
///
/// The blocks are placed as the machine's profile asks, and a part of a pointer names a block of this
/// memory. A fault is answered by the number of its kind; the memory then stays as it was.
#[derive(Drop)]
pub struct Memory {
    blocks: Vec<Block>,
    index: Index,
}

impl Model for Memory {
    ghost use Rattle.std.specs.Prelude.{List as Items};
    ghost use Rattle.bytes_core.specs.declared.block.Block.{Block};
    ghost use Rattle.bytes_core.specs.Indexed.{heads, IsIndexed};
    ghost use Rattle.bytes_core.specs.Valid.{IsMemory};

    ghost Value = { Items Block };

    ghost view = { λ m. m.blocks.items };

    ghost invariant = { λ m. IsMemory m.blocks.items × IsIndexed (heads m.blocks.items) m.index.live.numbers.items m.index.live.places.items m.index.bases m.index.heap };
}

/// Puts a block behind the others, where there is room for it.
fn put(blocks: &mut Vec<Block>, block: Block)
    requires { vec_len blocks.old < vec_capacity blocks.old }
    ensures { blocks.new.items ≡ blocks.old.items ++ block ∷ [] }
{
    match blocks.push(block) {
        Ok(()) => {}
        Err(_) => unreachable!(),
    }
}

impl Memory {
    /// The memory without blocks. It takes no memory.
    pub fn empty(alloc: Global) -> Memory
        ensures { result ≡ [] }
    {
        Memory {
            blocks: Vec::new(alloc),
            index: empty_index(alloc),
        }
    }

    /// Whether a block may be put into the memory: it lies where a block may lie, and shares no address with a live
    /// one if it lives.
    ///
    /// It takes time for a logarithm of how many blocks of the memory live, and no memory.
    pub fn can_place(&self, block: &Block) -> bool
        ensures { result ≡ can_be_placed self.now block.now }
    {
        can_be_placed(&self.blocks, &self.index, block)
    }

    /// Puts a block behind the others, and gives its number.
    ///
    /// It lies where a block may lie, shares no address with a live one if it lives, and the parts of pointers in it
    /// name blocks of the memory, or it. A memory has at most 2^32 blocks: where no number is left the answer is
    /// `None`, and the memory stays as it was, as where memory is wanting.
    pub fn place(&mut self, block: Block) -> Result<Option<u32>, NoMemory>
        requires apart { IsTrue (can_be_placed self.old block) }
        requires names { All (NamesBelow (length self.old + 1)) block.bytes }
        ensures number { IfOk result (λ number. number ≡ next_number self.old) }
        ensures placed { IfOk result (λ number. OnSome number (self.new ≡ placed self.old block)) }
        ensures full { IfOk result (λ number. IfNone number (self.new ≡ self.old)) }
        ensures err { OnErr result (self.new ≡ self.old) }
    {
        let Ok(number) = u32::try_from(self.blocks.len()) else {
            return Ok(None);
        };
        self.blocks.reserve(1)?;
        enter(&mut self.index, self.blocks.as_slice(), &block)?;
        put(&mut self.blocks, block);
        Ok(Some(number))
    }

    /// The word in so many bytes to which `at` leads, at a pointer type or at an integer type (C11 6.2.6.1, 6.3.2.1p2).
    ///
    /// At an integer type it is a number, in which a part of a pointer counts as that byte of its address number. At
    /// a pointer type it is the pointer whose eight parts in order the bytes are, and otherwise a number. The faults
    /// are those of an access: 1 to 4. It takes no memory.
    pub fn load(&self, at: Word, size: u8, pointer: bool) -> Result<Word, u8>
        ensures answer { result ≡ answer (access_fault self.now at size) (loaded self.now at size pointer) }
        ensures names { IfOk result (λ word. WordNamesBelow (length self.now) word) }
    {
        load_at(&self.blocks, at, size as usize, pointer)
    }

    /// Writes the lowest bytes of a word where `at` leads (C11 6.5.16.1). A pointer leaves as many of its parts.
    ///
    /// The faults are those of an access: 1 to 4. It takes no memory.
    pub fn store(&mut self, at: Word, size: u8, word: Word) -> Result<(), u8>
        requires size { size ≤ 8 }
        requires names { WordNamesBelow (length self.old) word }
        ensures answer { result ≡ answer (access_fault self.old at size) tt }
        ensures stored { OnOk result (self.new ≡ stored self.old at size word) }
        ensures err { OnErr result (self.new ≡ self.old) }
    {
        store_at(&mut self.blocks, at, size as usize, word)
    }

    /// Writes a number over `count` bytes where `at` leads, as `memset` does (C11 7.24.6.1).
    ///
    /// A fill of no bytes is no access; the faults of any other are those of an access: 1 to 4. It takes no memory.
    pub fn fill(&mut self, at: Word, value: u8, count: usize) -> Result<(), u8>
        ensures answer { result ≡ answer (range_fault self.old at count) tt }
        ensures filled { OnOk result (self.new ≡ filled self.old at value count) }
        ensures err { OnErr result (self.new ≡ self.old) }
    {
        fill_at(&mut self.blocks, at, value, count)
    }

    /// Copies `count` bytes from where one word leads to where another does, parts of pointers as they are: as
    /// `memcpy` does where the ranges have to be disjoint, else as `memmove` does (C11 7.24.2.1, 7.24.2.2).
    ///
    /// The source is looked at first, then the target, with the faults of an access, 1 to 4; then, where the ranges
    /// have to be disjoint, whether they share a byte, which is fault 8. A copy of no bytes is no access.
    pub fn copy(
        &mut self,
        alloc: Global,
        to: Word,
        from: Word,
        count: usize,
        disjoint: bool,
    ) -> Result<Result<(), u8>, NoMemory>
        ensures answer { IfOk result (λ copy. copy ≡ answer (copy_fault self.old to from count disjoint) tt) }
        ensures copied { IfOk result (λ copy. OnOk copy (self.new ≡ copied self.old to from count)) }
        ensures fault { IfOk result (λ copy. OnErr copy (self.new ≡ self.old)) }
        ensures err { OnErr result (self.new ≡ self.old) }
    {
        copy_at(alloc, &mut self.blocks, to, from, count, disjoint)
    }

    /// Frees what `at` leads to, as `free` does (C11 7.22.3.3): the block is dead from then on. Null changes nothing.
    ///
    /// Fault 5 is for the first byte of a dead heap block, fault 6 for anything else that is not null and not the
    /// first byte of a live heap block. It takes no memory.
    pub fn free(&mut self, at: Word) -> Result<(), u8>
        ensures answer { result ≡ answer (free_fault self.old at) tt }
        ensures freed { OnOk result (self.new ≡ freed self.old at) }
        ensures err { OnErr result (self.new ≡ self.old) }
    {
        free_at(&mut self.blocks, &mut self.index, at)
    }

    /// Ends the life of a block, as of an object whose scope is left (C11 6.2.4p5). A number that names no block changes
    /// nothing. It takes no memory.
    pub fn end(&mut self, block: u32)
        ensures { self.new ≡ without self.old block (slice_get self.old block) }
    {
        end_block(&mut self.blocks, &mut self.index, block as usize);
    }

    /// The base of a block: the address of its first byte. `None` where the number names no block.
    pub fn base(&self, block: u32) -> Option<u64>
        ensures { result ≡ option_map (λ found. found.base) (slice_get self.now block) }
    {
        base_of(&self.blocks, block as usize)
    }

    /// The address number of a word, which `==` compares (C11 6.5.9).
    pub fn address(&self, word: Word) -> u64
        ensures { result ≡ address_number self.now word }
    {
        address_of(&self.blocks, word)
    }

    /// Whether a block of the heap lives: where none does none is lost, whatever the roots are. It takes no time for the blocks.
    pub fn has_heap(&self) -> bool
        ensures is { result ≡ list_any is_live_heap self.now }
        ensures lost { result ≡ false → (roots : Items ℕ) → is_lost self.now roots ≡ false }
    {
        self.index.heap > 0
    }

    /// Whether a live heap block is lost: no chain of whole stored pointers leads to it from the root blocks, through
    /// live blocks.
    ///
    /// Where no block of the heap lives it takes no time for the blocks, and else time for the live blocks of the memory,
    /// their bytes and the roots.
    pub fn lost(&self, alloc: Global, roots: &[u32]) -> Result<bool, NoMemory>
        ensures { IfOk result (λ lost. lost ≡ is_lost self.now roots.now) }
    {
        some_lost(alloc, &self.blocks, &self.index, roots)
    }
}
