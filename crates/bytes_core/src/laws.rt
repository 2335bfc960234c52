//! Laws of memories. Each is the contract of a function that does nothing.
//!
//! They say in other words what the definitions of `specs/` compute.
ghost use Rattle.std.specs.Prelude.{◌≡◌, ℕ, ◌+◌, ◌*◌, ◌%◌, ◌^◌, ◌≤◌, Bool, true, false, List, length, replicate, slice_get, ℤ, pos, ◌+ℤ◌, None, Some, ◌↔◌, ◌⊎◌, IsTrue};
ghost use Rattle.std.specs.Prelude.{FitsSigned};
ghost use Rattle.std.specs.Int.{w64};
ghost use Rattle.bytes_core.specs.declared.byte.Byte.{Byte};
ghost use Rattle.bytes_core.specs.declared.byte.Byte.TheVariants.{Num};
ghost use Rattle.bytes_core.specs.declared.block.Block.{Block};
ghost use Rattle.bytes_core.specs.declared.word.Word.{Word};
ghost use Rattle.bytes_core.specs.declared.word.Word.TheVariants.{Plain, To};
ghost use Rattle.bytes_core.specs.Fault.{double_free};
ghost use Rattle.bytes_core.specs.Value.{word_bytes, wrapped, address_number, moved, pointer_read};
ghost use Rattle.bytes_core.specs.Access.{access_fault, range_fault, bytes_at, loaded, stored, filled};
ghost use Rattle.bytes_core.specs.Copying.{share_byte, copy_fault, copied};
ghost use Rattle.bytes_core.specs.Release.{is_heap, free_fault, freed};
ghost use Rattle.bytes_core.specs.Loss.{holds_pointer_to, is_reached, is_lost, Chain, IsLostBlock};
ghost use Rattle.bytes_core.specs.Laws.{IsWord, HoldsPointer, LeadsTo, LeadsToHeap, KeepsOthers, KeepsOtherBytes, SharesByte};
ghost use Rattle.bytes_core.specs.Examples.{AreExamples};
ghost use Rattle.bytes_core.specs.Edges.{AreMemories, ArePlaces, AreAddresses, AreRanges, AreFrees};

/// A pointer is read exactly from its eight bytes, in order (C11 6.2.6.1p4).
pub fn pointer_is_read_whole()
    ensures { (memory : List Block) (bytes : List Byte) (block : ℕ) (offset : ℤ) →
        (pointer_read memory bytes ≡ To block offset) ↔ (bytes ≡ word_bytes (To block offset)) }
{}

/// Bytes hold a pointer to a block exactly where its eight bytes stand among them, in order.
#[tactic(auto, using(crate::proofs::Pointers::pointer_held_whole))]
pub fn pointer_is_held_whole()
    ensures { (target : ℕ) (bytes : List Byte) →
        IsTrue (holds_pointer_to target bytes) ↔ HoldsPointer target bytes }
{}

/// A block is reached exactly where a chain of whole stored pointers leads to it.
#[tactic(auto, using(crate::proofs::Chains::reached_by_chains))]
pub fn reached_is_by_chains()
    ensures { (memory : List Block) (roots : List ℕ) (target : ℕ) →
        IsTrue (is_reached memory roots target) ↔ Chain memory roots target }
{}

/// Memory is lost exactly where some live heap block has no chain.
#[tactic(auto, using(crate::proofs::Chains::lost_by_chains))]
pub fn loss_is_by_chains()
    ensures { (memory : List Block) (roots : List ℕ) →
        IsTrue (is_lost memory roots)
        ↔ ((number : ℕ) × (block : Block) × IsLostBlock memory roots number block) }
{}

/// An access meets no fault exactly where a live block has room for it (C11 6.2.4p2, 6.5.6p8).
#[tactic(auto, using(crate::proofs::Written::accessible))]
pub fn access_needs_room()
    ensures { (memory : List Block) (at : Word) (count : ℕ) →
        (access_fault memory at count ≡ None) ↔ LeadsTo memory at count }
{}

/// A load at a pointer type gives the word that a store left there (C11 6.2.4p2).
#[tactic(auto, using(crate::proofs::Loads::loaded_pointer))]
pub fn load_gives_word_stored()
    ensures { (memory : List Block) (at word : Word) →
        IsWord word →
        access_fault memory at 8 ≡ None →
        loaded (stored memory at 8 word) at 8 true ≡ word }
{}

/// A load at an integer type gives the number that a store left there, or the address number of the
/// pointer, modulo two to the power of its bits (C11 6.2.4p2, 6.3.1.3p2).
#[tactic(auto, using(crate::proofs::Loads::loaded_number))]
pub fn load_gives_number_stored()
    ensures { (memory : List Block) (at : Word) (size : ℕ) (word : Word) →
        size ≤ 8 →
        access_fault memory at size ≡ None →
        loaded (stored memory at size word) at size false
        ≡ Plain (address_number memory word % 2 ^ (8 * size)) }
{}

/// A store keeps every block but the one that it is made to (C11 6.2.4p2).
#[tactic(auto, using(crate::proofs::Written::store_keeps_blocks))]
pub fn store_keeps_other_blocks()
    ensures { (memory : List Block) (number : ℕ) (offset : ℤ) (size : ℕ) (word : Word) →
        KeepsOthers memory (stored memory (To number offset) size word) number }
{}

/// In the block that it is made to, a store keeps every byte but its own, and the block's place, kind,
/// life and size (C11 6.2.4p2).
#[tactic(auto, using(crate::proofs::Written::store_keeps_bytes))]
pub fn store_keeps_other_bytes()
    ensures { (memory : List Block) (number from size : ℕ) (word : Word) (block : Block) →
        size ≤ 8 →
        slice_get memory number ≡ Some block →
        from + size ≤ length block.bytes →
        (changed : Block)
        × (slice_get (stored memory (To number (pos from)) size word) number ≡ Some changed)
        × KeepsOtherBytes block changed from size }
{}

/// A move adds to the address of a word, modulo 2^64, be it a pointer or a number (C11 6.5.6p8).
#[tactic(auto, using(crate::proofs::Moves::move_adds))]
pub fn move_adds_to_the_address()
    ensures { (memory : List Block) (word : Word) (bytes : ℤ) →
        address_number memory (moved word bytes) ≡ wrapped (pos (address_number memory word) +ℤ bytes) }
{}

/// A pointer that is moved leads to the same block, at the sum of the offsets where that has 64 bits.
pub fn move_stays_in_its_block()
    ensures { (block : ℕ) (offset bytes : ℤ) → FitsSigned w64 (offset +ℤ bytes) →
        moved (To block offset) bytes ≡ To block (offset +ℤ bytes) }
{}

/// Two ranges share a byte exactly where some byte of one block lies in both (C11 7.24.2.1p2).
#[tactic(auto, using(crate::proofs::Moves::shared_bytes))]
pub fn shared_bytes_lie_in_both_ranges()
    ensures { (one other : Word) (count : ℕ) →
        IsTrue (share_byte one other count) ↔ SharesByte one other count }
{}

/// A fill leaves its number in each byte of its range (C11 7.24.6.1p2).
#[tactic(auto, using(crate::proofs::Ranges::fill_leaves))]
pub fn fill_leaves_its_number()
    ensures { (memory : List Block) (at : Word) (number count : ℕ) →
        range_fault memory at count ≡ None →
        bytes_at (filled memory at number count) at count ≡ replicate count (Num number) }
{}

/// A copy leaves in its target what its source held before it (C11 7.24.2.1p2, 7.24.2.2p2).
#[tactic(auto, using(crate::proofs::Ranges::copy_leaves))]
pub fn copy_leaves_its_source()
    ensures { (memory : List Block) (to from : Word) (count : ℕ) (disjoint : Bool) →
        copy_fault memory to from count disjoint ≡ None →
        bytes_at (copied memory to from count) to count ≡ bytes_at memory from count }
{}

/// A free meets no fault exactly for null and for the first byte of a live heap block (C11 7.22.3.3p2).
#[tactic(auto, using(crate::proofs::Releases::freeable))]
pub fn free_needs_live_heap_block()
    ensures { (memory : List Block) (at : Word) →
        (free_fault memory at ≡ None) ↔ ((at ≡ Plain 0) ⊎ LeadsToHeap memory at) }
{}

/// A free makes its block dead, and keeps all else of the block (C11 7.22.3.3p2).
#[tactic(auto, using(crate::proofs::Releases::block_ended))]
pub fn free_ends_its_block()
    ensures { (memory : List Block) (number : ℕ) (block : Block) →
        slice_get memory number ≡ Some block →
        slice_get (freed memory (To number (pos 0))) number ≡ Some (record block { live = false }) }
{}

/// A free keeps every block but its own.
#[tactic(auto, using(crate::proofs::Releases::free_keeps_blocks))]
pub fn free_keeps_other_blocks()
    ensures { (memory : List Block) (number : ℕ) →
        KeepsOthers memory (freed memory (To number (pos 0))) number }
{}

/// A second free of a heap block is a double free (C11 7.22.3.3p2).
#[tactic(auto, using(crate::proofs::Releases::second_free))]
pub fn second_free_is_double_free()
    ensures { (memory : List Block) (number : ℕ) (block : Block) →
        slice_get memory number ≡ Some block →
        IsTrue (is_heap block.kind) →
        free_fault (freed memory (To number (pos 0))) (To number (pos 0)) ≡ Some double_free }
{}

/// A free of null changes nothing (C11 7.22.3.3p2).
pub fn free_of_null_changes_nothing()
    ensures { (memory : List Block) → freed memory (Plain 0) ≡ memory }
{}

/// The worked examples come out as they should.
#[tactic(auto, using(crate::proofs::Examples::examples))]
pub fn examples_hold()
    ensures { AreExamples }
{}

/// Lists of blocks are memories where each block lies where it may, live ones share no address, and each part of
/// a pointer names a block: the worked examples come out so.
#[tactic(auto, using(crate::proofs::Edges::memories))]
pub fn edges_of_memories_hold()
    ensures { AreMemories }
{}

/// The worked examples of bases come out as they should.
#[tactic(auto, using(crate::proofs::Edges::places))]
pub fn edges_of_places_hold()
    ensures { ArePlaces }
{}

/// The worked examples of addresses and moves come out as they should.
#[tactic(auto, using(crate::proofs::Edges::addresses))]
pub fn edges_of_addresses_hold()
    ensures { AreAddresses }
{}

/// The worked examples of accesses, fills and copies come out as they should.
#[tactic(auto, using(crate::proofs::Edges::ranges))]
pub fn edges_of_ranges_hold()
    ensures { AreRanges }
{}

/// The worked examples of frees come out as they should.
#[tactic(auto, using(crate::proofs::Edges::frees))]
pub fn edges_of_frees_hold()
    ensures { AreFrees }
{}
