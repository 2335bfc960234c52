//! Laws of segments, and of what an object means. Each is the contract of a function that does nothing.
ghost use Rattle.std.specs.Prelude.{◌≡◌, ℕ, List, ℤ, Option, Some, slice_get};
ghost use Rattle.bytes_core.specs.declared.block.Block.{Block};
ghost use Rattle.bytes_core.specs.declared.word.Word.{Word};
ghost use Rattle.graph.specs.declared.object.Object.{Object};
ghost use Rattle.graph.specs.declared.parts.Parts.{Parts};
ghost use Rattle.graph.specs.Closed.{IsClosed, OnNamed};
ghost use Rattle.graph.specs.Handed.{RenamingHandsOn};
ghost use Rattle.graph.specs.Meaning.{HasBlocks, maps_of};
ghost use Rattle.graph.specs.NodeRows.{RowsAreAppended};
ghost use Rattle.graph.specs.Nodes.{own_node};
ghost use Rattle.graph.specs.SegmentLaws.{SegmentsHaveAddresses, SegmentsHaveNodes};
ghost use Rattle.graph.specs.SplitLaws.{AddressesAreSplit, SegmentsHaveSplitAddresses};
ghost use Rattle.graph.specs.WellFormed.{IsWellFormed};

/// A segment stands for its least number of nodes at least. Each of its blocks is live and meets what is said of a node; it holds the
/// address of the next block, at `head`, and, where it is linked both ways, that of the one before, at `back`. The last node holds what
/// lies behind the segment, and the first one, as its link back, what lies before it.
pub fn segments_have_their_nodes()
    ensures { SegmentsHaveNodes }
{}

/// The addresses of a segment's first and last node are those of its first and last block. Where it has none, they are what lies
/// behind it and before it, moved.
pub fn segments_have_their_addresses()
    ensures { SegmentsHaveAddresses }
{}

/// Other keys, one to one, hand on words and blocks: what is under a key is under the new key.
pub fn renaming_hands_on_words_and_blocks()
    ensures { RenamingHandsOn }
{}

/// What a well-formed graph names is there.
pub fn what_a_graph_names_is_there()
    ensures { (parts : Parts) → IsWellFormed parts → IsClosed (maps_of parts) }
{}

/// A change of memory outside an object's blocks keeps what the object means, whether other blocks are written, freed or hidden.
pub fn an_object_means_its_own_blocks()
    ensures { (memory other : List Block) (object : Object) (word : ℕ → Word) (own : ℕ → Option ℤ) (blocks : List ℕ) →
        ((place number : ℕ) → slice_get blocks place ≡ Some number → slice_get other number ≡ slice_get memory number) →
        HasBlocks memory object word own blocks →
        HasBlocks other object word own blocks }
{}

/// What an object means takes the words of the values that it names, and of no others.
pub fn an_object_means_the_words_that_it_names()
    ensures { (memory : List Block) (object : Object) (word word' : ℕ → Word) (own own' : ℕ → Option ℤ) (blocks : List ℕ) →
        OnNamed (λ key. (word key ≡ word' key) × (own key ≡ own' key)) object.shape (own_node object) →
        HasBlocks memory object word own blocks →
        HasBlocks memory object word' own' blocks }
{}

/// A row of nodes is a front row and the others, each of them the nodes of a segment of its own: behind the front ones lies the first of
/// the others, and before these the last of the front ones.
pub fn rows_of_nodes_are_appended()
    ensures { RowsAreAppended }
{}

/// An address of the first node of a row of nodes is, where the row stands in two, one of the front row, behind which the other lies, and an address
/// of the last node is one of the other, before which the front row lies; also where these are without nodes. An address of a node at an end is one
/// of its block.
pub fn addresses_are_split()
    ensures { AddressesAreSplit }
{}

/// Addresses of the first and last node of a segment have the words that they have when the first node is split off, or the last one.
pub fn segments_have_split_addresses()
    ensures { SegmentsHaveSplitAddresses }
{}
