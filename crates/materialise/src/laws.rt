//! Laws of graphs of which a segment is split. Each is the contract of a function that does nothing.
ghost use Rattle.std.specs.Prelude.{◌↔◌, ◌≡◌, ℕ, ◌+◌, true, nat_lt, if◌then◌else◌};
ghost use Rattle.std.specs.Option.{option_map_or};
ghost use Rattle.graph.specs.declared.parts.Parts.{Parts};
ghost use Rattle.graph.specs.Meaning.{StandsFor};
ghost use Rattle.graph.specs.State.{State};
ghost use Rattle.graph.specs.WellFormed.{IsWellFormed, HasAscendingKeys, nodes, is_within_limits};
ghost use Rattle.graph.specs.Whole.{IsGraph};
ghost use Rattle.changes.specs.Posted.{SomeStandsFor};
ghost use Rattle.materialise.specs.Dropped.{links_at, dropped};
ghost use Rattle.materialise.specs.Empty.{may_be_empty, StandsWithout};
ghost use Rattle.materialise.specs.Kept.{HoldsAsBefore};
ghost use Rattle.materialise.specs.SplitFirst.{split_first, first_nodes};
ghost use Rattle.materialise.specs.SplitLast.{split_last, last_nodes};
ghost use Rattle.materialise.specs.WithOne.{is_segment, is_twofold, has_head, HaveOffsets, StandsWithOne};
ghost use Rattle.materialise.specs.Worked.{DroppedRows, FirstRows};
ghost use Rattle.materialise.specs.WorkedSplits.{SplitRows};

/// A graph without a segment that may have no nodes is well formed, and within the limits.
pub fn what_is_dropped_leaves_a_graph()
    ensures { (parts : Parts) (key : ℕ) →
        IsGraph parts →
        may_be_empty parts key ≡ true →
        IsWellFormed (dropped key parts) × HasAscendingKeys (dropped key parts) × (is_within_limits (dropped key parts) ≡ true) }
{}

/// It stands for exactly the states for which the graph stands without a node of the segment.
pub fn dropping_is_the_case_without_nodes()
    ensures { (parts : Parts) (key : ℕ) (state : State) →
        IsGraph parts →
        may_be_empty parts key ≡ true →
        (StandsFor (dropped key parts) state ↔ StandsWithout parts key state) }
{}

/// A graph in which the first node of a segment is a region of its own is a graph, where it is within the limits.
pub fn what_is_split_leaves_a_graph()
    ensures { (parts : Parts) (key : ℕ) →
        IsGraph parts →
        is_segment parts key ≡ true →
        is_within_limits (split_first key parts) ≡ true →
        IsGraph (split_first key parts) }
{}

/// It names the same variables, and holds values of the same sizes in the same registers and ports.
pub fn a_split_holds_as_before()
    ensures { (parts : Parts) (key : ℕ) → IsGraph parts → is_segment parts key ≡ true → HoldsAsBefore parts (split_first key parts) }
{}

/// Where the segment may have one node alone, or none, the split graph has a node more, and else as many.
pub fn a_split_has_one_node_more_at_most()
    ensures { (parts : Parts) (key : ℕ) →
        IsGraph parts →
        is_segment parts key ≡ true →
        nodes (split_first key parts) ≡ nodes parts + (if nat_lt (option_map_or (λ links. links.least) (links_at parts key) 0) 2 then 1 else 0) }
{}

/// The graph in which the first node of a segment is a region of its own stands for exactly the states for which the graph stands with a node of the
/// segment. The offsets of its addresses are numbers of 64 bits, as they are in each graph.
pub fn the_first_node_of_a_segment_is_a_region()
    ensures { (parts : Parts) (key : ℕ) (state : State) →
        IsGraph parts →
        is_segment parts key ≡ true →
        HaveOffsets parts.values →
        (StandsFor (split_first key parts) state ↔ StandsWithOne parts key state) }
{}

/// The graphs of its cases, without nodes and with a first one, stand together for exactly the states for which the graph stands.
pub fn first_nodes_are_all_cases()
    ensures { (parts : Parts) (key : ℕ) (state : State) →
        IsGraph parts →
        is_segment parts key ≡ true →
        HaveOffsets parts.values →
        (StandsFor parts state ↔ SomeStandsFor (first_nodes key parts) state) }
{}

/// A graph in which the last node of a segment that is linked both ways is a region of its own is a graph, where it is within the limits.
pub fn what_is_split_at_the_end_leaves_a_graph()
    ensures { (parts : Parts) (key : ℕ) →
        IsGraph parts →
        is_twofold parts key ≡ true →
        is_within_limits (split_last key parts) ≡ true →
        IsGraph (split_last key parts) }
{}

/// It names and holds what the graph did.
pub fn a_split_at_the_end_holds_as_before()
    ensures { (parts : Parts) (key : ℕ) → IsGraph parts → is_twofold parts key ≡ true → HoldsAsBefore parts (split_last key parts) }
{}

/// It has as many nodes as the one in which the first node is a region.
pub fn a_split_at_the_end_has_one_node_more_at_most()
    ensures { (parts : Parts) (key : ℕ) →
        IsGraph parts →
        is_twofold parts key ≡ true →
        nodes (split_last key parts) ≡ nodes parts + (if nat_lt (option_map_or (λ links. links.least) (links_at parts key) 0) 2 then 1 else 0) }
{}

/// The graph in which the last node of a segment that is linked both ways is a region of its own stands for exactly the states for which the graph
/// stands with a node of the segment. Offsets of addresses are numbers of 64 bits, and the place to which links lead is one of 63, as they are in each graph.
pub fn the_last_node_of_a_segment_is_a_region()
    ensures { (parts : Parts) (key : ℕ) (state : State) →
        IsGraph parts →
        is_twofold parts key ≡ true →
        has_head parts key ≡ true →
        HaveOffsets parts.values →
        (StandsFor (split_last key parts) state ↔ StandsWithOne parts key state) }
{}

/// The graphs of the cases of a segment that is linked both ways, without nodes and with a last one, stand together for exactly the states for which
/// the graph stands.
pub fn last_nodes_are_all_cases()
    ensures { (parts : Parts) (key : ℕ) (state : State) →
        IsGraph parts →
        is_twofold parts key ≡ true →
        has_head parts key ≡ true →
        HaveOffsets parts.values →
        (StandsFor parts state ↔ SomeStandsFor (last_nodes key parts) state) }
{}

/// Three graphs without a segment, as they were worked out by hand.
pub fn drops_are_as_worked_out()
    ensures { DroppedRows }
{}

/// The cases of three graphs with a segment, as they were worked out by hand.
pub fn first_nodes_are_as_worked_out()
    ensures { FirstRows }
{}

/// Four graphs in which a node of a segment is a region, as they were worked out by hand.
pub fn splits_are_as_worked_out()
    ensures { SplitRows }
{}
