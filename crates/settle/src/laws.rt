//! Laws of graphs that are settled. Each is the contract of a function that does nothing.
ghost use Rattle.std.specs.Prelude.{◌≡◌, ◌≤◌, ◌+◌, ◌^◌, ℕ, true, false, List, [], ◌∷◌, length};
ghost use Rattle.std.specs.List.{All};
ghost use Rattle.graph.specs.declared.parts.Parts.{Parts};
ghost use Rattle.graph.specs.Whole.{IsGraph};
ghost use Rattle.settle.specs.Laws.{HoldAnyAlike, has_regions_alone, SettledRows};
ghost use Rattle.settle.specs.Settled.{name_no_segment, segments, settled, is_too_large};

/// A graph in which none of the registers names a node of a segment is settled as itself alone.
pub fn what_names_no_segment_is_settled()
    ensures { (registers : List ℕ) (parts : Parts) → name_no_segment registers parts ≡ true → settled registers parts ≡ parts ∷ [] }
{}

/// So is a graph without segments, whatever the registers.
pub fn regions_are_settled()
    ensures { (registers : List ℕ) (parts : Parts) → IsGraph parts → has_regions_alone parts ≡ true → settled registers parts ≡ parts ∷ [] }
{}

/// In each graph of a graph that is settled the same registers hold a value of which nothing is known.
pub fn settling_keeps_what_nothing_is_known_of()
    ensures { (registers : List ℕ) (parts : Parts) →
        IsGraph parts →
        is_too_large registers parts ≡ false →
        All (HoldAnyAlike parts) (settled registers parts) }
{}

/// Of k segments and n registers there come no more than (k + 1)^n graphs.
pub fn there_are_few_settled_graphs()
    ensures { (registers : List ℕ) (parts : Parts) →
        IsGraph parts →
        is_too_large registers parts ≡ false →
        length (settled registers parts) ≤ (segments parts + 1) ^ length registers }
{}

/// The graphs of one with two segments in a row, as they were worked out by hand.
pub fn settled_graphs_are_as_worked_out()
    ensures { SettledRows }
{}
