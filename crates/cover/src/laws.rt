//! Laws of covering. Each is the contract of a function that does nothing.
ghost use Rattle.std.specs.Prelude.{◌≡◌, true, None, IsTrue};
ghost use Rattle.graph.specs.declared.parts.Parts.{Parts};
ghost use Rattle.graph.specs.Meaning.{StandsFor};
ghost use Rattle.graph.specs.State.{State};
ghost use Rattle.graph.specs.WellFormed.{IsWellFormed, is_within_limits};
ghost use Rattle.graph.specs.Whole.{IsGraph};
ghost use Rattle.cover.specs.Cells.{constant_cells, fingerprint};
ghost use Rattle.cover.specs.Covers.{Covers};
ghost use Rattle.cover.specs.Example.{IsExample};
ghost use Rattle.cover.specs.Quick.{may_cover, live_count};

/// A graph that covers another one stands for each state that the other one stands for.
pub fn what_is_covered_is_stood_for()
    ensures { (wide narrow : Parts) (state : State) →
        IsWellFormed wide →
        IsTrue (is_within_limits wide) →
        Covers wide narrow →
        StandsFor narrow state →
        StandsFor wide state }
{}

/// A variable that may hold any number covers one that holds 5, and is not covered by it: so the relation holds of some graphs, and not of all.
pub fn a_number_covers_a_constant()
    ensures { IsExample }
{}

/// Where one graph covers another one, nothing is seen at once that keeps it from that.
pub fn what_covers_may_cover()
    ensures { (wide narrow : Parts) →
        IsGraph wide →
        IsGraph narrow →
        Covers wide narrow →
        may_cover wide narrow ≡ true }
{}

/// Where one graph covers another one, equally many objects live in both.
pub fn what_covers_has_as_many_live_objects()
    ensures { (wide narrow : Parts) →
        IsGraph wide →
        IsGraph narrow →
        Covers wide narrow →
        live_count wide ≡ live_count narrow }
{}

/// Where one graph covers another one, both have the same fingerprint at the cells of the first one.
pub fn what_covers_has_the_same_fingerprint()
    ensures { (wide narrow : Parts) →
        IsGraph wide →
        IsGraph narrow →
        Covers wide narrow →
        fingerprint narrow (constant_cells wide) ≡ fingerprint wide (constant_cells wide) }
{}

/// Each graph has a fingerprint at its own cells.
pub fn a_graph_has_a_fingerprint()
    ensures { (graph : Parts) →
        IsGraph graph →
        fingerprint graph (constant_cells graph) ≡ None →
        ⊥ }
{}
