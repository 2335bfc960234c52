//! The law of the lowering. It is the contract of a function that does nothing.
ghost use Rattle.lowering.specs.Laws.{DoGraphsMeet};

/// Where a flow graph is made of a program, a run of the program leads to a fault of a kind at a place exactly where the run of the graph with the same choices
/// does.
pub fn a_program_and_its_graph_meet_the_same_faults()
    ensures { DoGraphsMeet }
{}
