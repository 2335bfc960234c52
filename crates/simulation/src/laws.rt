//! Laws of the two machines. Each is the contract of a function that does nothing.
ghost use Rattle.simulation.specs.Laws.{DoLoweredRunsAgree, DoProgramsMeet};

/// From a point at which the rest of a run is lowered, and in states with the same objects, operands and memory, both machines meet the same faults with the
/// same choices, each within some steps where the other one does.
#[tactic(auto, using(crate::proofs::Whole::lowered_runs_agree))]
pub fn lowered_runs_agree()
    ensures { DoLoweredRunsAgree }
{}

/// Where the static objects, the functions and the main of a program are lowered to a flow graph, a run of the program leads to a fault of a kind at a place
/// exactly where the run of the graph with the same choices does.
pub fn programs_and_graphs_meet_the_same_faults()
    ensures { DoProgramsMeet }
{}
