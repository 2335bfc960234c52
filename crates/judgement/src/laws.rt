//! Laws of programs and their flow graphs. Each is the contract of a function that does nothing.
ghost use Rattle.judgement.specs.Laws.{AreFaultsOfPrograms, IsSafetyOfPrograms};

/// Where no run of a program's flow graph faults, no run of the program does.
pub fn a_program_is_as_safe_as_its_graph()
    ensures { IsSafetyOfPrograms }
{}

/// A fault that a run of a program's flow graph meets a run of the program meets.
pub fn a_fault_of_the_graph_is_met_by_the_program()
    ensures { AreFaultsOfPrograms }
{}
