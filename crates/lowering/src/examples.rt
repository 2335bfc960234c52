//! Worked programs with their graphs. Each table is the contract of a function that does nothing.
ghost use Rattle.lowering.specs.Graphs.{AreWritten};
ghost use Rattle.lowering.specs.Programs.{DoCallsMeet, DoChoicesMeet, DoCountsMeet, DoJumpsMeet, DoLoopsMeet, DoMembersMeet, DoObjectsMeet, DoOperatorsMeet, DoReturnsMeet, DoStaticsMeet, DoTestsMeet, DoUpdatesMeet};
ghost use Rattle.lowering.specs.Rows.{AreGraphs, DoCallsRun, DoExpressionsRun, DoStatementsRun};

/// In the graphs of these programs each edge leads from what stands at its one end to what stands at its other end.
pub fn programs_have_graphs()
    ensures { AreGraphs }
{}

/// Expressions, run along their graphs.
pub fn expressions_run()
    ensures { DoExpressionsRun }
{}

/// Statements and blocks, run along their graphs.
pub fn statements_run()
    ensures { DoStatementsRun }
{}

/// Calls of functions that the program defines, run along their graphs.
pub fn calls_run()
    ensures { DoCallsRun }
{}

/// `+=` and its like, along their graphs.
pub fn updates_meet()
    ensures { DoUpdatesMeet }
{}

/// `++`, `--` and moves of pointers.
pub fn counts_meet()
    ensures { DoCountsMeet }
{}

/// `&&`, `||`, `!` and conversions to `_Bool`.
pub fn tests_meet()
    ensures { DoTestsMeet }
{}

/// `?:`, the comma and what is let go of.
pub fn choices_meet()
    ensures { DoChoicesMeet }
{}

/// Operators on integers, and their conversions.
pub fn operators_meet()
    ensures { DoOperatorsMeet }
{}

/// Structs, and how they are copied and filled.
pub fn members_meet()
    ensures { DoMembersMeet }
{}

/// Functions that are built in.
pub fn calls_meet()
    ensures { DoCallsMeet }
{}

/// Loops, and bodies without an edge.
pub fn loops_meet()
    ensures { DoLoopsMeet }
{}

/// Jumps out of blocks and of unfinished expressions.
pub fn jumps_meet()
    ensures { DoJumpsMeet }
{}

/// Results of functions.
pub fn returns_meet()
    ensures { DoReturnsMeet }
{}

/// Allocations and initialisers.
pub fn objects_meet()
    ensures { DoObjectsMeet }
{}

/// Whole graphs, written out.
pub fn graphs_are_written()
    ensures { AreWritten }
{}

/// What static objects hold at the start.
pub fn statics_meet()
    ensures { DoStaticsMeet }
{}
