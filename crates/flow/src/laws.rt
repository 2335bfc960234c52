//! Worked examples of the flow machine, and of what holds of flow graphs. Each is the contract of a function that does nothing.
ghost use Rattle.flow.specs.ClauseRows.{AreSizesTold, AreObjectsTold, IsStandingTold, AreExitsTold};
ghost use Rattle.flow.specs.MachineRows.{AreValuesMade, AreAccesses, AreWays};
ghost use Rattle.flow.specs.StartRows.{AreStarts};

/// Values that are made, moved, computed and converted come out as they should.
#[tactic(auto, using(crate::proofs::MachineRows::values_made))]
pub fn values_are_made()
    ensures { AreValuesMade }
{}

/// Accesses, frees, fills and copies come out as they should, and so do the faults that they meet.
#[tactic(auto, using(crate::proofs::MachineRows::accesses))]
pub fn accesses_come_out()
    ensures { AreAccesses }
{}

/// Tests, allocations, inputs, scopes, ends of full expressions, calls and returns come out as they should.
#[tactic(auto, using(crate::proofs::MachineRows::ways))]
pub fn ways_come_out()
    ensures { AreWays }
{}

/// A run begins with static variables that hold what they hold at the start, and with main's parameters.
#[tactic(auto, using(crate::proofs::StartRows::starts))]
pub fn starts_come_out()
    ensures { AreStarts }
{}

/// Numbers name what is there, and sizes are those of scalars and objects.
#[tactic(auto, using(crate::proofs::ClauseRows::sizes_told))]
pub fn sizes_are_told()
    ensures { AreSizesTold }
{}

/// What static variables hold, parameters, calls and returns are as they should be.
#[tactic(auto, using(crate::proofs::ClauseRows::objects_told))]
pub fn objects_are_told()
    ensures { AreObjectsTold }
{}

/// An instruction reads what stands, and leaves what stands behind it.
#[tactic(auto, using(crate::proofs::ClauseRows::standing_told))]
pub fn standing_is_told()
    ensures { IsStandingTold }
{}

/// The one edge out of an exit is a return, and no variable stands there.
#[tactic(auto, using(crate::proofs::ClauseRows::exits_told))]
pub fn exits_are_told()
    ensures { AreExitsTold }
{}
