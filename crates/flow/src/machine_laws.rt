//! Laws of the flow machine. Each is the contract of a function that does nothing.
ghost use Rattle.flow.specs.Choosing.{AreRunsByFirst, AreStepsByFirst, DoRunsGoAlong, DoRunsKeepMore};
ghost use Rattle.flow.specs.Exclusive.{DoEdgesRun, DoEdgesStep, DoStepsLookOut};
ghost use Rattle.flow.specs.Fitting.{DoRunsFit, DoStepsFit};
ghost use Rattle.flow.specs.Hiding.{AreHiddenRightly, DoPartsFollow, DoRunsFollow, IsNoMoreLost};
ghost use Rattle.flow.specs.Keeping.{DoReturnsLeaveNothing, DoRunsKeep, DoStartsKeep, DoStepsKeep};
ghost use Rattle.flow.specs.Memories.{DoRunsKeepMemory, DoStepsKeepMemory};
ghost use Rattle.flow.specs.Ranges.{DoRangesSeparate};
ghost use Rattle.flow.specs.RenamedSteps.{DoRunsRename, DoStepsRename};
ghost use Rattle.flow.specs.Renaming.{IsRenamingKept};
ghost use Rattle.flow.specs.RunStates.{AreRunStates};

/// A step along an edge of a flow graph keeps what stands: where the frame has the variables and registers that stand at
/// its point, with their sizes, and each caller what stands where it goes on, but for the result, so it is behind the step.
pub fn a_step_keeps_what_stands()
    ensures { DoStepsKeep }
{}

/// A run of a flow graph begins with a state that has what stands at main's entry.
#[tactic(auto, using(crate::proofs::KeepingLaws::starts_keep))]
pub fn a_run_begins_with_what_stands()
    ensures { DoStartsKeep }
{}

/// Each state of a run of a flow graph has what stands at its point.
#[tactic(auto, using(crate::proofs::KeepingLaws::runs_keep))]
pub fn a_run_keeps_what_stands()
    ensures { DoRunsKeep }
{}

/// Where a function goes back, no variable of its frame is left.
#[tactic(auto, using(crate::proofs::KeepingLaws::returns_leave_nothing))]
pub fn a_return_leaves_no_variables()
    ensures { DoReturnsLeaveNothing }
{}

/// A step along an edge of a flow graph keeps what registers hold within its size, and what bytes hold below 256.
pub fn a_step_keeps_values_within_their_sizes()
    ensures { DoStepsFit }
{}

/// In each state of a run of a flow graph what registers hold fits its size, and what bytes hold is below 256.
#[tactic(auto, using(crate::proofs::FittingLaws::runs_fit))]
pub fn a_run_keeps_values_within_their_sizes()
    ensures { DoRunsFit }
{}

/// What a step along an edge comes to is determined by as many choices as its instruction asks for, and the others are left.
#[tactic(auto, using(crate::proofs::ChoosingLaws::steps_by_first))]
pub fn a_step_is_determined_by_its_choices()
    ensures { AreStepsByFirst }
{}

/// What a run along edges comes to is determined by as many choices as their instructions ask for, and the others are left.
pub fn a_run_is_determined_by_its_choices()
    ensures { AreRunsByFirst }
{}

/// A run of so many steps goes along as many edges of the graph.
#[tactic(auto, using(crate::proofs::ChoosingLaws::runs_go_along))]
pub fn a_run_goes_along_edges()
    ensures { DoRunsGoAlong }
{}

/// Where a run does not wait, choices behind the others change nothing, and are left.
#[tactic(auto, using(crate::proofs::ChoosingLaws::runs_keep_more))]
pub fn more_choices_are_left()
    ensures { DoRunsKeepMore }
{}

/// Where some blocks of a memory are hidden, loads and addresses are as they were, each change of the part is that change
/// of the whole, and what meets no fault on the part meets none on the whole.
#[tactic(auto, using(crate::proofs::HiddenBlocks::hidden_rightly))]
pub fn hidden_blocks_change_nothing_else()
    ensures { AreHiddenRightly }
{}

/// Where the part meets no fault, a step on it is that step on the whole, but for a return to a caller that is away.
#[tactic(auto, using(crate::proofs::PartLaws::parts_follow))]
pub fn a_step_on_a_part_is_that_step_on_the_whole()
    ensures { DoPartsFollow }
{}

/// A run on the whole is, step for step, that run on the part, until the part meets a fault or goes back to a caller that is
/// away.
pub fn a_run_on_the_whole_is_that_run_on_a_part()
    ensures { DoRunsFollow }
{}

/// Where no memory of the part is lost, none of the whole is, if hidden heap blocks and the part's roots are reached in it.
#[tactic(auto, using(crate::proofs::LossLaws::no_more_lost))]
pub fn a_part_without_loss_tells_of_the_whole()
    ensures { IsNoMoreLost }
{}

/// Blocks under other numbers are read, changed, freed and lost as before.
#[tactic(auto, using(crate::proofs::RenamedBlocks::renaming_kept))]
pub fn numbers_of_blocks_do_not_matter()
    ensures { IsRenamingKept }
{}

/// A step does the same under other numbers of blocks, and a new block gets its number in both.
#[tactic(auto, using(crate::proofs::RenamedStepLaws::steps_rename))]
pub fn a_step_does_the_same_under_other_numbers()
    ensures { DoStepsRename }
{}

/// A run of so many steps does the same under other numbers of blocks.
#[tactic(auto, using(crate::proofs::RunLaws::runs_rename))]
pub fn a_run_does_the_same_under_other_numbers()
    ensures { DoRunsRename }
{}

/// A step looks at the edges out of its point, and at no others.
pub fn a_step_looks_at_the_edges_out_of_its_point()
    ensures { DoStepsLookOut }
{}

/// Where one edge leads out of each point, or two that exclude each other, the machine does what an edge that is not barred does: it goes along it, meets its
/// fault, waits or ends. Where one is barred it goes along the other one, if there is one.
#[tactic(auto, using(crate::proofs::ExclusiveLaws::edges_step))]
pub fn an_edge_of_an_exclusive_graph_is_a_step()
    ensures { DoEdgesStep }
{}

/// And so a run along edges of such a graph is a run of its machine.
#[tactic(auto, using(crate::proofs::ExclusiveLaws::edges_run))]
pub fn a_run_along_edges_of_an_exclusive_graph_is_a_run()
    ensures { DoEdgesRun }
{}

/// Functions that lie in ranges of points of their own, which no edge leaves, are separate.
pub fn functions_in_ranges_are_separate()
    ensures { DoRangesSeparate }
{}

/// A step along an edge of a flow graph keeps a memory a memory, to whose blocks all that a state has leads.
pub fn a_step_keeps_memory()
    ensures { DoStepsKeepMemory }
{}

/// Each state of a run of a flow graph has a memory, to whose blocks all that it has leads, and the static variables of the graph.
pub fn a_run_keeps_memory()
    ensures { DoRunsKeepMemory }
{}

/// What always holds of the states of a run, in one: what stands, values within their sizes, and all that leads into the memory.
#[tactic(auto, using(crate::proofs::RunStateLaws::are_run_states))]
pub fn each_state_of_a_run_is_one()
    ensures { AreRunStates }
{}
