//! The laws.
ghost use Rattle.plain.specs.Example.{IsExamplePlain};
ghost use Rattle.plain.specs.Chain.{AreTrailsPlain};
ghost use Rattle.plain.specs.Real.{AreDrivenTrailsPlain};
ghost use Rattle.plain.specs.RealErrors.{AreWarningsErrors};
ghost use Rattle.plain.specs.Answers.{AreAnsweredExactly};
ghost use Rattle.plain.specs.Followed.{AreAnsweredWholly};
ghost use Rattle.plain.specs.Sizes.{AreGraphsSmall};
ghost use Rattle.plain.specs.StartGraph.{DoStartsShow};
ghost use Rattle.plain.specs.Laws.{AreRegistersPlain, AreAccessesPlain, AreTestsPlain, AreEndsPlain, AreBlocksPlain};
ghost use Rattle.graph.specs.declared.parts.Parts.{Parts};
ghost use Rattle.graph.specs.State.{State};
ghost use Rattle.graph.specs.Whole.{IsGraph};
ghost use Rattle.tidying.specs.Tidied.{tidied};
ghost use Rattle.plain.specs.Marks.{Marks};
ghost use Rattle.plain.specs.Shown.{IsShown};

/// Where a graph shows a state with its marks, and what is asked of the instruction is met, the post of one that touches registers alone names no loss and has one graph
/// at most, which shows each state that follows.
#[tactic(auto, using(crate::proofs::Plainly::registers_plain))]
pub fn registers_go_plainly()
    ensures { AreRegistersPlain }
{}

/// So does that of a load, of a store, of a fill with zeros, or of a copy of whole pieces and zeros.
#[tactic(auto, using(crate::proofs::Plainly::accesses_plain))]
pub fn accesses_go_plainly()
    ensures { AreAccessesPlain }
{}

/// So does that of a test whether two values are the same.
#[tactic(auto, using(crate::proofs::Plainly::tests_plain))]
pub fn tests_go_plainly()
    ensures { AreTestsPlain }
{}

/// So does that of the end of a full expression, of a scope, or of a run where no block of the heap may be left.
#[tactic(auto, using(crate::proofs::Plainly::ends_plain))]
pub fn ends_go_plainly()
    ensures { AreEndsPlain }
{}

/// So does that of the release of a block; and, where the graph has room for these objects, of an allocation that gives a block and of variables that begin to stand.
#[tactic(auto, using(crate::proofs::Plainly::blocks_plain))]
pub fn blocks_go_plainly()
    ensures { AreBlocksPlain }
{}

/// The flow graph of a program that writes a variable and reads it again is plain, and is all else that these laws ask for.
#[tactic(auto, using(crate::proofs::ExampleFlow::example_meets))]
pub fn an_example_is_plain()
    ensures { IsExamplePlain }
{}

/// The start graph shows each state in which a run begins, with the marks that runs begin with.
#[tactic(auto, using(crate::proofs::StartShown::starts_shown))]
pub fn starts_are_shown()
    ensures { DoStartsShow }
{}

/// What a graph shows of a state it shows without what nothing holds.
#[tactic(auto, using(crate::proofs::TidiedShown::tidied_shown))]
pub fn what_is_left_shows_the_same()
    ensures { (parts : Parts) (state : State) (marks : Marks) → IsGraph parts → IsShown parts state marks → IsShown (tidied parts) state marks }
{}

/// Where the start shows each state in which runs begin, and posts of graphs that show a state are plain, each entry of an honest trail of a plain flow graph is shown: a chain of
/// steps without loss leads to it, none of its posts names a loss, and none has more than one graph.
#[tactic(auto, using(crate::proofs::ChainShown::keeps_plain))]
pub fn trails_of_plain_flow_graphs_are_plain()
    ensures { AreTrailsPlain }
{}

/// So it is of each trail that the analysis makes of a plain flow graph of fewer than 2^25 variables.
#[tactic(auto, using(crate::proofs::RealShown::driven_plain))]
pub fn the_analysis_keeps_plain_flow_graphs_plain()
    ensures { AreDrivenTrailsPlain }
{}

/// So each warning of a verdict on such a flow graph is an error, which a run meets; and where all was followed each fault of a run is told.
#[tactic(auto, using(crate::proofs::RealWarnings::warnings_are_errors))]
pub fn warnings_of_plain_flow_graphs_are_errors()
    ensures { AreWarningsErrors }
{}

/// So a verdict on such a flow graph where all was followed is exact: it is safe exactly where no run faults, each of its warnings is an error, which a run meets, and some warning tells of each
/// fault of a run, with its kind and token.
#[tactic(auto, using(crate::proofs::AnsweredExactly::answered_exactly))]
pub fn plain_flow_graphs_are_answered_exactly()
    ensures { AreAnsweredExactly }
{}

/// Where there is a number of walks from main's entry, fewer than 2^25 edges, and fewer than 2^25 variables and objects that edges make together, no graph of a trail that the analysis makes is large.
pub fn graphs_of_few_walks_are_small()
    ensures { AreGraphsSmall }
{}

/// So a verdict on a plain flow graph without calls, and of so few edges, variables and objects, is exact and all was followed, where no more walks lead on from main's entry than graphs may be kept.
#[tactic(auto, using(crate::proofs::AnsweredWholly::answered_wholly))]
pub fn plain_flow_graphs_of_few_walks_are_answered_wholly()
    ensures { AreAnsweredWholly }
{}
