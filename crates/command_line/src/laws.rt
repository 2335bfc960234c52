//! Laws of the definitions. Each is the contract of a function that does nothing.
ghost use Rattle.command_line.specs.ReplayExamples.{ExamplesHold};

/// Words behind `replay` ask for what the table of examples says.
#[tactic(auto, using(crate::proofs::ReplayExamples::examples_hold))]
pub fn replay_examples_hold()
    ensures { ExamplesHold }
{}
