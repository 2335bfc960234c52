//! Laws of the steps. Each is the contract of a function that does nothing.
ghost use Rattle.c_steps.specs.Laws.{ArePlainSteps};

/// Where a step is said to look at no tree, the machine takes that step in every program.
#[tactic(auto, using(crate::proofs::PlainSteps::plain_steps))]
pub fn plain_steps_are_steps_of_the_machine()
    ensures { ArePlainSteps }
{}
