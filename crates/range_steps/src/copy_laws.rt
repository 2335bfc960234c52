//! Laws of copies. Each is the contract of a function that does nothing.
ghost use Rattle.range_steps.specs.CopyExamples.{AreCopies};

/// What copies between a few objects come to.
#[tactic(auto, using(crate::proofs::CopyExamples::are_copies))]
pub fn copies_have_examples()
    ensures { AreCopies }
{}
