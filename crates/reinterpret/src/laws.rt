//! Worked examples. Each is the contract of a function that does nothing.
ghost use Rattle.reinterpret.specs.TestExamples.{AreTests};

/// Tests of two values come out as they were worked out by hand.
#[tactic(auto, using(crate::proofs::TestExamples::are_tests))]
pub fn test_examples_hold()
    ensures { AreTests }
{}
