//! Laws of the numbers that crates hand to each other. Each is the contract of a function that does nothing.
ghost use Rattle.verdicts.specs.Printed.{ConstructsArePrinted, KindsArePrinted};

/// The number of each kind of fault in memory is printed as the text of that kind.
#[tactic(auto, using(crate::proofs::Printed::kinds_printed))]
pub fn kinds_are_printed()
    ensures { KindsArePrinted }
{}

/// The number by which each construct is given up is printed as the name of that construct.
#[tactic(auto, using(crate::proofs::Printed::constructs_printed))]
pub fn constructs_are_printed()
    ensures { ConstructsArePrinted }
{}
