//! Laws. Each is the contract of a function that does nothing.
ghost use Rattle.register_steps.specs.Cases.{AreMoved, AreComputed, AreConverted};

/// The worked lines hold: moves, operations, conversions.
#[tactic(auto, using(crate::proofs::Worked::moves, crate::proofs::Worked::operations, crate::proofs::Worked::conversions))]
pub fn worked_lines()
    ensures moves { AreMoved }
    ensures operations { AreComputed }
    ensures conversions { AreConverted }
{}
