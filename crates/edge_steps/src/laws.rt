//! The law.
ghost use Rattle.edge_steps.specs.Laws.{AreSeenSteps};

/// A step of the flow machine along an edge, which is neither a call nor a return, is a step of what a graph sees, and a fault is a fault; and
/// each of these is one of the machine, with some choices.
#[tactic(auto, using(crate::proofs::SeenSteps::seen_steps))]
pub fn an_edge_does_what_is_seen()
    ensures { AreSeenSteps }
{}
