//! The law.
ghost use Rattle.alike_steps.specs.Laws.{DoEdgesGoAlike};

/// Where the post of an edge names no loss, a state that is alike one of the graph's goes along the edge as that one does, to alike states; and alike states meet the
/// same faults.
#[tactic(auto, using(crate::proofs::Alike::edges_go_alike))]
pub fn alike_states_go_alike()
    ensures { DoEdgesGoAlike }
{}
