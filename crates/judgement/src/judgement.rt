use driver::Verdict;
use flow::Flow;

/// What is found of a program.
#[derive(Drop)]
pub enum Judgement {
    /// It has no flow graph.
    NoGraph,
    /// It was analysed, or calls a function that it defines.
    Judged {
        /// Its flow graph.
        flow: Flow,
        /// What the analysis comes to.
        verdict: Verdict,
    },
}

/// Lets go of what was found of a program.
///
/// A crate that lets go of it itself proves how a flow graph and the graphs of a trail are let go of. So the crates above hand it back to this call.
pub fn let_go_of_judgement(judgement: Judgement) {
    drop(judgement);
}
