use crate::graph::Graph;
use cbase::List;

/// What a step makes of the memories that a graph stands for.
#[derive(Drop)]
pub struct Post {
    /// These stand for the memories that follow.
    pub graphs: List<Graph>,
    /// The kinds of fault that some memory meets, ascending, none twice.
    pub kinds: List<u8>,
    /// The smallest number of a loss of precision, from 1 to 8, if there is one.
    pub loss: Option<u8>,
}
