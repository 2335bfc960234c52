//! Graphs in which a register gets a value.
ghost use Rattle.std.specs.Prelude.{◌≡◌, [], ◌∷◌, ◌++◌, true, IfOk};
ghost use Rattle.graph.specs.Whole.{IsGraph};
ghost use Rattle.changes.specs.Posted.{IsPost};
ghost use Rattle.register_steps.specs.declared.line.Gain.TheVariants.{Held, Fresh, Truth};
ghost use Rattle.register_steps.specs.Gaining.{gained, gained_fresh, gained_graphs, may_gain, line_post};

use crate::line::{Gain, Line};
use cbase::NoMemory;
use changes::{with_graph, with_register, with_value, without_graph, without_registers};
use graph::{Graph, Parts, Post, Value, built};
use std::alloc::Global;

/// A graph's parts in which a register holds the value with a key, and others hold nothing.
fn gained(alloc: Global, parts: Parts, gone: &[u32], into: u32, key: u32) -> Result<Parts, NoMemory>
    ensures { IfOk result (λ after. after ≡ gained gone.now into key parts) }
{
    match without_registers(alloc, parts, gone) {
        Err(error) => Err(error),
        Ok(emptied) => with_register(alloc, emptied, into, key),
    }
}

/// A graph's parts in which a register holds a value more, and others hold nothing.
fn gained_fresh(
    alloc: Global,
    graph: &Graph,
    gone: &[u32],
    into: u32,
    value: Value,
) -> Result<Parts, NoMemory>
    ensures { IfOk result (λ after. after ≡ gained_fresh gone.now into value graph.now) }
{
    let key = graph.value_count();
    match graph.parts(alloc) {
        Err(error) => Err(error),
        Ok(parts) => match with_value(parts, value) {
            Err(error) => Err(error),
            Ok(more) => gained(alloc, more, gone, into, key),
        },
    }
}

/// The post in which a register holds the value with a key.
fn held_post(
    alloc: Global,
    graph: &Graph,
    gone: &[u32],
    into: u32,
    key: u32,
    loss: Option<u8>,
) -> Result<Post, NoMemory>
    requires graph { IsGraph graph.now }
    requires may { may_gain graph.now (Held key) ≡ true }
    ensures { IfOk result (λ post. IsPost (record { graphs = gained_graphs graph.now gone.now into (Held key); kinds = []; loss = loss }) post) }
{
    match graph.parts(alloc) {
        Err(error) => Err(error),
        Ok(parts) => match gained(alloc, parts, gone, into, key) {
            Err(error) => Err(error),
            Ok(after) => with_graph(alloc, after, loss),
        },
    }
}

/// The post in which a register holds a value more.
fn fresh_post(
    alloc: Global,
    graph: &Graph,
    gone: &[u32],
    into: u32,
    value: Value,
    loss: Option<u8>,
) -> Result<Post, NoMemory>
    requires graph { IsGraph graph.now }
    requires may { may_gain graph.now (Fresh value) ≡ true }
    ensures { IfOk result (λ post. IsPost (record { graphs = gained_graphs graph.now gone.now into (Fresh value); kinds = []; loss = loss }) post) }
{
    match gained_fresh(alloc, graph, gone, into, value) {
        Err(error) => Err(error),
        Ok(after) => with_graph(alloc, after, loss),
    }
}

/// A post with the graphs of some parts.
fn with_graphs(alloc: Global, one: Parts, other: Parts, loss: Option<u8>) -> Result<Post, NoMemory>
    requires one { IsGraph one }
    requires other { IsGraph other }
    ensures { IfOk result (λ post. IsPost (record { graphs = one ∷ other ∷ []; kinds = []; loss = loss }) post) }
{
    match with_graph(alloc, one, loss) {
        Err(error) => {
            drop(other);
            Err(error)
        }
        Ok(post) => with_graph_more(alloc, post, other),
    }
}

/// A post with one graph more.
fn with_graph_more(alloc: Global, post: Post, parts: Parts) -> Result<Post, NoMemory>
    requires graph { IsGraph parts }
    ensures { IfOk result (λ more. IsPost (record { graphs = post.graphs ++ parts ∷ []; kinds = post.kinds; loss = post.loss }) more) }
{
    match built(alloc, parts) {
        Err(_) => {
            drop(post);
            Err(NoMemory)
        }
        Ok(graph) => {
            let mut more = post;
            match more.graphs.push(graph) {
                Ok(()) => Ok(more),
                Err(error) => {
                    drop(more);
                    Err(error)
                }
            }
        }
    }
}

/// The post in which a register holds 0, and in another graph 1.
fn truth_post(
    alloc: Global,
    graph: &Graph,
    gone: &[u32],
    into: u32,
    size: u8,
    loss: Option<u8>,
) -> Result<Post, NoMemory>
    requires graph { IsGraph graph.now }
    requires may { may_gain graph.now (Truth size) ≡ true }
    ensures { IfOk result (λ post. IsPost (record { graphs = gained_graphs graph.now gone.now into (Truth size); kinds = []; loss = loss }) post) }
{
    match gained_fresh(alloc, graph, gone, into, Value::Const { number: 0, size }) {
        Err(error) => Err(error),
        Ok(zero) => match gained_fresh(alloc, graph, gone, into, Value::Const { number: 1, size }) {
            Err(error) => {
                drop(zero);
                Err(error)
            }
            Ok(one) => with_graphs(alloc, zero, one, loss),
        },
    }
}

/// The post of a step in which a register gets what a line says, and others are emptied.
pub(crate) fn line_post(
    alloc: Global,
    graph: &Graph,
    gone: &[u32],
    into: u32,
    line: Line,
) -> Result<Post, NoMemory>
    requires may { may_gain graph.now line.gain ≡ true }
    ensures post { IfOk result (λ post. IsPost (line_post graph.now gone.now into line) post) }
    ensures graph { IsGraph graph.now }
{
    let _ = graph.value_count();
    match line.gain {
        Gain::Nothing => without_graph(alloc, &[], line.loss),
        Gain::Held(key) => held_post(alloc, graph, gone, into, key, line.loss),
        Gain::Fresh(value) => fresh_post(alloc, graph, gone, into, value, line.loss),
        Gain::Truth(size) => truth_post(alloc, graph, gone, into, size, line.loss),
    }
}
