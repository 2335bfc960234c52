//! Tests whether two values are the same.
ghost use Rattle.std.specs.Prelude.{◌≡◌, ◌≤◌, ◌<◌, ◌∷◌, [], true, false, length, None, Some, IfOk, IfErr, if◌then◌else◌};
ghost use Rattle.graph.specs.WellFormed.{is_unequal_pair};
ghost use Rattle.graph.specs.Whole.{IsGraph};
ghost use Rattle.changes.specs.Following.{StepMeans};
ghost use Rattle.changes.specs.Parts.{without_registers};
ghost use Rattle.changes.specs.Posted.{IsPost};
ghost use Rattle.reinterpret.specs.Comparing.{is_noted};
ghost use Rattle.changes.specs.Merging.{MayMerge, merged, with_unequal};
ghost use Rattle.reinterpret.specs.Open.{MayBeEither, IsOpen, HasPairRoom, HasRoom};
ghost use Rattle.reinterpret.specs.Reading.{one_graph};
ghost use Rattle.reinterpret.specs.Sameness.{Equals, NeverFaults, StepSound, may_compare, EqualTail};
ghost use Rattle.reinterpret.specs.Testing.{told_apart, tested, equal_post};

use crate::comparison::{Comparison, compared};
use cbase::{NoMemory, Stop};
use changes::{
    held_by, is_unequal_pair, merged, with_graph, with_unequal, without_graph, without_registers,
};
use graph::{Graph, Held, Pair, Parts, Post};
use std::alloc::Global;

/// With how many unequal pairs a graph may get no more.
const MOST_PAIRS: usize = 1_073_741_823;

/// The post of which the graph is that of some parts, with these registers emptied.
fn put(alloc: Global, parts: Parts, gone: &[u32], loss: Option<u8>) -> Result<Post, NoMemory>
    requires graph { IsGraph parts }
    ensures { IfOk result (λ post. IsPost (one_graph (without_registers gone.now parts) loss) post) }
{
    match without_registers(alloc, parts, gone) {
        Err(error) => Err(error),
        Ok(after) => with_graph(alloc, after, loss),
    }
}

/// The post of which the graph is this one, with these registers emptied.
fn put_same(alloc: Global, graph: &Graph, gone: &[u32], loss: Option<u8>) -> Result<Post, NoMemory>
    requires graph { IsGraph graph.now }
    ensures { IfOk result (λ post. IsPost (one_graph (without_registers gone.now graph.now) loss) post) }
{
    match graph.parts(alloc) {
        Err(error) => Err(error),
        Ok(parts) => put(alloc, parts, gone, loss),
    }
}

/// The same, if the states that the graph stands for go on, and else no graph.
fn put_if(
    alloc: Global,
    graph: &Graph,
    gone: &[u32],
    onward: bool,
    loss: Option<u8>,
) -> Result<Post, NoMemory>
    requires graph { IsGraph graph.now }
    ensures { IfOk result (λ post. IsPost (if onward then one_graph (without_registers gone.now graph.now) loss else record { graphs = []; kinds = []; loss = loss }) post) }
{
    if onward {
        put_same(alloc, graph, gone, loss)
    } else {
        without_graph(alloc, &[], loss)
    }
}

/// The post in which two numbers are the same.
fn put_merged(
    alloc: Global,
    graph: &Graph,
    gone: &[u32],
    kept: u32,
    other: u32,
) -> Result<Post, NoMemory>
    requires graph { IsGraph graph.now }
    requires merge { MayMerge graph.now kept other }
    ensures { IfOk result (λ post. IsPost (one_graph (without_registers gone.now (merged kept other graph.now)) None) post) }
{
    match merged(alloc, graph, kept, other) {
        Err(error) => Err(error),
        Ok(parts) => put(alloc, parts, gone, None),
    }
}

/// The post in which a pair says that two values differ.
fn put_pair(alloc: Global, graph: &Graph, gone: &[u32], pair: Pair) -> Result<Post, NoMemory>
    requires graph { IsGraph graph.now }
    requires few { length graph.now.unequal < 1073741823 }
    requires pair { is_unequal_pair graph.now pair ≡ true }
    requires fresh { is_noted graph.now pair.left pair.right ≡ false }
    ensures { IfOk result (λ post. IsPost (one_graph (without_registers gone.now (with_unequal pair.left pair.right graph.now)) None) post) }
{
    match graph.parts(alloc) {
        Err(error) => Err(error),
        Ok(parts) => match with_unequal(parts, pair.left, pair.right) {
            Err(error) => Err(error),
            Ok(more) => put(alloc, more, gone, None),
        },
    }
}

/// The same, as a call that may answer that a graph is too large.
fn go_on(
    alloc: Global,
    graph: &Graph,
    gone: &[u32],
    onward: bool,
    loss: Option<u8>,
) -> Result<Post, Stop>
    requires graph { IsGraph graph.now }
    ensures post { IfOk result (λ post. IsPost (if onward then one_graph (without_registers gone.now graph.now) loss else record { graphs = []; kinds = []; loss = loss }) post) }
    ensures small { IfErr result (λ stop. stop ≡ Stop.NoMemory) }
{
    match put_if(alloc, graph, gone, onward, loss) {
        Ok(post) => Ok(post),
        Err(NoMemory) => Err(Stop::NoMemory),
    }
}

/// The post in which two numbers are the same, as a call that may answer that a graph is too large.
fn test_same(
    alloc: Global,
    graph: &Graph,
    gone: &[u32],
    kept: u32,
    other: u32,
) -> Result<Post, Stop>
    requires graph { IsGraph graph.now }
    requires either { MayBeEither graph.now kept other }
    ensures post { IfOk result (λ post. IsPost (one_graph (without_registers gone.now (merged kept other graph.now)) None) post) }
    ensures small { IfErr result (λ stop. stop ≡ Stop.NoMemory) }
{
    match put_merged(alloc, graph, gone, kept, other) {
        Ok(post) => Ok(post),
        Err(NoMemory) => Err(Stop::NoMemory),
    }
}

/// The post in which a pair says that two values differ, as a call that may answer that a graph is too large.
fn put_apart(alloc: Global, graph: &Graph, gone: &[u32], pair: Pair) -> Result<Post, Stop>
    requires graph { IsGraph graph.now }
    requires pair { is_unequal_pair graph.now pair ≡ true }
    requires fresh { is_noted graph.now pair.left pair.right ≡ false }
    ensures post { IfOk result (λ post. IsPost (one_graph (without_registers gone.now (with_unequal pair.left pair.right graph.now)) None) post) }
    ensures room { IfOk result (λ post. length graph.now.unequal < 1073741823) }
    ensures large { IfErr result (λ stop. stop ≡ Stop.Large → 1073741823 ≤ length graph.now.unequal) }
{
    if graph.unequal().len() >= MOST_PAIRS {
        return Err(Stop::Large);
    }
    match put_pair(alloc, graph, gone, pair) {
        Ok(post) => Ok(post),
        Err(NoMemory) => Err(Stop::NoMemory),
    }
}

/// The post in which two numbers differ.
fn test_different(
    alloc: Global,
    graph: &Graph,
    gone: &[u32],
    one: u32,
    other: u32,
) -> Result<Post, Stop>
    requires graph { IsGraph graph.now }
    requires either { MayBeEither graph.now one other }
    ensures post { IfOk result (λ post. IsPost (told_apart graph.now gone.now one other) post) }
    ensures room { IfOk result (λ post. is_unequal_pair graph.now (record { left = one; right = other }) ≡ true → length graph.now.unequal < 1073741823) }
    ensures large { IfErr result (λ stop. stop ≡ Stop.Large → 1073741823 ≤ length graph.now.unequal) }
{
    let pair = Pair {
        left: one,
        right: other,
    };
    if is_unequal_pair(graph, pair) {
        put_apart(alloc, graph, gone, pair)
    } else {
        go_on(alloc, graph, gone, true, Some(5))
    }
}

/// The post by what is known of the values.
fn test_known(
    alloc: Global,
    graph: &Graph,
    gone: &[u32],
    same: bool,
    comparison: Comparison,
) -> Result<Post, Stop>
    requires graph { IsGraph graph.now }
    requires open { IsOpen graph.now comparison }
    ensures post { IfOk result (λ post. IsPost (tested graph.now gone.now same comparison) post) }
    ensures room { IfOk result (λ post. HasPairRoom graph.now same comparison) }
    ensures large { IfErr result (λ stop. stop ≡ Stop.Large → 1073741823 ≤ length graph.now.unequal) }
{
    match comparison {
        Comparison::Same => go_on(alloc, graph, gone, same, None),
        Comparison::Different => go_on(alloc, graph, gone, !same, None),
        Comparison::Either { kept, other } => {
            if same {
                test_same(alloc, graph, gone, kept, other)
            } else {
                test_different(alloc, graph, gone, kept, other)
            }
        }
        Comparison::Itself => go_on(alloc, graph, gone, same, Some(4)),
        Comparison::Unknown => go_on(alloc, graph, gone, true, Some(4)),
    }
}

/// The post by what the registers hold.
fn test_by(
    alloc: Global,
    graph: &Graph,
    registers: &[Held],
    left: u32,
    right: u32,
    same: bool,
) -> Result<Post, Stop>
    requires graph { IsGraph graph.now }
    requires registers { registers.now ≡ graph.now.registers }
    requires values { may_compare graph.now left right ≡ true }
    ensures post { IfOk result (λ post. IsPost (equal_post graph.now left right same) post) }
    ensures room { IfOk result (λ post. HasRoom graph.now left right same) }
    ensures large { IfErr result (λ stop. stop ≡ Stop.Large → 1073741823 ≤ length graph.now.unequal) }
{
    match held_by(registers, left) {
        None => unreachable!(),
        Some(one) => match held_by(registers, right) {
            None => unreachable!(),
            Some(other) => test_known(
                alloc,
                graph,
                &[left, right],
                same,
                compared(graph, one, other),
            ),
        },
    }
}

/// Goes on in the states in which what two registers hold is the same, or in those in which it is not (C11 6.5.9). Both registers are
/// empty then.
///
/// The values have one size, and none is the address of a node of a segment. No fault is met. Loss 4 is named where one is an address or any
/// word, unless one is null and the other an address inside a live object, or both are such addresses; and loss 5 where two numbers of 1 or 2 bytes
/// are to differ that may be the same. Where two numbers are to be the same, one stands wherever the other stood; where they are to differ, a pair
/// says so.
///
/// `Large` comes only where there are 2^30 - 1 unequal pairs. It takes a copy of the graph, or two of its objects.
pub fn test_equal(
    alloc: Global,
    graph: &Graph,
    left: u32,
    right: u32,
    same: bool,
) -> Result<Post, Stop>
    requires values { may_compare graph.now left right ≡ true }
    ensures post { IfOk result (λ post. IsPost (equal_post graph.now left right same) post) }
    ensures means { IfOk result (λ post. StepMeans graph.now (Equals left right same) NeverFaults (EqualTail graph.now (left ∷ right ∷ [])) post) }
    ensures sound { IfOk result (λ post. StepSound graph.now (Equals left right same) post) }
    ensures large { IfErr result (λ stop. stop ≡ Stop.Large → 1073741823 ≤ length graph.now.unequal) }
{
    let registers = graph.registers();
    test_by(alloc, graph, registers, left, right, same)
}
