//! Scopes that are left.
ghost use Rattle.std.specs.Prelude.{◌≡◌, ◌++◌, length, not, nat_eq, true, is_some, IfErr, IfOk, OnOk};
ghost use Rattle.std.specs.List.{filter};
ghost use Rattle.graph.specs.Maps.{storage_of};
ghost use Rattle.graph.specs.Whole.{IsGraph};
ghost use Rattle.changes.specs.FollowingAlike.{StepMeansAlike};
ghost use Rattle.changes.specs.Posted.{IsPost};
ghost use Rattle.heap_steps.specs.Regions.{IsExactOfRegions};
ghost use Rattle.heap_steps.specs.Leaving.{LeavesScope, FaultsLeaving, HasRoomFor, MayLeave, LeaveTail, without_variable, without_one, left, leave_post};

use crate::look::look;
use cbase::{List, NoMemory, Stop};
use changes::with_dead;
use graph::{Graph, Named, Parts, Post};
use std::alloc::Global;

/// The key of the object that is a variable's storage.
fn storage_of(variables: &[Named], variable: u32) -> Option<u32>
    ensures { result ≡ storage_of variables.now variable }
{
    let mut left = variables;
    while let [first, rest @ ..] = left {
        if first.variable == variable {
            return Some(first.object);
        }
        left = rest;
    }
    None
}

/// Puts the variables but one behind others.
fn keep_others(variables: &[Named], variable: u32, kept: &mut List<Named>) -> Result<(), NoMemory>
    ensures { OnOk result (kept.new ≡ kept.old ++ filter (λ named. not (nat_eq variable named.variable)) variables.now) }
{
    let mut left = variables;
    while let [first, rest @ ..] = left {
        if variable != first.variable {
            kept.push(*first)?;
        }
        left = rest;
    }
    Ok(())
}

/// A graph's parts without a variable.
fn without_variable(alloc: Global, parts: Parts, variable: u32) -> Result<Parts, NoMemory>
    ensures { IfOk result (λ after. after ≡ without_variable variable parts) }
{
    let mut kept = List::new(alloc);
    match keep_others(parts.variables.as_slice(), variable, &mut kept) {
        Ok(()) => {
            let mut after = parts;
            after.variables = kept;
            Ok(after)
        }
        Err(error) => {
            drop(parts);
            Err(error)
        }
    }
}

/// A graph's parts without a variable, whose object is dead.
fn without_one(alloc: Global, parts: Parts, variable: u32) -> Result<Parts, NoMemory>
    requires graph { IsGraph parts }
    requires named { is_some (storage_of parts.variables variable) ≡ true }
    ensures { IfOk result (λ after. after ≡ without_one variable parts) }
{
    match storage_of(parts.variables.as_slice(), variable) {
        None => unreachable!(),
        Some(key) => match without_variable(alloc, parts, variable) {
            Err(error) => Err(error),
            Ok(gone) => with_dead(alloc, gone, key),
        },
    }
}

/// A graph's parts without variables, whose objects have died one after the other.
fn left(alloc: Global, parts: Parts, which: &[u32]) -> Result<Parts, NoMemory>
    requires graph { IsGraph parts }
    requires may { MayLeave parts which.now }
    ensures { IfOk result (λ after. after ≡ left which.now parts) }
{
    let mut after = parts;
    let mut variables = which;
    while let [first, rest @ ..] = variables {
        after = without_one(alloc, after, *first)?;
        variables = rest;
    }
    Ok(after)
}

/// The post of a scope that is left.
fn left_post(alloc: Global, graph: &Graph, which: &[u32]) -> Result<Post, NoMemory>
    requires may { MayLeave graph.now which.now }
    ensures post { IfOk result (λ post. IsPost (leave_post graph.now which.now) post) }
    ensures graph { IsGraph graph.now }
{
    let _ = graph.value_count();
    let parts = graph.parts(alloc)?;
    let after = left(alloc, parts, which)?;
    look(alloc, after)
}

/// The scope of these variables is left (C11 6.2.4p2, 6.2.4p5): their storage ends, one after the other, and lost blocks are looked
/// for.
///
/// The graphs of the post stand for each state that follows, and where no loss is named for no others, of those with room for the
/// blocks that died: each that a graph of regions stands for has it. Kind 7 is listed exactly where some state that the graph stands for loses a block then. It costs one copy of the
/// graph, and goes through its variables for each that is left.
pub fn leave(alloc: Global, graph: &Graph, which: &[u32]) -> Result<Post, Stop>
    requires may { MayLeave graph.now which.now }
    ensures post { IfOk result (λ post. IsPost (leave_post graph.now which.now) post) }
    ensures means { IfOk result (λ post. StepMeansAlike graph.now (LeavesScope which.now) (FaultsLeaving which.now) (LeaveTail graph.now which.now) (HasRoomFor (length which.now)) post) }
    ensures regions { IfOk result (λ post. IsExactOfRegions graph.now (LeavesScope which.now) post) }
    ensures small { IfErr result (λ stop. stop ≡ Stop.NoMemory) }
{
    match left_post(alloc, graph, which) {
        Ok(post) => Ok(post),
        Err(NoMemory) => Err(Stop::NoMemory),
    }
}
