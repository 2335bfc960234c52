//! Variables that begin to stand.
ghost use Rattle.std.specs.Prelude.{◌≡◌, ◌+◌, ◌<◌, ◌≤◌, ◌↔◌, ◌⊎◌, [], ◌∷◌, ◌++◌, true, false, length, nat_lt, IfOk, OnOk};
ghost use Rattle.std.specs.List.{filter};
ghost use Rattle.block_steps.specs.Blocks.{NoFault, AnyMemory, dead_are_addressed, has_room};
ghost use Rattle.block_steps.specs.Entering.{Enters, EnterTail, MayEnter, with_storage, with_entered_one, with_entered, loss_entering, enter_post};
ghost use Rattle.changes.specs.FollowingAlike.{StepMeansAlike};
ghost use Rattle.changes.specs.Posted.{IsPost};
ghost use Rattle.graph.specs.Large.{is_large};

use crate::objects::{loss_beside, new_object};
use crate::room::has_room;
use bytes_core::BlockKind;
use cbase::{List, NoMemory, Stop};
use changes::with_graph;
use graph::{Graph, KeyedObject, Named, Parts, Post};
use std::alloc::Global;

/// Puts the variables below one behind others.
fn keep_below(variables: &[Named], bound: u32, kept: &mut List<Named>) -> Result<(), NoMemory>
    ensures { OnOk result (kept.new ≡ kept.old ++ filter (λ named. nat_lt named.variable bound) variables.now) }
{
    let mut left = variables;
    while let [first, rest @ ..] = left {
        if first.variable < bound {
            kept.push(*first)?;
        }
        left = rest;
    }
    Ok(())
}

/// Puts the variables above one behind others.
fn keep_above(variables: &[Named], bound: u32, kept: &mut List<Named>) -> Result<(), NoMemory>
    ensures { OnOk result (kept.new ≡ kept.old ++ filter (λ named. nat_lt bound named.variable) variables.now) }
{
    let mut left = variables;
    while let [first, rest @ ..] = left {
        if bound < first.variable {
            kept.push(*first)?;
        }
        left = rest;
    }
    Ok(())
}

/// Puts the variables of a graph, and one more with its object, into an empty list.
fn put_storage(
    variables: &[Named],
    variable: u32,
    object: u32,
    kept: &mut List<Named>,
) -> Result<(), NoMemory>
    requires empty { kept.old ≡ [] }
    ensures { OnOk result (kept.new ≡ filter (λ named. nat_lt named.variable variable) variables.now ++ record { variable = variable; object = object } ∷ filter (λ named. nat_lt variable named.variable) variables.now) }
{
    keep_below(variables, variable, kept)?;
    kept.push(Named { variable, object })?;
    keep_above(variables, variable, kept)?;
    Ok(())
}

/// Makes the object with a key the storage of a variable.
fn store(alloc: Global, parts: &mut Parts, variable: u32, key: u32) -> Result<(), NoMemory>
    ensures { OnOk result (parts.new ≡ with_storage variable key parts.old) }
{
    let mut kept = List::new(alloc);
    put_storage(parts.variables.as_slice(), variable, key, &mut kept)?;
    parts.variables = kept;
    Ok(())
}

/// Lets one variable begin to stand.
fn enter_one(alloc: Global, parts: &mut Parts, variable: u32, size: u32) -> Result<(), NoMemory>
    requires few { length parts.old.objects < 4294967296 }
    requires size { size ≤ 65536 }
    ensures { OnOk result (parts.new ≡ with_entered_one variable size parts.old) }
{
    let key = parts.objects.len() as u32;
    let object = new_object(alloc, BlockKind::Local, size, false)?;
    parts.objects.push(KeyedObject { key, object })?;
    store(alloc, parts, variable, key)?;
    Ok(())
}

/// Lets variables begin to stand, one after the other.
fn enter_all(alloc: Global, parts: &mut Parts, which: &[u32], sizes: &[u32]) -> Result<(), NoMemory>
    requires may { MayEnter parts.old which.now sizes.now }
    requires few { length parts.old.objects + length which.now < 4294967296 }
    ensures { OnOk result (parts.new ≡ with_entered which.now sizes.now parts.old) }
{
    let mut left = which;
    let mut others = sizes;
    while let [variable, rest @ ..] = left {
        match others {
            [] => unreachable!(),
            [size, more @ ..] => {
                enter_one(alloc, parts, *variable, *size)?;
                others = more;
            }
        }
        left = rest;
    }
    Ok(())
}

/// What variables lose that begin to stand: that something may lead to their blocks.
fn loss_entering(alloc: Global, graph: &Graph, which: &[u32]) -> Result<Option<u8>, NoMemory>
    ensures { IfOk result (λ loss. loss ≡ loss_entering which.now graph.now) }
{
    match which {
        [] => Ok(None),
        [_, ..] => loss_beside(alloc, graph),
    }
}

/// The post of variables that begin to stand, where so many objects more may stand in the graph.
fn entered(alloc: Global, graph: &Graph, which: &[u32], sizes: &[u32]) -> Result<Post, NoMemory>
    requires may { MayEnter graph.now which.now sizes.now }
    requires room { has_room graph.now (length which.now) ≡ true }
    ensures { IfOk result (λ post. IsPost (enter_post graph.now which.now sizes.now) post) }
{
    let _ = graph.object_count();
    let loss = loss_entering(alloc, graph, which)?;
    let mut parts = graph.parts(alloc)?;
    match enter_all(alloc, &mut parts, which, sizes) {
        Ok(()) => with_graph(alloc, parts, loss),
        Err(error) => {
            drop(parts);
            Err(error)
        }
    }
}

/// A scope begins: these variables stand for new blocks of automatic storage, of these sizes in bytes (C11 6.2.4p5).
///
/// The graph has a live region more for each of them, in order, whose bytes are numbers. There is no fault. Loss 3 is named where
/// there is a variable, and a byte that may be part of a pointer lies in no edge, or a value that is held may be any word: the graph
/// stands for states in which that leads to a new block, too. `Large` comes exactly where the graph would have 2^30 nodes; where
/// each dead object is addressed, the graph is large then, or there are 2^25 variables. It costs one copy of the graph, and goes
/// through its variables for each new one.
pub fn enter(alloc: Global, graph: &Graph, which: &[u32], sizes: &[u32]) -> Result<Post, Stop>
    requires may { MayEnter graph.now which.now sizes.now }
    ensures post { IfOk result (λ post. IsPost (enter_post graph.now which.now sizes.now) post) }
    ensures means { IfOk result (λ post. StepMeansAlike graph.now (Enters which.now sizes.now) NoFault (EnterTail graph.now which.now sizes.now) AnyMemory post) }
    ensures large { (result ≡ Err Stop.Large) ↔ (has_room graph.now (length which.now) ≡ false) }
    ensures many { (result ≡ Err Stop.Large) → dead_are_addressed graph.now ≡ true → (is_large 134217728 graph.now ≡ true) ⊎ (33554432 ≤ length which.now) }
{
    let _ = graph.object_count();
    let room = has_room(graph, which.len());
    if !room {
        return Err(Stop::Large);
    }
    match entered(alloc, graph, which, sizes) {
        Ok(post) => Ok(post),
        Err(NoMemory) => Err(Stop::NoMemory),
    }
}
