//! The cases of the segment that a register names.
ghost use Rattle.std.specs.Prelude.{◌≡◌, ◌↔◌, false, true, map, option_map, pos, is_some, IfOk, IfErr, IfSome};
ghost use Rattle.graph.specs.declared.value.Value.TheVariants.{Address};
ghost use Rattle.graph.specs.Renaming.{numbered};
ghost use Rattle.graph.specs.WellFormed.{leads_to_object};
ghost use Rattle.graph.specs.Whole.{IsGraph};
ghost use Rattle.settle.specs.Parted.{is_beyond, AreParted};
ghost use Rattle.settle.specs.Settled.{value_held, cases_at, cases_of, cases_by, first_cases};

use cbase::{List, Stop};
use changes::held_by;
use graph::{Graph, Target, Value};
use materialise::{first_node, last_node};
use std::alloc::Global;

/// The value that a register holds.
fn value_held(graph: &Graph, register: u32) -> Option<Value>
    ensures value { result ≡ value_held graph.now register }
    ensures graph { IsGraph graph.now }
{
    match held_by(graph.registers(), register) {
        None => None,
        Some(key) => match graph.value(key) {
            None => None,
            Some(value) => Some(*value),
        },
    }
}

/// The cases of a segment, by the end at which an address leads.
fn cases_at(
    alloc: Global,
    graph: &Graph,
    object: u32,
    target: Target,
) -> Result<Option<List<Graph>>, Stop>
    requires graph { IsGraph graph.now }
    requires leads { leads_to_object graph.now (Address object (pos 0) target) ≡ true }
    ensures ok { IfOk result (λ found. found ≡ option_map (map numbered) (cases_at graph.now object target)) }
    ensures parted { IfOk result (λ found. IfSome found (AreParted graph.now)) }
    ensures within { IfOk result (λ _. is_beyond (cases_at graph.now object target) ≡ false) }
    ensures named { IfErr result (λ _. is_some (cases_at graph.now object target) ≡ true) }
    ensures large { (result ≡ Err Stop.Large) ↔ (is_beyond (cases_at graph.now object target) ≡ true) }
{
    match target {
        Target::Region => Ok(None),
        Target::First => match first_node(alloc, graph, object) {
            Ok(graphs) => Ok(Some(graphs)),
            Err(stop) => Err(stop),
        },
        Target::Last => match last_node(alloc, graph, object) {
            Ok(graphs) => Ok(Some(graphs)),
            Err(stop) => Err(stop),
        },
        Target::Each => Ok(None),
    }
}

/// The cases of the segment of which a value is the address of an end.
fn cases_of(alloc: Global, graph: &Graph, value: Value) -> Result<Option<List<Graph>>, Stop>
    requires graph { IsGraph graph.now }
    requires leads { leads_to_object graph.now value ≡ true }
    ensures ok { IfOk result (λ found. found ≡ option_map (map numbered) (cases_of graph.now value)) }
    ensures parted { IfOk result (λ found. IfSome found (AreParted graph.now)) }
    ensures within { IfOk result (λ _. is_beyond (cases_of graph.now value) ≡ false) }
    ensures named { IfErr result (λ _. is_some (cases_of graph.now value) ≡ true) }
    ensures large { (result ≡ Err Stop.Large) ↔ (is_beyond (cases_of graph.now value) ≡ true) }
{
    match value {
        Value::Const { .. } => Ok(None),
        Value::Number { .. } => Ok(None),
        Value::Any => Ok(None),
        Value::Address {
            object,
            offset: _,
            target,
        } => cases_at(alloc, graph, object, target),
    }
}

/// The cases of the segment that a register names.
fn cases_by(alloc: Global, graph: &Graph, register: u32) -> Result<Option<List<Graph>>, Stop>
    ensures ok { IfOk result (λ found. found ≡ option_map (map numbered) (cases_by graph.now register)) }
    ensures parted { IfOk result (λ found. IfSome found (AreParted graph.now)) }
    ensures within { IfOk result (λ _. is_beyond (cases_by graph.now register) ≡ false) }
    ensures named { IfErr result (λ _. is_some (cases_by graph.now register) ≡ true) }
    ensures large { (result ≡ Err Stop.Large) ↔ (is_beyond (cases_by graph.now register) ≡ true) }
{
    match value_held(graph, register) {
        None => Ok(None),
        Some(value) => cases_of(alloc, graph, value),
    }
}

/// The cases of the segment that the first of these registers names which names one.
pub(crate) fn first_cases(
    alloc: Global,
    graph: &Graph,
    registers: &[u32],
) -> Result<Option<List<Graph>>, Stop>
    ensures graph { IsGraph graph.now }
    ensures ok { IfOk result (λ found. found ≡ option_map (map numbered) (first_cases graph.now registers.now)) }
    ensures parted { IfOk result (λ found. IfSome found (AreParted graph.now)) }
    ensures within { IfOk result (λ _. is_beyond (first_cases graph.now registers.now) ≡ false) }
    ensures large { (result ≡ Err Stop.Large) ↔ (is_beyond (first_cases graph.now registers.now) ≡ true) }
{
    let _ = graph.object_count();
    let mut left = registers;
    while let [first, rest @ ..] = left {
        match cases_by(alloc, graph, *first) {
            Ok(None) => {}
            Ok(Some(cases)) => return Ok(Some(cases)),
            Err(stop) => return Err(stop),
        }
        left = rest;
    }
    Ok(None)
}
