//! Which ends of objects chains of stored pointers lead to.
//!
//! The first end of an object has its key as its place, and the last one stands behind the first ends of all objects.
ghost use Rattle.std.specs.Prelude.{◌≡◌, ◌+◌, ◌*◌, ◌<◌, [], map, length, OnOk, IsTrue};
ghost use Rattle.graph.specs.Nodes.{own_node};
ghost use Rattle.graph.specs.Maps.{object_at, value_at};
ghost use Rattle.graph.specs.Whole.{IsGraph};
ghost use Rattle.bytes_core.specs.Marking.{marking, is_open, with_mark, with_marks, AreMarks};
ghost use Rattle.heap_steps.specs.Ends.{target_places, value_places, places_of, edge_values, values_behind, places_in, places_behind, first_places};

use cbase::NoMemory;
use graph::{Graph, HasValue, Held, Named, Object, Shape, Target, Value};

/// Whether there is a place of that number that is not marked.
pub(crate) fn is_open(marks: &[bool], place: usize) -> bool
    ensures open { result ≡ is_open marks.now place }
    ensures stands { IsTrue result → place < length marks.now }
{
    match marks.get(place) {
        None => false,
        Some(mark) => !*mark,
    }
}

/// Marks a place that is not marked yet, and puts it among those that are still to be looked through.
#[tactic(auto, unfolding(bytes_core::specs::Marking::with_mark))]
fn mark(marks: &mut Vec<bool>, waiting: &mut Vec<usize>, place: usize) -> Result<(), NoMemory>
    ensures { OnOk result (marking marks.new.items waiting.new.items ≡ with_mark (marking marks.old.items waiting.old.items) place) }
{
    if !is_open(marks.as_slice(), place) {
        return Ok(());
    }
    marks[place] = true;
    waiting.push(place)?;
    Ok(())
}

/// Marks the place of the end to which an address leads.
fn mark_target(
    count: u32,
    marks: &mut Vec<bool>,
    waiting: &mut Vec<usize>,
    object: u32,
    target: Target,
) -> Result<(), NoMemory>
    ensures { OnOk result (marking marks.new.items waiting.new.items ≡ with_marks (marking marks.old.items waiting.old.items) (target_places count object target)) }
{
    match target {
        Target::Region => mark(marks, waiting, object as usize),
        Target::First => mark(marks, waiting, object as usize),
        Target::Last => mark(marks, waiting, count as usize + object as usize),
        Target::Each => Ok(()),
    }
}

/// Marks the place of the end to which the value with a key leads, if it is an address.
fn mark_value(
    graph: &Graph,
    marks: &mut Vec<bool>,
    waiting: &mut Vec<usize>,
    key: u32,
) -> Result<(), NoMemory>
    ensures { OnOk result (marking marks.new.items waiting.new.items
        ≡ with_marks (marking marks.old.items waiting.old.items) (value_places (length graph.now.objects) (value_at graph.now.values key))) }
{
    match graph.value(key) {
        None => Ok(()),
        Some(Value::Const { number: _, size: _ }) => Ok(()),
        Some(Value::Number { size: _ }) => Ok(()),
        Some(Value::Any) => Ok(()),
        Some(
            Value::Address {
                object,
                offset: _,
                target,
            },
        ) => mark_target(graph.object_count(), marks, waiting, *object, *target),
    }
}

/// Marks the places to which the values of edges lead.
#[tactic(auto, using(crate::proofs::Marked::marked_first))]
fn mark_edges(
    graph: &Graph,
    marks: &mut Vec<bool>,
    waiting: &mut Vec<usize>,
    edges: &[HasValue],
) -> Result<(), NoMemory>
    ensures { OnOk result (marking marks.new.items waiting.new.items
        ≡ with_marks (marking marks.old.items waiting.old.items) (places_of graph.now (edge_values edges.now))) }
{
    let mut left = edges;
    while let [first, rest @ ..] = left {
        mark_value(graph, marks, waiting, first.value)?;
        left = rest;
    }
    Ok(())
}

/// Marks the places to which the values of registers lead.
#[tactic(auto, using(crate::proofs::Marked::marked_first))]
fn mark_registers(
    graph: &Graph,
    marks: &mut Vec<bool>,
    waiting: &mut Vec<usize>,
    registers: &[Held],
) -> Result<(), NoMemory>
    ensures { OnOk result (marking marks.new.items waiting.new.items
        ≡ with_marks (marking marks.old.items waiting.old.items) (places_of graph.now (map (λ held. held.value) registers.now))) }
{
    let mut left = registers;
    while let [first, rest @ ..] = left {
        mark_value(graph, marks, waiting, first.value)?;
        left = rest;
    }
    Ok(())
}

/// Marks the places to which values lead.
#[tactic(auto, using(crate::proofs::Marked::marked_first))]
fn mark_values(
    graph: &Graph,
    marks: &mut Vec<bool>,
    waiting: &mut Vec<usize>,
    values: &[u32],
) -> Result<(), NoMemory>
    ensures { OnOk result (marking marks.new.items waiting.new.items ≡ with_marks (marking marks.old.items waiting.old.items) (places_of graph.now values.now)) }
{
    let mut left = values;
    while let [first, rest @ ..] = left {
        mark_value(graph, marks, waiting, *first)?;
        left = rest;
    }
    Ok(())
}

/// Marks the places of the objects of variables.
fn mark_variables(
    marks: &mut Vec<bool>,
    waiting: &mut Vec<usize>,
    variables: &[Named],
) -> Result<(), NoMemory>
    ensures { OnOk result (marking marks.new.items waiting.new.items
        ≡ with_marks (marking marks.old.items waiting.old.items) (map (λ named. named.object) variables.now)) }
{
    let mut left = variables;
    while let [first, rest @ ..] = left {
        mark(marks, waiting, first.object as usize)?;
        left = rest;
    }
    Ok(())
}

/// Marks the places where chains start.
#[tactic(auto, using(crate::proofs::Marked::marked_behind))]
pub(crate) fn mark_first(
    graph: &Graph,
    marks: &mut Vec<bool>,
    waiting: &mut Vec<usize>,
) -> Result<(), NoMemory>
    ensures { OnOk result (marking marks.new.items waiting.new.items ≡ with_marks (marking marks.old.items waiting.old.items) (first_places graph.now)) }
{
    mark_variables(marks, waiting, graph.variables())?;
    mark_registers(graph, marks, waiting, graph.registers())?;
    mark_values(graph, marks, waiting, graph.ports())?;
    Ok(())
}

/// Marks the places to which an end of an object leads on.
#[tactic(auto, using(crate::proofs::Marked::marked_behind))]
fn mark_behind(
    graph: &Graph,
    marks: &mut Vec<bool>,
    waiting: &mut Vec<usize>,
    object: &Object,
    last: bool,
) -> Result<(), NoMemory>
    ensures { OnOk result (marking marks.new.items waiting.new.items
        ≡ with_marks (marking marks.old.items waiting.old.items) (places_of graph.now (values_behind object.now.shape (own_node object.now) last))) }
{
    match &object.shape {
        Shape::Region => mark_edges(graph, marks, waiting, object.edges.as_slice()),
        Shape::Segment {
            least,
            next_value,
            prev_value,
            node,
            ..
        } => {
            if *least == 0 {
                return mark_value(
                    graph,
                    marks,
                    waiting,
                    if last { *prev_value } else { *next_value },
                );
            }
            mark_edges(graph, marks, waiting, node.get().edges.as_slice())?;
            mark_value(graph, marks, waiting, *next_value)?;
            mark_value(graph, marks, waiting, *prev_value)?;
            Ok(())
        }
    }
}

/// Marks the places to which an end of the object with a key leads on.
fn mark_behind_key(
    graph: &Graph,
    marks: &mut Vec<bool>,
    waiting: &mut Vec<usize>,
    key: u32,
    last: bool,
) -> Result<(), NoMemory>
    ensures { OnOk result (marking marks.new.items waiting.new.items
        ≡ with_marks (marking marks.old.items waiting.old.items) (places_in graph.now (object_at graph.now.objects key) last)) }
{
    match graph.object(key) {
        None => Ok(()),
        Some(object) => mark_behind(graph, marks, waiting, object, last),
    }
}

/// Marks the places to which the end at a place leads on.
fn look_through(
    graph: &Graph,
    marks: &mut Vec<bool>,
    waiting: &mut Vec<usize>,
    place: usize,
) -> Result<(), NoMemory>
    requires { place < 2 * length graph.now.objects }
    ensures { OnOk result (marking marks.new.items waiting.new.items ≡ with_marks (marking marks.old.items waiting.old.items) (places_behind graph.now place)) }
{
    let count = graph.object_count() as usize;
    if place < count {
        mark_behind_key(graph, marks, waiting, place as u32, false)
    } else {
        mark_behind_key(graph, marks, waiting, (place - count) as u32, true)
    }
}

/// Marks all places to which ways from the marked ones lead: each is looked through once.
pub(crate) fn follow(
    graph: &Graph,
    marks: &mut Vec<bool>,
    waiting: &mut Vec<usize>,
) -> Result<(), NoMemory>
    requires { AreMarks (2 * length graph.now.objects) (first_places graph.now) (places_behind graph.now) (marking marks.old.items waiting.old.items) }
    ensures { OnOk result (AreMarks (2 * length graph.now.objects) (first_places graph.now) (places_behind graph.now) (marking marks.new.items [])) }
{
    while let Some(place) = waiting.pop() {
        look_through(graph, marks, waiting, place)?;
    }
    Ok(())
}
