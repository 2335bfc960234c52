//! Copies of bytes.
ghost use Rattle.std.specs.Prelude.{◌≡◌, [], ◌∷◌, true, false, IfOk, IfErr, IfSome};
ghost use Rattle.changes.specs.Following.{StepMeans, WriteTail, LeadsToRegion};
ghost use Rattle.changes.specs.Parts.{with_object};
ghost use Rattle.changes.specs.Places.{IsRoom};
ghost use Rattle.changes.specs.Posted.{IsPost, on_object};
ghost use Rattle.changes.specs.Reaching.{is_address_held, reach_of};
ghost use Rattle.graph.specs.Maps.{object_at};
ghost use Rattle.graph.specs.Whole.{IsGraph};
ghost use Rattle.range_steps.specs.AnyCopies.{MeetsCopied};
ghost use Rattle.range_steps.specs.Copies.{Copies, FaultsCopying};
ghost use Rattle.range_steps.specs.Copying.{copied_object, object_written, object_copied, copied_between, copied_by, copy_post};

use crate::losses::loss_of;
use crate::moved::put_moved;
use crate::overlaps::{anywhere_post, may_overlap, overlap};
use crate::writing::copy_object;
use cbase::{List, NoMemory, Stop};
use changes::{
    Reach, emptied_post, fault_post, held_by, reach_of, with_graph, without_graph,
    without_registers,
};
use graph::{Graph, Held, Parts, Post};
use std::alloc::Global;

/// A graph's parts in which bytes of one object are copied to those of another, or of the same.
fn copied_parts(
    alloc: Global,
    graph: &Graph,
    count: u32,
    key: u32,
    from: u32,
    other: u32,
    at: u32,
) -> Result<Parts, NoMemory>
    requires graph { IsGraph graph.now }
    requires source { IsRoom graph.now key from count }
    requires target { IsRoom graph.now other at count }
    ensures { IfOk result (λ after. IfSome (object_at graph.now.objects key) (λ source. IfSome (object_at graph.now.objects other) (λ target. after ≡ with_object other (copied_object source from target at count) graph.now))) }
{
    match graph.object(key) {
        None => unreachable!(),
        Some(source) => {
            let mut edges = List::new(alloc);
            match put_moved(source.edges.as_slice(), from, count, at, &mut edges) {
                Err(error) => Err(error),
                Ok(()) => match graph.parts(alloc) {
                    Err(error) => Err(error),
                    Ok(parts) => copy_object(
                        alloc,
                        parts,
                        other,
                        at,
                        count,
                        edges.as_slice(),
                        &source.plane,
                        from,
                    ),
                },
            }
        }
    }
}

/// The post of a copy between bytes that do not overlap, or may.
fn copy_room(
    alloc: Global,
    graph: &Graph,
    gone: &[u32],
    count: u32,
    key: u32,
    from: u32,
    other: u32,
    at: u32,
) -> Result<Post, NoMemory>
    requires graph { IsGraph graph.now }
    requires source { IsRoom graph.now key from count }
    requires target { IsRoom graph.now other at count }
    ensures { IfOk result (λ post. IsPost (on_object (object_at graph.now.objects key) (λ source. on_object (object_at graph.now.objects other) (λ target. object_written graph.now gone.now false count source from other target at))) post) }
{
    match loss_of(alloc, graph, count, key, from, other, at) {
        Err(error) => Err(error),
        Ok(loss) => match copied_parts(alloc, graph, count, key, from, other, at) {
            Err(error) => Err(error),
            Ok(copied) => match without_registers(alloc, copied, gone) {
                Err(error) => Err(error),
                Ok(after) => with_graph(alloc, after, loss),
            },
        },
    }
}

/// The post of a copy between bytes of objects.
fn copy_rooms(
    alloc: Global,
    graph: &Graph,
    gone: &[u32],
    disjoint: bool,
    count: u32,
    key: u32,
    from: u32,
    other: u32,
    at: u32,
) -> Result<Post, NoMemory>
    requires graph { IsGraph graph.now }
    requires source { IsRoom graph.now key from count }
    requires target { IsRoom graph.now other at count }
    ensures { IfOk result (λ post. IsPost (on_object (object_at graph.now.objects key) (λ source. on_object (object_at graph.now.objects other) (λ target. object_copied graph.now gone.now disjoint count key source from other target at))) post) }
{
    if disjoint {
        if overlap(other, at, key, from, count) {
            return without_graph(alloc, &[8], None);
        }
    }
    copy_room(alloc, graph, gone, count, key, from, other, at)
}

/// The post of a copy of some bytes.
fn copy_reached(
    alloc: Global,
    graph: &Graph,
    gone: &[u32],
    disjoint: bool,
    count: u32,
    source: u32,
    target: u32,
) -> Result<Post, NoMemory>
    requires graph { IsGraph graph.now }
    requires source { LeadsToRegion graph.now source }
    requires target { LeadsToRegion graph.now target }
    ensures { IfOk result (λ post. IsPost (copied_between graph.now gone.now disjoint count (reach_of graph.now source count) (reach_of graph.now target count)) post) }
{
    let first = reach_of(graph, source, count);
    let second = reach_of(graph, target, count);
    match first {
        Reach::Room { key, from } => match second {
            Reach::Room {
                key: other,
                from: at,
            } => { copy_rooms(alloc, graph, gone, disjoint, count, key, from, other, at) }
            Reach::Anything { live } => {
                let overlaps = disjoint && may_overlap(graph, count, first, second);
                anywhere_post(alloc, live, overlaps)
            }
            Reach::Nothing => fault_post(alloc, Reach::Nothing),
            Reach::Fault(kind) => fault_post(alloc, Reach::Fault(kind)),
            Reach::Number { small } => fault_post(alloc, Reach::Number { small }),
        },
        Reach::Anything { live } => {
            let overlaps = disjoint && may_overlap(graph, count, first, second);
            anywhere_post(alloc, live, overlaps)
        }
        Reach::Nothing => fault_post(alloc, Reach::Nothing),
        Reach::Fault(kind) => fault_post(alloc, Reach::Fault(kind)),
        Reach::Number { small } => fault_post(alloc, Reach::Number { small }),
    }
}

/// The post of a copy, by the values that the registers hold.
fn copy_keys(
    alloc: Global,
    graph: &Graph,
    gone: &[u32],
    disjoint: bool,
    length: u32,
    source: u32,
    target: u32,
) -> Result<Post, NoMemory>
    requires graph { IsGraph graph.now }
    requires source { LeadsToRegion graph.now source }
    requires target { LeadsToRegion graph.now target }
    ensures { IfOk result (λ post. IsPost (copied_by graph.now gone.now disjoint length source target) post) }
{
    if length == 0 {
        emptied_post(alloc, graph, gone)
    } else {
        copy_reached(alloc, graph, gone, disjoint, length, source, target)
    }
}

/// The post of a copy, by what the registers hold.
fn copy_by(
    alloc: Global,
    graph: &Graph,
    registers: &[Held],
    to: u32,
    from: u32,
    length: u32,
    disjoint: bool,
) -> Result<Post, NoMemory>
    requires graph { IsGraph graph.now }
    requires registers { registers.now ≡ graph.now.registers }
    requires target { is_address_held graph.now to ≡ true }
    requires source { is_address_held graph.now from ≡ true }
    ensures { IfOk result (λ post. IsPost (copy_post graph.now to from length disjoint) post) }
{
    match held_by(registers, to) {
        None => unreachable!(),
        Some(target) => match held_by(registers, from) {
            None => unreachable!(),
            Some(source) => {
                copy_keys(alloc, graph, &[to, from], disjoint, length, source, target)
            }
        },
    }
}

/// Copies `length` bytes from where the register `from` leads to where the register `to` leads, as `memcpy`, where the two must be
/// `disjoint`, `memmove` and the assignment of a struct do it (C11 7.24.2.1, 7.24.2.2, 6.5.16.1). Both registers are empty then.
///
/// Both addresses have eight bytes, and are none of a node of a segment. A copy of no byte is no access; all bytes are read before one is
/// written. The source is looked at first, then the target, and then whether they share a byte. The edges that lie whole in the source's
/// range, and the class of each of its bytes, stand in the target's in place of what stood there. Loss 3 is named where an edge is cut,
/// of the source or of the target, and where a byte of the source that may be other than 0 stands in no edge: that the two bytes are equal
/// is not kept. Loss 4 is named where the source or a target behind it may be any word, so that no graph stands for what follows.
/// Each fault that is listed is met by some state, through any word where with an object a region lives, with one that has `length` bytes
/// such a one, and the graph may have one object more.
///
/// It costs a copy of the graph and one of the source's classes, and where no graph comes what `reach_of` of `changes` costs, twice.
pub fn copy(
    alloc: Global,
    graph: &Graph,
    to: u32,
    from: u32,
    length: u32,
    disjoint: bool,
) -> Result<Post, Stop>
    requires target { is_address_held graph.now to ≡ true }
    requires source { is_address_held graph.now from ≡ true }
    ensures post { IfOk result (λ post. IsPost (copy_post graph.now to from length disjoint) post) }
    ensures means { IfOk result (λ post. StepMeans graph.now (Copies to from length disjoint) (λ kind. FaultsCopying to from length disjoint kind) (WriteTail graph.now (to ∷ from ∷ [])) post) }
    ensures listed { IfOk result (λ post. MeetsCopied graph.now to from length disjoint post) }
    ensures small { IfErr result (λ stop. stop ≡ Stop.NoMemory) }
{
    let registers = graph.registers();
    match copy_by(alloc, graph, registers, to, from, length, disjoint) {
        Ok(post) => Ok(post),
        Err(NoMemory) => Err(Stop::NoMemory),
    }
}
