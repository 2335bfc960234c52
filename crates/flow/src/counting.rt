ghost use Rattle.std.specs.Prelude.{◌≡◌, ◌+◌, ◌<◌, ◌≤◌, ◌^◌, ◌∷◌, ◌++◌, [], ℕ, zero, suc, length, slice_index, slice_set, slice_get, Some, min, List, if◌then◌else◌, IfOk, OnOk};
ghost use Rattle.flow.specs.Counting.{AreEndsBelow, AreLinks, Turns};
ghost use Rattle.flow.specs.declared.counting.Mark.TheVariants.{Open, Done};
ghost use Rattle.flow.specs.declared.flow_graph.FlowEdge.{FlowEdge};

use crate::flow_graph::FlowEdge;
use crate::links::Links;
use cbase::NoMemory;
use std::alloc::Global;

/// One more than the greatest number of walks that is told.
pub const MANY: u32 = 200_001;

/// What is known of a point.
#[derive(Clone, Copy)]
pub enum Mark {
    /// The search did not come to it.
    New,
    /// The search goes through the edges out of it.
    Open,
    /// So many walks begin at it, kept up to `MANY`.
    Done(u32),
}

/// A point whose edges the search goes through.
#[derive(Clone, Copy)]
pub struct Visit {
    /// The point.
    pub point: u32,
    /// One more than the number of the edge that is looked at, or 0 behind the last one.
    pub cursor: usize,
    /// How many walks begin with the edges before that one, kept up to `MANY`.
    pub number: u32,
}

/// A search through the points that walks come to.
#[derive(Drop)]
pub struct Search {
    /// What is known of each point.
    pub marks: Vec<Mark>,
    /// The visits that wait for a later one, the earliest first.
    pub earlier: Vec<Visit>,
    /// The visit that goes on.
    pub visit: Visit,
}

/// What a step of the search comes to.
#[derive(Clone, Copy)]
pub enum Turn {
    /// The search goes on.
    On,
    /// A cycle is reached.
    Cycle,
    /// All is counted: so many walks, kept up to `MANY`.
    Counted(u32),
}

/// The sum of two numbers, kept up to `MANY`.
fn capped_sum(one: u32, other: u32) -> u32
    ensures { result ≡ min (one + other) 200001 }
{
    one.saturating_add(other).min(MANY)
}

/// The visit of a point begins with the last edge out of it.
pub fn visit_of(point: u32, links: &Links) -> Visit
    requires { point < length links.now.first.items }
    ensures point { result.point ≡ point }
    ensures cursor { result.cursor ≡ slice_index links.now.first.items point }
    ensures number { result.number ≡ 0 }
{
    Visit {
        point,
        cursor: links.first[point as usize],
        number: 0,
    }
}

/// Ends the visit of a point, whose edges are all counted, and goes back to the one before it.
fn finish(search: &mut Search) -> Turn
    requires inside { search.old.visit.point < length search.old.marks.items }
    requires end { search.old.visit.cursor ≡ 0 }
    ensures { (edges : List FlowEdge) →
        Turns edges search.old.marks.items search.old.earlier.items search.old.visit result
        search.new.marks.items search.new.earlier.items search.new.visit }
{
    let number = capped_sum(search.visit.number, 1);
    search.marks[search.visit.point as usize] = Mark::Done(number);
    match search.earlier.pop() {
        None => Turn::Counted(number),
        Some(visit) => {
            search.visit = visit;
            Turn::On
        }
    }
}

/// Passes over the edge that is looked at, behind which so many walks begin.
fn pass(search: &mut Search, links: &Links, at: usize, number: u32)
    requires { at < length links.now.next.items }
    ensures marks { search.new.marks ≡ search.old.marks }
    ensures earlier { search.new.earlier ≡ search.old.earlier }
    ensures point { search.new.visit.point ≡ search.old.visit.point }
    ensures cursor { search.new.visit.cursor ≡ slice_index links.now.next.items at }
    ensures number { search.new.visit.number ≡ min (search.old.visit.number + number) 200001 }
{
    search.visit.number = capped_sum(search.visit.number, number);
    search.visit.cursor = links.next[at];
}

/// Goes on to a new point; the visit that the search stands in waits.
fn enter(search: &mut Search, links: &Links, point: u32) -> Result<(), NoMemory>
    requires mark { point < length search.old.marks.items }
    requires link { point < length links.now.first.items }
    ensures marks { OnOk result (search.new.marks.items ≡ slice_set search.old.marks.items point Open) }
    ensures earlier { OnOk result (search.new.earlier.items ≡ search.old.earlier.items ++ search.old.visit ∷ []) }
    ensures point { OnOk result (search.new.visit.point ≡ point) }
    ensures cursor { OnOk result (search.new.visit.cursor ≡ slice_index links.now.first.items point) }
    ensures number { OnOk result (search.new.visit.number ≡ 0) }
{
    search.earlier.push(search.visit)?;
    search.visit = visit_of(point, links);
    search.marks[point as usize] = Mark::Open;
    Ok(())
}

/// One step of the search: a visit ends, an edge is passed over, a new point is entered, or a cycle is found.
pub fn take_turn(search: &mut Search, edges: &[FlowEdge], links: &Links) -> Result<Turn, NoMemory>
    requires ends { AreEndsBelow edges.now (length search.old.marks.items) }
    requires links { AreLinks edges.now (length search.old.marks.items) (length edges.now) links.now.first.items links.now.next.items }
    requires inside { search.old.visit.point < length search.old.marks.items }
    requires cursor { search.old.visit.cursor ≤ length edges.now }
    ensures { IfOk result (λ turn.
        Turns edges.now search.old.marks.items search.old.earlier.items search.old.visit turn
        search.new.marks.items search.new.earlier.items search.new.visit) }
{
    if search.visit.cursor == 0 {
        return Ok(finish(search));
    }
    let at = search.visit.cursor - 1;
    let to = edges[at].to;
    match search.marks[to as usize] {
        Mark::Done(number) => {
            pass(search, links, at, number);
            Ok(Turn::On)
        }
        Mark::Open => Ok(Turn::Cycle),
        Mark::New => {
            enter(search, links, to)?;
            Ok(Turn::On)
        }
    }
}
