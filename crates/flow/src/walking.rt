ghost use Rattle.std.specs.Prelude.{◌≡◌, ◌+◌, ◌<◌, ◌≤◌, ℕ, length, slice_get, Some, List, IfOk};
ghost use Rattle.flow.specs.declared.flow_graph.FlowEdge.{FlowEdge};
ghost use Rattle.flow.specs.Walks.{Answers, IsNumberOfWalks};
ghost use Rattle.flow.specs.InRange.{IsInRange, entry_of};
ghost use Rattle.flow.specs.Counting.{AreEndsBelow, AreLinks, IsSearch, IsCapped};

use crate::answer::Walks;
use crate::counting::{MANY, Mark, Search, Turn, take_turn, visit_of};
use crate::flow_graph::{Flow, FlowEdge};
use crate::links::{Links, links_of};
use cbase::NoMemory;
use std::alloc::Global;

/// The search begins at a point, and knows nothing of the others.
fn search_from(alloc: Global, links: &Links, points: u32, point: u32) -> Result<Search, NoMemory>
    requires inside { point < points }
    requires links { length links.now.first.items ≡ points }
    ensures points { IfOk result (λ search. length search.marks.items ≡ points) }
    ensures begun { (edges : List FlowEdge) → AreLinks edges points (length edges) links.now.first.items links.now.next.items →
        IfOk result (λ search. IsSearch edges point search.marks.items search.earlier.items search.visit) }
{
    let mut marks: Vec<Mark> = vec![in alloc; Mark::New; points as usize]?;
    marks[point as usize] = Mark::Open;
    Ok(Search {
        marks,
        earlier: Vec::new(alloc),
        visit: visit_of(point, links),
    })
}

/// Counts the walks from a point, along the edges of a graph with so many points.
fn walks_from(alloc: Global, edges: &[FlowEdge], points: u32, point: u32) -> Result<Walks, NoMemory>
    requires ends { AreEndsBelow edges.now points }
    requires point { point < points }
    ensures { IfOk result (λ walks. Answers edges.now point walks) }
{
    let links = links_of(alloc, edges, points)?;
    let mut search = search_from(alloc, &links, points, point)?;
    loop {
        match take_turn(&mut search, edges, &links)? {
            Turn::On => {}
            Turn::Cycle => return Ok(Walks::Cycle),
            Turn::Counted(number) => return Ok(answer_of(number)),
        }
    }
}

/// The answer for so many walks, kept up to `MANY`.
fn answer_of(number: u32) -> Walks
    ensures { (edges : List FlowEdge) (from count : ℕ) →
        IsNumberOfWalks edges from count → IsCapped number count → Answers edges from result }
{
    if number < MANY {
        Walks::Number(number)
    } else {
        Walks::More
    }
}

/// The number of walks within main from its entry, the one of no step included.
///
/// A walk goes along no `Return`, and a call is one step to the point where the caller goes on. `Cycle` is told
/// exactly where a cycle is reached within main, and `More` exactly where none is and there are more than 200,000.
/// It takes time in proportion to the points and edges.
pub fn walks(alloc: Global, flow: &Flow) -> Result<Walks, NoMemory>
    requires { IsInRange flow.now }
    ensures { IfOk result (λ walks. Answers flow.now.edges (entry_of flow.now flow.now.main) walks) }
{
    let main = &flow.functions.as_slice()[flow.main as usize];
    walks_from(alloc, flow.edges.as_slice(), flow.points, main.entry)
}
