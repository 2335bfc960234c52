//! Where the objects of variables hold constants, and a number by which graphs that hold the same ones there are found.
ghost use Rattle.std.specs.Prelude.{◌≡◌, ◌<◌, ◌++◌, OnOk, IfOk, IfSome};
ghost use Rattle.graph.specs.Maps.{object_at, storage_of};
ghost use Rattle.graph.specs.Meaning.{maps_of};
ghost use Rattle.graph.specs.Nodes.{node_of};
ghost use Rattle.graph.specs.Whole.{IsGraph};
ghost use Rattle.cover.specs.Cells.{is_constant, is_cell, PutsCell, cells_of_edges, cells_of_object, constant_cells, held_at, mixed, mixed_with, fingerprint};

use crate::content::Content;
use crate::edges::{content_of, held_in, value_in};
use crate::node::edges_of;
use cbase::{List, NoMemory};
use graph::{Graph, HasValue, Named, Object};
use std::alloc::Global;

/// A range of the object of a variable.
#[derive(Clone, Copy, PartialEq, Eq)]
pub struct Cell {
    /// The number of the variable.
    pub variable: u32,
    /// The first byte of the range, from 0.
    pub at: u32,
    /// How many bytes the range has: 1, 2, 4 or 8.
    pub size: u8,
}

/// Whether this is a constant.
fn is_constant(content: Content) -> bool
    ensures { result ≡ is_constant content }
{
    match content {
        Content::Fixed { .. } => true,
        _ => false,
    }
}

/// Whether an edge is one of the first bytes of an object, and holds a constant.
fn is_cell(graph: &Graph, object: &Object, edge: HasValue) -> bool
    ensures { result ≡ is_cell (maps_of graph.now) object.now edge }
{
    if edge.at >= 64 {
        return false;
    }
    match value_in(edges_of(object), edge.at, edge.size) {
        None => false,
        Some(key) => is_constant(content_of(graph, key)),
    }
}

/// Puts in the cell of an edge, if it is one.
#[tactic(auto, using(crate::proofs::Celled::cell_put, crate::proofs::Celled::no_cell_put))]
fn put_cell(
    cells: &mut List<Cell>,
    graph: &Graph,
    object: &Object,
    variable: u32,
    edge: HasValue,
) -> Result<(), NoMemory>
    ensures { OnOk result (PutsCell (maps_of graph.now) object.now variable edge cells.old cells.new) }
{
    if !is_cell(graph, object, edge) {
        return Ok(());
    }
    cells.push(Cell {
        variable,
        at: edge.at,
        size: edge.size,
    })?;
    Ok(())
}

/// Puts in the cells of an object.
fn put_cells(
    cells: &mut List<Cell>,
    graph: &Graph,
    object: &Object,
    variable: u32,
) -> Result<(), NoMemory>
    ensures { OnOk result (cells.new ≡ cells.old ++ cells_of_edges (maps_of graph.now) object.now variable (node_of object.now).edges) }
{
    let mut left = edges_of(object);
    while let [first, rest @ ..] = left {
        put_cell(cells, graph, object, variable, *first)?;
        left = rest;
    }
    Ok(())
}

/// Puts in the cells of the object of a variable.
fn put_cells_of(cells: &mut List<Cell>, graph: &Graph, named: Named) -> Result<(), NoMemory>
    ensures { OnOk result (cells.new ≡ cells.old ++ cells_of_object (maps_of graph.now) named.variable (object_at graph.now.objects named.object)) }
{
    match graph.object(named.object) {
        None => Ok(()),
        Some(object) => put_cells(cells, graph, object, named.variable),
    }
}

/// Where the objects of variables hold constants, as far as their edges among the first 64 bytes say.
pub fn constant_cells(alloc: Global, graph: &Graph) -> Result<List<Cell>, NoMemory>
    ensures { IfOk result (λ cells. cells ≡ constant_cells graph.now) }
{
    let mut cells = List::new(alloc);
    let mut left = graph.variables();
    while let [first, rest @ ..] = left {
        put_cells_of(&mut cells, graph, *first)?;
        left = rest;
    }
    Ok(cells)
}

/// The key of the object of a variable.
fn storage_of(variables: &[Named], variable: u32) -> Option<u32>
    ensures { result ≡ storage_of variables.now variable }
{
    let mut left = variables;
    while let [first, rest @ ..] = left {
        if first.variable == variable {
            return Some(first.object);
        }
        left = rest;
    }
    None
}

/// What a graph holds in a cell.
fn held_at(graph: &Graph, cell: &Cell) -> Option<Content>
    ensures { result ≡ held_at (maps_of graph.now) cell.now }
{
    match storage_of(graph.variables(), cell.variable) {
        None => None,
        Some(key) => match graph.object(key) {
            None => None,
            Some(object) => held_in(graph, object, cell.at, cell.size),
        },
    }
}

/// A number of what came so far and one number more.
fn mixed(print: u64, number: u64) -> u64
    requires { print < 2147483647 }
    ensures is { result ≡ mixed print number }
    ensures within { result < 2147483647 }
{
    (print * 48_271 + number % 2_147_483_647) % 2_147_483_647
}

/// The number so far goes on with a constant, and with nothing else.
fn mixed_with(print: u64, held: Option<Content>) -> Option<u64>
    requires { print < 2147483647 }
    ensures is { result ≡ mixed_with print held }
    ensures within { IfSome result (λ next. next < 2147483647) }
{
    match held {
        Some(Content::Fixed { number, .. }) => Some(mixed(print, number)),
        _ => None,
    }
}

/// The fingerprint of a graph at some cells: a number of the constants that it holds there; none where it holds something else in one of
/// them. Where one graph covers another one, both have the same fingerprint at the cells of the first one
/// (`what_covers_has_the_same_fingerprint`). It takes no memory.
pub fn fingerprint(graph: &Graph, cells: &[Cell]) -> Option<u64>
    ensures is { result ≡ fingerprint graph.now cells.now }
    ensures within { IfSome result (λ print. print < 2147483647) }
{
    let mut print = 0;
    let mut left = cells;
    while let [first, rest @ ..] = left {
        match mixed_with(print, held_at(graph, first)) {
            None => return None,
            Some(next) => print = next,
        }
        left = rest;
    }
    Some(print)
}
