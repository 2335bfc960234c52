//! What steps make of a graph.
//!
//! A row is `STEP FIELDS / WORD ..`: the fields of the step with `:` between them, and the words of the graph that it is made from. A step without fields is `STEP / WORD ..`.
ghost use Rattle.std.specs.Prelude.{◌≡◌, true, IsSome};
ghost use Rattle.changes.specs.Following.{holds_size};
ghost use Rattle.changes.specs.Reaching.{is_address_held, names_no_segment};
ghost use Rattle.graph.specs.Maps.{held_by};
ghost use Rattle.reinterpret.specs.Sameness.{may_compare};
ghost use Rattle.graph.specs.Sizes.{is_scalar_size, value_size};

use crate::answers::{graph_of_text, said};
use crate::folds::{folding, shown_fold};
use crate::gains::gaining;
use crate::limits::limited;
use crate::scopes::scoped;
use crate::shown::shown;
use crate::splits::splitting;
use block_steps::{allocate, release};
use cbase::{List, NoMemory, Stop};
use changes::held_by;
use fold::Fold;
use graph::{Graph, Post, Target, Value};
use heap_steps::{finish, refuse};
use range_steps::{copy, fill};
use reinterpret::{read, test_equal, write};
use std::alloc::Global;

/// What is answered of the row of a step.
pub fn answer_of_step(alloc: Global, kind: &str, text: &str) -> Result<String, NoMemory> {
    let (fields, words) = match text.strip_prefix("/ ") {
        Some(words) => ("", words),
        None => match text.split_once(" / ") {
            Some(both) => both,
            None => return said(alloc, "no row"),
        },
    };
    match numbers_of(alloc, fields)? {
        Some(numbers) => answer_of_fields(alloc, kind, &numbers, words),
        None => said(alloc, "no row"),
    }
}

/// What is answered of a step with these fields from the graph that a text spells.
fn answer_of_fields(
    alloc: Global,
    kind: &str,
    fields: &List<u32>,
    words: &str,
) -> Result<String, NoMemory> {
    match graph_of_text(alloc, words)? {
        Some(graph) => {
            let came = step(alloc, kind, &graph, fields);
            drop(graph);
            match came {
                Ok(Came::Post(post)) => {
                    let answer = shown_post(alloc, &post);
                    drop(post);
                    answer
                }
                Ok(Came::Fold(fold)) => shown_fold(alloc, fold),
                Ok(Came::NoRow) => said(alloc, "no row"),
                Err(error) => Err(error),
            }
        }
        None => said(alloc, "no graph"),
    }
}

/// What a step comes to, as far as a row tells it.
pub enum Came {
    /// Its post.
    Post(Post),
    /// The first two neighbours that fold, if there are such.
    Fold(Option<Fold>),
    /// The graph is none that the step may be made from, or there is no such step.
    NoRow,
}

/// How many bytes a value has.
fn size_of(value: Value) -> u8
    ensures { result ≡ value_size value }
{
    match value {
        Value::Const { size, .. } => size,
        Value::Number { size } => size,
        Value::Any => 8,
        Value::Address { .. } => 8,
    }
}

/// Whether a value is no address of a node of a segment.
fn is_plain(value: Value) -> bool
    ensures { result ≡ names_no_segment value }
{
    match value {
        Value::Address { target, .. } => matches!(target, Target::Region),
        _ => true,
    }
}

/// Whether a register holds a value of eight bytes that is no address of a node of a segment.
fn holds_address(graph: &Graph, register: u32) -> bool
    ensures { result ≡ is_address_held graph.now register }
{
    match held_by(graph.registers(), register) {
        None => false,
        Some(key) => match graph.value(key) {
            None => false,
            Some(value) => size_of(*value) == 8 && is_plain(*value),
        },
    }
}

/// Whether a register holds a value of so many bytes.
fn holds(graph: &Graph, register: u32, size: u8) -> bool
    ensures { result ≡ holds_size graph.now register size }
{
    match held_by(graph.registers(), register) {
        None => false,
        Some(key) => match graph.value(key) {
            None => false,
            Some(value) => size_of(*value) == size,
        },
    }
}

/// Whether a register holds a value.
fn holds_some(graph: &Graph, register: u32) -> bool
    ensures { result ≡ true → IsSome (held_by graph.now.registers register) }
{
    held_by(graph.registers(), register).is_some()
}

/// Whether two registers hold values of one size, of which none is an address of a node of a segment.
fn compares(graph: &Graph, left: u32, right: u32) -> bool
    ensures { result ≡ may_compare graph.now left right }
{
    match held_by(graph.registers(), left) {
        None => false,
        Some(one) => match held_by(graph.registers(), right) {
            None => false,
            Some(other) => match graph.value(one) {
                None => false,
                Some(first) => match graph.value(other) {
                    None => false,
                    Some(second) => {
                        size_of(*first) == size_of(*second) && is_plain(*first) && is_plain(*second)
                    }
                },
            },
        },
    }
}

/// Whether a scalar has so many bytes.
pub fn is_size(size: u8) -> bool
    ensures { result ≡ is_scalar_size size }
{
    size == 1 || size == 2 || size == 4 || size == 8
}

/// A size in bytes; 0, which no value has, for a number that is none.
pub fn size_in(number: u32) -> u8 {
    if number < 256 { number as u8 } else { 0 }
}

/// The number that a field spells, if it is one.
fn number_of(field: &str) -> Option<u32> {
    field.parse::<u32>().ok()
}

/// The numbers that fields spell, with `:` between them.
pub fn numbers_of(alloc: Global, fields: &str) -> Result<Option<List<u32>>, NoMemory> {
    let mut numbers = List::new(alloc);
    if fields.is_empty() {
        return Ok(Some(numbers));
    }
    for field in fields.split(':') {
        match number_of(field) {
            Some(number) => numbers.push(number)?,
            None => return Ok(None),
        }
    }
    Ok(Some(numbers))
}

/// `read AT:SIZE:POINTER:INTO`, where `POINTER` is 1 at a pointer type.
fn reading(alloc: Global, graph: &Graph, fields: &[u32]) -> Result<Came, NoMemory> {
    match fields {
        [at, size, pointer, into] => {
            let size = size_in(*size);
            let whole = *pointer == 1;
            if !holds_address(graph, *at) || !is_size(size) || (whole && size != 8) {
                return Ok(Came::NoRow);
            }
            Ok(Came::Post(read(alloc, graph, *at, size, whole, *into)?))
        }
        _ => Ok(Came::NoRow),
    }
}

/// `write AT:SIZE:FROM`.
fn writing(alloc: Global, graph: &Graph, fields: &[u32]) -> Result<Came, NoMemory> {
    match fields {
        [at, size, from] => {
            let size = size_in(*size);
            if !holds_address(graph, *at) || !holds(graph, *from, size) {
                return Ok(Came::NoRow);
            }
            Ok(Came::Post(write(alloc, graph, *at, size, *from)?))
        }
        _ => Ok(Came::NoRow),
    }
}

/// `fill AT:FROM:LENGTH`.
fn filling(alloc: Global, graph: &Graph, fields: &[u32]) -> Result<Came, NoMemory> {
    match fields {
        [at, from, length] => {
            if !holds_address(graph, *at) || !holds_some(graph, *from) {
                return Ok(Came::NoRow);
            }
            come(fill(alloc, graph, *at, *from, *length))
        }
        _ => Ok(Came::NoRow),
    }
}

/// `copy TO:FROM:LENGTH:DISJOINT`.
fn copying(alloc: Global, graph: &Graph, fields: &[u32]) -> Result<Came, NoMemory> {
    match fields {
        [to, from, length, disjoint] => {
            if !holds_address(graph, *to) || !holds_address(graph, *from) {
                return Ok(Came::NoRow);
            }
            come(copy(alloc, graph, *to, *from, *length, *disjoint == 1))
        }
        _ => Ok(Came::NoRow),
    }
}

/// `allocate SIZE:ZEROED:INTO`.
fn allocating(alloc: Global, graph: &Graph, fields: &[u32]) -> Result<Came, NoMemory> {
    match fields {
        [size, zeroed, into] => {
            if *size > 65_536 {
                return Ok(Came::NoRow);
            }
            come(allocate(alloc, graph, *size, *zeroed == 1, *into))
        }
        _ => Ok(Came::NoRow),
    }
}

/// `same LEFT:RIGHT:SAME`.
fn comparing(alloc: Global, graph: &Graph, fields: &[u32]) -> Result<Came, NoMemory> {
    match fields {
        [left, right, same] => {
            if !compares(graph, *left, *right) {
                return Ok(Came::NoRow);
            }
            come(test_equal(alloc, graph, *left, *right, *same == 1))
        }
        _ => Ok(Came::NoRow),
    }
}

/// `release AT`.
fn releasing(alloc: Global, graph: &Graph, fields: &[u32]) -> Result<Came, NoMemory> {
    match fields {
        [at] => {
            if !holds_address(graph, *at) {
                return Ok(Came::NoRow);
            }
            come(release(alloc, graph, *at))
        }
        _ => Ok(Came::NoRow),
    }
}

/// `refuse INTO`.
fn refusing(alloc: Global, graph: &Graph, fields: &[u32]) -> Result<Came, NoMemory> {
    match fields {
        [into] => come(refuse(alloc, graph, *into)),
        _ => Ok(Came::NoRow),
    }
}

/// A post that may be refused for the size of the graph as well.
pub fn come(post: Result<Post, Stop>) -> Result<Came, NoMemory> {
    match post {
        Ok(post) => Ok(Came::Post(post)),
        Err(Stop::Large) => Ok(Came::NoRow),
        Err(Stop::NoMemory) => Err(NoMemory),
    }
}

/// The post of a step with these fields.
pub fn step(
    alloc: Global,
    kind: &str,
    graph: &Graph,
    fields: &List<u32>,
) -> Result<Came, NoMemory> {
    match kind {
        "read" => reading(alloc, graph, fields.as_slice()),
        "write" => writing(alloc, graph, fields.as_slice()),
        "refuse" => refusing(alloc, graph, fields.as_slice()),
        "finish" => come(finish(alloc, graph, fields)),
        "fill" => filling(alloc, graph, fields.as_slice()),
        "copy" => copying(alloc, graph, fields.as_slice()),
        "same" => comparing(alloc, graph, fields.as_slice()),
        "release" => releasing(alloc, graph, fields.as_slice()),
        "allocate" => allocating(alloc, graph, fields.as_slice()),
        "enter" | "leave" | "close" => scoped(alloc, kind, graph, fields.as_slice()),
        "dropped" | "first" | "last" => splitting(alloc, kind, graph, fields.as_slice()),
        "coarse" => limited(alloc, graph, fields.as_slice()),
        "foldable" | "folded" => folding(alloc, kind, graph, fields.as_slice()),
        _ => gaining(alloc, kind, graph, fields.as_slice()),
    }
}

/// A post as text: `post kinds=K:.. loss=L` and, each behind ` / `, its graphs. What there is none of is left out.
pub fn shown_post(alloc: Global, post: &Post) -> Result<String, NoMemory> {
    let mut text = String::from_str(alloc, "post")?;
    match show_post(alloc, &mut text, post) {
        Ok(()) => Ok(text),
        Err(error) => {
            drop(text);
            Err(error)
        }
    }
}

fn show_post(alloc: Global, text: &mut String, post: &Post) -> Result<(), NoMemory> {
    let mut before = " kinds=";
    for kind in post.kinds.as_slice() {
        write!(text, "{before}{kind}")?;
        before = ":";
    }
    if let Some(loss) = post.loss {
        write!(text, " loss={loss}")?;
    }
    for graph in post.graphs.as_slice() {
        show_graph(alloc, text, graph)?;
    }
    Ok(())
}

/// Puts a graph behind a post.
fn show_graph(alloc: Global, text: &mut String, graph: &Graph) -> Result<(), NoMemory> {
    let parts = graph.parts(alloc)?;
    let words = shown(alloc, &parts);
    drop(parts);
    let words = words?;
    text.push_str(" / ")?;
    text.push_str(words.as_str())?;
    Ok(())
}
