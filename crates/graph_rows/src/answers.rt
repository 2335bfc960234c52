//! What is answered of a row.
use crate::fault::Fault;
use crate::shown::shown;
use crate::spelled::parts_of_text;
use crate::steps::answer_of_step;
use cbase::{NoMemory, Stop};
use cover::covers;
use graph::{Graph, Parts, graph_of};
use heap_steps::unreached;
use std::alloc::Global;
use tidying::{into_tidied, tidied};

/// What is printed for a line.
pub fn answer_of_line(alloc: Global, line: &str) -> Result<String, NoMemory> {
    if line.starts_with("# ") {
        return said(alloc, line);
    }
    let (kind, text) = line.split_once(' ').unwrap_or((line, ""));
    match kind {
        "covers" => return answer_of_two(alloc, text),
        "built"
        | "kept"
        | "large"
        | "unreached"
        | "moved"
        | "taken"
        | "copied"
        | "counted"
        | "tidied"
        | "given" => (),
        _ => return answer_of_step(alloc, kind, text),
    }
    match parts_of_text(alloc, text) {
        Ok(parts) => answer_of_parts(alloc, kind, parts),
        Err(Fault::NoRow) => said(alloc, "no row"),
        Err(Fault::NoMemory) => Err(NoMemory),
    }
}

/// Whether the graph in front of ` / ` covers the one behind it.
fn answer_of_two(alloc: Global, text: &str) -> Result<String, NoMemory> {
    let (wide, narrow) = match text.split_once(" / ") {
        Some(both) => both,
        None => return said(alloc, "no row"),
    };
    match graph_of_text(alloc, wide)? {
        Some(graph) => {
            let answer = answer_beside(alloc, &graph, narrow);
            drop(graph);
            answer
        }
        None => said(alloc, "no graph"),
    }
}

/// Whether a graph covers the one that a text spells.
fn answer_beside(alloc: Global, wide: &Graph, text: &str) -> Result<String, NoMemory> {
    match graph_of_text(alloc, text)? {
        Some(narrow) => {
            let answer = covers(alloc, wide, &narrow);
            drop(narrow);
            match answer {
                Ok(true) => said(alloc, "covers"),
                Ok(false) => said(alloc, "does not cover"),
                Err(error) => Err(error),
            }
        }
        None => said(alloc, "no graph"),
    }
}

/// The graph that a text spells, if it spells one that is not too large.
pub fn graph_of_text(alloc: Global, text: &str) -> Result<Option<Graph>, NoMemory> {
    match parts_of_text(alloc, text) {
        Ok(parts) => graph_of_ascending(alloc, parts),
        Err(Fault::NoRow) => Ok(None),
        Err(Fault::NoMemory) => Err(NoMemory),
    }
}

fn graph_of_ascending(alloc: Global, parts: Parts) -> Result<Option<Graph>, NoMemory> {
    if !parts.keys_ascend() {
        drop(parts);
        return Ok(None);
    }
    match graph_of(alloc, parts) {
        Ok(graph) => Ok(graph),
        Err(Stop::Large) => Ok(None),
        Err(Stop::NoMemory) => Err(NoMemory),
    }
}

/// A text as it stands.
pub fn said(alloc: Global, text: &str) -> Result<String, NoMemory> {
    Ok(String::from_str(alloc, text)?)
}

/// Whether parts make a graph, and what a kind answers of it. Where keys do not ascend, it is not asked.
fn answer_of_parts(alloc: Global, kind: &str, parts: Parts) -> Result<String, NoMemory> {
    if !parts.keys_ascend() {
        drop(parts);
        return said(alloc, "keys do not ascend");
    }
    match graph_of(alloc, parts) {
        Ok(None) => said(alloc, "no graph"),
        Ok(Some(graph)) => {
            let answer = answer_of_graph(alloc, kind, &graph);
            drop(graph);
            answer
        }
        Err(Stop::Large) => said(alloc, "large"),
        Err(Stop::NoMemory) => Err(NoMemory),
    }
}

/// What a kind answers of a graph: `built` its parts, `kept` at how many of the keys 0 to 3 an object and a value stand, `large` whether
/// it is large from 2 on, `unreached` the keys of the objects of which some memory loses a block, and `tidied` the parts that are left
/// where what nothing holds is taken out. All others ask for a copy.
fn answer_of_graph(alloc: Global, kind: &str, graph: &Graph) -> Result<String, NoMemory> {
    match kind {
        "built" => built(alloc, graph),
        "kept" => kept(alloc, graph),
        "large" => large(alloc, graph),
        "unreached" => lost(alloc, graph),
        "tidied" => left(alloc, tidied(alloc, graph)),
        _ => match graph.copied(alloc) {
            Ok(copy) => answer_of_copy(alloc, kind, copy),
            Err(_) => Err(NoMemory),
        },
    }
}

/// What a kind answers of a copy: `moved` the parts that it is taken apart into, `taken` how many objects and values these have, and `given`
/// what is left of it where it is given up. All others lend it.
fn answer_of_copy(alloc: Global, kind: &str, copy: Graph) -> Result<String, NoMemory> {
    match kind {
        "moved" => spelled(alloc, copy.into_parts(alloc)?),
        "taken" => counts(alloc, copy.into_parts(alloc)?),
        "given" => left(alloc, into_tidied(alloc, copy)),
        _ => {
            let answer = answer_of_lent(alloc, kind, &copy);
            drop(copy);
            answer
        }
    }
}

/// What a kind answers of a copy that it is lent: `copied` its parts, and `counted` how many objects and values it has.
fn answer_of_lent(alloc: Global, kind: &str, copy: &Graph) -> Result<String, NoMemory> {
    match kind {
        "copied" => built(alloc, copy),
        "counted" => counts(alloc, copy.parts(alloc)?),
        _ => said(alloc, "no row"),
    }
}

fn built(alloc: Global, graph: &Graph) -> Result<String, NoMemory> {
    spelled(alloc, graph.parts(alloc)?)
}

/// The parts of what is left of a graph, as words.
fn left(alloc: Global, answer: Result<Graph, NoMemory>) -> Result<String, NoMemory> {
    match answer {
        Ok(graph) => {
            let text = built(alloc, &graph);
            drop(graph);
            text
        }
        Err(error) => Err(error),
    }
}

/// Parts as words.
fn spelled(alloc: Global, parts: Parts) -> Result<String, NoMemory> {
    let text = shown(alloc, &parts);
    drop(parts);
    text
}

/// How many objects and values parts have.
fn counts(alloc: Global, parts: Parts) -> Result<String, NoMemory> {
    let objects = parts.objects.len();
    let values = parts.values.len();
    drop(parts);
    Ok(format!(in alloc; "graph {objects} {values}")?)
}

fn large(alloc: Global, graph: &Graph) -> Result<String, NoMemory> {
    if graph.is_large(alloc, 2)? {
        said(alloc, "large from 2 on")
    } else {
        said(alloc, "not large from 2 on")
    }
}

/// `unreached KEY:..`, or `all reached`.
fn lost(alloc: Global, graph: &Graph) -> Result<String, NoMemory> {
    let keys = unreached(alloc, graph)?;
    if keys.is_empty() {
        return said(alloc, "all reached");
    }
    let mut text = String::from_str(alloc, "unreached")?;
    match show_keys(&mut text, keys.as_slice()) {
        Ok(()) => Ok(text),
        Err(error) => {
            drop(text);
            Err(error)
        }
    }
}

fn show_keys(text: &mut String, keys: &[u32]) -> Result<(), NoMemory> {
    let mut before = " ";
    for key in keys {
        write!(text, "{before}{key}")?;
        before = ":";
    }
    Ok(())
}

fn kept(alloc: Global, graph: &Graph) -> Result<String, NoMemory> {
    let mut objects: u32 = 0;
    let mut values: u32 = 0;
    for key in 0..4u32 {
        objects = objects.wrapping_add(u32::from(graph.object(key).is_some()));
        values = values.wrapping_add(u32::from(graph.value(key).is_some()));
    }
    Ok(format!(in alloc; "graph {objects} {values}")?)
}
