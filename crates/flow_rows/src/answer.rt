//! What is asked of a flow graph, and what is answered.
ghost use Rattle.std.specs.Prelude.{IfOk};
ghost use Rattle.flow_rows.specs.Said.{Says};

use cbase::NoMemory;
use flow::{Flow, Out, edges_by_point, is_exclusive, is_head, is_in_range, is_well_formed, walks};
use std::alloc::Global;

/// What is asked.
#[derive(Clone, Copy)]
pub enum Ask {
    /// Whether the data are a flow graph.
    Form,
    /// How many walks there are within main.
    Walks,
    /// Whether this point is a loop head.
    Head(u32),
    /// Whether the edges out of each point exclude each other.
    Exclusive,
    /// Which edges lead out of this point.
    Out(u32),
}

/// What is answered.
#[derive(Clone, Copy)]
pub enum Answer {
    /// Whether the data are a flow graph.
    Form(bool),
    /// How many walks there are.
    Walks(flow::Walks),
    /// Walks are not counted, and edges not looked at, as numbers are out of range.
    Outside,
    /// Whether the point is a loop head.
    Head(bool),
    /// Whether the edges out of each point exclude each other.
    Exclusive(bool),
    /// Which edges lead out of the point.
    Out(Out),
}

/// What is answered of a graph.
pub fn answer_to(alloc: Global, ask: Ask, flow: &Flow) -> Result<Answer, NoMemory>
    ensures { IfOk result (λ answer. Says flow.now ask answer) }
{
    match ask {
        Ask::Form => Ok(Answer::Form(is_well_formed(alloc, flow)?)),
        Ask::Walks => walks_told(alloc, flow),
        Ask::Head(point) => Ok(Answer::Head(is_head(flow, point))),
        Ask::Exclusive => exclusion_told(alloc, flow),
        Ask::Out(point) => edges_told(alloc, flow, point),
    }
}

/// What is answered of the walks of a graph.
fn walks_told(alloc: Global, flow: &Flow) -> Result<Answer, NoMemory>
    ensures { IfOk result (λ answer. Says flow.now Ask.Walks answer) }
{
    if is_in_range(flow) {
        Ok(Answer::Walks(walks(alloc, flow)?))
    } else {
        Ok(Answer::Outside)
    }
}

/// Whether the edges out of each point of a graph exclude each other.
fn exclusion_told(alloc: Global, flow: &Flow) -> Result<Answer, NoMemory>
    ensures { IfOk result (λ answer. Says flow.now Ask.Exclusive answer) }
{
    if is_in_range(flow) {
        Ok(Answer::Exclusive(is_exclusive(alloc, flow)?))
    } else {
        Ok(Answer::Outside)
    }
}

/// Which edges lead out of a point of a graph.
fn edges_told(alloc: Global, flow: &Flow, point: u32) -> Result<Answer, NoMemory>
    ensures { IfOk result (λ answer. Says flow.now (Ask.Out point) answer) }
{
    if !is_in_range(flow) {
        return Ok(Answer::Outside);
    }
    let outs = edges_by_point(alloc, flow)?;
    match outs.as_slice().get(point as usize) {
        None => Ok(Answer::Out(Out::Nothing)),
        Some(out) => Ok(Answer::Out(*out)),
    }
}

/// An answer in words.
pub fn tell(alloc: Global, answer: Answer) -> Result<String, NoMemory> {
    match answer {
        Answer::Walks(flow::Walks::Number(number)) => Ok(format!(in alloc; "{number}")?),
        Answer::Out(Out::One(number)) => Ok(format!(in alloc; "{number}")?),
        Answer::Out(Out::Two(one, other)) => Ok(format!(in alloc; "{one} {other}")?),
        _ => Ok(String::from_str(alloc, words(answer))?),
    }
}

/// The words of an answer that is no number.
fn words(answer: Answer) -> &'static str {
    match answer {
        Answer::Form(true) => "well formed",
        Answer::Form(false) => "not well formed",
        Answer::Walks(flow::Walks::Cycle) => "cycle",
        Answer::Walks(_) => "more",
        Answer::Outside => "out of range",
        Answer::Head(true) => "head",
        Answer::Head(false) => "no head",
        Answer::Exclusive(true) => "exclusive",
        Answer::Exclusive(false) => "not exclusive",
        Answer::Out(Out::Nothing) => "none",
        Answer::Out(_) => "more",
    }
}
