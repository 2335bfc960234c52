//! The rows as they stand in lines.
use crate::answer::{Answer, Ask, answer_to, tell};
use crate::parts::{blank, read};
use cbase::NoMemory;
use flow::Flow;
use std::alloc::Global;

/// What a line asks for, and the text of its parts, where it asks for something.
fn row_of_line(line: &str) -> Option<(Ask, &str)> {
    let (kind, text) = line.split_once(' ').unwrap_or((line, ""));
    match kind {
        "form" => Some((Ask::Form, text)),
        "walks" => Some((Ask::Walks, text)),
        "exclusive" => Some((Ask::Exclusive, text)),
        "head" => ask_at_point(text, false),
        "out" => ask_at_point(text, true),
        _ => None,
    }
}

/// What a row `head` or `out` asks for, which names a point in front of its parts.
fn ask_at_point(text: &str, out: bool) -> Option<(Ask, &str)> {
    let (point, parts) = text.split_once(' ').unwrap_or((text, ""));
    match point.parse::<u32>() {
        Ok(point) if out => Some((Ask::Out(point), parts)),
        Ok(point) => Some((Ask::Head(point), parts)),
        Err(_) => None,
    }
}

/// What is printed for a text.
pub fn answers(alloc: Global, text: &str) -> Result<String, NoMemory> {
    let mut shown = String::new(alloc);
    let mut front = String::new(alloc);
    for line in text.lines() {
        answer_line(alloc, &mut front, &mut shown, line)?;
    }
    Ok(shown)
}

/// Puts what is printed for a line behind `shown`, if something is; parts that are to stand in front of others are put behind `front`.
fn answer_line(
    alloc: Global,
    front: &mut String,
    shown: &mut String,
    line: &str,
) -> Result<(), NoMemory> {
    if line.starts_with("#") {
        front.clear();
        return put_line(shown, line);
    }
    if let Some(parts) = line.strip_prefix("with ") {
        front.push_str(parts)?;
        front.push_str(";")?;
        return Ok(());
    }
    match row_of_line(line) {
        None => put_line(shown, "no row"),
        Some((ask, text)) => match answer_of_row(alloc, ask, front.as_str(), text)? {
            None => put_line(shown, "no row"),
            Some(answer) => put_line(shown, tell(alloc, answer)?.as_str()),
        },
    }
}

/// Puts a line behind what is shown.
fn put_line(shown: &mut String, line: &str) -> Result<(), NoMemory> {
    shown.push_str(line)?;
    shown.push_str("\n")?;
    Ok(())
}

/// What is answered of a row with these parts in front of its own, where they are read.
fn answer_of_row(
    alloc: Global,
    ask: Ask,
    front: &str,
    text: &str,
) -> Result<Option<Answer>, NoMemory> {
    let mut flow = blank(alloc);
    let answer = answer_of_texts(alloc, ask, &mut flow, front, text);
    drop(flow);
    answer
}

/// What is answered of the data with the parts of two texts.
fn answer_of_texts(
    alloc: Global,
    ask: Ask,
    flow: &mut Flow,
    front: &str,
    text: &str,
) -> Result<Option<Answer>, NoMemory> {
    if !read(alloc, flow, front)? {
        return Ok(None);
    }
    if !read(alloc, flow, text)? {
        return Ok(None);
    }
    Ok(Some(answer_to(alloc, ask, flow)?))
}
