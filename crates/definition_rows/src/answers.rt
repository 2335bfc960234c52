//! What is printed for a line.

ghost use Rattle.ctokens.specs.InText.{LieInText};

use cbase::{NoMemory, Text};
use ctokens::{Tokens, items, passed_over, tokens};
use definitions::{Definitions, definitions};
use std::alloc::Global;

/// Names in one line, with a blank between two of them.
fn shown_names(alloc: Global, names: &[Text]) -> Result<String, NoMemory> {
    let mut shown = String::new(alloc);
    for name in names {
        if !shown.is_empty() {
            shown.push_str(" ")?;
        }
        shown.push_str(std::str::from_utf8(name.as_slice()).unwrap_or("?"))?;
    }
    Ok(shown)
}

/// The names that a text defines with a body, and all that it defines.
fn shown(alloc: Global, found: &Definitions) -> Result<String, NoMemory> {
    let mut shown = shown_names(alloc, found.bodied.as_slice())?;
    shown.push_str("|")?;
    let defined = shown_names(alloc, found.defined.as_slice())?;
    shown.push_str(defined.as_str())?;
    Ok(shown)
}

/// What is printed for a text with these tokens.
fn answer_of_tokens(alloc: Global, t: &Tokens) -> Result<String, NoMemory>
    requires { LieInText t.now }
{
    match items(alloc, t)? {
        Err(_) => Ok(String::from_str(alloc, "too deep")?),
        Ok(spans) => {
            let passed = passed_over(alloc, t)?;
            let found = definitions(alloc, t, passed.as_slice(), &spans)?;
            shown(alloc, &found)
        }
    }
}

/// What is printed for a line.
pub(crate) fn answer_of_line(alloc: Global, line: &str) -> Result<String, NoMemory> {
    if line.starts_with("# ") {
        return Ok(String::from_str(alloc, line)?);
    }
    if line.len() > 4_194_304 {
        return Ok(String::from_str(alloc, "too long")?);
    }
    match tokens(alloc, line.as_bytes(), "t.c")? {
        Err(_) => Ok(String::from_str(alloc, "no tokens")?),
        Ok(t) => answer_of_tokens(alloc, &t),
    }
}
