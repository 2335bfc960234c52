//! The items of a text, and those that main needs.
ghost use Rattle.ctokens.specs.InText.{LieInText};

use crate::printing::{push_row, push_text};
use cbase::{List, NoMemory};
use ctokens::{ItemSpan, Tokens, passed_over};
use std::alloc::Global;

/// `1` for each token that is passed over and `0` for each other.
pub fn passed(alloc: Global, t: &Tokens, shown: &mut String) -> Result<(), NoMemory>
    requires { LieInText t.now }
{
    match passed_over(alloc, t) {
        Ok(passed) => shown_bits(passed.as_slice(), shown),
        Err(error) => Err(error),
    }
}

/// A digit for each truth.
fn shown_bits(bits: &[bool], shown: &mut String) -> Result<(), NoMemory> {
    push_text(" ", shown)?;
    for bit in bits {
        push_text(if *bit { "1" } else { "0" }, shown)?;
    }
    Ok(())
}

/// The spans.
fn shown_spans(spans: &[ItemSpan], shown: &mut String) -> Result<(), NoMemory> {
    for span in spans {
        push_row("", &[span.first, span.after], shown)?;
    }
    Ok(())
}

/// The spans of the items, each with its first token and the one behind its last; or the number of the first bracket that opens too deep.
pub fn items(alloc: Global, t: &Tokens, shown: &mut String) -> Result<(), NoMemory>
    requires { LieInText t.now }
{
    match ctokens::items(alloc, t) {
        Ok(Ok(spans)) => shown_spans(spans.as_slice(), shown),
        Ok(Err(deep)) => push_row(" deep", &[deep.place.at], shown),
        Err(error) => Err(error),
    }
}

/// The numbers, or `-` where there is no list.
fn shown_numbers(numbers: Option<&List<u32>>, shown: &mut String) -> Result<(), NoMemory> {
    match numbers {
        Some(numbers) => push_row("", numbers.as_slice(), shown),
        None => push_text(" -", shown),
    }
}

/// The numbers of the items that main needs, or `-` where no item defines main.
pub fn needed(alloc: Global, t: &Tokens, shown: &mut String) -> Result<(), NoMemory>
    requires { LieInText t.now }
{
    match ctokens::items(alloc, t) {
        Ok(Ok(spans)) => shown_numbers(ctokens::needed(alloc, t, &spans)?.as_ref(), shown),
        Ok(Err(_)) => push_text(" too deep", shown),
        Err(error) => Err(error),
    }
}
