//! The first construct of a text, and its first change of layout.
ghost use Rattle.ctokens.specs.InText.{LieInText};

use crate::printing::{counted, push_row, push_text};
use cbase::NoMemory;
use cconstructs::{first_construct, first_layout};
use cgrammar::{row_of, row_of_part};
use ctokens::{Tokens, passed_over};
use std::alloc::Global;

/// The number of the first construct of a text and that of its token in the row, or `-`.
pub fn construct(alloc: Global, t: &Tokens, shown: &mut String) -> Result<(), NoMemory>
    requires { LieInText t.now }
{
    let row = row_of(alloc, t)?;
    match first_construct(alloc, row.as_slice()) {
        Ok(Some(found)) => push_row("", &[u32::from(found.number), counted(found.at)], shown),
        Ok(None) => push_text(" -", shown),
        Err(error) => Err(error),
    }
}

/// The number of the token that shows the first change of layout of a text, or `-`.
pub fn layout(alloc: Global, t: &Tokens, shown: &mut String) -> Result<(), NoMemory>
    requires { LieInText t.now }
{
    let passed = passed_over(alloc, t)?;
    let after = t.list.len();
    let row = row_of_part(alloc, t, passed.as_slice(), 0, after)?;
    match first_layout(t, row.as_slice(), 0, after as u32) {
        Some(number) => push_row("", &[number], shown),
        None => push_text(" -", shown),
    }
}
