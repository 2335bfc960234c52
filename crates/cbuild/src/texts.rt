ghost use Rattle.std.specs.Prelude.{◌≡◌, ◌∷◌, [], ◌++◌, IfOk};
ghost use Rattle.cevents.specs.Workshop.{bytes_at, identifier_at, maybe_identifier_at};

use cbase::{Identifier, List, NoMemory, Text};
use cevents::{bytes_at, place_at};
use cgrammar::Terminal;
use std::alloc::Global;

/// A text with the bytes of the token with the number.
pub(crate) fn text_at(alloc: Global, row: &[Terminal<'_>], at: u32) -> Result<Text, NoMemory>
    ensures { IfOk result (λ text. text ≡ bytes_at row.now at) }
{
    Text::from_slice(alloc, bytes_at(row, at))
}

/// The identifier that the token with the number is, with its place (C11 6.4.2).
pub(crate) fn identifier_at(
    alloc: Global,
    row: &[Terminal<'_>],
    at: u32,
) -> Result<Identifier, NoMemory>
    ensures { IfOk result (λ name. name ≡ identifier_at row.now at) }
{
    let name = text_at(alloc, row, at)?;
    Ok(Identifier {
        place: place_at(row, at),
        name,
    })
}

/// The identifier that the token is, where there is a number.
pub(crate) fn maybe_identifier_at(
    alloc: Global,
    row: &[Terminal<'_>],
    at: Option<u32>,
) -> Result<Option<Identifier>, NoMemory>
    ensures { IfOk result (λ name. name ≡ maybe_identifier_at row.now at) }
{
    match at {
        None => Ok(None),
        Some(at) => Ok(Some(identifier_at(alloc, row, at)?)),
    }
}

/// A list with one item more at its end. Where it is the only one, the list takes no memory for more.
pub(crate) fn appended<T: Drop>(list: List<T>, item: T) -> Result<List<T>, NoMemory>
    ensures { IfOk result (λ longer. longer ≡ list ++ item ∷ []) }
{
    let mut items = list.into_vec();
    if items.is_empty() {
        items.reserve_exact(1)?;
    }
    items.push(item)?;
    Ok(List::from_vec(items))
}

/// A list of one item.
pub(crate) fn list_of_one<T: Drop>(alloc: Global, item: T) -> Result<List<T>, NoMemory>
    ensures { IfOk result (λ list. list ≡ item ∷ []) }
{
    appended(List::new(alloc), item)
}
