ghost use Rattle.std.specs.Prelude.{◌≡◌, ◌↔◌, ℕ, IfOk};
ghost use Rattle.cconstructs.specs.Constructs.{HasNoConstruct, IsFirstConstruct};
ghost use Rattle.cconstructs.specs.Finding.{at_front, first_from, found_at};

use crate::before::{at_front, behind};
use crate::found::Found;
use crate::number::number_at;
use cbase::NoMemory;
use cgrammar::Terminal;
use std::alloc::Global;

/// The first construct of an item's row, with its number and how many tokens of the row stand before it; `None`
/// where the row has no construct.
#[tactic(auto, using(crate::proofs::First::none_exact))]
pub fn first_construct(alloc: Global, row: &[Terminal<'_>]) -> Result<Option<Found>, NoMemory>
    ensures first { IfOk result (λ found. (at number : ℕ) → (found ≡ Some (found_at number at)) ↔ IsFirstConstruct row.now at number) }
    ensures none { IfOk result (λ found. (found ≡ None) ↔ HasNoConstruct row.now) }
{
    Ok(first_of_row(alloc, row)?)
}

/// The first construct of a row as it is found, token by token.
#[tactic(auto, using(crate::proofs::Steps::first_found, crate::proofs::Steps::first_later, crate::proofs::Steps::first_none))]
fn first_of_row(alloc: Global, row: &[Terminal<'_>]) -> Result<Option<Found>, NoMemory>
    ensures { IfOk result (λ found. found ≡ first_from 0 at_front row.now) }
{
    let mut before = at_front();
    for at in 0..row.len() {
        let rest = &row[at..];
        match number_at(before, rest) {
            Some(number) => return Ok(Some(Found { number, at })),
            None => before = behind(alloc, before, rest)?,
        }
    }
    Ok(None)
}
