ghost use Rattle.std.specs.Prelude.{◌≡◌, IfOk};
ghost use Rattle.std.specs.List.{prefix_len};
ghost use Rattle.ctokens.specs.InText.{LieInText};
ghost use Rattle.cgrammar.specs.Terminals.{comes_before, terminals};

use cbase::NoMemory;
use cgrammar::{Terminal, row_of};
use ctokens::Tokens;
use std::alloc::Global;

/// The tokens of a text as the grammar has them, and where among them one begins to read.
#[derive(Drop)]
pub(crate) struct Front<'a> {
    /// The tokens that are not passed over, in order.
    pub(crate) row: Vec<Terminal<'a>>,
    /// How many of them come before the one that is read first.
    pub(crate) start: usize,
}

/// The tokens of a text, to be read from the token of that number on.
pub(crate) fn front_at<'a>(alloc: Global, t: &'a Tokens, number: u32) -> Result<Front<'a>, NoMemory>
    requires { LieInText t.now }
    ensures row { IfOk result (λ front. front.row.items ≡ terminals t.now) }
    ensures start { IfOk result (λ front. front.start ≡ prefix_len (comes_before number) front.row.items) }
{
    let row = row_of(alloc, t)?;
    let start = tokens_before(row.as_slice(), number);
    Ok(Front { row, start })
}

/// How many tokens of a row come before the token of that number.
fn tokens_before(row: &[Terminal<'_>], number: u32) -> usize
    ensures { result ≡ prefix_len (comes_before number) row.now }
{
    row.iter()
        .take_while(|token| token.place().at < number)
        .count()
}
