ghost use Rattle.std.specs.Prelude.{◌≡◌, ◌<◌, ◌≤◌, length, map, IfOk};
ghost use Rattle.std.specs.List.{All};
ghost use Rattle.ctokens.specs.Passed.{passed_tokens, unpassed};
ghost use Rattle.ctokens.specs.InText.{LieInText};
ghost use Rattle.ctokens.specs.declared.token.Token.{Token};
ghost use Rattle.cgrammar.specs.Readings.{row_between};
ghost use Rattle.cgrammar.specs.Terminals.{terminal_of, terminals};

use crate::terminal::{Terminal, terminal_of};
use cbase::NoMemory;
use ctokens::{Token, Tokens, passed_over};
use std::alloc::Global;

/// The tokens of a text that are not passed over, in order.
pub fn row_of<'a>(alloc: Global, t: &'a Tokens) -> Result<Vec<Terminal<'a>>, NoMemory>
    requires { LieInText t.now }
    ensures { IfOk result (λ row. row.items ≡ terminals t.now) }
{
    let passed = passed_over(alloc, t)?;
    unpassed(
        alloc,
        t.text.as_slice(),
        t.list.as_slice(),
        passed.as_slice(),
    )
}

/// The tokens of a text from the number `from` up to the number `to` that are not passed over, in order. `passed` says of
/// each token of the text whether it is passed over.
#[tactic(auto, using(crate::proofs::Unpassed::between, crate::proofs::Unpassed::ranges_between))]
pub fn row_of_part<'a>(
    alloc: Global,
    t: &'a Tokens,
    passed: &[bool],
    from: usize,
    to: usize,
) -> Result<Vec<Terminal<'a>>, NoMemory>
    requires text { LieInText t.now }
    requires passed { passed.now ≡ passed_tokens t.now }
    requires same { length passed.now ≡ length t.now.list }
    requires order { from ≤ to }
    requires inside { to ≤ length t.now.list }
    ensures { IfOk result (λ row. row.items ≡ row_between t.now from to) }
{
    unpassed(
        alloc,
        t.text.as_slice(),
        &t.list.as_slice()[from..to],
        &passed[from..to],
    )
}

/// The tokens of which it is not said that they are passed over.
fn unpassed<'a>(
    alloc: Global,
    text: &'a [u8],
    list: &'a [Token],
    passed: &[bool],
) -> Result<Vec<Terminal<'a>>, NoMemory>
    requires ranges { All (λ (token : Token). (token.from < token.to) × (token.to ≤ length text.now)) list.now }
    requires same { length passed.now ≡ length list.now }
    ensures { IfOk result (λ row. row.items ≡ unpassed passed.now (map (terminal_of text.now) list.now)) }
{
    let mut row = Vec::with_capacity(alloc, list.len())?;
    for (index, token) in list.iter().enumerate() {
        if passed[index] {
            continue;
        }
        row.push_reserved(terminal_of(text, token));
    }
    Ok(row)
}
