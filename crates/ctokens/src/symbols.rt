ghost use Rattle.std.specs.Prelude.{◌≡◌, IfOk};
ghost use Rattle.ctokens.specs.InText.{LieInText};
ghost use Rattle.ctokens.specs.TokenSymbols.{symbols};

use crate::symbol::Symbol;
use crate::symbol_of::token_symbol;
use crate::token::Tokens;
use cbase::NoMemory;
use std::alloc::Global;

/// What the tokens of a text are to items, in order.
pub(crate) fn symbols(alloc: Global, t: &Tokens) -> Result<Vec<Symbol>, NoMemory>
    requires { LieInText t.now }
    ensures { IfOk result (λ all. all.items ≡ symbols t.now) }
{
    let text = t.text.as_slice();
    let list = t.list.as_slice();
    let mut all = Vec::with_capacity(alloc, list.len())?;
    for token in list {
        all.push_reserved(token_symbol(text, *token));
    }
    Ok(all)
}
