ghost use Rattle.std.specs.Prelude.{IfOk, IfSome};
ghost use Rattle.ctokens.specs.InText.{LieInText};
ghost use Rattle.ctokens.specs.TokenList.{AreNumbered};

use cbase::NoMemory;
use ctokens::{Tokens, tokens};
use std::alloc::Global;

/// The tokens of a text, where it has any and is not too long.
pub fn cut(alloc: Global, text: &[u8]) -> Result<Option<Tokens>, NoMemory>
    ensures text { IfOk result (λ answer. IfSome answer LieInText) }
    ensures numbered { IfOk result (λ answer. IfSome answer (λ t. AreNumbered t.list)) }
{
    if text.len() > 4_194_304 {
        return Ok(None);
    }
    match tokens(alloc, text, "t.c")? {
        Err(_) => Ok(None),
        Ok(tokens) => Ok(Some(tokens)),
    }
}
