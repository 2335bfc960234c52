ghost use Rattle.std.specs.Prelude.{◌≡◌, ◌∷◌, [], ◌≤◌, IfOk, IfSome, Some, None, drop, if◌then◌else◌, length, option_map, reverse};
ghost use Rattle.cgrammar.specs.Brackets.{is_bracket};
ghost use Rattle.cgrammar.specs.ReadOperands.{behind_matched, closer_of};
ghost use Rattle.cgrammar.specs.Closers.{behind_token};

use crate::terminal::Terminal;
use cbase::NoMemory;
use std::alloc::Global;

/// How many tokens stand up to the bracket that closes one that is open before them, with that bracket, where brackets are
/// matched by kind. `closer` is that bracket's byte. `None` where brackets do not match up to there, or no
/// bracket closes that one.
pub fn matched_length(
    alloc: Global,
    row: &[Terminal<'_>],
    closer: u8,
) -> Result<Option<usize>, NoMemory>
    ensures is { IfOk result (λ found. option_map (λ count. drop count row.now) found ≡ behind_matched (closer ∷ []) row.now) }
    ensures inside { IfOk result (λ found. IfSome found (λ count. count ≤ length row.now)) }
{
    let mut opened = Vec::new(alloc);
    opened.push(closer)?;
    let mut count = 0;
    'tokens: while count < row.len() {
        match opened.pop() {
            None => return Ok(Some(count)),
            Some(innermost) => {
                if !go_over(&mut opened, innermost, &row[count])? {
                    return Ok(None);
                }
            }
        }
        count += 1;
    }
    if opened.is_empty() {
        return Ok(Some(count));
    }
    Ok(None)
}

/// Goes over a token where the innermost open bracket is closed by `closer`, and says whether it may stand there. The
/// last of `opened` is then the innermost.
#[tactic(auto, using(crate::proofs::Stacks::pushed))]
fn go_over(opened: &mut Vec<u8>, closer: u8, token: &Terminal<'_>) -> Result<bool, NoMemory>
    ensures { IfOk result (λ may. behind_token closer (reverse opened.old.items) token.now ≡ (if may then Some (reverse opened.new.items) else None)) }
{
    if token.is_mark([closer].as_slice()) {
        return Ok(true);
    }
    opened.push(closer)?;
    match closer_of(token) {
        Some(inner) => {
            opened.push(inner)?;
            Ok(true)
        }
        None => Ok(!is_bracket(token)),
    }
}

/// The byte of the bracket that closes an opening one.
fn closer_of(token: &Terminal<'_>) -> Option<u8>
    ensures { result ≡ closer_of token.now }
{
    if token.is_mark(b"(") {
        return Some(b')');
    }
    if token.is_mark(b"[") {
        return Some(b']');
    }
    if token.is_mark(b"{") {
        return Some(b'}');
    }
    None
}

/// Whether the token is a bracket.
fn is_bracket(token: &Terminal<'_>) -> bool
    ensures { result ≡ is_bracket token.now }
{
    token.is_mark(b"(")
        || token.is_mark(b")")
        || token.is_mark(b"[")
        || token.is_mark(b"]")
        || token.is_mark(b"{")
        || token.is_mark(b"}")
}
