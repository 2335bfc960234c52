ghost use Rattle.std.specs.Prelude.{◌≡◌, ◌+◌, ◌<◌, ◌≤◌, [], ◌++◌, if◌then◌else◌, length, map, vec_capacity, vec_len, IfOk};
ghost use Rattle.std.specs.List.{All};
ghost use Rattle.ctokens.specs.InText.{most_bytes};
ghost use Rattle.ctokens.specs.Passed.{unpassed};
ghost use Rattle.definitions.specs.Roles.{token_role};
ghost use Rattle.definitions.specs.Rows.{HasBytes, HasSignBytes, depth_after, outermost, outermost_sign, sign_of};

use crate::sign::Sign;
use crate::tables::{depth_behind, token_role};
use cbase::NoMemory;
use ctokens::Token;
use std::alloc::Global;

/// Appends the token with its role, where it is not passed over and no bracket is open before it or behind it, and says how
/// many brackets are open behind it.
fn push_outermost(row: &mut Vec<Sign>, text: &[u8], token: Token, passed: bool, depth: u32) -> u32
    requires bytes { HasBytes text.now token }
    requires few { depth ≤ most_bytes }
    requires room { vec_len row.old < vec_capacity row.old }
    ensures value { row.new.items ≡ row.old.items ++ (if passed then [] else outermost_sign depth (sign_of text.now token)) }
    ensures depth { result ≡ (if passed then depth else depth_after depth (token_role text.now token)) }
    ensures len { vec_len row.new ≤ vec_len row.old + 1 }
    ensures capacity { vec_capacity row.new ≡ vec_capacity row.old }
{
    if passed {
        return depth;
    }
    let after = depth_behind(text, token, depth);
    if depth == 0 || after == 0 {
        row.push_reserved(Sign {
            role: token_role(text, token),
            kind: token.kind,
            from: token.from,
            to: token.to,
        });
    }
    after
}

/// The tokens that are not passed over, with their roles, without what stands inside of brackets.
pub(crate) fn signs(
    alloc: Global,
    text: &[u8],
    tokens: &[Token],
    passed: &[bool],
) -> Result<Vec<Sign>, NoMemory>
    requires bytes { All (HasBytes text.now) tokens.now }
    requires same { length passed.now ≡ length tokens.now }
    requires few { length tokens.now ≤ most_bytes }
    ensures value { IfOk result (λ row. row.items ≡ outermost 0 (map (sign_of text.now) (unpassed passed.now tokens.now))) }
    ensures len { IfOk result (λ row. length row.items ≤ length tokens.now) }
    ensures bytes { IfOk result (λ row. All (HasSignBytes text.now) row.items) }
{
    let mut row = Vec::with_capacity(alloc, tokens.len())?;
    let mut depth: u32 = 0;
    for (i, token) in tokens.iter().enumerate() {
        depth = push_outermost(&mut row, text, *token, passed[i], depth);
    }
    Ok(row)
}
