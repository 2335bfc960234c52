ghost use Rattle.std.specs.Prelude.{◌≡◌, ◌<◌, ◌≤◌, IfOk, length};
ghost use Rattle.ctokens.specs.Passed.{depth_after, may_pass, passed_tokens, read_symbols};
ghost use Rattle.ctokens.specs.InText.{LieInText, most_bytes};
ghost use Rattle.ctokens.specs.Symbol.{is_attribute, is_passed_over};
ghost use Rattle.std.specs.List.{list_any};

use crate::symbol::Symbol;
use crate::symbol_of::token_symbol;
use crate::token::{Token, TokenKind, Tokens};
use cbase::{List, NoMemory};
use std::alloc::Global;

/// How many brackets are open after a token where `depth` were open before it.
pub(crate) fn depth_after(depth: u32, symbol: Symbol) -> u32
    requires { depth ≤ most_bytes }
    ensures { result ≡ depth_after depth symbol }
{
    if symbol.is_opening() {
        return depth + 1;
    }
    if symbol.is_closing() {
        return depth.saturating_sub(1);
    }
    depth
}

/// Whether an attribute begins at one of the tokens.
fn has_attribute(symbols: &[Symbol]) -> bool
    ensures { result ≡ list_any is_attribute symbols.now }
{
    for symbol in symbols {
        if symbol.is_attribute() {
            return true;
        }
    }
    false
}

/// The symbols with `PassedOver` for each token that is passed over. Most texts have no attribute, and then they are those of
/// the text, which are not copied.
#[tactic(auto, using(crate::proofs::PassedSteps::read_plain))]
pub(crate) fn read_symbols(alloc: Global, symbols: Vec<Symbol>) -> Result<Vec<Symbol>, NoMemory>
    requires { length symbols.items ≤ most_bytes }
    ensures value { IfOk result (λ read. read.items ≡ read_symbols symbols.items) }
    ensures len { IfOk result (λ read. length read.items ≡ length symbols.items) }
{
    if has_attribute(symbols.as_slice()) {
        return read_attributes(alloc, symbols.as_slice());
    }
    Ok(symbols)
}

/// The symbols with `PassedOver` for each token that is passed over, as each is come to.
#[tactic(auto, using(crate::proofs::PassedSteps::read_inside))]
fn read_attributes(alloc: Global, symbols: &[Symbol]) -> Result<Vec<Symbol>, NoMemory>
    requires { length symbols.now ≤ most_bytes }
    ensures value { IfOk result (λ read. read.items ≡ read_symbols symbols.now) }
    ensures len { IfOk result (λ read. length read.items ≡ length symbols.now) }
{
    let mut read = Vec::with_capacity(alloc, symbols.len())?;
    let mut behind = false;
    let mut unclosed: u32 = 0;
    for symbol in symbols {
        if unclosed > 0 {
            read.push(Symbol::PassedOver)?;
            behind = false;
            unclosed = depth_after(unclosed, *symbol);
            continue;
        }
        if behind && symbol.is_opening() {
            read.push(Symbol::PassedOver)?;
            behind = false;
            unclosed = 1;
            continue;
        }
        behind = symbol.is_attribute();
        read.push(if behind { Symbol::PassedOver } else { *symbol })?;
    }
    Ok(read)
}

/// Whether a token may be passed over or begin an attribute, as far as is known without its bytes: it is a word of four bytes
/// or more.
fn may_pass(token: Token) -> bool
    requires { token.from < token.to }
    ensures { result ≡ may_pass token }
{
    matches!(token.kind, TokenKind::Word) && token.to - token.from >= 4
}

/// For each token of the text, whether it is passed over: qualifiers and the like, and attributes with their
/// bracketed part. Outside of attributes only words are, and none of fewer than four bytes, so that no other token is looked
/// at.
#[tactic(auto, using(crate::proofs::PassedSteps::read_inside))]
pub fn passed_over(alloc: Global, t: &Tokens) -> Result<List<bool>, NoMemory>
    requires { LieInText t.now }
    ensures value { IfOk result (λ passed. passed ≡ passed_tokens t.now) }
    ensures len { IfOk result (λ passed. length passed ≡ length t.now.list) }
{
    let text = t.text.as_slice();
    let list = t.list.as_slice();
    let mut passed = Vec::with_capacity(alloc, list.len())?;
    let mut behind = false;
    let mut unclosed: u32 = 0;
    for token in list {
        if unclosed == 0 && !behind && !may_pass(*token) {
            passed.push_reserved(false);
            continue;
        }
        let symbol = token_symbol(text, *token);
        if unclosed > 0 {
            passed.push_reserved(true);
            behind = false;
            unclosed = depth_after(unclosed, symbol);
            continue;
        }
        if behind && symbol.is_opening() {
            passed.push_reserved(true);
            behind = false;
            unclosed = 1;
            continue;
        }
        behind = symbol.is_attribute();
        passed.push_reserved(behind || symbol.is_passed_over());
    }
    Ok(List::from_vec(passed))
}
