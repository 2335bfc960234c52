ghost use Rattle.std.specs.Prelude.{◌≡◌, ◌≤◌, ◌<◌, false, Some, IfOk, IfSome, length, slice_get};
ghost use Rattle.ctokens.specs.ItemEnds.{body_after, ends_body, ends_declaration, first_deep, item_ends, spans, spans_of};
ghost use Rattle.std.specs.List.{All};
ghost use Rattle.ctokens.specs.Items.{IsInside, IsItems};
ghost use Rattle.ctokens.specs.InText.{LieInText, most_bytes};
ghost use Rattle.ctokens.specs.declared.item_span.ItemSpan.{ItemSpan};
ghost use Rattle.ctokens.specs.declared.item_span.Deep.{Deep};
ghost use Rattle.ctokens.specs.declared.symbol.Symbol.{Symbol};
ghost use Rattle.ctokens.specs.declared.token.Token.{Token};
ghost use Rattle.ctokens.specs.declared.symbol.Symbol.TheVariants.{Other};

use crate::item_span::{Deep, ItemSpan};
use crate::passed::{depth_after, read_symbols};
use crate::symbol::Symbol;
use crate::symbols::symbols;
use crate::token::{Token, Tokens};
use cbase::{List, NoMemory, Place};
use std::alloc::Global;

/// Whether a declaration ends at a token: a `;` at depth 0.
fn ends_declaration(depth: u32, symbol: Symbol) -> bool
    ensures { result ≡ ends_declaration depth symbol }
{
    depth == 0 && symbol.is_semicolon()
}

/// Whether an item ends with a body at a token: a `}` that returns to depth 0, where `body` says that the bracket
/// which it closes began a body.
pub(crate) fn ends_body(depth: u32, body: bool, symbol: Symbol) -> bool
    ensures { result ≡ ends_body depth body symbol }
{
    depth == 1 && body && symbol.is_right_brace()
}

/// Whether the bracket that opened last at depth 0 is a `{` directly after a `)`.
pub(crate) fn body_after(depth: u32, before: Symbol, body: bool, symbol: Symbol) -> bool
    ensures { result ≡ body_after depth before body symbol }
{
    if depth == 0 && symbol.is_opening() {
        return symbol.is_left_brace() && before.is_right_parenthesis();
    }
    body
}

/// For each token, whether an item ends at it.
fn item_ends(alloc: Global, read: &[Symbol]) -> Result<Vec<bool>, NoMemory>
    requires { length read.now ≤ most_bytes }
    ensures value { IfOk result (λ ends. ends.items ≡ item_ends 0 Other false read.now) }
    ensures len { IfOk result (λ ends. length ends.items ≡ length read.now) }
{
    let mut ends = Vec::with_capacity(alloc, read.len())?;
    let mut depth: u32 = 0;
    let mut before = Symbol::Other;
    let mut body = false;
    for symbol in read {
        if symbol.is_passed_over() {
            ends.push_reserved(false);
            continue;
        }
        ends.push_reserved(ends_declaration(depth, *symbol) || ends_body(depth, body, *symbol));
        body = body_after(depth, before, body, *symbol);
        depth = depth_after(depth, *symbol);
        before = *symbol;
    }
    Ok(ends)
}

/// The spans into which a row of tokens is cut, one at each token where an item ends, and the rest.
fn spans(alloc: Global, ends: &[bool]) -> Result<List<ItemSpan>, NoMemory>
    requires { length ends.now ≤ most_bytes }
    ensures { IfOk result (λ items. items ≡ spans 0 0 ends.now) }
{
    let mut items = Vec::new(alloc);
    let mut first: u32 = 0;
    let mut at: u32 = 0;
    for end in ends {
        at += 1;
        if *end {
            items.push(ItemSpan { first, after: at })?;
            first = at;
        }
    }
    if first != at {
        items.push(ItemSpan { first, after: at })?;
    }
    Ok(List::from_vec(items))
}

/// The number of the first token that is a bracket which opens at depth 257.
fn first_deep(symbols: &[Symbol]) -> Option<usize>
    requires { length symbols.now ≤ most_bytes }
    ensures deep { result ≡ first_deep 0 0 symbols.now }
    ensures inside { IfSome result (λ at. at < length symbols.now) }
{
    let mut depth: u32 = 0;
    for (at, symbol) in symbols.iter().enumerate() {
        if depth == 256 && symbol.is_opening() {
            return Some(at);
        }
        depth = depth_after(depth, *symbol);
    }
    None
}

/// The spans of the items of a row of tokens.
fn spans_of(alloc: Global, symbols: Vec<Symbol>) -> Result<List<ItemSpan>, NoMemory>
    requires { length symbols.items ≤ most_bytes }
    ensures { IfOk result (λ items. items ≡ spans_of symbols.items) }
{
    let read = read_symbols(alloc, symbols)?;
    let ends = item_ends(alloc, read.as_slice())?;
    spans(alloc, ends.as_slice())
}

/// Where the token of that number stands.
fn place_of(list: &[Token], at: usize) -> Place
    requires { at < length list.now }
    ensures { (token : Token) × (slice_get list.now at ≡ Some token) × (result ≡ token.place) }
{
    list[at].place
}

/// The items of the text, in order; or the first bracket that opens at depth 257, itself counted.
///
/// An item ends at a `;` at bracket depth 0, or at the `}` of a body; the tokens that are left at the end are a last
/// item. A closing bracket at depth 0 leaves depth 0. `one_item_list` says that a text has one list of items.
#[tactic(auto, using(crate::proofs::ItemsExact::deep_exact, crate::proofs::ItemsExact::spans_exact, crate::proofs::ItemsInside::items_inside))]
pub fn items(alloc: Global, t: &Tokens) -> Result<Result<List<ItemSpan>, Deep>, NoMemory>
    requires { LieInText t.now }
    ensures items { IfOk result (λ answer. IsItems t.now answer) }
    ensures inside { IfOk result (λ answer. IfOk answer (All (IsInside (length t.now.list)))) }
{
    let symbols = symbols(alloc, t)?;
    match first_deep(symbols.as_slice()) {
        Some(at) => Ok(Err(Deep {
            place: place_of(t.list.as_slice(), at),
        })),
        None => Ok(Ok(spans_of(alloc, symbols)?)),
    }
}
