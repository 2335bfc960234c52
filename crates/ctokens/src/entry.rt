//! What of an item counts for need: the names by which it is needed, those that it contains, and whether it
//! defines main.

ghost use Rattle.std.specs.Prelude.{◌≡◌, ◌≤◌, ◌++◌, ◌∷◌, [], false, length, map, IfOk, OnOk};
ghost use Rattle.ctokens.specs.InText.{most_bytes};
ghost use Rattle.ctokens.specs.Entry.{entry_of};
ghost use Rattle.ctokens.specs.Need.{contained, defines_main, needed_by, offers_built_in, offers_main};
ghost use Rattle.ctokens.specs.Offered.{declared};
ghost use Rattle.ctokens.specs.Bodies.{ends_with_body};
ghost use Rattle.ctokens.specs.Ways.{AreOffered};
ghost use Rattle.ctokens.specs.declared.symbol.Symbol.TheVariants.{Other};

use crate::item_spans::{body_after, ends_body};
use crate::offered::{Ways, offered, push_enumerator, push_front, set_after, turn_brackets};
use crate::passed::depth_after;
use crate::symbol::{Lexeme, Symbol};
use cbase::{List, NoMemory};
use std::alloc::Global;

/// An item, as far as need goes. Names are numbers.
#[derive(Drop)]
pub(crate) struct Entry {
    /// Whether it defines main.
    pub(crate) main: bool,
    /// The names by which it is needed.
    pub(crate) offers: List<u32>,
    /// The names that it contains.
    pub(crate) contains: List<u32>,
}

/// Whether one of the words is `main`.
fn offers_main(words: &[Lexeme<u32>]) -> bool
    ensures { result ≡ offers_main words.now }
{
    for word in words {
        if word.symbol.is_main() {
            return true;
        }
    }
    false
}

/// Whether each of the words is the name of a built-in function.
fn offers_built_in(words: &[Lexeme<u32>]) -> bool
    ensures { result ≡ offers_built_in words.now }
{
    for word in words {
        if !word.symbol.is_built_in() {
            return false;
        }
    }
    true
}

/// Whether the item defines main, where it is known whether it ends with a body and which words it declares.
#[tactic(auto, unfolding(crate::specs::Need::defines_main))]
fn defines_main(row: &[Lexeme<u32>], names: &[Lexeme<u32>], body: bool) -> bool
    requires declared { names.now ≡ declared 0 false row.now }
    requires known { body ≡ ends_with_body row.now }
    ensures { result ≡ defines_main row.now }
{
    if !body {
        return false;
    }
    offers_main(names)
}

/// The words of the tokens, in order.
fn words(alloc: Global, tokens: &[Lexeme<u32>]) -> Result<List<u32>, NoMemory>
    ensures { IfOk result (λ words. words ≡ map (λ token. token.word) tokens.now) }
{
    let mut words = Vec::with_capacity(alloc, tokens.len())?;
    for token in tokens {
        words.push(token.word)?;
    }
    Ok(List::from_vec(words))
}

/// The names by which the item is needed: those that it offers, and none where it declares built-in functions alone. It is
/// known whether the item ends with a body and which words it offers in each way.
#[tactic(auto, unfolding(crate::specs::Need::needed_by))]
fn needed_by(
    alloc: Global,
    row: &[Lexeme<u32>],
    ways: &Ways,
    body: bool,
) -> Result<List<u32>, NoMemory>
    requires ways { AreOffered ways.now row.now }
    requires known { body ≡ ends_with_body row.now }
    ensures { IfOk result (λ names. names ≡ needed_by row.now) }
{
    let offered = offered(alloc, row, ways)?;
    if !body && offers_built_in(offered.as_slice()) {
        return Ok(List::new(alloc));
    }
    words(alloc, offered.as_slice())
}

/// Appends the word of a token, if it is a name that the item contains: a word that does not stand directly after `.` or `->`.
fn push_contained(names: &mut Vec<u32>, before: Symbol, token: Lexeme<u32>) -> Result<(), NoMemory>
    ensures { OnOk result (names.new.items ≡ names.old.items ++ contained before (token ∷ [])) }
{
    if token.symbol.is_word() && !before.is_selector() {
        names.push(token.word)?;
    }
    Ok(())
}

/// Finds the words that the row of an item offers in each way and the names that it contains, in one turn for each token, and
/// whether it ends with a body.
fn gather(
    alloc: Global,
    ways: &mut Ways,
    names: &mut Vec<u32>,
    row: &[Lexeme<u32>],
) -> Result<bool, NoMemory>
    requires few { length row.now ≤ most_bytes }
    requires no_ways { AreOffered ways.old [] }
    requires no_names { names.old.items ≡ [] }
    ensures body { IfOk result (λ body. body ≡ ends_with_body row.now) }
    ensures ways { IfOk result (λ _body. AreOffered ways.new row.now) }
    ensures names { IfOk result (λ _body. names.new.items ≡ contained Other row.now) }
{
    let mut brackets = Vec::new(alloc);
    let mut depth: u32 = 0;
    let mut set = false;
    let mut earlier = Symbol::Other;
    let mut before = Symbol::Other;
    let mut body = false;
    let mut last = false;
    for (i, token) in row.iter().enumerate() {
        push_front(ways, depth, set, row.split_at(i).1)?;
        push_enumerator(ways, brackets.as_slice(), before, *token)?;
        push_contained(names, before, *token)?;
        turn_brackets(&mut brackets, earlier, before, token.symbol)?;
        last = ends_body(depth, body, token.symbol);
        body = body_after(depth, before, body, token.symbol);
        set = set_after(depth, set, token.symbol);
        depth = depth_after(depth, token.symbol);
        earlier = before;
        before = token.symbol;
    }
    Ok(last)
}

/// The entry of an item with this row of tokens.
pub(crate) fn entry_of(alloc: Global, row: &[Lexeme<u32>]) -> Result<Entry, NoMemory>
    requires { length row.now ≤ most_bytes }
    ensures { IfOk result (λ entry. entry ≡ entry_of row.now) }
{
    let mut ways = Ways {
        tags: Vec::new(alloc),
        enumerators: Vec::new(alloc),
        declared: Vec::new(alloc),
        pointers: Vec::new(alloc),
        bracketed: Vec::new(alloc),
    };
    let mut names = Vec::new(alloc);
    let body = gather(alloc, &mut ways, &mut names, row)?;
    Ok(Entry {
        main: defines_main(row, ways.declared.as_slice(), body),
        offers: needed_by(alloc, row, &ways, body)?,
        contains: List::from_vec(names),
    })
}
