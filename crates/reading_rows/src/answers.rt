//! What is answered of items, and the names behind them.
ghost use Rattle.std.specs.Prelude.{◌≡◌};
ghost use Rattle.ctokens.specs.Passed.{passed_tokens};
ghost use Rattle.ctokens.specs.InText.{LieInText};
ghost use Rattle.ctokens.specs.TokenList.{AreNumbered};

use crate::places::places;
use crate::printing::{push_row, push_text, push_truth};
use cbase::{Item, NoMemory};
use cbuild::let_go_of_item;
use cgrammar::Scope;
use cread::{ItemBehind, ItemRead, Unread, read_item};
use ctokens::{ItemSpan, Tokens, items, passed_over};
use std::alloc::Global;

/// What is shown of an item.
#[derive(Clone, Copy)]
pub enum Asked {
    /// Nothing.
    Nothing,
    /// That it is read, or why not.
    Answer,
    /// Places in its tree, or why it is not read.
    Places,
}

/// What is shown of an item that is read.
fn show(alloc: Global, item: &Item, asked: Asked, shown: &mut String) -> Result<(), NoMemory> {
    match asked {
        Asked::Nothing => Ok(()),
        Asked::Answer => push_text(" read", shown),
        Asked::Places => places(alloc, item, shown),
    }
}

/// Why an item is not read.
fn show_unread(unread: Unread, asked: Asked, shown: &mut String) -> Result<(), NoMemory> {
    match (asked, unread) {
        (Asked::Nothing, _) => Ok(()),
        (_, Unread::Construct { number, place }) => push_row(
            " construct",
            &[u32::from(number), place.line, place.column],
            shown,
        ),
        (_, Unread::Syntax { place }) => push_row(" syntax", &[place.line, place.column], shown),
    }
}

/// The names in scope behind an item, where it is read.
fn behind_item(
    alloc: Global,
    t: &Tokens,
    passed: &[bool],
    span: &ItemSpan,
    scope: Scope,
    asked: Asked,
    shown: &mut String,
) -> Result<Option<Scope>, NoMemory>
    requires text { LieInText t.now }
    requires numbered { AreNumbered t.now.list }
    requires passed { passed.now ≡ passed_tokens t.now }
{
    if span.first >= span.after || span.after as usize > t.list.len() {
        drop(scope);
        return Ok(None);
    }
    match read_item(alloc, t, passed, *span, scope, 0) {
        Ok(ItemRead::Read(behind)) => {
            let ItemBehind {
                item,
                scope,
                expressions: _,
            } = behind;
            let told = show(alloc, &item, asked, shown);
            let_go_of_item(item);
            match told {
                Ok(()) => Ok(Some(scope)),
                Err(error) => {
                    drop(scope);
                    Err(error)
                }
            }
        }
        Ok(ItemRead::Unread(unread)) => match show_unread(unread, asked, shown) {
            Ok(()) => Ok(None),
            Err(error) => Err(error),
        },
        Err(error) => Err(error),
    }
}

/// The names in scope behind items of a text, one behind the other from its beginning, where each is read. `t` is a typedef before them, if `typedef` says so.
fn behind_items(
    alloc: Global,
    t: &Tokens,
    passed: &[bool],
    spans: &[ItemSpan],
    typedef: bool,
    shown: &mut String,
) -> Result<Option<Scope>, NoMemory>
    requires text { LieInText t.now }
    requires numbered { AreNumbered t.now.list }
    requires passed { passed.now ≡ passed_tokens t.now }
{
    let mut scope = Scope::new(alloc)?;
    if typedef {
        scope.declare(alloc, b"t", true)?;
    }
    for span in spans {
        match behind_item(alloc, t, passed, span, scope, Asked::Nothing, shown)? {
            None => return Ok(None),
            Some(within) => scope = within,
        }
    }
    Ok(Some(scope))
}

/// What is answered of the last of these items, where each before it is read.
fn show_last(
    alloc: Global,
    t: &Tokens,
    spans: &[ItemSpan],
    asked: Asked,
    shown: &mut String,
) -> Result<(), NoMemory>
    requires text { LieInText t.now }
    requires numbered { AreNumbered t.now.list }
{
    let [before @ .., span] = spans else {
        return push_text(" no item", shown);
    };
    let passed = passed_over(alloc, t)?;
    match behind_items(alloc, t, passed.as_slice(), before, false, shown)? {
        None => push_text(" not read before", shown),
        Some(scope) => {
            behind_item(alloc, t, passed.as_slice(), span, scope, asked, shown)?;
            Ok(())
        }
    }
}

/// What is answered of the last item of a text, where the names that the items before it declare are in scope: that it is read,
/// or the places in it, or the number of the construct that is given up with its line and column, or the line and column at which nothing is spelled.
pub fn last(alloc: Global, t: &Tokens, asked: Asked, shown: &mut String) -> Result<(), NoMemory>
    requires text { LieInText t.now }
    requires numbered { AreNumbered t.now.list }
{
    match items(alloc, t) {
        Ok(Ok(spans)) => show_last(alloc, t, spans.as_slice(), asked, shown),
        Ok(Err(_)) => push_text(" too deep", shown),
        Err(error) => Err(error),
    }
}

/// Whether `t` is a typedef's name behind these items of a text.
fn show_typedef(
    alloc: Global,
    t: &Tokens,
    spans: &[ItemSpan],
    before: bool,
    shown: &mut String,
) -> Result<(), NoMemory>
    requires text { LieInText t.now }
    requires numbered { AreNumbered t.now.list }
{
    let passed = passed_over(alloc, t)?;
    match behind_items(alloc, t, passed.as_slice(), spans, before, shown)? {
        None => push_text(" not read", shown),
        Some(scope) => push_truth(scope.is_typedef(b"t"), shown),
    }
}

/// Whether `t` is a typedef's name behind the items of a text, where it is one before them, if `before` says so.
pub fn typedef(alloc: Global, t: &Tokens, before: bool, shown: &mut String) -> Result<(), NoMemory>
    requires text { LieInText t.now }
    requires numbered { AreNumbered t.now.list }
{
    match items(alloc, t) {
        Ok(Ok(spans)) => show_typedef(alloc, t, spans.as_slice(), before, shown),
        Ok(Err(_)) => push_text(" too deep", shown),
        Err(error) => Err(error),
    }
}
