ghost use Rattle.std.specs.Prelude.{◌≡◌, ◌<◌, ◌≤◌, IfNone, IfOk, IfSome, length};
ghost use Rattle.ctokens.specs.Passed.{passed_tokens};
ghost use Rattle.ctokens.specs.InText.{LieInText};
ghost use Rattle.cgrammar.specs.Phrases.{Context, context_at};
ghost use Rattle.ctokens.specs.TokenList.{AreNumbered};
ghost use Rattle.cgrammar.specs.Readings.{row_between};
ghost use Rattle.cconstructs.specs.Constructs.{HasNoConstruct};
ghost use Rattle.cconstructs.specs.Layout.{HasNoLayout};
ghost use Rattle.cread.specs.ItemAnswers.{IsAnswer};
ghost use Rattle.cread.specs.UnreadItems.{IsPlaceIn, IsPlaceOf, IsUnread, ShowsLayout};
ghost use Rattle.cevents.specs.Building.{built_all};
ghost use Rattle.cbuild.specs.ItemsMade.{item_made, nothing_made};
ghost use Rattle.cread.specs.RowItems.{IsConstructOf, IsItemOf, IsItemOfNone, MakeItem};

use crate::unread::Unread;
use cbase::{Item, NoMemory, Place};
use cbuild::{BuiltItem, Unbuilt, build_item};
use cconstructs::{first_construct, first_layout};
use cgrammar::{Scope, Terminal, row_of_part};
use cparser::WrittenItem;
use ctokens::{ItemSpan, Tokens};
use std::alloc::Global;

/// An item that was read, with the names in scope behind it and the number of expressions that end before there.
#[derive(Drop)]
pub struct ItemBehind {
    /// The item's tree.
    pub item: Item,
    /// The names in scope behind it: those before it, and those that it declares.
    pub scope: Scope,
    /// How many expressions of the file end before its end: the number of the next one.
    pub expressions: u32,
}

/// An item of a file that was read, or why it was not.
#[derive(Drop)]
pub enum ItemRead {
    /// The grammar spells it by a tree of at most 1,024 levels, and it changes no layout.
    Read(ItemBehind),
    /// It is not read, as this says.
    Unread(Unread),
}

/// Reads the item of a text, where these names are in scope before it (C11 6.9). `passed` says which tokens of the text are
/// passed over, and `expressions` how many expressions of the file end before the item, from 0: it is the number of its
/// first.
///
/// An item that changes a layout is not read; else a row that spells no item is not, for its first construct, or else for its
/// syntax. That the work grows with the item alone is measured by `bench/read.py`. An error says that memory is wanting.
#[tactic(auto, using(crate::proofs::FoundItems::passed_length))]
pub fn read_item(
    alloc: Global,
    t: &Tokens,
    passed: &[bool],
    span: ItemSpan,
    scope: Scope,
    expressions: u32,
) -> Result<ItemRead, NoMemory>
    requires text { LieInText t.now }
    requires numbered { AreNumbered t.now.list }
    requires passed { passed.now ≡ passed_tokens t.now }
    requires some { span.first < span.after }
    requires inside { span.after ≤ length t.now.list }
    ensures { IfOk result (λ read. IsAnswer t.now span.first span.after (record { scope = scope; expressions = expressions }) read) }
{
    let row = row_of_part(alloc, t, passed, span.first as usize, span.after as usize)?;
    match layout_place(t, row.as_slice(), span.first, span.after) {
        Some(place) => Ok(ItemRead::Unread(Unread::Construct { number: 7, place })),
        None => read_plain(alloc, t, row.as_slice(), span, scope, expressions),
    }
}

/// Reads the row of an item that changes no layout.
#[tactic(auto, using(crate::proofs::FoundItems::read_item_is))]
fn read_plain(
    alloc: Global,
    t: &Tokens,
    row: &[Terminal<'_>],
    span: ItemSpan,
    scope: Scope,
    expressions: u32,
) -> Result<ItemRead, NoMemory>
    requires same { row.now ≡ row_between t.now span.first span.after }
    requires plain { HasNoLayout t.now span.first span.after }
    requires inside { span.first < length t.now.list }
    ensures { IfOk result (λ read. IsAnswer t.now span.first span.after (record { scope = scope; expressions = expressions }) read) }
{
    match read_row(alloc, row, scope, expressions)? {
        Some(behind) => Ok(ItemRead::Read(behind)),
        None => Ok(ItemRead::Unread(why_unread(alloc, t, row, span)?)),
    }
}

/// Reads a whole row as an item.
#[tactic(auto, using(crate::proofs::FoundItems::item_there, crate::proofs::FoundItems::item_made_there, crate::proofs::FoundItems::no_item_there))]
fn read_row(
    alloc: Global,
    row: &[Terminal<'_>],
    scope: Scope,
    expressions: u32,
) -> Result<Option<ItemBehind>, NoMemory>
    ensures read { IfOk result (λ read. IfSome read (λ behind. IsItemOf row.now (context_at scope expressions) behind.item (context_at behind.scope behind.expressions))) }
    ensures none { IfOk result (λ read. IfNone read (IsItemOfNone row.now (context_at scope expressions))) }
{
    let written = cparser::read_item(alloc, row, scope)?;
    if !written.found {
        return Ok(None);
    }
    Ok(Some(build_row(alloc, row, written, expressions)?))
}

/// The item of a row, which what is written of it makes.
#[tactic(auto, using(crate::proofs::FoundItems::made_somehow))]
fn build_row(
    alloc: Global,
    row: &[Terminal<'_>],
    written: WrittenItem,
    expressions: u32,
) -> Result<ItemBehind, NoMemory>
    requires { MakeItem row.now written.events expressions }
    ensures item { IfOk result (λ behind. built_all row.now written.events (nothing_made expressions) ≡ item_made behind.item behind.expressions) }
    ensures scope { IfOk result (λ behind. behind.scope ≡ written.scope) }
{
    let WrittenItem {
        found: _,
        events,
        scope,
    } = written;
    match build_item(alloc, row, events.as_slice(), expressions) {
        Ok(built) => {
            let BuiltItem { item, count } = built;
            Ok(ItemBehind {
                item,
                scope,
                expressions: count,
            })
        }
        Err(Unbuilt::NoMemory) => Err(NoMemory),
        Err(Unbuilt::Wrong) => unreachable!(),
    }
}

/// Why a row that spells no item and changes no layout is not read.
#[tactic(auto, using(crate::proofs::FoundItems::unread_construct, crate::proofs::FoundItems::unread_syntax))]
fn why_unread(
    alloc: Global,
    t: &Tokens,
    row: &[Terminal<'_>],
    span: ItemSpan,
) -> Result<Unread, NoMemory>
    requires same { row.now ≡ row_between t.now span.first span.after }
    requires plain { HasNoLayout t.now span.first span.after }
    requires inside { span.first < length t.now.list }
    ensures { IfOk result (λ unread. (before : Context) → IsItemOfNone row.now before → IsUnread t.now span.first span.after before unread) }
{
    match construct_place(alloc, row)? {
        Some((number, place)) => Ok(Unread::Construct { number, place }),
        None => Ok(Unread::Syntax {
            place: place_of(t, span.first),
        }),
    }
}

/// The place of the first construct of a row, with its number.
fn construct_place(alloc: Global, row: &[Terminal<'_>]) -> Result<Option<(u8, Place)>, NoMemory>
    ensures found { IfOk result (λ found. IfSome found (λ construct. IsConstructOf row.now construct.0 construct.1)) }
    ensures none { IfOk result (λ found. IfNone found (HasNoConstruct row.now)) }
{
    match first_construct(alloc, row)? {
        Some(found) => Ok(Some((found.number, place_in(row, found.at)))),
        None => Ok(None),
    }
}

/// The place of the token of a row with the number.
fn place_in(row: &[Terminal<'_>], at: usize) -> Place
    requires { at < length row.now }
    ensures { IsPlaceIn row.now at result }
{
    row[at].place()
}

/// The place of the first change of layout in an item.
fn layout_place(t: &Tokens, row: &[Terminal<'_>], from: u32, to: u32) -> Option<Place>
    requires text { LieInText t.now }
    requires numbered { AreNumbered t.now.list }
    requires same { row.now ≡ row_between t.now from to }
    ensures found { IfSome result (λ place. ShowsLayout t.now from to 7 place) }
    ensures none { IfNone result (HasNoLayout t.now from to) }
{
    match first_layout(t, row, from, to) {
        Some(number) => Some(place_of(t, number)),
        None => None,
    }
}

/// The place of the token with the number.
fn place_of(t: &Tokens, number: u32) -> Place
    requires { number < length t.now.list }
    ensures { IsPlaceOf t.now number result }
{
    t.list.as_slice()[number as usize].place
}
