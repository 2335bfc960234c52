ghost use Rattle.std.specs.Prelude.{◌≡◌, ◌≤◌, Ok, length, IfOk};
ghost use Rattle.std.specs.List.{All, list_any};
ghost use Rattle.ctokens.specs.Entry.{IsTextRow, entries_of, entry_of, is_main_entry};
ghost use Rattle.ctokens.specs.Items.{IsInside, IsItems};
ghost use Rattle.ctokens.specs.Need.{IsNeed};
ghost use Rattle.ctokens.specs.ItemRows.{are_kept, kept, item_row, item_rows};
ghost use Rattle.ctokens.specs.NeedSearch.{need_of};
ghost use Rattle.ctokens.specs.InText.{LieInText, most_bytes};

use crate::entry::{Entry, entry_of};
use crate::item_span::ItemSpan;
use crate::need_search::found;
use crate::numbering::{TextRow, number_words};
use crate::passed::read_symbols;
use crate::symbol::Lexeme;
use crate::symbols::symbols;
use crate::token::Tokens;
use cbase::{List, NoMemory};
use std::alloc::Global;

/// Whether no token of a row is passed over.
fn are_kept(row: &[Lexeme<u32>]) -> bool
    ensures { result ≡ are_kept row.now }
{
    for token in row {
        if token.symbol.is_passed_over() {
            return false;
        }
    }
    true
}

/// The tokens that are not passed over.
fn kept(alloc: Global, row: &[Lexeme<u32>]) -> Result<Vec<Lexeme<u32>>, NoMemory>
    ensures value { IfOk result (λ rest. rest.items ≡ kept row.now) }
    ensures len { IfOk result (λ rest. length rest.items ≤ length row.now) }
{
    let mut kept = Vec::with_capacity(alloc, row.len())?;
    for token in row {
        if !token.symbol.is_passed_over() {
            kept.push_reserved(*token);
        }
    }
    Ok(kept)
}

/// What counts for need of an item with these tokens, without those that are passed over. Where there are none of these, no
/// token is copied.
#[tactic(auto, using(crate::proofs::KeptRows::all_kept))]
fn entry_of_kept(alloc: Global, row: &[Lexeme<u32>]) -> Result<Entry, NoMemory>
    requires { length row.now ≤ most_bytes }
    ensures { IfOk result (λ entry. entry ≡ entry_of (kept row.now)) }
{
    if are_kept(row) {
        return entry_of(alloc, row);
    }
    let tokens = kept(alloc, row)?;
    entry_of(alloc, tokens.as_slice())
}

/// What counts for need of the item of a span.
fn entry_in(alloc: Global, row: &[Lexeme<u32>], span: ItemSpan) -> Result<Entry, NoMemory>
    requires few { length row.now ≤ most_bytes }
    requires inside { IsInside (length row.now) span }
    ensures { IfOk result (λ entry. entry ≡ entry_of (item_row row.now span)) }
{
    entry_of_kept(alloc, &row[span.first as usize..span.after as usize])
}

/// What counts of each item for need.
fn entries(alloc: Global, row: &[Lexeme<u32>], items: &[ItemSpan]) -> Result<Vec<Entry>, NoMemory>
    requires few { length row.now ≤ most_bytes }
    requires inside { All (IsInside (length row.now)) items.now }
    ensures value { IfOk result (λ entries. entries.items ≡ entries_of row.now items.now) }
    ensures len { IfOk result (λ entries. length entries.items ≡ length items.now) }
{
    let mut entries = Vec::with_capacity(alloc, items.len())?;
    for span in items {
        entries.push(entry_in(alloc, row, *span)?)?;
    }
    Ok(entries)
}

/// Whether an item defines main.
fn defines_main(entries: &[Entry]) -> bool
    ensures { result ≡ list_any is_main_entry entries.now }
{
    for entry in entries {
        if entry.main {
            return true;
        }
    }
    false
}

/// The tokens of a text, with `PassedOver` for each that is passed over, and numbers for their words.
#[tactic(auto, using(crate::proofs::Numbered::text_row_of))]
fn text_row(alloc: Global, t: &Tokens) -> Result<TextRow, NoMemory>
    requires { LieInText t.now }
    ensures value { IfOk result (λ row. IsTextRow t.now row.tokens.items row.count) }
    ensures len { IfOk result (λ row. length row.tokens.items ≡ length t.now.list) }
{
    let symbols = symbols(alloc, t)?;
    let read = read_symbols(alloc, symbols)?;
    number_words(alloc, t, read.as_slice())
}

/// The numbers of the items that are found, or `None` where no item defines main.
fn need_of(alloc: Global, entries: &[Entry], count: u32) -> Result<Option<List<u32>>, NoMemory>
    requires { length entries.now ≤ most_bytes }
    ensures { IfOk result (λ answer. answer ≡ need_of entries.now count) }
{
    if !defines_main(entries) {
        return Ok(None);
    }
    Ok(Some(found(alloc, entries, count)?))
}

/// The numbers of the items that main needs, in order of the text; `None` exactly where no item defines main.
///
/// An item is needed that defines main, and one that offers a name which a needed item contains as a word not
/// directly after `.` or `->`. An item without a body that offers only names of built-in functions is passed over.
/// Each word is hashed once, and each item and each name is followed once; no clause says so, `bench/read.py` measures the work.
#[tactic(auto, using(crate::proofs::ItemsInside::items_few, crate::proofs::ItemsInside::items_inside, crate::proofs::NeedExact::need_exact))]
pub fn needed(
    alloc: Global,
    t: &Tokens,
    items: &List<ItemSpan>,
) -> Result<Option<List<u32>>, NoMemory>
    requires text { LieInText t.now }
    requires spans { IsItems t.now (Ok items.now) }
    ensures { IfOk result (λ answer. IsNeed (item_rows t.now items.now) answer) }
{
    let row = text_row(alloc, t)?;
    let entries = entries(alloc, row.tokens.as_slice(), items.as_slice())?;
    need_of(alloc, entries.as_slice(), row.count)
}
