ghost use Rattle.std.specs.Prelude.{◌≡◌, ◌++◌, [], Ok, IfOk, OnOk, length, slice_get};
ghost use Rattle.std.specs.List.{All};
ghost use Rattle.ctokens.specs.InText.{LieInText};
ghost use Rattle.ctokens.specs.Items.{IsInside, IsItems, IsSpanAmong};
ghost use Rattle.ctokens.specs.TokenList.{AreNumbered, HasNamedFiles};
ghost use Rattle.ccheck.specs.Checked.{IsAnswer};
ghost use Rattle.ccheck.specs.Named.{AnswerIsNamed};
ghost use Rattle.ccheck.specs.Needed.{spans_of, with_span};
ghost use Rattle.ccheck.specs.Placed.{AnswerIsPlaced};

use crate::items_checked::{ItemsChecked, check_items};
use crate::program::TypedProgram;
use crate::refusal::Refusal;
use cbase::{Abi, List, NoMemory};
use ctokens::{ItemSpan, Tokens, passed_over};
use definitions::definitions;
use items::begin;
use items::languages::{c_finds_what_contexts_find, leads_back};
use std::alloc::Global;

/// What is answered of the items that main needs: a program with its types, or why one of them is refused.
#[derive(Drop)]
pub enum Checked {
    /// Each is read and passes.
    Typed(TypedProgram),
    /// One is refused: why the first such is.
    Refused(Refusal),
}

/// Reads and checks the items of these numbers, one behind the other in the order of the numbers: each is read where the names that those before it declare are in
/// scope (C11 6.9), and checked by the rules of C for types, declarations and statements (6.5 to 6.9), before the next is read. The first in which
/// anything is refused ends it.
///
/// A number past the last item stands for none. `strict` says whether calls of `main` are refused. A refusal stands at a token of one of the items, with the
/// number of its construct, from 1 to 21, or of its rule, from 1 to 13. Want of memory is the only error.
#[tactic(auto, using(crate::proofs::Named::answer_named, crate::proofs::Placed::answer_placed))]
pub fn check(
    alloc: Global,
    t: &Tokens,
    items: &List<ItemSpan>,
    numbers: &[u32],
    abi: Abi,
    strict: bool,
) -> Result<Checked, NoMemory>
    requires text { LieInText t.now }
    requires numbered { AreNumbered t.now.list }
    requires spans { IsItems t.now (Ok items.now) }
    requires inside { All (IsInside (length t.now.list)) items.now }
    requires named { HasNamedFiles t.now }
    ensures answer { IfOk result (IsAnswer t.now items.now numbers.now abi strict) }
    ensures named { IfOk result (AnswerIsNamed t.now.names) }
    ensures placed { IfOk result (AnswerIsPlaced t.now (spans_of items.now numbers.now)) }
{
    let checked = answer_of_items(alloc, t, items, numbers, abi, strict)?;
    Ok(checked)
}

/// The same, as an answer that is true of them.
#[tactic(auto, using(crate::proofs::Spans::spans_some))]
fn answer_of_items(
    alloc: Global,
    t: &Tokens,
    items: &List<ItemSpan>,
    numbers: &[u32],
    abi: Abi,
    strict: bool,
) -> Result<Checked, NoMemory>
    requires text { LieInText t.now }
    requires numbered { AreNumbered t.now.list }
    requires spans { IsItems t.now (Ok items.now) }
    requires inside { All (IsInside (length t.now.list)) items.now }
    ensures { IfOk result (IsAnswer t.now items.now numbers.now abi strict) }
{
    let spans = spans_of(alloc, items.as_slice(), numbers)?;
    let passed = passed_over(alloc, t)?;
    let found = definitions(alloc, t, passed.as_slice(), items)?;
    let mut context = begin(
        alloc,
        abi,
        strict,
        found.bodied.as_slice(),
        found.defined.as_slice(),
    )?;
    let checked = check_items(
        alloc,
        t,
        passed.as_slice(),
        abi,
        spans.as_slice(),
        &mut context,
    )?;
    leads_back(&context);
    c_finds_what_contexts_find();
    match checked {
        ItemsChecked::AllPass(program) => Ok(Checked::Typed(TypedProgram {
            program,
            context,
            abi,
            strict,
        })),
        ItemsChecked::FirstRefused(refusal) => Ok(Checked::Refused(refusal)),
    }
}

/// The items with these numbers.
fn spans_of(alloc: Global, items: &[ItemSpan], numbers: &[u32]) -> Result<List<ItemSpan>, NoMemory>
    ensures { IfOk result (λ spans. spans ≡ spans_of items.now numbers.now) }
{
    let mut spans = List::new(alloc);
    for number in numbers {
        push_found(&mut spans, item_of(items, *number))?;
    }
    Ok(spans)
}

/// The item with the number, if there is one.
fn item_of(items: &[ItemSpan], number: u32) -> Option<ItemSpan>
    ensures { result ≡ slice_get items.now number }
{
    items.get(number as usize).copied()
}

/// Appends the item, if there is one.
fn push_found(spans: &mut List<ItemSpan>, found: Option<ItemSpan>) -> Result<(), NoMemory>
    ensures { OnOk result (spans.new ≡ spans.old ++ with_span found []) }
{
    match found {
        None => Ok(()),
        Some(span) => spans.push(span),
    }
}
