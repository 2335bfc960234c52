ghost use Rattle.std.specs.Prelude.{◌≡◌, ◌≤◌, IfOk, length};
ghost use Rattle.std.specs.List.{All};
ghost use Rattle.cbase.specs.declared.abi.Abi.{Abi};
ghost use Rattle.ctokens.specs.InText.{LieInText};
ghost use Rattle.ctokens.specs.Items.{IsSpanAmong};
ghost use Rattle.ctokens.specs.Passed.{passed_tokens};
ghost use Rattle.ctokens.specs.TokenList.{AreNumbered};
ghost use Rattle.ctrees.specs.Levels.{item_levels};
ghost use Rattle.ccheck.specs.Steps.{AreChecked, IsLookedThrough};

use crate::refusal::{Refusal, of_fault, of_unread, place_at};
use cbase::{Abi, Item, List, NoMemory, Program};
use cgrammar::Scope;
use cread::{ItemBehind, ItemRead, read_item};
use ctokens::{ItemSpan, Tokens};
use expressions::{Context, Found};
use items::item_found;
use std::alloc::Global;

/// What is found of items that are read and checked one behind the other.
#[derive(Drop)]
pub(crate) enum ItemsChecked {
    /// Each is read and passes: their trees, in order.
    AllPass(Program),
    /// One is refused: why the first such is.
    FirstRefused(Refusal),
}

/// Reads and checks these items, one behind the other, from the beginning of a file: each is checked before the next is read.
/// `passed` says of each token of the text whether it is passed over.
///
/// Want of memory is the only error, and nothing is said of the context then.
pub(crate) fn check_items(
    alloc: Global,
    t: &Tokens,
    passed: &[bool],
    abi: Abi,
    spans: &[ItemSpan],
    context: &mut Context,
) -> Result<ItemsChecked, NoMemory>
    requires text { LieInText t.now }
    requires numbered { AreNumbered t.now.list }
    requires passed { passed.now ≡ passed_tokens t.now }
    requires some { All (IsSpanAmong (length t.now.list)) spans.now }
    ensures { IfOk result (AreChecked t.now abi spans.now context.old context.new) }
{
    let mut program = List::new(alloc);
    let mut scope = Scope::new(alloc)?;
    let mut expressions: u32 = 0;
    for span in spans {
        match read_item(alloc, t, passed, *span, scope, expressions)? {
            ItemRead::Read(behind) => {
                let ItemBehind {
                    item,
                    scope: within,
                    expressions: count,
                } = behind;
                let refused = refused_in(t, abi, *span, context, &item);
                program.push(item)?;
                match refused? {
                    Some(refusal) => return Ok(ItemsChecked::FirstRefused(refusal)),
                    None => {
                        scope = within;
                        expressions = count;
                    }
                }
            }
            ItemRead::Unread(unread) => {
                return Ok(ItemsChecked::FirstRefused(of_unread(unread)));
            }
        }
    }
    Ok(ItemsChecked::AllPass(program))
}

/// What is answered of an item that is read, where something is refused in it.
///
/// Want of memory is the only error, and nothing is said of the context then.
fn refused_in(
    t: &Tokens,
    abi: Abi,
    span: ItemSpan,
    context: &mut Context,
    item: &Item,
) -> Result<Option<Refusal>, NoMemory>
    requires { item_levels item.now ≤ 1024 }
    ensures { IfOk result (λ refused. IsLookedThrough t.now abi span item.now context.old context.new refused) }
{
    match item_found(context, abi, place_at(t, span.first), item)? {
        Found::Passes(()) => Ok(None),
        Found::Refused(fault) => Ok(Some(of_fault(t, fault))),
    }
}
