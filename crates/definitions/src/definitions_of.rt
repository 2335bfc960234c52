ghost use Rattle.std.specs.Prelude.{◌≡◌, ◌≤◌, ◌++◌, length, map, IfOk, OnOk};
ghost use Rattle.std.specs.List.{All};
ghost use Rattle.ctokens.specs.InText.{LieInText, most_bytes};
ghost use Rattle.ctokens.specs.Items.{IsInside};
ghost use Rattle.ctokens.specs.Passed.{passed_tokens};
ghost use Rattle.definitions.specs.Defined.{bodied_among, bodied_by, bodied_names, defined_among, defined_by, defined_names, each_once, form_of, typedef_names, typedefs_in, with_body};
ghost use Rattle.definitions.specs.Rows.{HasSignBytes, item_row, outermost, sign_word};

use crate::form::{Form, form_of};
use crate::found::Definitions;
use crate::names::{defined_in, first_word, push_words};
use crate::row::signs;
use crate::sign::Sign;
use crate::typedefs::Typedefs;
use cbase::{List, NoMemory, Text};
use ctokens::{ItemSpan, Tokens};
use std::alloc::Global;

/// Appends the words of these tokens, which name what an item of the form defines, where it ends with a body.
#[tactic(auto, unfolding(crate::specs::Defined::with_body))]
fn push_bodied(
    alloc: Global,
    found: &mut List<Text>,
    text: &[u8],
    form: Form,
    names: &[Sign],
) -> Result<(), NoMemory>
    requires { All (HasSignBytes text.now) names.now }
    ensures { OnOk result (found.new ≡ found.old ++ with_body form (map (sign_word text.now) names.now)) }
{
    if let Form::Body = form {
        return push_words(alloc, found, text, names);
    }
    Ok(())
}

/// The tokens of an item of the text that are not passed over, with their roles, without what stands inside of brackets.
#[tactic(auto, using(crate::proofs::Kept::kept_bytes))]
fn row_of(alloc: Global, t: &Tokens, passed: &[bool], span: ItemSpan) -> Result<Vec<Sign>, NoMemory>
    requires text { LieInText t.now }
    requires passed { passed.now ≡ passed_tokens t.now }
    requires same { length passed.now ≡ length t.now.list }
    requires span { IsInside (length t.now.list) span }
    ensures value { IfOk result (λ row. row.items ≡ outermost 0 (item_row t.now span)) }
    ensures bytes { IfOk result (λ row. All (HasSignBytes t.now.text) row.items) }
    ensures short { IfOk result (λ row. length row.items ≤ most_bytes) }
{
    let first = span.first as usize;
    let after = span.after as usize;
    signs(
        alloc,
        t.text.as_slice(),
        &t.list.as_slice()[first..after],
        &passed[first..after],
    )
}

/// Puts the names that an item of the text makes a typedef's behind the others, each where it is new.
#[tactic(auto, using(crate::proofs::Kept::defined_bytes, crate::proofs::Inside::same_typedefs))]
fn put_item(
    alloc: Global,
    found: &mut Typedefs,
    t: &Tokens,
    passed: &[bool],
    span: ItemSpan,
) -> Result<(), NoMemory>
    requires text { LieInText t.now }
    requires passed { passed.now ≡ passed_tokens t.now }
    requires same { length passed.now ≡ length t.now.list }
    requires span { IsInside (length t.now.list) span }
    ensures { OnOk result (found.new ≡ each_once found.old (typedefs_in t.now.text (form_of (item_row t.now span)) (item_row t.now span))) }
{
    let row = row_of(alloc, t, passed, span)?;
    let Form::Typedef = form_of(row.as_slice()) else {
        return Ok(());
    };
    let names = defined_in(alloc, false, Form::Body, row.as_slice())?;
    found.put_words(alloc, t.text.as_slice(), names.as_slice())
}

/// The names that the items of a text make a typedef's.
fn typedefs(
    alloc: Global,
    t: &Tokens,
    passed: &[bool],
    items: &List<ItemSpan>,
) -> Result<Typedefs, NoMemory>
    requires text { LieInText t.now }
    requires passed { passed.now ≡ passed_tokens t.now }
    requires same { length passed.now ≡ length t.now.list }
    requires spans { All (IsInside (length t.now.list)) items.now }
    ensures { IfOk result (λ found. found ≡ typedef_names t.now items.now) }
{
    let mut found = Typedefs::new(alloc);
    for span in items.as_slice() {
        put_item(alloc, &mut found, t, passed, *span)?;
    }
    Ok(found)
}

/// Appends the names that an item of the text defines, where these are the typedefs of the text.
#[tactic(auto, using(crate::proofs::Kept::defined_bytes, crate::proofs::Inside::same_defined, crate::proofs::Inside::same_bodied))]
fn push_item(
    alloc: Global,
    found: &mut Definitions,
    typedefs: &Typedefs,
    t: &Tokens,
    passed: &[bool],
    span: ItemSpan,
) -> Result<(), NoMemory>
    requires text { LieInText t.now }
    requires passed { passed.now ≡ passed_tokens t.now }
    requires same { length passed.now ≡ length t.now.list }
    requires span { IsInside (length t.now.list) span }
    ensures bodied { OnOk result (found.new.bodied ≡ found.old.bodied ++ bodied_by t.now.text typedefs.now (item_row t.now span)) }
    ensures defined { OnOk result (found.new.defined ≡ found.old.defined ++ defined_by t.now.text typedefs.now (item_row t.now span)) }
{
    let text = t.text.as_slice();
    let row = row_of(alloc, t, passed, span)?;
    let form = form_of(row.as_slice());
    let untyped = !typedefs.has(first_word(text, row.as_slice()));
    let names = defined_in(alloc, untyped, form, row.as_slice())?;
    push_words(alloc, &mut found.defined, text, names.as_slice())?;
    push_bodied(alloc, &mut found.bodied, text, form, names.as_slice())
}

/// The names that items of the text define, where these are the typedefs of the text.
fn push_all(
    alloc: Global,
    typedefs: &Typedefs,
    t: &Tokens,
    passed: &[bool],
    items: &List<ItemSpan>,
) -> Result<Definitions, NoMemory>
    requires text { LieInText t.now }
    requires passed { passed.now ≡ passed_tokens t.now }
    requires same { length passed.now ≡ length t.now.list }
    requires spans { All (IsInside (length t.now.list)) items.now }
    ensures bodied { IfOk result (λ found. found.bodied ≡ bodied_among t.now typedefs.now items.now) }
    ensures defined { IfOk result (λ found. found.defined ≡ defined_among t.now typedefs.now items.now) }
{
    let mut found = Definitions {
        bodied: List::new(alloc),
        defined: List::new(alloc),
    };
    for span in items.as_slice() {
        push_item(alloc, &mut found, typedefs, t, passed, *span)?;
    }
    Ok(found)
}

/// The names with linkage that the items of a text define (C11 6.9p5), asked of its tokens alone.
///
/// An item that ends with a body defines each name that it declares at depth 0. An item without a body and without
/// `typedef` defines those of them that no `(` follows; where it has `extern`, only those of these that have an initialiser. The
/// first word of an item, storage words left out, begins its type where an item of the text makes it a typedef's name; else it is
/// declared like any other, as `f` in `f(void) { return 1; }`. `passed` says of each token of the text whether it is passed over.
/// Each token of an item is looked at a fixed number of times, and no byte of a word that stands inside of brackets.
pub fn definitions(
    alloc: Global,
    t: &Tokens,
    passed: &[bool],
    items: &List<ItemSpan>,
) -> Result<Definitions, NoMemory>
    requires text { LieInText t.now }
    requires passed { passed.now ≡ passed_tokens t.now }
    requires same { length passed.now ≡ length t.now.list }
    requires spans { All (IsInside (length t.now.list)) items.now }
    ensures bodied { IfOk result (λ found. found.bodied ≡ bodied_names t.now items.now) }
    ensures defined { IfOk result (λ found. found.defined ≡ defined_names t.now items.now) }
{
    let typedefs = typedefs(alloc, t, passed, items)?;
    push_all(alloc, &typedefs, t, passed, items)
}
