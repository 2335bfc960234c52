//! Which form an item has.

ghost use Rattle.std.specs.Prelude.{◌≡◌, ◌≤◌, length};
ghost use Rattle.ctokens.specs.InText.{most_bytes};
ghost use Rattle.definitions.specs.Defined.{form_of};
ghost use Rattle.definitions.specs.Rows.{ends_with_body, has_storage, is_storage};

use crate::role::Role;
use crate::sign::Sign;
use crate::steps::{body_after, depth_after, ends_body};

/// What an item is, as far as it matters to which of its names it defines.
#[derive(Clone, Copy)]
pub(crate) enum Form {
    /// It ends with a body.
    Body,
    /// A declaration with `typedef`.
    Typedef,
    /// Another declaration with `extern`.
    Extern,
    /// Any other declaration.
    Plain,
}

/// A storage word that matters to which names a declaration defines (C11 6.7.1).
#[derive(Clone, Copy)]
pub(crate) enum StorageWord {
    /// `typedef`.
    Typedef,
    /// `extern`.
    Extern,
}

/// Whether the row of an item ends with a body.
fn ends_with_body(row: &[Sign]) -> bool
    requires { length row.now ≤ most_bytes }
    ensures { result ≡ ends_with_body row.now }
{
    let mut depth: u32 = 0;
    let mut before = Role::Other;
    let mut body = false;
    let mut last = false;
    for sign in row {
        last = ends_body(depth, body, sign.role);
        body = body_after(depth, before, body, sign.role);
        depth = depth_after(depth, sign.role);
        before = sign.role;
    }
    last
}

/// Whether a token is that storage word.
fn is_storage(word: StorageWord, role: Role) -> bool
    ensures { result ≡ is_storage word role }
{
    match word {
        StorageWord::Typedef => matches!(role, Role::Typedef),
        StorageWord::Extern => matches!(role, Role::Extern),
    }
}

/// Whether the storage word stands at depth 0 in a row.
fn has_storage(word: StorageWord, row: &[Sign]) -> bool
    requires { length row.now ≤ most_bytes }
    ensures { result ≡ has_storage word 0 row.now }
{
    let mut depth: u32 = 0;
    for sign in row {
        if depth == 0 && is_storage(word, sign.role) {
            return true;
        }
        depth = depth_after(depth, sign.role);
    }
    false
}

/// The form of an item with this row.
pub(crate) fn form_of(row: &[Sign]) -> Form
    requires { length row.now ≤ most_bytes }
    ensures { result ≡ form_of row.now }
{
    if ends_with_body(row) {
        return Form::Body;
    }
    if has_storage(StorageWord::Typedef, row) {
        return Form::Typedef;
    }
    if has_storage(StorageWord::Extern, row) {
        return Form::Extern;
    }
    Form::Plain
}
