//! Which names an item of a form defines.

ghost use Rattle.std.specs.Prelude.{◌≡◌, ◌≤◌, ◌∷◌, ◌++◌, false, length, map, IfOk, OnOk};
ghost use Rattle.std.specs.List.{All};
ghost use Rattle.ctokens.specs.InText.{most_bytes};
ghost use Rattle.definitions.specs.Defined.{declares, defined_in, defines, defines_word, first_word, has_initialiser, is_function, set_after, typed_after};
ghost use Rattle.definitions.specs.Rows.{HasSignBytes, depth_after, sign_word};
ghost use Rattle.definitions.specs.declared.role.Role.TheVariants.{Other};

use crate::form::Form;
use crate::role::Role;
use crate::sign::Sign;
use crate::steps::{begins_initialiser, depth_after, ends_declarator, set_after};
use crate::tables::sign_word;
use cbase::{List, NoMemory, Text};
use std::alloc::Global;

/// What is known of an item before one of its tokens.
#[derive(Clone, Copy)]
struct Before {
    /// The token before it.
    role: Role,
    /// How many brackets are open.
    depth: u32,
    /// Whether a `=` stands at depth 0 since the last `,` at depth 0.
    set: bool,
    /// Whether the type stands before it, or is left out.
    typed: bool,
    /// Whether a `=` stands at depth 0 from here on, before the next `,` or `;` there.
    initialised: bool,
}

/// Whether the declarator that begins at a row has an initialiser.
fn has_initialiser(row: &[Sign]) -> bool
    requires { length row.now ≤ most_bytes }
    ensures { result ≡ has_initialiser 0 row.now }
{
    let mut depth: u32 = 0;
    for sign in row {
        if begins_initialiser(depth, sign.role) {
            return true;
        }
        if ends_declarator(depth, sign.role) {
            return false;
        }
        depth = depth_after(depth, sign.role);
    }
    false
}

/// Whether a `(` stands behind the word that a row begins with.
fn is_function(row: &[Sign]) -> bool
    ensures { result ≡ is_function row.now }
{
    match row {
        [_, next, ..] => matches!(next.role, Role::LeftParenthesis),
        _ => false,
    }
}

/// Whether an item of the form defines a name that it declares, where it is known whether a `(` follows the name, and whether
/// its declarator has an initialiser.
fn defines(form: Form, function: bool, initialised: bool) -> bool
    ensures { result ≡ defines form function initialised }
{
    match form {
        Form::Body => true,
        Form::Typedef => false,
        Form::Extern => !function && initialised,
        Form::Plain => !function,
    }
}

/// Whether an item declares the word that a row begins with.
fn declares(before: Before, row: &[Sign]) -> bool
    ensures { result ≡ declares before.role before.depth before.set before.typed row.now }
{
    match row {
        [word, next, ..] => {
            before.depth == 0
                && !before.set
                && word.role.is_name()
                && next.role.follows_declared()
                && before.typed
                && !before.role.is_tag_word()
        }
        _ => false,
    }
}

/// Whether an item of the form defines the word that a row begins with.
fn defines_word(form: Form, before: Before, row: &[Sign]) -> bool
    requires { before.initialised ≡ has_initialiser before.depth row.now }
    ensures { result ≡ defines_word form before.role before.depth before.set before.typed row.now }
{
    declares(before, row) && defines(form, is_function(row), before.initialised)
}

/// What is known behind a token, which this row follows.
#[tactic(auto, using(crate::proofs::Outermost::over_outermost))]
fn behind(before: Before, sign: Sign, rest: &[Sign]) -> Before
    requires few { before.depth ≤ most_bytes }
    requires short { length rest.now ≤ most_bytes }
    requires known { before.initialised ≡ has_initialiser before.depth (sign ∷ rest.now) }
    ensures role { result.role ≡ sign.role }
    ensures depth { result.depth ≡ depth_after before.depth sign.role }
    ensures set { result.set ≡ set_after before.depth before.set sign.role }
    ensures typed { result.typed ≡ typed_after before.typed sign.role }
    ensures known { result.initialised ≡ has_initialiser result.depth rest.now }
{
    let role = sign.role;
    let over = begins_initialiser(before.depth, role) || ends_declarator(before.depth, role);
    let initialised = if over {
        has_initialiser(rest)
    } else {
        before.initialised
    };
    Before {
        role,
        depth: depth_after(before.depth, role),
        set: set_after(before.depth, before.set, role),
        typed: before.typed || !role.is_storage_word(),
        initialised,
    }
}

/// The tokens that name what an item of the form with this row defines, where it is known whether its type is left out.
pub(crate) fn defined_in(
    alloc: Global,
    untyped: bool,
    form: Form,
    row: &[Sign],
) -> Result<Vec<Sign>, NoMemory>
    requires { length row.now ≤ most_bytes }
    ensures { IfOk result (λ found. found.items ≡ defined_in form Other 0 false untyped row.now) }
{
    let mut found = Vec::new(alloc);
    let mut before = Before {
        role: Role::Other,
        depth: 0,
        set: false,
        typed: untyped,
        initialised: has_initialiser(row),
    };
    for (i, sign) in row.iter().enumerate() {
        if defines_word(form, before, row.split_at(i).1) {
            found.push(*sign)?;
        }
        before = behind(before, *sign, row.split_at(i + 1).1);
    }
    Ok(found)
}

/// The first word of a row that is no storage word.
pub(crate) fn first_word<'a>(text: &'a [u8], row: &[Sign]) -> &'a [u8]
    requires { All (HasSignBytes text.now) row.now }
    ensures { result.now ≡ first_word text.now row.now }
{
    for sign in row {
        if !sign.role.is_storage_word() {
            return sign_word(text, *sign);
        }
    }
    &[]
}

/// Appends the words of these tokens.
pub(crate) fn push_words(
    alloc: Global,
    found: &mut List<Text>,
    text: &[u8],
    signs: &[Sign],
) -> Result<(), NoMemory>
    requires { All (HasSignBytes text.now) signs.now }
    ensures { OnOk result (found.new ≡ found.old ++ map (sign_word text.now) signs.now) }
{
    for sign in signs {
        found.push(Text::from_slice(alloc, sign_word(text, *sign))?)?;
    }
    Ok(())
}
