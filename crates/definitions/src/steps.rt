//! What changes from one token of an item to the next.

ghost use Rattle.std.specs.Prelude.{◌≡◌, ◌≤◌};
ghost use Rattle.ctokens.specs.InText.{most_bytes};
ghost use Rattle.definitions.specs.Defined.{begins_initialiser, ends_declarator, set_after};
ghost use Rattle.definitions.specs.Rows.{body_after, depth_after, ends_body};

use crate::role::Role;

/// How many brackets are open after a token where `depth` were open before it.
pub(crate) fn depth_after(depth: u32, role: Role) -> u32
    requires { depth ≤ most_bytes }
    ensures { result ≡ depth_after depth role }
{
    if role.is_opening() {
        return depth + 1;
    }
    if role.is_closing() {
        return depth.saturating_sub(1);
    }
    depth
}

/// Whether a body ends at a token, where `body` says that the bracket which opened last at depth 0 began one.
pub(crate) fn ends_body(depth: u32, body: bool, role: Role) -> bool
    ensures { result ≡ ends_body depth body role }
{
    depth == 1 && body && matches!(role, Role::RightBrace)
}

/// Whether the bracket that opened last at depth 0 is a `{` directly after a `)`.
pub(crate) fn body_after(depth: u32, before: Role, body: bool, role: Role) -> bool
    ensures { result ≡ body_after depth before body role }
{
    if depth == 0 && role.is_opening() {
        return matches!(role, Role::LeftBrace) && matches!(before, Role::RightParenthesis);
    }
    body
}

/// Whether a `=` stands at depth 0 since the last `,` there, after a token.
pub(crate) fn set_after(depth: u32, set: bool, role: Role) -> bool
    ensures { result ≡ set_after depth set role }
{
    if depth != 0 {
        return set;
    }
    match role {
        Role::Equals => true,
        Role::Comma => false,
        _ => set,
    }
}

/// Whether a declarator ends at a token: a `,` or `;` at depth 0.
pub(crate) fn ends_declarator(depth: u32, role: Role) -> bool
    ensures { result ≡ ends_declarator depth role }
{
    depth == 0 && matches!(role, Role::Comma | Role::Semicolon)
}

/// Whether an initialiser begins at a token: a `=` at depth 0.
pub(crate) fn begins_initialiser(depth: u32, role: Role) -> bool
    ensures { result ≡ begins_initialiser depth role }
{
    depth == 0 && matches!(role, Role::Equals)
}
