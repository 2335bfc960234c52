ghost use Rattle.std.specs.Prelude.{◌≡◌, ◌≤◌, ◌<◌, ◌+◌, ◌^◌, ◌||◌, map};
ghost use Rattle.ctokens.specs.InText.{most_bytes};
ghost use Rattle.std.specs.List.{list_any};
ghost use Rattle.std.specs.Str.{bytes_eq};
ghost use Rattle.cconstructs.specs.Layout.{is_attribute, is_layout_name, layout_names, separates, with_underscores};
ghost use Rattle.cconstructs.specs.LayoutFinding.{outside, part_behind, shows_layout, unclosed_behind, within};
ghost use Rattle.cconstructs.specs.OpenBrackets.{closes, opens};

use cgrammar::{Terminal, is_one_of};

/// What the tokens before a token say of the attribute that it may stand in.
#[derive(Clone, Copy)]
pub struct Part {
    /// Whether an attribute's word stands directly before it, outside of an attribute's part.
    pub behind: bool,
    /// How many brackets of an attribute's part are open before it.
    pub unclosed: usize,
    /// Whether a `(` or a `,` of an attribute's part stands directly before it.
    pub separated: bool,
}

/// The attributes of GNU C that an item is given up for as one whose layout changes.
const NAMES: [&'static str; 6] = [
    "packed",
    "aligned",
    "mode",
    "vector_size",
    "cleanup",
    "alias",
];

/// The names of these attributes with `__` on both sides.
const UNDERSCORED: [&'static str; 6] = [
    "__packed__",
    "__aligned__",
    "__mode__",
    "__vector_size__",
    "__cleanup__",
    "__alias__",
];

/// Whether bytes are a name of such an attribute without `__`.
fn is_plain_name(bytes: &[u8]) -> bool
    ensures { result ≡ list_any (bytes_eq bytes.now) layout_names }
{
    is_one_of(NAMES.as_slice(), bytes)
}

/// Whether bytes are such a name with `__` on both sides.
fn is_underscored_name(bytes: &[u8]) -> bool
    ensures { result ≡ list_any (bytes_eq bytes.now) (map with_underscores layout_names) }
{
    is_one_of(UNDERSCORED.as_slice(), bytes)
}

/// Whether the token is a word that names such an attribute.
fn is_layout_name(token: &Terminal<'_>) -> bool
    ensures { result ≡ is_layout_name token.now }
{
    if !token.is_any_word() {
        return false;
    }
    is_plain_name(token.bytes()) || is_underscored_name(token.bytes())
}

/// Whether the token opens a bracket.
fn opens(token: &Terminal<'_>) -> bool
    ensures { result ≡ opens token.now }
{
    token.is_mark(b"(") || token.is_mark(b"[") || token.is_mark(b"{")
}

/// Whether the token closes a bracket.
pub fn closes(token: &Terminal<'_>) -> bool
    ensures { result ≡ closes token.now }
{
    token.is_mark(b")") || token.is_mark(b"]") || token.is_mark(b"}")
}

/// Whether the token is an attribute's word.
fn is_attribute(token: &Terminal<'_>) -> bool
    ensures { result ≡ is_attribute token.now }
{
    token.is_word(b"__attribute__") || token.is_word(b"__attribute")
}

/// Whether a name of an attribute may stand behind the token.
fn separates(token: &Terminal<'_>) -> bool
    ensures { result ≡ separates token.now }
{
    token.is_mark(b"(") || token.is_mark(b",")
}

/// How many brackets are open behind a token where `unclosed` were open before it.
pub fn unclosed_behind(unclosed: usize, token: &Terminal<'_>) -> usize
    requires { unclosed + 1 < 2 ^ 64 }
    ensures { result ≡ unclosed_behind unclosed token.now }
{
    if opens(token) {
        return unclosed + 1;
    }
    if closes(token) {
        return unclosed.saturating_sub(1);
    }
    unclosed
}

/// Outside of an attribute's part. `behind` says whether an attribute's word stands directly before.
pub fn outside(behind: bool) -> Part
    ensures { result ≡ outside behind }
{
    Part {
        behind,
        unclosed: 0,
        separated: false,
    }
}

/// In an attribute's part, of which `unclosed` brackets are open. `separated` says whether a `(` or a `,` stands directly
/// before.
fn within(unclosed: usize, separated: bool) -> Part
    ensures { result ≡ within unclosed separated }
{
    Part {
        behind: false,
        unclosed,
        separated,
    }
}

/// Whether the token names an attribute of layout: at depth 2, directly behind a `(` or a `,`.
pub fn shows_layout(part: Part, token: &Terminal<'_>) -> bool
    ensures { result ≡ shows_layout part token.now }
{
    if part.unclosed != 2 {
        return false;
    }
    part.separated && is_layout_name(token)
}

/// What is known behind a token, of which `part` is known before it.
pub fn part_behind(part: Part, token: &Terminal<'_>) -> Part
    requires { part.unclosed ≤ most_bytes }
    ensures { result ≡ part_behind part.behind part.unclosed token.now }
{
    if part.unclosed > 0 {
        return within(unclosed_behind(part.unclosed, token), separates(token));
    }
    if part.behind && opens(token) {
        return within(1, true);
    }
    outside(is_attribute(token))
}
