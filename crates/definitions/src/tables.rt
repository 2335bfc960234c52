//! The roles of tokens by their bytes.

ghost use Rattle.std.specs.Prelude.{◌≡◌, ◌<◌, ◌≤◌, ◌∷◌, [], length, map};
ghost use Rattle.ctokens.specs.InText.{most_bytes};
ghost use Rattle.ctokens.specs.SymbolRows.{row_read};
ghost use Rattle.ctokens.specs.TokenSymbols.{word_of};
ghost use Rattle.definitions.specs.Roles.{mark_role, role_in, token_role, word_role};
ghost use Rattle.definitions.specs.Rows.{HasSignBytes, depth_after, sign_word};

use crate::role::Role;
use crate::sign::Sign;
use crate::steps::depth_after;
use ctokens::{Token, TokenKind, is_identifier, read_as, same_bytes};

/// The keywords that matter here.
const WORDS: [(&'static str, Role); 9] = [
    ("struct", Role::TagWord),
    ("union", Role::TagWord),
    ("enum", Role::TagWord),
    ("typedef", Role::Typedef),
    ("extern", Role::Extern),
    ("static", Role::Static),
    ("asm", Role::Assembly),
    ("__asm", Role::Assembly),
    ("__asm__", Role::Assembly),
];

/// The role of the row that has these bytes, or `Other` where there is no such row.
fn role_in(rows: &[(&str, Role)], bytes: &[u8]) -> Role
    ensures { result ≡ role_in (map row_read rows.now) bytes.now }
{
    for row in rows {
        if same_bytes(row.0.as_bytes(), bytes) {
            return row.1;
        }
    }
    Role::Other
}

/// The role of a word, as it is read.
#[tactic(auto, unfolding(crate::specs::Roles::word_role))]
fn word_role(word: &[u8]) -> Role
    ensures { result ≡ word_role word.now }
{
    if is_identifier(word) {
        return Role::Name;
    }
    role_in(WORDS.as_slice(), word)
}

/// The role of a mark of one byte: all marks that matter here have one.
#[tactic(auto, unfolding(crate::specs::Roles::mark_role))]
fn byte_role(byte: u8) -> Role
    ensures { result ≡ mark_role (byte ∷ []) }
{
    match byte {
        b'(' => Role::LeftParenthesis,
        b')' => Role::RightParenthesis,
        b'[' => Role::LeftBracket,
        b']' => Role::RightBracket,
        b'{' => Role::LeftBrace,
        b'}' => Role::RightBrace,
        b';' => Role::Semicolon,
        b',' => Role::Comma,
        b'=' => Role::Equals,
        _ => Role::Other,
    }
}

/// The role of a mark.
#[tactic(auto, unfolding(crate::specs::Roles::mark_role))]
fn mark_role(bytes: &[u8]) -> Role
    ensures { result ≡ mark_role bytes.now }
{
    match bytes {
        [byte] => byte_role(*byte),
        _ => Role::Other,
    }
}

/// The role of a token of the text.
pub(crate) fn token_role(text: &[u8], token: Token) -> Role
    requires order { token.from < token.to }
    requires inside { token.to ≤ length text.now }
    ensures { result ≡ token_role text.now token }
{
    let bytes = &text[token.from as usize..token.to as usize];
    match token.kind {
        TokenKind::Word => word_role(read_as(bytes)),
        TokenKind::Number | TokenKind::Letter | TokenKind::Quoted => Role::Other,
        TokenKind::Mark => mark_role(bytes),
    }
}

/// How many brackets are open behind a token of the text, where `depth` are open before it. Of a word no byte is looked at.
#[tactic(auto, using(crate::proofs::Words::word_keeps))]
pub(crate) fn depth_behind(text: &[u8], token: Token, depth: u32) -> u32
    requires order { token.from < token.to }
    requires inside { token.to ≤ length text.now }
    requires few { depth ≤ most_bytes }
    ensures { result ≡ depth_after depth (token_role text.now token) }
{
    match token.kind {
        TokenKind::Mark => depth_after(
            depth,
            mark_role(&text[token.from as usize..token.to as usize]),
        ),
        TokenKind::Word | TokenKind::Number | TokenKind::Letter | TokenKind::Quoted => depth,
    }
}

/// The word of a token with these bytes, as it is read; none for a token of another kind.
#[tactic(auto, unfolding(ctokens::specs::TokenSymbols::word_of))]
fn word_of(kind: TokenKind, bytes: &[u8]) -> &[u8]
    ensures { result.now ≡ word_of kind bytes.now }
{
    match kind {
        TokenKind::Word => read_as(bytes),
        TokenKind::Number | TokenKind::Letter | TokenKind::Quoted | TokenKind::Mark => &[],
    }
}

/// The word of a token of the text, as it is read; none for a token of another kind.
pub(crate) fn sign_word(text: &[u8], sign: Sign) -> &[u8]
    requires { HasSignBytes text.now sign }
    ensures { result.now ≡ sign_word text.now sign }
{
    word_of(sign.kind, &text[sign.from as usize..sign.to as usize])
}
