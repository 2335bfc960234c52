ghost use Rattle.std.specs.Prelude.{◌≡◌, ◌<◌, ◌≤◌, ◌∷◌, [], length, map};
ghost use Rattle.ctokens.specs.Symbol.{is_identifier};
ghost use Rattle.ctokens.specs.TokenSymbols.{token_symbol, token_word, word_of};
ghost use Rattle.ctokens.specs.SymbolTables.{keyword_symbol, mark_symbol, name_symbol, passed_symbol, read_as, symbol_in, symbol_of, word_symbol};
ghost use Rattle.ctokens.specs.SymbolRows.{row_read};

use crate::comparing::same_bytes;
use crate::short_words::{
    symbol_of_eight, symbol_of_five, symbol_of_four, symbol_of_seven, symbol_of_six,
    symbol_of_three, symbol_of_two,
};
use crate::symbol::Symbol;
use crate::token::{Token, TokenKind};

/// The words that are passed over, and those that an attribute follows.
const PASSED: [(&'static str, Symbol); 18] = [
    ("const", Symbol::PassedOver),
    ("__const", Symbol::PassedOver),
    ("__const__", Symbol::PassedOver),
    ("volatile", Symbol::PassedOver),
    ("__volatile", Symbol::PassedOver),
    ("__volatile__", Symbol::PassedOver),
    ("restrict", Symbol::PassedOver),
    ("__restrict", Symbol::PassedOver),
    ("__restrict__", Symbol::PassedOver),
    ("inline", Symbol::PassedOver),
    ("__inline", Symbol::PassedOver),
    ("__inline__", Symbol::PassedOver),
    ("_Noreturn", Symbol::PassedOver),
    ("register", Symbol::PassedOver),
    ("auto", Symbol::PassedOver),
    ("__extension__", Symbol::PassedOver),
    ("__attribute__", Symbol::Attribute),
    ("__attribute", Symbol::Attribute),
];

/// The other keywords.
const KEYWORDS: [(&'static str, Symbol); 43] = [
    ("break", Symbol::Keyword),
    ("case", Symbol::Keyword),
    ("char", Symbol::Keyword),
    ("continue", Symbol::Keyword),
    ("default", Symbol::Keyword),
    ("do", Symbol::Keyword),
    ("double", Symbol::Keyword),
    ("else", Symbol::Keyword),
    ("enum", Symbol::Enumeration),
    ("extern", Symbol::Keyword),
    ("float", Symbol::Keyword),
    ("for", Symbol::Keyword),
    ("goto", Symbol::Keyword),
    ("if", Symbol::Keyword),
    ("int", Symbol::Keyword),
    ("long", Symbol::Keyword),
    ("return", Symbol::Keyword),
    ("short", Symbol::Keyword),
    ("signed", Symbol::Keyword),
    ("sizeof", Symbol::Keyword),
    ("static", Symbol::Keyword),
    ("struct", Symbol::Structure),
    ("switch", Symbol::Keyword),
    ("typedef", Symbol::Keyword),
    ("union", Symbol::Structure),
    ("unsigned", Symbol::Keyword),
    ("void", Symbol::Keyword),
    ("while", Symbol::Keyword),
    ("_Alignas", Symbol::Keyword),
    ("_Alignof", Symbol::Keyword),
    ("_Atomic", Symbol::Keyword),
    ("_Bool", Symbol::Keyword),
    ("_Complex", Symbol::Keyword),
    ("_Generic", Symbol::Keyword),
    ("_Imaginary", Symbol::Keyword),
    ("_Static_assert", Symbol::Keyword),
    ("_Thread_local", Symbol::Keyword),
    ("typeof", Symbol::Keyword),
    ("__builtin_offsetof", Symbol::Keyword),
    ("__assert_fail", Symbol::AssertFail),
    ("asm", Symbol::Assembly),
    ("__asm", Symbol::Assembly),
    ("__asm__", Symbol::Assembly),
];

/// The names of built-in functions that are no keywords, and main.
const NAMES: [(&'static str, Symbol); 22] = [
    ("main", Symbol::Main),
    ("malloc", Symbol::BuiltIn),
    ("calloc", Symbol::BuiltIn),
    ("free", Symbol::BuiltIn),
    ("memset", Symbol::BuiltIn),
    ("memcpy", Symbol::BuiltIn),
    ("memmove", Symbol::BuiltIn),
    ("abort", Symbol::BuiltIn),
    ("exit", Symbol::BuiltIn),
    ("__VERIFIER_error", Symbol::BuiltIn),
    ("reach_error", Symbol::BuiltIn),
    ("__VERIFIER_assume", Symbol::BuiltIn),
    ("__builtin_expect", Symbol::BuiltIn),
    ("__VERIFIER_nondet_int", Symbol::BuiltIn),
    ("__VERIFIER_nondet_uint", Symbol::BuiltIn),
    ("__VERIFIER_nondet_long", Symbol::BuiltIn),
    ("__VERIFIER_nondet_ulong", Symbol::BuiltIn),
    ("__VERIFIER_nondet_char", Symbol::BuiltIn),
    ("__VERIFIER_nondet_uchar", Symbol::BuiltIn),
    ("__VERIFIER_nondet_short", Symbol::BuiltIn),
    ("__VERIFIER_nondet_ushort", Symbol::BuiltIn),
    ("__VERIFIER_nondet_bool", Symbol::BuiltIn),
];

/// The marks that matter to items.
const MARKS: [(&'static str, Symbol); 12] = [
    ("(", Symbol::LeftParenthesis),
    (")", Symbol::RightParenthesis),
    ("[", Symbol::LeftBracket),
    ("]", Symbol::RightBracket),
    ("{", Symbol::LeftBrace),
    ("}", Symbol::RightBrace),
    (";", Symbol::Semicolon),
    (",", Symbol::Comma),
    ("=", Symbol::Equals),
    ("*", Symbol::Star),
    (".", Symbol::Selector),
    ("->", Symbol::Selector),
];

/// The symbol of the row that has these bytes, or `otherwise` where there is no such row.
pub(crate) fn symbol_in(rows: &[(&str, Symbol)], otherwise: Symbol, bytes: &[u8]) -> Symbol
    ensures { result ≡ symbol_in (map row_read rows.now) otherwise bytes.now }
{
    for row in rows {
        if same_bytes(row.0.as_bytes(), bytes) {
            return row.1;
        }
    }
    otherwise
}

/// A word as C spells it: `__signed__` is read as `signed`, `__typeof__` and `__typeof` as `typeof`. None of these has fewer
/// than eight bytes.
#[tactic(auto)]
pub fn read_as(bytes: &[u8]) -> &[u8]
    ensures { result.now ≡ read_as bytes.now }
{
    if bytes.len() < 8 {
        return bytes;
    }
    long_read_as(bytes)
}

/// The same, where the word is long.
#[tactic(auto, unfolding(crate::specs::SymbolTables::read_as))]
fn long_read_as(bytes: &[u8]) -> &[u8]
    ensures { result.now ≡ read_as bytes.now }
{
    if same_bytes(bytes, b"__signed__") {
        return b"signed";
    }
    if same_bytes(bytes, b"__typeof__") {
        return b"typeof";
    }
    if same_bytes(bytes, b"__typeof") {
        return b"typeof";
    }
    bytes
}

/// The symbol of a word that is a keyword or passed over in no row.
#[tactic(auto, unfolding(crate::specs::SymbolTables::name_symbol))]
fn name_symbol(bytes: &[u8]) -> Symbol
    ensures { result ≡ name_symbol bytes.now }
{
    symbol_in(NAMES.as_slice(), Symbol::Name, bytes)
}

/// The symbol of a keyword, or `otherwise` where the word is none.
#[tactic(auto, unfolding(crate::specs::SymbolTables::keyword_symbol))]
fn keyword_symbol(otherwise: Symbol, bytes: &[u8]) -> Symbol
    ensures { result ≡ keyword_symbol otherwise bytes.now }
{
    symbol_in(KEYWORDS.as_slice(), otherwise, bytes)
}

/// The symbol of a word that is passed over or begins an attribute, or `otherwise` where the word does neither.
#[tactic(auto, unfolding(crate::specs::SymbolTables::passed_symbol))]
fn passed_symbol(otherwise: Symbol, bytes: &[u8]) -> Symbol
    ensures { result ≡ passed_symbol otherwise bytes.now }
{
    symbol_in(PASSED.as_slice(), otherwise, bytes)
}

/// The symbol of a mark of one byte.
#[tactic(auto, unfolding(crate::specs::SymbolTables::mark_symbol))]
fn byte_symbol(byte: u8) -> Symbol
    ensures { result ≡ mark_symbol (byte ∷ []) }
{
    match byte {
        b'(' => Symbol::LeftParenthesis,
        b')' => Symbol::RightParenthesis,
        b'[' => Symbol::LeftBracket,
        b']' => Symbol::RightBracket,
        b'{' => Symbol::LeftBrace,
        b'}' => Symbol::RightBrace,
        b';' => Symbol::Semicolon,
        b',' => Symbol::Comma,
        b'=' => Symbol::Equals,
        b'*' => Symbol::Star,
        b'.' => Symbol::Selector,
        _ => Symbol::Other,
    }
}

/// The symbol of a mark. Most marks have one byte, and are looked for in no table.
#[tactic(auto, unfolding(crate::specs::SymbolTables::mark_symbol))]
fn mark_symbol(bytes: &[u8]) -> Symbol
    ensures { result ≡ mark_symbol bytes.now }
{
    match bytes {
        [byte] => byte_symbol(*byte),
        _ => symbol_in(MARKS.as_slice(), Symbol::Other, bytes),
    }
}

/// The symbol of a word. A short one is looked for only among those of its length.
fn word_symbol(bytes: &[u8]) -> Symbol
    ensures { result ≡ word_symbol bytes.now }
{
    match bytes.len() {
        1 => Symbol::Name,
        2 => symbol_of_two(bytes),
        3 => symbol_of_three(bytes),
        4 => symbol_of_four(bytes),
        5 => symbol_of_five(bytes),
        6 => symbol_of_six(bytes),
        7 => symbol_of_seven(bytes),
        8 => symbol_of_eight(bytes),
        _ => passed_symbol(keyword_symbol(name_symbol(bytes), bytes), bytes),
    }
}

/// Whether a word, as it is read, is an identifier and no keyword (C11 6.4.1, 6.4.2). `main` and the names of built-in
/// functions are identifiers.
pub fn is_identifier(word: &[u8]) -> bool
    ensures { result ≡ is_identifier (word_symbol word.now) }
{
    word_symbol(word).is_identifier()
}

/// The symbol of a token with these bytes.
#[tactic(auto, unfolding(crate::specs::SymbolTables::symbol_of))]
fn symbol_of(kind: TokenKind, bytes: &[u8]) -> Symbol
    ensures { result ≡ symbol_of kind bytes.now }
{
    match kind {
        TokenKind::Word => word_symbol(read_as(bytes)),
        TokenKind::Number | TokenKind::Letter | TokenKind::Quoted => Symbol::Other,
        TokenKind::Mark => mark_symbol(bytes),
    }
}

/// What a token of the text is to items.
pub(crate) fn token_symbol(text: &[u8], token: Token) -> Symbol
    requires order { token.from < token.to }
    requires inside { token.to ≤ length text.now }
    ensures { result ≡ token_symbol text.now token }
{
    symbol_of(token.kind, &text[token.from as usize..token.to as usize])
}

/// The word of a token with these bytes, as it is read; none for a token of another kind.
#[tactic(auto, unfolding(crate::specs::TokenSymbols::word_of))]
fn word_of(kind: TokenKind, bytes: &[u8]) -> &[u8]
    ensures { result.now ≡ word_of kind bytes.now }
{
    match kind {
        TokenKind::Word => read_as(bytes),
        TokenKind::Number | TokenKind::Letter | TokenKind::Quoted | TokenKind::Mark => &[],
    }
}

/// The word of a token of the text, as it is read; none for a token of another kind.
pub(crate) fn token_word(text: &[u8], token: Token) -> &[u8]
    requires order { token.from < token.to }
    requires inside { token.to ≤ length text.now }
    ensures { result.now ≡ token_word text.now token }
{
    word_of(token.kind, &text[token.from as usize..token.to as usize])
}
