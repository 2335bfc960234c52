//! The words of at most eight bytes that have a symbol of their own, by their length, so that a short word is compared with
//! few others.
ghost use Rattle.std.specs.Prelude.{◌≡◌};
ghost use Rattle.ctokens.specs.SymbolTables.{symbol_in};
ghost use Rattle.ctokens.specs.WordLengths.{of_length, word_rows};
ghost use Rattle.ctokens.specs.declared.symbol.Symbol.TheVariants.{Name};

use crate::symbol::Symbol;
use crate::symbol_of::symbol_in;

/// The words of two bytes that have a symbol of their own.
const OF_TWO: [(&'static str, Symbol); 2] = [("do", Symbol::Keyword), ("if", Symbol::Keyword)];

/// Those of three bytes.
const OF_THREE: [(&'static str, Symbol); 3] = [
    ("for", Symbol::Keyword),
    ("int", Symbol::Keyword),
    ("asm", Symbol::Assembly),
];

/// Those of four bytes.
const OF_FOUR: [(&'static str, Symbol); 11] = [
    ("auto", Symbol::PassedOver),
    ("case", Symbol::Keyword),
    ("char", Symbol::Keyword),
    ("else", Symbol::Keyword),
    ("enum", Symbol::Enumeration),
    ("goto", Symbol::Keyword),
    ("long", Symbol::Keyword),
    ("void", Symbol::Keyword),
    ("main", Symbol::Main),
    ("free", Symbol::BuiltIn),
    ("exit", Symbol::BuiltIn),
];

/// Those of five bytes.
const OF_FIVE: [(&'static str, Symbol); 9] = [
    ("const", Symbol::PassedOver),
    ("break", Symbol::Keyword),
    ("float", Symbol::Keyword),
    ("short", Symbol::Keyword),
    ("union", Symbol::Structure),
    ("while", Symbol::Keyword),
    ("_Bool", Symbol::Keyword),
    ("__asm", Symbol::Assembly),
    ("abort", Symbol::BuiltIn),
];

/// Those of six bytes.
const OF_SIX: [(&'static str, Symbol); 14] = [
    ("inline", Symbol::PassedOver),
    ("double", Symbol::Keyword),
    ("extern", Symbol::Keyword),
    ("return", Symbol::Keyword),
    ("signed", Symbol::Keyword),
    ("sizeof", Symbol::Keyword),
    ("static", Symbol::Keyword),
    ("struct", Symbol::Structure),
    ("switch", Symbol::Keyword),
    ("typeof", Symbol::Keyword),
    ("malloc", Symbol::BuiltIn),
    ("calloc", Symbol::BuiltIn),
    ("memset", Symbol::BuiltIn),
    ("memcpy", Symbol::BuiltIn),
];

/// Those of seven bytes.
const OF_SEVEN: [(&'static str, Symbol); 6] = [
    ("__const", Symbol::PassedOver),
    ("default", Symbol::Keyword),
    ("typedef", Symbol::Keyword),
    ("_Atomic", Symbol::Keyword),
    ("__asm__", Symbol::Assembly),
    ("memmove", Symbol::BuiltIn),
];

/// Those of eight bytes.
const OF_EIGHT: [(&'static str, Symbol); 10] = [
    ("volatile", Symbol::PassedOver),
    ("restrict", Symbol::PassedOver),
    ("__inline", Symbol::PassedOver),
    ("register", Symbol::PassedOver),
    ("continue", Symbol::Keyword),
    ("unsigned", Symbol::Keyword),
    ("_Alignas", Symbol::Keyword),
    ("_Alignof", Symbol::Keyword),
    ("_Complex", Symbol::Keyword),
    ("_Generic", Symbol::Keyword),
];

/// The symbol of a word, among those of two bytes.
pub(crate) fn symbol_of_two(bytes: &[u8]) -> Symbol
    ensures { result ≡ symbol_in (of_length 2 word_rows) Name bytes.now }
{
    symbol_in(OF_TWO.as_slice(), Symbol::Name, bytes)
}

/// The symbol of a word, among those of three bytes.
pub(crate) fn symbol_of_three(bytes: &[u8]) -> Symbol
    ensures { result ≡ symbol_in (of_length 3 word_rows) Name bytes.now }
{
    symbol_in(OF_THREE.as_slice(), Symbol::Name, bytes)
}

/// The symbol of a word, among those of four bytes.
pub(crate) fn symbol_of_four(bytes: &[u8]) -> Symbol
    ensures { result ≡ symbol_in (of_length 4 word_rows) Name bytes.now }
{
    symbol_in(OF_FOUR.as_slice(), Symbol::Name, bytes)
}

/// The symbol of a word, among those of five bytes.
pub(crate) fn symbol_of_five(bytes: &[u8]) -> Symbol
    ensures { result ≡ symbol_in (of_length 5 word_rows) Name bytes.now }
{
    symbol_in(OF_FIVE.as_slice(), Symbol::Name, bytes)
}

/// The symbol of a word, among those of six bytes.
pub(crate) fn symbol_of_six(bytes: &[u8]) -> Symbol
    ensures { result ≡ symbol_in (of_length 6 word_rows) Name bytes.now }
{
    symbol_in(OF_SIX.as_slice(), Symbol::Name, bytes)
}

/// The symbol of a word, among those of seven bytes.
pub(crate) fn symbol_of_seven(bytes: &[u8]) -> Symbol
    ensures { result ≡ symbol_in (of_length 7 word_rows) Name bytes.now }
{
    symbol_in(OF_SEVEN.as_slice(), Symbol::Name, bytes)
}

/// The symbol of a word, among those of eight bytes.
pub(crate) fn symbol_of_eight(bytes: &[u8]) -> Symbol
    ensures { result ≡ symbol_in (of_length 8 word_rows) Name bytes.now }
{
    symbol_in(OF_EIGHT.as_slice(), Symbol::Name, bytes)
}
