//! Numbers for words, so that names are compared as numbers.

ghost use Rattle.std.specs.Prelude.{◌≡◌, length, IfOk};
ghost use Rattle.ctokens.specs.Numbering.{IsNumbering, blank_behind, known};
ghost use Rattle.ctokens.specs.InText.{LieInText};
ghost use Rattle.ctokens.specs.ItemRows.{symbols_in, words_in};
ghost use Rattle.ctokens.specs.TokenSymbols.{words};

use crate::symbol::{Lexeme, Symbol};
use crate::symbol_of::token_word;
use crate::token::Tokens;
use cbase::NoMemory;
use indexmap::IndexSet;
use std::alloc::Global;

/// The tokens of a text with numbers for their words: equal words have equal numbers, other words other ones.
#[derive(Drop)]
pub(crate) struct TextRow {
    /// The tokens, in order.
    pub(crate) tokens: Vec<Lexeme<u32>>,
    /// How many words there are that differ; each number is below it.
    pub(crate) count: u32,
}

/// The number of a word where it is the empty one and that has a number.
fn known(blank: Option<u32>, word: &[u8]) -> Option<u32>
    ensures { result ≡ known blank word.now }
{
    if word.is_empty() { blank } else { None }
}

/// The number of the empty word, if it has one, where a word has this number.
fn blank_behind(blank: Option<u32>, word: &[u8], number: u32) -> Option<u32>
    ensures { result ≡ blank_behind blank word.now number }
{
    if word.is_empty() { Some(number) } else { blank }
}

/// The tokens of a text, of which it is known what they are, with numbers for their words: from 0 on in the order in which
/// the words first stand.
///
/// Each word is hashed once. What is no word has the empty word, which is hashed where it first stands.
pub(crate) fn number_words(alloc: Global, t: &Tokens, read: &[Symbol]) -> Result<TextRow, NoMemory>
    requires text { LieInText t.now }
    requires each { length read.now ≡ length t.now.list }
    ensures numbers { IfOk result (λ row. IsNumbering (words t.now) (words_in row.tokens.items) row.count) }
    ensures symbols { IfOk result (λ row. symbols_in row.tokens.items ≡ read.now) }
{
    let text = t.text.as_slice();
    let list = t.list.as_slice();
    let mut names = IndexSet::new(alloc);
    let mut tokens = Vec::with_capacity(alloc, list.len())?;
    let mut blank: Option<u32> = None;
    for (i, token) in list.iter().enumerate() {
        let symbol = read[i];
        let bytes = token_word(text, *token);
        if let Some(word) = known(blank, bytes) {
            tokens.push_reserved(Lexeme { symbol, word });
            continue;
        }
        let found = names.insert_full(bytes)?;
        let word = found.0 as u32;
        blank = blank_behind(blank, bytes, word);
        tokens.push_reserved(Lexeme { symbol, word });
    }
    Ok(TextRow {
        tokens,
        count: names.len() as u32,
    })
}
