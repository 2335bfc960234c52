ghost use Rattle.std.specs.Prelude.{◌≡◌, ◌≤◌, ◌↔◌, ℕ, Some, IfOk, length, map, take};
ghost use Rattle.std.specs.List.{prefix_len};
ghost use Rattle.cbase.specs.declared.tree.spec.BasicType.{BasicType};
ghost use Rattle.cgrammar.specs.CodeTables.{text_read};
ghost use Rattle.cgrammar.specs.FrontReadings.{is_basic_word};
ghost use Rattle.cgrammar.specs.Terminals.{bytes_of};
ghost use Rattle.cgrammar.specs.TypeWords.{IsBasic, basic_of, basic_rows};

use crate::basic::basic_type;
use crate::terminal::Terminal;
use crate::texts::is_one_of;
use cbase::{BasicType, NoMemory};
use std::alloc::Global;

/// The keywords that basic types are spelled by.
const WORDS: [&'static str; 8] = [
    "void", "_Bool", "char", "signed", "unsigned", "short", "int", "long",
];

/// Words of basic types, and the type that they spell together, if they spell one.
#[derive(Clone, Copy)]
pub struct BasicWords {
    /// How many words there are.
    pub count: usize,
    /// The type that all of them spell together; `None` where they spell none.
    pub basic: Option<BasicType>,
}

/// The longest row of words of basic types at the front of the row, with the type that they spell (C11 6.7.2). Each
/// basic type that is spelled at the front of the row lies in these words.
pub fn read_basic_words(alloc: Global, row: &[Terminal<'_>]) -> Result<BasicWords, NoMemory>
    ensures words { IfOk result (λ read. read.count ≡ prefix_len is_basic_word row.now) }
    ensures inside { IfOk result (λ read. read.count ≤ length row.now) }
    ensures same { IfOk result (λ read. read.basic ≡ basic_of basic_rows (map bytes_of (take read.count row.now))) }
    ensures spelled { IfOk result (λ read. (type : BasicType) → (read.basic ≡ Some type) ↔ IsBasic (take read.count row.now) type) }
    ensures longest { IfOk result (λ read. (count : ℕ) (type : BasicType) → count ≤ length row.now → IsBasic (take count row.now) type → count ≤ read.count) }
{
    let count = basic_length(row);
    let words = bytes_of(alloc, &row[..count])?;
    Ok(BasicWords {
        count,
        basic: basic_type(words.as_slice()),
    })
}

/// How many tokens stand before the first that is no word of a basic type.
fn basic_length(row: &[Terminal<'_>]) -> usize
    ensures count { result ≡ prefix_len is_basic_word row.now }
    ensures inside { result ≤ length row.now }
{
    let mut count: usize = 0;
    for token in row {
        if !is_basic_word(token) {
            return count;
        }
        count += 1;
    }
    count
}

/// Whether the token is a word of a basic type.
pub fn is_basic_word(token: &Terminal<'_>) -> bool
    ensures { result ≡ is_basic_word token.now }
{
    token.is_any_word() && is_one_of(WORDS.as_slice(), token.bytes())
}

/// The bytes of the tokens, in order.
fn bytes_of<'a>(alloc: Global, row: &[Terminal<'a>]) -> Result<Vec<&'a [u8]>, NoMemory>
    ensures { IfOk result (λ all. map text_read all.items ≡ map bytes_of row.now) }
{
    let mut all = Vec::with_capacity(alloc, row.len())?;
    for token in row {
        all.push(token.bytes())?;
    }
    Ok(all)
}
