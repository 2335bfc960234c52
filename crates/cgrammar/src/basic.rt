ghost use Rattle.std.specs.Prelude.{◌≡◌, ◌≤◌, map};
ghost use Rattle.cgrammar.specs.TypeWords.{basic_of, basic_rows, are_same, times};
ghost use Rattle.cgrammar.specs.CodeTables.{text_read, basic_read};

use cbase::{BasicType, Rank};

/// Each type with the words of one way to spell it.
const BASIC: [(&'static [&'static str], BasicType); 28] = [
    (&["void"], BasicType::Void),
    (&["_Bool"], BasicType::Bool),
    (
        &["char"],
        BasicType::Integer {
            rank: Rank::Char,
            signed: true,
        },
    ),
    (
        &["signed", "char"],
        BasicType::Integer {
            rank: Rank::Char,
            signed: true,
        },
    ),
    (
        &["unsigned", "char"],
        BasicType::Integer {
            rank: Rank::Char,
            signed: false,
        },
    ),
    (
        &["short"],
        BasicType::Integer {
            rank: Rank::Short,
            signed: true,
        },
    ),
    (
        &["signed", "short"],
        BasicType::Integer {
            rank: Rank::Short,
            signed: true,
        },
    ),
    (
        &["short", "int"],
        BasicType::Integer {
            rank: Rank::Short,
            signed: true,
        },
    ),
    (
        &["signed", "short", "int"],
        BasicType::Integer {
            rank: Rank::Short,
            signed: true,
        },
    ),
    (
        &["unsigned", "short"],
        BasicType::Integer {
            rank: Rank::Short,
            signed: false,
        },
    ),
    (
        &["unsigned", "short", "int"],
        BasicType::Integer {
            rank: Rank::Short,
            signed: false,
        },
    ),
    (
        &["int"],
        BasicType::Integer {
            rank: Rank::Int,
            signed: true,
        },
    ),
    (
        &["signed"],
        BasicType::Integer {
            rank: Rank::Int,
            signed: true,
        },
    ),
    (
        &["signed", "int"],
        BasicType::Integer {
            rank: Rank::Int,
            signed: true,
        },
    ),
    (
        &["unsigned"],
        BasicType::Integer {
            rank: Rank::Int,
            signed: false,
        },
    ),
    (
        &["unsigned", "int"],
        BasicType::Integer {
            rank: Rank::Int,
            signed: false,
        },
    ),
    (
        &["long"],
        BasicType::Integer {
            rank: Rank::Long,
            signed: true,
        },
    ),
    (
        &["signed", "long"],
        BasicType::Integer {
            rank: Rank::Long,
            signed: true,
        },
    ),
    (
        &["long", "int"],
        BasicType::Integer {
            rank: Rank::Long,
            signed: true,
        },
    ),
    (
        &["signed", "long", "int"],
        BasicType::Integer {
            rank: Rank::Long,
            signed: true,
        },
    ),
    (
        &["unsigned", "long"],
        BasicType::Integer {
            rank: Rank::Long,
            signed: false,
        },
    ),
    (
        &["unsigned", "long", "int"],
        BasicType::Integer {
            rank: Rank::Long,
            signed: false,
        },
    ),
    (
        &["long", "long"],
        BasicType::Integer {
            rank: Rank::LongLong,
            signed: true,
        },
    ),
    (
        &["signed", "long", "long"],
        BasicType::Integer {
            rank: Rank::LongLong,
            signed: true,
        },
    ),
    (
        &["long", "long", "int"],
        BasicType::Integer {
            rank: Rank::LongLong,
            signed: true,
        },
    ),
    (
        &["signed", "long", "long", "int"],
        BasicType::Integer {
            rank: Rank::LongLong,
            signed: true,
        },
    ),
    (
        &["unsigned", "long", "long"],
        BasicType::Integer {
            rank: Rank::LongLong,
            signed: false,
        },
    ),
    (
        &["unsigned", "long", "long", "int"],
        BasicType::Integer {
            rank: Rank::LongLong,
            signed: false,
        },
    ),
];

/// The type that words spell, in whatever order they stand (C11 6.7.2); `None` where they spell none.
pub fn basic_type(words: &[&[u8]]) -> Option<BasicType>
    ensures { result ≡ basic_of basic_rows (map text_read words.now) }
{
    basic_in(BASIC.as_slice(), words)
}

/// The type of the first row that has the words.
fn basic_in(rows: &[(&[&str], BasicType)], words: &[&[u8]]) -> Option<BasicType>
    ensures { result ≡ basic_of (map basic_read rows.now) (map text_read words.now) }
{
    for row in rows {
        if are_same(words, row.0) {
            return Some(row.1);
        }
    }
    None
}

/// Whether the words are the others, in some order.
fn are_same(words: &[&[u8]], others: &[&str]) -> bool
    ensures { result ≡ are_same (map text_read words.now) (map text_read others.now) }
{
    if words.len() != others.len() {
        return false;
    }
    for word in words {
        if times_among(words, word) != times_in(others, word) {
            return false;
        }
    }
    true
}

/// How often a word stands among words.
fn times_among(words: &[&[u8]], word: &[u8]) -> usize
    ensures { result ≡ times word.now (map text_read words.now) }
{
    let mut count: usize = 0;
    for other in words {
        if word == *other {
            count += 1;
        }
    }
    count
}

/// How often a word stands among texts.
fn times_in(texts: &[&str], word: &[u8]) -> usize
    ensures { result ≡ times word.now (map text_read texts.now) }
{
    let mut count: usize = 0;
    for text in texts {
        if word == text.as_bytes() {
            count += 1;
        }
    }
    count
}
