//! The words that spell parts: a name, `=`, and its fields with `:` between them.

/// What a word is of.
#[derive(Clone, Copy)]
pub enum Name {
    /// `object=KEY:SIZE:KIND:LIFE`: an object. The words `class` and `edge` behind it are of it.
    Object,
    /// `class=COUNT:CLASS`: the next bytes have this class.
    Class,
    /// `edge=AT:SIZE:VALUE`.
    Edge,
    /// `const=KEY:NUMBER:SIZE`.
    Const,
    /// `number=KEY:SIZE`.
    Number,
    /// `any=KEY`.
    Any,
    /// `address=KEY:OBJECT:OFFSET`, of a region.
    Address,
    /// `first=KEY:OBJECT:OFFSET`, of the first node of a segment.
    First,
    /// `last=KEY:OBJECT:OFFSET`, of the last node of a segment.
    Last,
    /// `each=KEY:OBJECT:OFFSET`, of each node itself.
    Each,
    /// `singly=HEAD:NEXT:PREV:BACK:LEAST:NEXTVALUE:PREVVALUE`: the object before is a segment with such links, and the words `class` and
    /// `edge` behind this are of its node.
    Singly,
    /// `twofold=HEAD:NEXT:PREV:BACK:LEAST:NEXTVALUE:PREVVALUE`: so it is, and its nodes are linked both ways.
    Twofold,
    /// `variable=VARIABLE:OBJECT`.
    Variable,
    /// `register=REGISTER:VALUE`.
    Register,
    /// `port=VALUE`.
    Port,
    /// `unequal=LEFT:RIGHT`.
    Unequal,
}

/// A word.
#[derive(Clone, Copy)]
pub struct Word {
    pub name: Name,
    /// Its fields, and zeros behind them.
    pub fields: [i128; 7],
}

/// The names of words.
const NAMES: [&'static str; 16] = [
    "object", "class", "edge", "const", "number", "any", "address", "variable", "register", "port",
    "first", "last", "each", "singly", "twofold", "unequal",
];

/// Fields that are no numbers. Each stands for its place here.
const FIELDS: [&'static str; 5] = ["static", "local", "heap", "dead", "live"];

/// What a word says, if it is one.
pub fn word_of(text: &str) -> Option<Word> {
    let (name, rest) = text.split_once('=')?;
    let name = name_at(place_of(&NAMES, name)?);
    let mut fields = [0; 7];
    let mut count: usize = 0;
    for field in rest.split(':') {
        if count >= 7 {
            return None;
        }
        fields[count] = field_of(field)?;
        count += 1;
    }
    if count == fields_of(name) {
        Some(Word { name, fields })
    } else {
        None
    }
}

/// Where a text stands among others.
fn place_of(texts: &[&'static str], text: &str) -> Option<usize> {
    let mut place: usize = 0;
    for other in texts {
        if *other == text {
            return Some(place);
        }
        place = place.wrapping_add(1);
    }
    None
}

/// The name at a place of `NAMES`.
fn name_at(place: usize) -> Name {
    match place {
        0 => Name::Object,
        1 => Name::Class,
        2 => Name::Edge,
        3 => Name::Const,
        4 => Name::Number,
        5 => Name::Any,
        6 => Name::Address,
        7 => Name::Variable,
        8 => Name::Register,
        9 => Name::Port,
        10 => Name::First,
        11 => Name::Last,
        12 => Name::Each,
        13 => Name::Singly,
        14 => Name::Twofold,
        _ => Name::Unequal,
    }
}

/// How many fields a word has.
fn fields_of(name: Name) -> usize {
    match name {
        Name::Any | Name::Port => 1,
        Name::Class | Name::Number | Name::Variable | Name::Register | Name::Unequal => 2,
        Name::Edge | Name::Const | Name::Address | Name::First | Name::Last | Name::Each => 3,
        Name::Object => 4,
        Name::Singly | Name::Twofold => 7,
    }
}

/// The number that a field stands for.
fn field_of(text: &str) -> Option<i128> {
    match place_of(&FIELDS, text) {
        Some(place) => Some(place as i128),
        None => text.parse::<i128>().ok(),
    }
}

/// A field as a number of 32 bits, the greatest where it is none.
pub fn number(field: i128) -> u32 {
    u32::try_from(field).unwrap_or(u32::MAX)
}

/// A field as a number of 8 bits, the greatest where it is none.
pub fn small(field: i128) -> u8 {
    u8::try_from(field).unwrap_or(u8::MAX)
}

/// A field as a number of 64 bits, the greatest where it is none.
pub fn large(field: i128) -> u64 {
    u64::try_from(field).unwrap_or(u64::MAX)
}

/// A field as an offset, the greatest where it is none.
pub fn offset(field: i128) -> i64 {
    i64::try_from(field).unwrap_or(i64::MAX)
}
