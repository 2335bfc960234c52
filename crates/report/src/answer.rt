use crate::limits::Limits;
use crate::warning::Warning;
use cbase::{List, Place, Text};

/// Why a text is not read.
#[derive(Clone, Copy, Debug, PartialEq, Eq)]
pub enum Why {
    /// At a place of the text begins nothing that it may hold: no token, blank, comment or known directive line
    /// (C11 5.1.1.2, 6.4, 6.10).
    Lexical {
        /// The first such place.
        place: Place,
    },
    /// A bracket opens at depth 257, itself counted, the three kinds of brackets counted together.
    Deep {
        /// That of the first such bracket.
        place: Place,
    },
    /// No item defines main (C11 5.1.2.2.1).
    NoMain,
    /// An item that main needs is spelled by the grammar by no tree of at most 1,024 levels, and has no construct that
    /// is given up.
    Syntax {
        /// That of the first token of the item.
        place: Place,
    },
    /// An item that main needs is read, and a rule of C on types, declarations or statements is broken in it
    /// (C11 6.5 to 6.9).
    Rule {
        /// The number of the rule, from 1; docs/language.md tells each.
        number: u8,
        /// That of the token where it is broken.
        place: Place,
    },
}

/// What the program answers.
#[derive(Drop)]
pub enum Answer {
    /// No run of the program meets a fault.
    Safe,
    /// The analysis tells of faults that runs meet or may meet.
    Warned {
        /// One for each token and kind, ordered by token number, then kind.
        warnings: List<Warning>,
        /// Whether all was followed; else the budget of states was spent before.
        complete: bool,
    },
    /// The analysis kept as many states as the budget allows, and there are more. It told of no fault.
    Spent,
    /// A state of the analysis is too large.
    Large,
    /// The file holds no program that can be read.
    NotRead {
        /// What is wrong with it.
        why: Why,
    },
    /// An item that main needs changes a layout, is not read and has a construct of C that is given up, or is read and its
    /// types show one.
    Construct {
        /// The number of the construct, from 1, goto, to 21, bit-field; each has a printed name.
        number: u8,
        /// That of the token that shows the construct.
        place: Place,
    },
    /// The program calls a function that it defines.
    NotYet {
        /// That of the token at which the first such call stands.
        place: Place,
    },
    /// The file has more bytes than are read.
    TooLong {
        /// How many bytes of it were taken.
        taken: u32,
    },
    /// The words are not of the form that the usage line tells.
    Usage,
    /// The file could not be opened or read.
    ReadFault,
    /// More memory was wanted than there is.
    OutOfMemory,
}

/// An answer with the file that it is about, the names that places refer to, and the limits.
///
/// `Usage` and `OutOfMemory` are about no file: the name is empty and the limits are the default ones. With them, with
/// `ReadFault` and with `TooLong` no text was read to its end, and there are no names of files.
#[derive(Drop)]
pub struct Shown {
    /// The bytes of the file's name, as the words give it; none with `Usage` and `OutOfMemory`.
    pub file: Text,
    /// The names of the text's files, to which places refer by number from 0. With `Why::Lexical` they are those up to
    /// its place; with `TooLong`, `Usage`, `ReadFault` and `OutOfMemory` there are none.
    pub names: List<Text>,
    /// The limits that the words give; the default ones with `Usage` and `OutOfMemory`.
    pub limits: Limits,
    /// What is answered. Each place in it refers to one of `names`.
    pub answer: Answer,
}
