use crate::answer::Why;
use cbase::{List, Place, Text};

/// What a run with given choices comes to within a number of steps.
#[derive(Clone, Copy, Debug, PartialEq, Eq)]
pub enum Replayed {
    /// A fault, which ends the run.
    Fault {
        /// Its kind, from 1, a null pointer dereference, to 9, a block never freed; each has a printed text.
        kind: u8,
        /// That of the token at which the run meets it.
        place: Place,
    },
    /// The end of the program (C11 5.1.2.2.3).
    Ended,
    /// It asks for a choice, and there is none left.
    Waits,
    /// It still goes on.
    Running,
    /// It comes where no program of C comes.
    Stuck,
}

/// What `predator replay` answers.
#[derive(Drop)]
pub enum ReplayAnswer {
    /// The run was made.
    Played {
        /// What it comes to.
        what: Replayed,
    },
    /// The file of choices is no list of them.
    BadChoices,
    /// The file holds no program that can be read.
    NotRead {
        /// What is wrong with it.
        why: Why,
    },
    /// The program has a construct of C that is given up.
    Construct {
        /// The number of the construct, from 1, goto, to 21, bit-field; each has a printed name.
        number: u8,
        /// That of the token that shows the construct.
        place: Place,
    },
    /// One of the two files has more bytes than are read.
    TooLong {
        /// How many bytes of it were taken.
        taken: u32,
        /// Whether it is that of the choices, and not that of the program.
        second: bool,
    },
    /// The words are not of the form that the usage line tells.
    Usage,
    /// A file could not be opened or read.
    ReadFault,
    /// More memory was wanted than there is.
    OutOfMemory,
}

/// An answer with the two files that it is about, and the names that places refer to.
#[derive(Drop)]
pub struct ReplayShown {
    /// The bytes of the name of the program's file, as the words give it.
    pub file: Text,
    /// The bytes of the name of the file of choices, as the words give it.
    pub choices: Text,
    /// The names of the text's files, to which places refer by number from 0.
    pub names: List<Text>,
    /// What is answered. Each place in it that is printed refers to one of `names`.
    pub answer: ReplayAnswer,
}
