//! Reads rows from its standard input, and prints a line for each with what the crates at the program's edge answer of it: the words that it is given, the files that it reads, and what it
//! prints. Line N of what is printed answers line N of what is read.
//!
//! A row is `KIND NUMBER NUMBER NUMBER NUMBER WORDS TEXT`, and its answer `KIND ANSWER`. What a kind answers, and what its numbers are, is said at the function of that name; a number that it does
//! not ask for is 0. WORDS are `-`, or words that each stand behind a `|`. A row `repeat` has no answer: it puts its text as often as its first number says in front of the text of the row that
//! follows. A line that begins with `# ` is a heading, and is printed as it stands.
#![tactic(auto)]

mod commands;
mod files;
mod kinds;
mod line;
mod printing;
mod program;
mod reports;
mod row;
mod runs;
mod sinks;

use cbase::{NoMemory, Text};
use line::answer_of_line;
use std::io::{self, BufRead, BufReader, ErrorKind};

fn main(rt: HostRuntime) -> io::Result<()> {
    let alloc = rt.alloc();
    let mut front = Text::new(alloc);
    for line in BufReader::new(alloc, rt.reader())?.lines(alloc) {
        let line = line?;
        let mut shown = String::new(alloc);
        let printed = match answer_of_line(alloc, &mut front, line.as_str(), &mut shown) {
            Ok(()) => println!(rt; "{shown}"),
            Err(NoMemory) => Err(io::Error::from(ErrorKind::OutOfMemory)),
        };
        drop(shown);
        drop(line);
        printed?;
    }
    Ok(())
}
