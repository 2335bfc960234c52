//! Reads rows from its standard input, and prints a line for each with what the crates that read C answer of it: line N of what is printed answers
//! line N of what is read.
//!
//! A row is `KIND NUMBER TEXT`, and its answer `KIND ANSWER`. What a kind answers is said at the function of that name; the number is 0 where the kind
//! asks for none. A row `repeat` has no answer: it puts its text as often as its number says in front of the text of the row that
//! follows. A line that begins with `# ` is a heading, and is printed as it stands.
#![tactic(auto)]

mod answers;
mod at_tokens;
mod constructs;
mod cut;
mod kinds;
mod lexical;
mod line;
mod needs;
mod nodes;
mod places;
mod printing;
mod row;
mod scopes;
mod terminals;

use cbase::{NoMemory, Text};
use line::answer_of_line;
use std::io::{self, BufRead, BufReader, ErrorKind};

fn main(rt: HostRuntime) -> io::Result<()> {
    let alloc = rt.alloc();
    let mut front = Text::new(alloc);
    for line in BufReader::new(alloc, rt.reader())?.lines(alloc) {
        let line = line?;
        let mut shown = String::new(alloc);
        let printed = match answer_of_line(alloc, &mut front, line.as_str(), &mut shown) {
            Ok(()) => println!(rt; "{shown}"),
            Err(NoMemory) => Err(io::Error::from(ErrorKind::OutOfMemory)),
        };
        drop(shown);
        drop(line);
        printed?;
    }
    Ok(())
}
