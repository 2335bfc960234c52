//! Reads rows from its standard input, and prints a line for each with what the crate `graph` answers of it.
//!
//! A row is `KIND WORD ..`, where the words spell the parts of a graph (`word.rt`): what a kind prints is said at the
//! function of that name. `covers WORD .. / WORD ..` asks the crate `cover` whether the first graph covers the second one. A line that begins with `# ` is a heading, and is printed as it stands.
#![tactic(auto)]

mod answers;
mod fault;
mod folds;
mod gains;
mod limits;
mod scopes;
mod shown;
mod spelled;
mod splits;
mod steps;
mod word;

use answers::answer_of_line;
use cbase::NoMemory;
use std::alloc::Global;
use std::io::{self, BufRead, BufReader, ErrorKind};

fn main(rt: HostRuntime) -> io::Result<()> {
    let alloc = rt.alloc();
    for line in BufReader::new(alloc, rt.reader())?.lines(alloc) {
        let line = line?;
        print_answer(&rt, alloc, line.as_str())?;
    }
    Ok(())
}

/// Prints what is answered of a line.
fn print_answer(rt: &impl Print, alloc: Global, line: &str) -> io::Result<()> {
    match answer_of_line(alloc, line) {
        Ok(answer) => println!(rt; "{answer}"),
        Err(NoMemory) => Err(io::Error::from(ErrorKind::OutOfMemory)),
    }
}
