//! Reads rows from its standard input, and prints a line for each with what the crate `planes` answers of it.
//!
//! A row is a line of words. Those that change its two planes are listed at `changed` (`change.rt`), and those that ask something of
//! them at `asked` (`ask.rt`); what is answered of these stands in the line that is printed. A line that begins with `#` is a heading,
//! and is printed as it stands.
#![tactic(auto)]

mod ask;
mod change;
mod plain;
mod row;

use cbase::NoMemory;
use row::answer_of_line;
use std::alloc::Global;
use std::io::{self, BufRead, BufReader, ErrorKind};

fn main(rt: HostRuntime) -> io::Result<()> {
    let alloc = rt.alloc();
    for line in BufReader::new(alloc, rt.reader())?.lines(alloc) {
        let line = line?;
        print_answer(&rt, alloc, line.as_str())?;
    }
    Ok(())
}

/// Prints what is answered of a line.
fn print_answer(rt: &impl Print, alloc: Global, line: &str) -> io::Result<()> {
    match answer_of_line(alloc, line) {
        Ok(answer) => println!(rt; "{answer}"),
        Err(NoMemory) => Err(io::Error::from(ErrorKind::OutOfMemory)),
    }
}
