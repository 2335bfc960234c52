//! Reads texts of C from its standard input, one a line, and prints a line for each with the names that it defines: those that it
//! defines with a body, a `|`, and all that it defines. A line that begins with `# ` is a heading, and is printed as it
//! stands.
#![tactic(auto)]

mod answers;

use answers::answer_of_line;
use cbase::NoMemory;
use std::io::{self, BufRead, BufReader, ErrorKind};

fn main(rt: HostRuntime) -> io::Result<()> {
    let alloc = rt.alloc();
    for line in BufReader::new(alloc, rt.reader())?.lines(alloc) {
        let line = line?;
        match answer_of_line(alloc, line.as_str()) {
            Ok(answer) => println!(rt; "{answer}")?,
            Err(NoMemory) => return Err(io::Error::from(ErrorKind::OutOfMemory)),
        }
    }
    Ok(())
}
