//! Reads rows from its standard input, and prints a line for each with what the crate `expressions` finds of it.
//!
//! A row is `lp64 EXPRESSION` or `llp64 EXPRESSION`, by the data layout; it stands where the names of `declared.rt` are declared, in the body of a function
//! whose result is an `int`. With `void` in place of `lp64` that function has no result, and with `file` the row stands outside of functions. Of an expression
//! that passes its type is printed, outermost part first (`*` a pointer, `[3]` an array of three, `i32` and `u32` integers of 32 bits); behind it
//! ` = N`, its value in its type, where it is an integer constant expression, ` lvalue`, and ` null`, where it is a null pointer constant. Of one
//! that is refused `rule R at T` or `construct K at T` is printed, where T is the number of the token. A line that begins with `#` is a heading, and is
//! printed as it stands.
#![tactic(auto)]

mod declared;
mod naming;
mod printing;
mod reading;
mod row;
mod types;

use cbase::NoMemory;
use row::answer_line;
use std::io::{self, BufRead, BufReader, ErrorKind};

fn main(rt: HostRuntime) -> io::Result<()> {
    let alloc = rt.alloc();
    for line in BufReader::new(alloc, rt.reader())?.lines(alloc) {
        let line = line?;
        let mut answer = String::new(alloc);
        let printed = match answer_line(alloc, line.as_str(), &mut answer) {
            Ok(()) => println!(rt; "{answer}"),
            Err(NoMemory) => Err(io::Error::from(ErrorKind::OutOfMemory)),
        };
        drop(answer);
        drop(line);
        printed?;
    }
    Ok(())
}
