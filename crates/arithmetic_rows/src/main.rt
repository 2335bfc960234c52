//! Computes rows of integers, one a line of standard input, so that the crate `arithmetic` can be compared with a
//! compiler. A row is `OPERATOR SIZE SIGN LEFT RIGHT`, as `add 4 signed 1 2`; its line of output is the result, or
//! `none` where there is none.
#![tactic(auto)]

mod ask;
mod row;

use crate::ask::answer;
use crate::row::read_row;
use std::io;
use std::io::{BufRead, BufReader, BufWriter, Write};

fn main(rt: HostRuntime) -> io::Result<()> {
    let rows = BufReader::new(rt.alloc(), rt.reader())?;
    let mut out = BufWriter::new(rt.alloc(), io::writer(&rt))?;
    for line in rows.lines(rt.alloc()) {
        match read_row(line?.as_str()) {
            None => writeln!(out, "no row")?,
            Some(row) => match answer(row) {
                None => writeln!(out, "none")?,
                Some(number) => writeln!(out, "{number}")?,
            },
        }
    }
    out.flush()
}
