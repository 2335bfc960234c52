//! Reads rows from its standard input, and prints a line for each with what the crate `flow` answers of it.
//!
//! A row is `form PARTS`, `walks PARTS`, `head POINT PARTS`, `exclusive PARTS` or `out POINT PARTS`: whether the parts are a flow graph, how many
//! walks there are, whether the point is a loop head, whether the edges out of each point exclude each other, and which edges lead out of the
//! point, by their numbers (`answer.rt`). Parts stand between `;`, each a word and numbers (`parts.rt`, `instr.rt`). A line
//! `with PARTS` prints nothing: its parts stand in front of those of each row that follows, up to the next heading. A line that begins
//! with `#` is a heading, and is printed as it stands.
#![tactic(auto)]

mod answer;
mod instr;
mod numbers;
mod parts;
mod row;

use cbase::NoMemory;
use row::answers;
use std::io::{self, ErrorKind};

fn main(rt: HostRuntime) -> io::Result<()> {
    let text = io::read_to_string(rt.alloc(), rt.reader())?;
    match answers(rt.alloc(), text.as_str()) {
        Ok(shown) => print!(rt; "{shown}"),
        Err(NoMemory) => Err(io::Error::from(ErrorKind::OutOfMemory)),
    }
}
