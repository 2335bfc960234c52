//! What the program does.
use crate::files::put;
use crate::printing::{counted, push_bytes, push_row, push_text};
use crate::row::{Row, push_words};
use cbase::{List, NoMemory};
use outside::{MemoryFiles, MemorySink};
use std::alloc::Global;
use verdicts::{Outcome, predator};

/// The status; whether all was written, 1 or 0; the budget and the limit of numbers that are shown, and how many names of files; then, behind a `|` each, the file that is shown and what was written.
fn show_outcome(outcome: &Outcome, written: &[u8], shown: &mut String) -> Result<(), NoMemory> {
    push_row(
        "",
        &[
            u32::from(outcome.status),
            u32::from(outcome.sent),
            outcome.shown.limits.budget,
            outcome.shown.limits.int_limit,
            counted(outcome.shown.names.len()),
        ],
        shown,
    )?;
    push_text("|", shown)?;
    push_bytes(outcome.shown.file.as_slice(), shown)?;
    push_text("|", shown)?;
    push_bytes(written, shown)
}

/// Numbers of calls that fail: one.
fn failing(numbers: &mut List<u32>, number: u32) -> Result<(), NoMemory> {
    Ok(numbers.push(number)?)
}

/// What the program does with the words, where the one file `t.c` has the text: its status and what is shown and written, as `show_outcome` says. A call of the files gives as many bytes at most as the first number says, and the one
/// with the second number fails, from 1; so does that of the sink with the third number. The sink takes three bytes a call.
pub fn run(alloc: Global, row: &Row<'_>, text: &[u8], shown: &mut String) -> Result<(), NoMemory> {
    let [step, unread, unsent, _] = row.numbers;
    let mut words = Vec::new(alloc);
    push_words(alloc, row.words, &mut words)?;
    let mut named = List::new(alloc);
    put(alloc, &mut named, b"t.c", text)?;
    let mut numbers = List::new(alloc);
    failing(&mut numbers, unread)?;
    let mut files = MemoryFiles::new(alloc, named, step.max(1), numbers);
    let mut numbers = List::new(alloc);
    failing(&mut numbers, unsent)?;
    let mut out = MemorySink::new(alloc, 3, 4096, numbers)?;
    let outcome = predator(alloc, words.as_slice(), &mut files, &mut out);
    show_outcome(&outcome, out.bytes(), shown)
}
