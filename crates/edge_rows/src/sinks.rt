//! What sinks take.
use crate::printing::{push_bytes, push_text, push_truth};
use crate::row::Row;
use cbase::{List, NoMemory};
use outside::{MemorySink, SteadySink, send};
use std::alloc::Global;

/// Whether a sink in memory takes the whole text, of which it takes three bytes a call, and behind a `|` what it has taken. The first number is its room, and the call of the second number fails, from 1.
pub fn sent(alloc: Global, row: &Row<'_>, text: &[u8], shown: &mut String) -> Result<(), NoMemory> {
    let [room, failing, _, _] = row.numbers;
    let mut numbers = List::new(alloc);
    numbers.push(failing)?;
    let mut sink = MemorySink::new(alloc, 3, room, numbers)?;
    push_truth(send(&mut sink, text), shown)?;
    push_text("|", shown)?;
    push_bytes(sink.bytes(), shown)
}

/// Whether a sink that takes all takes the whole text.
pub fn sent_at_once(text: &[u8], shown: &mut String) -> Result<(), NoMemory> {
    let mut sink = SteadySink::new();
    push_truth(send(&mut sink, text), shown)
}
