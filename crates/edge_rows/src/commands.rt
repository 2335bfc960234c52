//! What words ask for.
use crate::printing::{push_bytes, push_row, push_text};
use crate::row::push_words;
use cbase::{Abi, NoMemory, Text};
use command_line::{Command, ReplayCommand, command_of, replay_command_of};
use std::alloc::Global;

/// A name of a file, behind a `|`.
fn show_name(name: &Text, shown: &mut String) -> Result<(), NoMemory> {
    push_text("|", shown)?;
    push_bytes(name.as_slice(), shown)
}

/// The budget, the limit of numbers and FILE of a command.
fn show_command(command: &Command, shown: &mut String) -> Result<(), NoMemory> {
    push_row("", &[command.budget, command.int_limit], shown)?;
    show_name(&command.file, shown)
}

/// The budget, the limit of numbers and FILE that words ask for, or that they ask for the usage line.
pub fn words(alloc: Global, text: &str, shown: &mut String) -> Result<(), NoMemory> {
    let mut words = Vec::new(alloc);
    push_words(alloc, text, &mut words)?;
    match command_of(alloc, words.as_slice()) {
        Ok(Some(command)) => show_command(&command, shown),
        Ok(None) => push_text(" usage", shown),
        Err(error) => Err(error),
    }
}

/// The steps, 1 or 0 for whether a `long` has 4 bytes and whether `--strict` is given, FILE and CHOICES of a command.
fn show_replay(command: &ReplayCommand, shown: &mut String) -> Result<(), NoMemory> {
    let short = u32::from(command.model == Abi::Llp64);
    push_row(
        "",
        &[command.steps, short, u32::from(command.strict)],
        shown,
    )?;
    show_name(&command.file, shown)?;
    show_name(&command.choices, shown)
}

/// The steps, 1 or 0 for whether a `long` has 4 bytes and whether `--strict` is given, FILE and CHOICES that words behind `replay` ask for, or that they ask for the usage line.
pub fn replay_words(alloc: Global, text: &str, shown: &mut String) -> Result<(), NoMemory> {
    let mut words = Vec::new(alloc);
    push_words(alloc, text, &mut words)?;
    match replay_command_of(alloc, words.as_slice()) {
        Ok(Some(command)) => show_replay(&command, shown),
        Ok(None) => push_text(" usage", shown),
        Err(error) => Err(error),
    }
}
