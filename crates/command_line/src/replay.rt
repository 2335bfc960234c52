ghost use Rattle.std.specs.Prelude.{◌≡◌, IfOk, map, option_copied, string_bytes};
ghost use Rattle.command_line.specs.ReplayLine.{model_named, model_or, replay_command_from, replay_command_of};

use crate::numbers::number_or;
use crate::replay_parser::parsed;
use cbase::{Abi, NoMemory, Text};
use std::alloc::Global;

/// The most digits that N has.
const MOST_DIGITS: usize = 7;

/// The least N that `--steps` takes.
const LEAST_STEPS: u32 = 1;

/// The greatest N that `--steps` takes.
const MOST_STEPS: u32 = 1_000_000;

/// N where `--steps` is not given.
const DEFAULT_STEPS: u32 = 1_000_000;

/// What the words of a command line behind `replay` ask for.
#[derive(Drop)]
pub struct ReplayCommand {
    /// The bytes of FILE, the name of the file whose program runs. There is at least one.
    pub file: Text,
    /// The bytes of CHOICES, the name of the file that lists the choices. There is at least one.
    pub choices: Text,
    /// N of `--steps`, how many steps the run makes at most, from 1 to 1,000,000; 1,000,000 where the option is not given.
    pub steps: u32,
    /// M of `--model`, the data layout; that with a `long` of 8 bytes where the option is not given.
    pub model: Abi,
    /// Whether `--strict` is given.
    pub strict: bool,
}

/// The data layout that a word names.
fn model_named(word: &[u8]) -> Option<Abi>
    ensures { result ≡ model_named word.now }
{
    if b"lp64".as_slice() == word {
        return Some(Abi::Lp64);
    }
    if b"llp64".as_slice() == word {
        return Some(Abi::Llp64);
    }
    None
}

/// The data layout that the word of `--model` names, and the one with a `long` of 8 bytes where the option was not given.
fn model_or(word: Option<&str>) -> Option<Abi>
    ensures { result ≡ model_or (option_copied word.entry) }
{
    match word {
        None => Some(Abi::Lp64),
        Some(word) => model_named(word.as_bytes()),
    }
}

/// The command of the words that were given for FILE, CHOICES and the options.
fn replay_command_from(
    alloc: Global,
    file: Option<&str>,
    choices: Option<&str>,
    model: Option<&str>,
    steps: Option<&str>,
    strict: bool,
) -> Result<Option<ReplayCommand>, NoMemory>
    ensures { IfOk result (λ o.
        o ≡ replay_command_from (option_copied file.entry) (option_copied choices.entry)
        (option_copied model.entry) (option_copied steps.entry) strict) }
{
    let Some(model) = model_or(model) else {
        return Ok(None);
    };
    let Some(steps) = number_or(MOST_DIGITS, DEFAULT_STEPS, LEAST_STEPS, MOST_STEPS, steps) else {
        return Ok(None);
    };
    let Some(file) = file else {
        return Ok(None);
    };
    if file.is_empty() {
        return Ok(None);
    }
    let Some(choices) = choices else {
        return Ok(None);
    };
    if choices.is_empty() {
        return Ok(None);
    }
    Ok(Some(ReplayCommand {
        file: Text::from_slice(alloc, file.as_bytes())?,
        choices: Text::from_slice(alloc, choices.as_bytes())?,
        steps,
        model,
        strict,
    }))
}

/// The command that the words behind `replay` ask for, and `None` where the usage line is the answer.
///
/// The words are `[--model M] [--strict] [--steps N] FILE CHOICES`. Each option stands at most once, before, between or
/// behind the files, M and N as two words or as one with `=`. M is `lp64` or `llp64`, N one to seven decimal digits, from 1
/// to 1,000,000, and `--strict` has no value. Before `--` a word that begins with `-` and has more bytes is an option or is
/// refused, behind it every word is a file. There are two files, FILE and then CHOICES, and neither is empty.
pub fn replay_command_of(alloc: Global, words: &[String]) -> Result<Option<ReplayCommand>, NoMemory>
    ensures { IfOk result (λ o. o ≡ replay_command_of (map string_bytes words.now)) }
{
    let Some(matches) = parsed(alloc, words)? else {
        return Ok(None);
    };
    let file = matches.get_str("file");
    let choices = matches.get_str("choices");
    let model = matches.get_str("model");
    let steps = matches.get_str("steps");
    let strict = matches.get_flag("strict");
    replay_command_from(alloc, file, choices, model, steps, strict)
}
