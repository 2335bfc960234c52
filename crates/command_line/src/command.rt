ghost use Rattle.std.specs.Prelude.{◌≡◌, IfOk, map, option_copied, string_bytes};
ghost use Rattle.command_line.specs.CommandLine.{command_from, command_of};

use crate::numbers::number_or;
use crate::parser::parsed;
use cbase::{NoMemory, Text};
use std::alloc::Global;

/// The most digits that N and K have.
const MOST_DIGITS: usize = 6;

/// The least N that `--budget` takes.
const LEAST_BUDGET: u32 = 1;

/// The greatest N that `--budget` takes.
const MOST_BUDGET: u32 = 200_000;

/// N where `--budget` is not given.
const DEFAULT_BUDGET: u32 = 10_000;

/// The least K that `--int-limit` takes.
const LEAST_INT_LIMIT: u32 = 0;

/// The greatest K that `--int-limit` takes.
const MOST_INT_LIMIT: u32 = 1_000;

/// K where `--int-limit` is not given.
const DEFAULT_INT_LIMIT: u32 = 10;

/// What the words of a command line ask for.
#[derive(Drop)]
pub struct Command {
    /// The bytes of FILE, the name of the file that is analysed. There is at least one.
    pub file: Text,
    /// N of `--budget`, a number of states, from 1 to 200,000; 10,000 where the option is not given.
    pub budget: u32,
    /// K of `--int-limit`, an amount of an integer, from 0 to 1,000; 10 where the option is not given.
    pub int_limit: u32,
}

/// The command of the words that were given for FILE and for the two options.
fn command_from(
    alloc: Global,
    file: Option<&str>,
    budget: Option<&str>,
    int_limit: Option<&str>,
) -> Result<Option<Command>, NoMemory>
    ensures { IfOk result (λ o.
        o ≡ command_from (option_copied file.entry) (option_copied budget.entry)
        (option_copied int_limit.entry)) }
{
    let Some(budget) = number_or(
        MOST_DIGITS,
        DEFAULT_BUDGET,
        LEAST_BUDGET,
        MOST_BUDGET,
        budget,
    ) else {
        return Ok(None);
    };
    let Some(int_limit) = number_or(
        MOST_DIGITS,
        DEFAULT_INT_LIMIT,
        LEAST_INT_LIMIT,
        MOST_INT_LIMIT,
        int_limit,
    ) else {
        return Ok(None);
    };
    let Some(file) = file else {
        return Ok(None);
    };
    if file.is_empty() {
        return Ok(None);
    }
    Ok(Some(Command {
        file: Text::from_slice(alloc, file.as_bytes())?,
        budget,
        int_limit,
    }))
}

/// The command that the words ask for, and `None` where the usage line is the answer.
///
/// The words are those behind the program's name, `[--budget N] [--int-limit K] FILE`. Each option stands
/// at most once, before or after FILE, as two words or as one with `=`. N and K are one to six decimal
/// digits, N from 1 to 200,000 and K from 0 to 1,000. Before `--` a word that begins with `-` and has more
/// bytes is an option or is refused, behind it every word is a FILE. There is one FILE, and it is not empty.
pub fn command_of(alloc: Global, words: &[String]) -> Result<Option<Command>, NoMemory>
    ensures { IfOk result (λ o. o ≡ command_of (map string_bytes words.now)) }
{
    let Some(matches) = parsed(alloc, words)? else {
        return Ok(None);
    };
    let file = matches.get_str("file");
    let budget = matches.get_str("budget");
    let int_limit = matches.get_str("int-limit");
    command_from(alloc, file, budget, int_limit)
}
