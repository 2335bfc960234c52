ghost use Rattle.std.specs.Prelude.{◌≡◌, ◌≢◌, [], IfNone, IfOk, IfSome, map, string_bytes};
ghost use Rattle.clap.specs.Words.{app_of, matches_of, rows_of};
ghost use Rattle.clap.specs.Faults.{fault_of};
ghost use Rattle.clap.specs.Matches.{found_of};
ghost use Rattle.command_line.specs.ReplayParser.{replay_app};

use crate::parser::bare;
use cbase::NoMemory;
use clap::error::ErrorKind;
use clap::{Arg, ArgAction, ArgMatches, Command};
use std::alloc::{AllocError, Global};

/// The parser of the words behind `replay`.
fn parser<'a>(alloc: Global) -> Result<Command<'a>, AllocError>
    ensures { IfOk result (λ c. app_of c ≡ replay_app) }
{
    let model = Arg::new(alloc, "model").long("model");
    let steps = Arg::new(alloc, "steps").long("steps");
    let strict = Arg::new(alloc, "strict")
        .long("strict")
        .action(ArgAction::SetTrue);
    let file = Arg::new(alloc, "file").required(true);
    let choices = Arg::new(alloc, "choices").required(true);
    bare(alloc)
        .arg(model)?
        .arg(steps)?
        .arg(strict)?
        .arg(file)?
        .arg(choices)
}

/// What the parser makes of the words, and `None` where it refuses them.
pub(crate) fn parsed<'a>(
    alloc: Global,
    words: &'a [String],
) -> Result<Option<ArgMatches<'a>>, NoMemory>
    ensures none { IfOk result (λ o. IfNone o
        (fault_of replay_app (map string_bytes words.entry.now) ≢ [])) }
    ensures taken { IfOk result (λ o. IfSome o (λ m.
        fault_of replay_app (map string_bytes words.entry.now) ≡ [])) }
    ensures rows { IfOk result (λ o. IfSome o (λ m. rows_of (found_of m)
        ≡ matches_of replay_app (map string_bytes words.entry.now))) }
{
    let parser = parser(alloc)?;
    match parser.try_get_matches_from(words) {
        Ok(matches) => Ok(Some(matches)),
        Err(error) => match error.kind() {
            ErrorKind::OutOfMemory => Err(NoMemory),
            _ => Ok(None),
        },
    }
}
