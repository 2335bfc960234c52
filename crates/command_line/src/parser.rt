ghost use Rattle.std.specs.Prelude.{◌≡◌, ◌≢◌, [], IfNone, IfOk, IfSome, map, string_bytes};
ghost use Rattle.clap.specs.Words.{app_of, matches_of, rows_of};
ghost use Rattle.clap.specs.Faults.{fault_of};
ghost use Rattle.clap.specs.Matches.{found_of};
ghost use Rattle.command_line.specs.Parser.{bare_app, predator_app};

use cbase::NoMemory;
use clap::error::ErrorKind;
use clap::{Arg, ArgMatches, Command};
use std::alloc::{AllocError, Global};

/// A parser that takes no word, and answers neither with help nor with a version.
pub(crate) fn bare<'a>(alloc: Global) -> Command<'a>
    ensures { app_of result ≡ bare_app }
{
    Command::new(alloc, "predator")
        .no_binary_name(true)
        .disable_help_flag(true)
        .disable_version_flag(true)
}

/// The parser of the words behind the program's name.
fn parser<'a>(alloc: Global) -> Result<Command<'a>, AllocError>
    ensures { IfOk result (λ c. app_of c ≡ predator_app) }
{
    let budget = Arg::new(alloc, "budget").long("budget");
    let int_limit = Arg::new(alloc, "int-limit").long("int-limit");
    let file = Arg::new(alloc, "file").required(true);
    bare(alloc).arg(budget)?.arg(int_limit)?.arg(file)
}

/// What the parser makes of the words, and `None` where it refuses them.
pub(crate) fn parsed<'a>(
    alloc: Global,
    words: &'a [String],
) -> Result<Option<ArgMatches<'a>>, NoMemory>
    ensures none { IfOk result (λ o. IfNone o
        (fault_of predator_app (map string_bytes words.entry.now) ≢ [])) }
    ensures taken { IfOk result (λ o. IfSome o (λ m.
        fault_of predator_app (map string_bytes words.entry.now) ≡ [])) }
    ensures rows { IfOk result (λ o. IfSome o (λ m. rows_of (found_of m)
        ≡ matches_of predator_app (map string_bytes words.entry.now))) }
{
    let parser = parser(alloc)?;
    match parser.try_get_matches_from(words) {
        Ok(matches) => Ok(Some(matches)),
        Err(error) => match error.kind() {
            ErrorKind::OutOfMemory => Err(NoMemory),
            _ => Ok(None),
        },
    }
}
