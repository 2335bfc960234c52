//! `predator [--budget N] [--int-limit K] FILE`: reads a C program and says whether a run of it can misuse memory.
//!
//! `predator replay [--model M] [--strict] [--steps N] FILE CHOICES`: says what a run of it does with these choices. A FILE
//! of the name `replay` is given to the first as `./replay`.
#![tactic(auto)]

ghost use Rattle.std.specs.Prelude.{◌≡◌, drop, map, string_bytes};
ghost use Rattle.predator.specs.Words.{asks_for_replay};

use outside::{OsFiles, OsSink};
use replay::replay;
use report::{Answer, status};
use std::io::ErrorKind;
use std::process::ExitCode;
use std::{env, io};
use verdicts::predator;

fn main(rt: HostRuntime) -> ExitCode {
    ExitCode::from(run(&rt))
}

/// Runs the program on its words, and says its exit status. Words that are not UTF-8 end in the
/// usage line.
fn run(rt: &HostRuntime) -> u8 {
    let mut files = OsFiles::new(rt);
    let mut out = OsSink::new(io::writer(rt));
    match arguments(rt) {
        Ok(arguments) => {
            let words = words_of(arguments.as_slice());
            if asks_for_replay(words) {
                replay(rt.alloc(), words_of(words), &mut files, &mut out).status
            } else {
                predator(rt.alloc(), words, &mut files, &mut out).status
            }
        }
        Err(ErrorKind::OutOfMemory) => status(&Answer::OutOfMemory),
        Err(_) => predator(rt.alloc(), &[], &mut files, &mut out).status,
    }
}

/// The program's name and the words behind it.
fn arguments(rt: &HostRuntime) -> Result<Vec<String>, ErrorKind> {
    let arguments = env::args(rt).map_err(|error| error.kind())?;
    match arguments.collect(rt.alloc()) {
        Ok(arguments) => Ok(arguments),
        Err(_) => Err(ErrorKind::OutOfMemory),
    }
}

/// Whether the first word is `replay`.
fn asks_for_replay(words: &[String]) -> bool
    ensures { result ≡ asks_for_replay (map string_bytes words.now) }
{
    match words {
        [] => false,
        [first, ..] => first.as_bytes() == b"replay".as_slice(),
    }
}

/// The words behind the first, which is the program's name or `replay`.
fn words_of(arguments: &[String]) -> &[String]
    ensures { result.now ≡ drop 1 arguments.now }
{
    match arguments {
        [] => arguments,
        [_, words @ ..] => words,
    }
}
