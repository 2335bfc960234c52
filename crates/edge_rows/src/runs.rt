//! Reports of runs of `t.c` with the choices of `w`, where the files of the text have the names `t.c` and `a.h`.
ghost use Rattle.std.specs.Prelude.{◌≡◌, ◌<◌, ℕ, IfSome, List, length};
ghost use Rattle.report.specs.ReplayReport.{HasPrintableReplay};

use crate::kinds::Kind;
use crate::printing::{push_row, push_text};
use crate::reports::{push_names, show_text};
use crate::row::Row;
use cbase::{List, NoMemory, Place, Text};
use report::{ReplayAnswer, ReplayShown, Replayed, Why, replay_status, replay_text};
use std::alloc::Global;

/// The answer that a kind names, with a number and a place, where it can be printed.
fn answer_of(kind: Kind, number: u32, place: Place) -> Option<ReplayAnswer>
    requires { place.file < 2 }
    ensures { IfSome result (λ answer. (names : List (List ℕ)) → length names ≡ 2 → HasPrintableReplay names answer) }
{
    match kind {
        Kind::Fault => Some(ReplayAnswer::Played {
            what: Replayed::Fault {
                kind: (number % 256) as u8,
                place,
            },
        }),
        Kind::Ended => Some(ReplayAnswer::Played {
            what: Replayed::Ended,
        }),
        Kind::Waits => Some(ReplayAnswer::Played {
            what: Replayed::Waits,
        }),
        Kind::Running => Some(ReplayAnswer::Played {
            what: Replayed::Running,
        }),
        Kind::Stuck => Some(ReplayAnswer::Played {
            what: Replayed::Stuck,
        }),
        Kind::BadChoices => Some(ReplayAnswer::BadChoices),
        Kind::RunNoMain => Some(ReplayAnswer::NotRead { why: Why::NoMain }),
        Kind::RunTooLong => Some(ReplayAnswer::TooLong {
            taken: number,
            second: false,
        }),
        Kind::ChoicesTooLong => Some(ReplayAnswer::TooLong {
            taken: number,
            second: true,
        }),
        Kind::RunUsage => Some(ReplayAnswer::Usage),
        Kind::RunReadFault => Some(ReplayAnswer::ReadFault),
        Kind::RunOutOfMemory => Some(ReplayAnswer::OutOfMemory),
        _ => None,
    }
}

/// The status of an answer, and its report behind a `|`.
fn show(alloc: Global, told: &ReplayShown, shown: &mut String) -> Result<(), NoMemory>
    requires { HasPrintableReplay told.now.names told.now.answer }
{
    push_row("", &[u32::from(replay_status(&told.answer))], shown)?;
    match replay_text(alloc, told) {
        Ok(text) => show_text(text.as_slice(), shown),
        Err(error) => Err(error),
    }
}

/// The status and the report of the answer that the kind names. The first number is that of the kind of fault or the bytes, the others are the file, line and column of the place.
pub fn run_report(alloc: Global, row: &Row<'_>, shown: &mut String) -> Result<(), NoMemory> {
    let [number, file, line, column] = row.numbers;
    if file > 1 {
        return push_text(" no such file", shown);
    }
    let place = Place {
        file,
        line,
        column,
        at: 20,
    };
    let mut names = List::new(alloc);
    let mut file = Text::new(alloc);
    push_names(alloc, &mut names, &mut file)?;
    let choices = Text::from_slice(alloc, b"w")?;
    match answer_of(row.kind, number, place) {
        Some(answer) => show(
            alloc,
            &ReplayShown {
                file,
                choices,
                names,
                answer,
            },
            shown,
        ),
        None => push_text(" no such answer", shown),
    }
}
