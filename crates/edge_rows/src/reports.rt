//! Reports of answers about `t.c`, where the files of the text have the names `t.c` and `a.h`.
ghost use Rattle.std.specs.Prelude.{◌≡◌, ◌<◌, ℕ, [], Bool, IfOk, IfSome, List, OnOk, length};
ghost use Rattle.report.specs.Report.{HasPrintable};
ghost use Rattle.report.specs.declared.answer.Answer.{Answer};

use crate::kinds::Kind;
use crate::printing::{push_bytes, push_row, push_text};
use crate::row::Row;
use cbase::{List, NoMemory, Place, Text};
use report::{Answer, Limits, Shown, Warning, Why, report_text, status};
use std::alloc::Global;

/// Puts the names `t.c` and `a.h` into an empty list, and `t.c` behind a text.
pub fn push_names(alloc: Global, names: &mut List<Text>, file: &mut Text) -> Result<(), NoMemory>
    requires { names.old ≡ [] }
    ensures { OnOk result (length names.new ≡ 2) }
{
    names.push(Text::from_slice(alloc, b"t.c")?)?;
    names.push(Text::from_slice(alloc, b"a.h")?)?;
    file.extend(b"t.c")
}

/// The answer that a kind names, with a number and a place, where it can be printed.
fn answer_of(
    alloc: Global,
    kind: Kind,
    number: u32,
    place: Place,
) -> Result<Option<Answer>, NoMemory>
    requires { place.file < 2 }
    ensures { IfOk result (λ found. IfSome found (λ answer. (names : List (List ℕ)) → length names ≡ 2 → HasPrintable names answer)) }
{
    match kind {
        Kind::Warned | Kind::Error | Kind::WarnedSpent if number >= 1 && number <= 9 => {
            let warning = Warning {
                place,
                kind: number as u8,
                error: matches!(kind, Kind::Error),
            };
            let mut warnings = List::new(alloc);
            warn(&mut warnings, warning)?;
            Ok(Some(Answer::Warned {
                warnings,
                complete: !matches!(kind, Kind::WarnedSpent),
            }))
        }
        _ => Ok(plain_answer(kind, number, place)),
    }
}

/// The same of an answer without warnings.
fn plain_answer(kind: Kind, number: u32, place: Place) -> Option<Answer>
    requires { place.file < 2 }
    ensures { IfSome result (λ answer. (names : List (List ℕ)) → length names ≡ 2 → HasPrintable names answer) }
{
    match kind {
        Kind::Safe => Some(Answer::Safe),
        Kind::Spent => Some(Answer::Spent),
        Kind::Large => Some(Answer::Large),
        Kind::Lexical => Some(Answer::NotRead {
            why: Why::Lexical { place },
        }),
        Kind::Deep => Some(Answer::NotRead {
            why: Why::Deep { place },
        }),
        Kind::NoMain => Some(Answer::NotRead { why: Why::NoMain }),
        Kind::Syntax => Some(Answer::NotRead {
            why: Why::Syntax { place },
        }),
        Kind::Rule => Some(Answer::NotRead {
            why: Why::Rule {
                number: (number % 256) as u8,
                place,
            },
        }),
        Kind::Construct if number >= 1 && number <= 21 => Some(Answer::Construct {
            number: number as u8,
            place,
        }),
        Kind::NotYet => Some(Answer::NotYet { place }),
        Kind::TooLong => Some(Answer::TooLong { taken: number }),
        Kind::Usage => Some(Answer::Usage),
        Kind::ReadFault => Some(Answer::ReadFault),
        Kind::OutOfMemory => Some(Answer::OutOfMemory),
        _ => None,
    }
}

/// The status of an answer, and its report behind a `|`.
fn show(alloc: Global, told: &Shown, shown: &mut String) -> Result<(), NoMemory>
    requires { HasPrintable told.now.names told.now.answer }
{
    push_row("", &[u32::from(status(&told.answer))], shown)?;
    match report_text(alloc, told) {
        Ok(text) => show_text(text.as_slice(), shown),
        Err(error) => Err(error),
    }
}

/// A report behind a `|`.
pub fn show_text(text: &[u8], shown: &mut String) -> Result<(), NoMemory> {
    push_text("|", shown)?;
    push_bytes(text, shown)
}

/// Puts a warning or an error of a kind, from 1 to 9, into an empty list, which can be printed then where there are two names.
fn warn(warnings: &mut List<Warning>, warning: Warning) -> Result<(), NoMemory>
    requires empty { warnings.old ≡ [] }
    requires named { warning.place.file < 2 }
    ensures { OnOk result ((names : List (List ℕ)) (complete : Bool) → length names ≡ 2 → HasPrintable names (Answer.Warned warnings.new complete)) }
{
    warnings.push(warning)
}

/// The status and the report of the answer that the kind names. The first number is that of the rule, the construct, the kind of fault or the bytes, the others are the file, line and column of the place.
pub fn report(alloc: Global, row: &Row<'_>, shown: &mut String) -> Result<(), NoMemory> {
    let [number, file, line, column] = row.numbers;
    if file > 1 {
        return push_text(" no such file", shown);
    }
    let place = Place {
        file,
        line,
        column,
        at: 20,
    };
    let mut names = List::new(alloc);
    let mut file = Text::new(alloc);
    push_names(alloc, &mut names, &mut file)?;
    match answer_of(alloc, row.kind, number, place) {
        Ok(Some(answer)) => show(
            alloc,
            &Shown {
                file,
                names,
                limits: Limits::DEFAULT,
                answer,
            },
            shown,
        ),
        Ok(None) => push_text(" no such answer", shown),
        Err(error) => Err(error),
    }
}
