ghost use Rattle.std.specs.Prelude.{◌≡◌, ◌∷◌, [], ◌++◌, ◌<◌, IfOk, OnOk, length};
ghost use Rattle.report.specs.Report.{lines_text};
ghost use Rattle.report.specs.ReplayReport.{HasPrintableReplay, HasPrintableRun, fault_line, replay_bytes, replay_status_of, replayed_line, status_of_run, too_long_line};

use crate::lines::{push_kind, push_place};
use crate::replay_answer::{ReplayAnswer, ReplayShown, Replayed};
use crate::text::{construct_text, usage_text, why_text};
use cbase::{NoMemory, Place, Text};
use std::alloc::Global;

/// The report on a run with given choices: one line with a newline at its end, and none with `ReadFault` and
/// `OutOfMemory`.
///
/// The file of each place that is printed must have a name among those shown, and a construct's number be one of the
/// twenty-one.
#[tactic(auto, using(std::proofs::Common::append_assoc))]
pub fn replay_text(alloc: Global, shown: &ReplayShown) -> Result<Text, NoMemory>
    requires { HasPrintableReplay shown.now.names shown.now.answer }
    ensures { IfOk result (λ text. text ≡ replay_bytes shown.now) }
{
    match &shown.answer {
        ReplayAnswer::Played { what } => {
            run_text(alloc, &shown.file, shown.names.as_slice(), *what)
        }
        ReplayAnswer::BadChoices => line_of(alloc, &shown.choices, b": no choices"),
        ReplayAnswer::NotRead { why } => {
            why_text(alloc, &shown.file, shown.names.as_slice(), *why)
        }
        ReplayAnswer::Construct { number, place } => construct_text(
            alloc,
            &shown.file,
            shown.names.as_slice(),
            *number,
            *place,
        ),
        ReplayAnswer::TooLong { second, .. } => {
            too_long_text(alloc, &shown.file, &shown.choices, *second)
        }
        ReplayAnswer::Usage => usage_text(alloc),
        ReplayAnswer::ReadFault | ReplayAnswer::OutOfMemory => Ok(Text::new(alloc)),
    }
}

/// A line that begins with the name of a file, given the rest; it has its newline.
#[tactic(auto, using(std::proofs::Common::append_assoc))]
fn line_of(alloc: Global, name: &Text, rest: &[u8]) -> Result<Text, NoMemory>
    ensures { IfOk result (λ text. text ≡ lines_text ((name.now ++ rest.now) ∷ [])) }
{
    let mut text = Text::from_slice(alloc, name.as_slice())?;
    text.extend(rest)?;
    text.extend(b"\n")?;
    Ok(text)
}

/// The line that tells what a run comes to, with its newline.
fn run_text(alloc: Global, file: &Text, names: &[Text], what: Replayed) -> Result<Text, NoMemory>
    requires { HasPrintableRun names.now what }
    ensures { IfOk result (λ text. text ≡ lines_text (replayed_line file.now names.now what ∷ [])) }
{
    match what {
        Replayed::Fault { kind, place } => fault_text(alloc, names, kind, place),
        Replayed::Ended => line_of(alloc, file, b": ended"),
        Replayed::Waits => line_of(alloc, file, b": waits"),
        Replayed::Running => line_of(alloc, file, b": still running"),
        Replayed::Stuck => line_of(alloc, file, b": gave up: no step"),
    }
}

/// The line of the fault that a run meets, with its newline.
#[tactic(auto, using(std::proofs::Common::append_assoc))]
fn fault_text(alloc: Global, names: &[Text], kind: u8, place: Place) -> Result<Text, NoMemory>
    requires { place.file < length names.now }
    ensures { IfOk result (λ text. text ≡ lines_text (fault_line names.now kind place ∷ [])) }
{
    let mut text = Text::new(alloc);
    push_place(alloc, &mut text, names, &place)?;
    text.extend(b": ")?;
    push_kind(alloc, &mut text, kind)?;
    text.extend(b"\n")?;
    Ok(text)
}

/// The line that tells which file is too long, with its newline.
fn too_long_text(alloc: Global, file: &Text, choices: &Text, second: bool) -> Result<Text, NoMemory>
    ensures { IfOk result (λ text. text ≡ lines_text (too_long_line file.now choices.now second ∷ [])) }
{
    if second {
        return line_of(alloc, choices, b": not read: over 4194304 bytes");
    }
    line_of(alloc, file, b": not read: over 4194304 bytes")
}

/// The exit status of an answer whose report was written whole: 0 to 5, or 7. It takes no memory.
///
/// A report that was not written whole has a status of its own, 6, which no answer has.
pub fn replay_status(answer: &ReplayAnswer) -> u8
    ensures { result ≡ replay_status_of answer.now }
{
    match answer {
        ReplayAnswer::Played { what } => status_of_run(what),
        ReplayAnswer::Construct { .. } => 2,
        ReplayAnswer::BadChoices | ReplayAnswer::NotRead { .. } | ReplayAnswer::TooLong { .. } => 3,
        ReplayAnswer::Usage => 4,
        ReplayAnswer::ReadFault => 5,
        ReplayAnswer::OutOfMemory => 7,
    }
}

/// The exit status of what a run comes to.
fn status_of_run(what: &Replayed) -> u8
    ensures { result ≡ status_of_run what.now }
{
    match what {
        Replayed::Ended => 0,
        Replayed::Fault { .. } => 1,
        Replayed::Waits | Replayed::Running | Replayed::Stuck => 2,
    }
}
