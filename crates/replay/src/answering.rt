ghost use Rattle.std.specs.Prelude.{◌≡◌, ◌≤◌, true, false, [], length, IfOk, OnErr};
ghost use Rattle.outside.specs.Faults.{Rose};
ghost use Rattle.ctokens.specs.InText.{most_bytes};
ghost use Rattle.ctokens.specs.TokenList.{HasNamedFiles};
ghost use Rattle.report.specs.ReplayReport.{HasPrintableReplay};
ghost use Rattle.replay.specs.Answered.{IsAnswered};
ghost use Rattle.replay.specs.Around.{IsOutcomeOf};
ghost use Rattle.replay.specs.Opened.{AreOpened, IsOpenedLast};
ghost use Rattle.replay.specs.Told.{HoldsProgramOf, HoldsTyped, IsAboutBoth, IsAboutFiles, IsTold};

use crate::judging::{Answered, JudgedFile, judge, with_names};
use crate::playing::play;
use c_text::TypedText;
use cbase::{Item, List, NoMemory, Text};
use cbuild::let_go_of_items;
use ccheck::TypedProgram;
use choices::{ReadChoices, read_choices};
use command_line::ReplayCommand;
use ctokens::Tokens;
use expressions::Context;
use outside::{Files, Reading, read_file};
use report::ReplayAnswer;
use std::alloc::Global;

/// How many bytes a file has at most, if it is to be read to its end.
const MOST_BYTES: u32 = 4_194_304;

/// The answer to a command: FILE is read and judged, and where it holds a program CHOICES is.
pub(crate) fn answer_of_command<F: Files>(
    alloc: Global,
    command: &ReplayCommand,
    files: &mut F,
) -> Result<Answered, NoMemory>
    ensures about { IfOk result (λ a. IsAboutFiles a.answer) }
    ensures printable { IfOk result (λ a. HasPrintableReplay a.names a.answer) }
    ensures rose { IfOk result (λ a. a.answer ≡ ReplayAnswer.ReadFault → Rose (F.faults files.old) (F.faults files.new)) }
    ensures failed { IfOk result (λ a. a.answer ≡ ReplayAnswer.ReadFault → F.failed files.new ≡ true) }
    ensures begun { IfOk result (λ a. IsOpenedLast (F.tells files.old) (F.bytes_of files.old command.now.file) command.now
        (F.begun files.new) a.answer) }
    ensures opened { IfOk result (λ a. AreOpened (F.tells files.old) (F.bytes_of files.old command.now.file) command.now
        (record { count = F.openings files.old; last = F.begun files.old }) (record { count = F.openings files.new; last = F.begun files.new }) a.answer) }
    ensures wanting { OnErr result (AreOpened (F.tells files.old) (F.bytes_of files.old command.now.file) command.now
        (record { count = F.openings files.old; last = F.begun files.old }) (record { count = F.openings files.new; last = F.begun files.new }) ReplayAnswer.OutOfMemory) }
    ensures judged { IfOk result (λ a. IsAnswered (F.tells files.old) (F.bytes_of files.old command.now.file)
        (F.bytes_of files.old command.now.choices) command.now a.names a.answer) }
{
    let name = Text::from_slice(alloc, command.file.as_slice())?;
    match read_file(alloc, files, name, MOST_BYTES)? {
        Reading::Whole(text) => answer_of_text(alloc, command, text.as_slice(), files),
        Reading::Long(_) => Ok(too_long(alloc)),
        Reading::Failed => Ok(read_fault(alloc)),
    }
}

/// The answer where FILE has too many bytes.
fn too_long(alloc: Global) -> Answered
    ensures { result ≡ record { answer = ReplayAnswer.TooLong 4194305 false; names = [] } }
{
    Answered {
        answer: ReplayAnswer::TooLong {
            taken: MOST_BYTES + 1,
            second: false,
        },
        names: List::new(alloc),
    }
}

/// The answer where a file is not read.
fn read_fault(alloc: Global) -> Answered
    ensures { result ≡ record { answer = ReplayAnswer.ReadFault; names = [] } }
{
    Answered {
        answer: ReplayAnswer::ReadFault,
        names: List::new(alloc),
    }
}

/// The answer where these are the bytes of FILE.
fn answer_of_text<F: Files>(
    alloc: Global,
    command: &ReplayCommand,
    text: &[u8],
    files: &mut F,
) -> Result<Answered, NoMemory>
    requires short { length text.now ≤ most_bytes }
    requires opened { F.begun files.old ≡ command.now.file }
    ensures { IsOutcomeOf (record {
      tells = F.tells files.old;
      choices = F.bytes_of files.old command.now.choices;
      faults = F.faults files.old;
      faults_behind = F.faults files.new;
      failed = F.failed files.new;
      openings = record { count = F.openings files.old; last = F.begun files.old };
      openings_behind = record { count = F.openings files.new; last = F.begun files.new };
    }) command.now text.now result }
{
    match judge(alloc, command, text)? {
        JudgedFile::Refused(answered) => Ok(answered),
        JudgedFile::Holds(t, typed) => answer_of_typed(alloc, command, t, typed, files),
    }
}

/// The answer where FILE holds this program, in which each item passes. The program is let go of.
fn answer_of_typed<F: Files>(
    alloc: Global,
    command: &ReplayCommand,
    t: Tokens,
    typed: TypedProgram,
    files: &mut F,
) -> Result<Answered, NoMemory>
    requires named { HasNamedFiles t }
    requires holds { HoldsTyped command.now t typed }
    ensures { IsOutcomeOf (record {
      tells = F.tells files.old;
      choices = F.bytes_of files.old command.now.choices;
      faults = F.faults files.old;
      faults_behind = F.faults files.new;
      failed = F.failed files.new;
      openings = record { count = F.openings files.old; last = F.begun files.old };
      openings_behind = record { count = F.openings files.new; last = F.begun files.new };
    }) command.now t.text result }
{
    let TypedProgram {
        program,
        context,
        abi: _,
        strict,
    } = typed;
    let answered = answer_of_context(
        alloc,
        command,
        t,
        program.as_slice(),
        context,
        strict,
        files,
    );
    let_go_of_items(program);
    answered
}

/// The answer where FILE holds the program with these items, of which typing hands on this context.
///
/// That a context names only types and signatures which it has is not proved of checked programs: where it does not, the answer is want of memory.
fn answer_of_context<F: Files>(
    alloc: Global,
    command: &ReplayCommand,
    t: Tokens,
    program: &[Item],
    context: Context,
    strict: bool,
    files: &mut F,
) -> Result<Answered, NoMemory>
    requires named { HasNamedFiles t }
    requires holds { HoldsProgramOf command.now t program.now context strict }
    ensures { IsOutcomeOf (record {
      tells = F.tells files.old;
      choices = F.bytes_of files.old command.now.choices;
      faults = F.faults files.old;
      faults_behind = F.faults files.new;
      failed = F.failed files.new;
      openings = record { count = F.openings files.old; last = F.begun files.old };
      openings_behind = record { count = F.openings files.new; last = F.begun files.new };
    }) command.now t.text result }
{
    let Some(text) = TypedText::of(alloc, context)? else {
        return Err(NoMemory);
    };
    let answered = answer_of_program(alloc, command, t, program, &text, strict, files);
    drop(text);
    answered
}

/// The answer where FILE holds the program with these items and this text.
fn answer_of_program<F: Files>(
    alloc: Global,
    command: &ReplayCommand,
    t: Tokens,
    program: &[Item],
    text: &TypedText,
    strict: bool,
    files: &mut F,
) -> Result<Answered, NoMemory>
    requires named { HasNamedFiles t }
    requires holds { HoldsProgramOf command.now t program.now text.now strict }
    ensures { IsOutcomeOf (record {
      tells = F.tells files.old;
      choices = F.bytes_of files.old command.now.choices;
      faults = F.faults files.old;
      faults_behind = F.faults files.new;
      failed = F.failed files.new;
      openings = record { count = F.openings files.old; last = F.begun files.old };
      openings_behind = record { count = F.openings files.new; last = F.begun files.new };
    }) command.now t.text result }
{
    let name = Text::from_slice(alloc, command.choices.as_slice())?;
    match read_file(alloc, files, name, MOST_BYTES)? {
        Reading::Whole(second) => {
            answer_of_both(alloc, command, t, program, text, strict, second.as_slice())
        }
        Reading::Long(_) => Ok(with_names(
            ReplayAnswer::TooLong {
                taken: MOST_BYTES + 1,
                second: true,
            },
            t,
        )),
        Reading::Failed => Ok(read_fault(alloc)),
    }
}

/// The answer where FILE holds this program, and these are the bytes of CHOICES.
fn answer_of_both(
    alloc: Global,
    command: &ReplayCommand,
    t: Tokens,
    program: &[Item],
    text: &TypedText,
    strict: bool,
    second: &[u8],
) -> Result<Answered, NoMemory>
    requires named { HasNamedFiles t }
    requires holds { HoldsProgramOf command.now t program.now text.now strict }
    requires short { length second.now ≤ most_bytes }
    ensures about { IfOk result (λ a. IsAboutBoth a.answer) }
    ensures told { IfOk result (IsTold command.now t.text second.now) }
{
    match read_choices(alloc, second)? {
        ReadChoices::Choices(choices) => {
            let what = play(
                alloc,
                &t,
                program,
                text,
                strict,
                choices.as_slice(),
                command.steps,
            )?;
            Ok(with_names(ReplayAnswer::Played { what }, t))
        }
        ReadChoices::Refused(_) => Ok(with_names(ReplayAnswer::BadChoices, t)),
    }
}
