ghost use Rattle.std.specs.Prelude.{◌≡◌, ◌≢◌, ◌↔◌, ◌⊎◌, ℕ, ◌<◌, true, false, IsTrue, IfOk, OnErr, None, Some};
ghost use Rattle.std.specs.Prelude.{List as Items, Option, [], length, map, take, string_bytes};
ghost use Rattle.outside.specs.Faults.{Rose};
ghost use Rattle.outside.specs.Sink.{appended};
ghost use Rattle.command_line.specs.ReplayLine.{replay_command_of};
ghost use Rattle.command_line.specs.declared.replay.ReplayCommand.{ReplayCommand};
ghost use Rattle.report.specs.ReplayReport.{HasPrintableReplay, replay_bytes, replay_status_of};
ghost use Rattle.report.specs.declared.replay_answer.ReplayAnswer.{ReplayAnswer};
ghost use Rattle.replay.specs.Judged.{IsVerdict, Judges};
ghost use Rattle.replay.specs.Answered.{IsAnswered};
ghost use Rattle.replay.specs.Opened.{AreOpened, IsOfFileAlone, IsOpenedLast};
ghost use Rattle.replay.specs.Shown.{choices_in, file_in, unless_nothing};
ghost use Rattle.replay.specs.Told.{IsAboutFiles};

use crate::answering::answer_of_command;
use crate::judging::Answered;
use cbase::{List, NoMemory, Text};
use ccheck::items_have_one_answer;
use choices::laws::text_has_one_list;
use command_line::{ReplayCommand, replay_command_of};
use ctokens::{one_item_list, one_token_list};
use outside::{Files, Sink, send};
use report::{ReplayAnswer, ReplayShown, replay_status, replay_text};
use std::alloc::Global;

/// The exit status where the report could not be written whole.
const WRITE_FAULT: u8 = 6;

/// What the program did.
#[derive(Drop)]
pub struct ReplayOutcome {
    /// The exit status.
    pub status: u8,
    /// The answer, with the files that it is about.
    pub shown: ReplayShown,
    /// Whether the whole report was written.
    pub sent: bool,
}

/// An answer with its report.
#[derive(Drop)]
struct Plan {
    /// The answer, with the files that it is about.
    shown: ReplayShown,
    /// The report's bytes.
    text: Text,
}

/// Reads the program and the choices of the two files that the words give, says what a run of the program does with them, and writes the report.
///
/// The words are those behind the word `replay`. CHOICES is read only where FILE holds a program. Where memory is wanting the answer is `OutOfMemory`, and nothing is written.
#[tactic(auto, using(crate::proofs::Files::is_verdict))]
pub fn replay<F: Files, K: Sink>(
    alloc: Global,
    words: &[String],
    files: &mut F,
    out: &mut K,
) -> ReplayOutcome
    // Usage comes exactly where the words name no two files, and no file is touched there.
    ensures usage { replay_command_of (map string_bytes words.now) ≡ None
        → (result.shown.answer ≡ ReplayAnswer.Usage) ⊎ (result.shown.answer ≡ ReplayAnswer.OutOfMemory) }
    ensures usage_only { result.shown.answer ≡ ReplayAnswer.Usage
        → replay_command_of (map string_bytes words.now) ≡ None }
    ensures untouched { replay_command_of (map string_bytes words.now) ≡ None → files.new ≡ files.old }

    // What is shown with the answer.
    ensures named { result.shown.file
        ≡ unless_nothing (file_in (replay_command_of (map string_bytes words.now))) result.shown.answer }
    ensures choices_named { result.shown.choices
        ≡ unless_nothing (choices_in (replay_command_of (map string_bytes words.now))) result.shown.answer }
    ensures no_names { replay_command_of (map string_bytes words.now) ≡ None → result.shown.names ≡ [] }

    // ReadFault comes only where the last call, on one of the two files, failed. The last file that is opened is FILE where the answer is about
    // FILE alone, so also where it is refused; and a fault at CHOICES comes only where FILE holds a program.
    ensures rose { result.shown.answer ≡ ReplayAnswer.ReadFault → Rose (F.faults files.old) (F.faults files.new) }
    ensures failed { result.shown.answer ≡ ReplayAnswer.ReadFault → F.failed files.new ≡ true }
    ensures begun { (command : ReplayCommand) → replay_command_of (map string_bytes words.now) ≡ Some command
        → IsOpenedLast (F.tells files.old) (F.bytes_of files.old command.file) command (F.begun files.new) result.shown.answer }
    ensures unopened { (command : ReplayCommand) (whole second : Items ℕ) (other : ReplayAnswer)
        → replay_command_of (map string_bytes words.now) ≡ Some command → IsTrue (F.tells files.old)
        → F.bytes_of files.old command.file ≡ Some whole → IsOfFileAlone other → Judges command whole second other
        → result.shown.answer ≡ ReplayAnswer.ReadFault → F.begun files.new ≡ command.file }

    // Before each answer FILE is opened once, or FILE and then CHOICES, each once, and no other file is. Where memory is wanting no more than these
    // are, and CHOICES only where FILE holds a program.
    ensures opened { (command : ReplayCommand) → replay_command_of (map string_bytes words.now) ≡ Some command
        → AreOpened (F.tells files.old) (F.bytes_of files.old command.file) command
        (record { count = F.openings files.old; last = F.begun files.old }) (record { count = F.openings files.new; last = F.begun files.new }) result.shown.answer }

    // The other answers say what is true of the bytes of both files, each exactly where it is true. The names are those
    // of the files of the text.
    ensures verdict { (command : ReplayCommand) → replay_command_of (map string_bytes words.now) ≡ Some command
        → result.shown.answer ≢ ReplayAnswer.ReadFault → result.shown.answer ≢ ReplayAnswer.OutOfMemory
        → IsVerdict result.shown.answer }
    ensures judged { (command : ReplayCommand) → replay_command_of (map string_bytes words.now) ≡ Some command
        → IsAnswered (F.tells files.old) (F.bytes_of files.old command.file) (F.bytes_of files.old command.choices)
        command result.shown.names result.shown.answer }
    ensures exactly { (command : ReplayCommand) (whole second : Items ℕ) (other : ReplayAnswer)
        → replay_command_of (map string_bytes words.now) ≡ Some command → IsTrue (F.tells files.old)
        → F.bytes_of files.old command.file ≡ Some whole → F.bytes_of files.old command.choices ≡ Some second
        → result.shown.answer ≢ ReplayAnswer.ReadFault → result.shown.answer ≢ ReplayAnswer.OutOfMemory
        → IsVerdict other → (result.shown.answer ≡ other) ↔ Judges command whole second other }

    // The report is written, whole or up to a write fault.
    ensures status { result.sent ≡ true → result.status ≡ replay_status_of result.shown.answer }
    ensures sent { result.sent ≡ true
        → K.written out.new ≡ appended (K.written out.old) (replay_bytes result.shown) }
    ensures write_fault { result.sent ≡ false → (result.status ≡ 6) × Rose (K.faults out.old) (K.faults out.new) }
    ensures unsent { result.sent ≡ false
        → (n : ℕ) × (n < length (replay_bytes result.shown))
        × (K.written out.new ≡ appended (K.written out.old) (take n (replay_bytes result.shown))) }
    ensures silent { replay_bytes result.shown ≡ [] → out.new ≡ out.old }
{
    one_token_list();
    one_item_list();
    items_have_one_answer();
    text_has_one_list();
    match planned(alloc, words, files) {
        Ok(plan) => delivered(plan, out),
        Err(_) => ReplayOutcome {
            status: replay_status(&ReplayAnswer::OutOfMemory),
            shown: nothing_shown(alloc, ReplayAnswer::OutOfMemory),
            sent: true,
        },
    }
}

/// Writes the report.
fn delivered<K: Sink>(plan: Plan, out: &mut K) -> ReplayOutcome
    requires { plan.text ≡ replay_bytes plan.shown }
    ensures shown { result.shown ≡ plan.shown }
    ensures status { result.sent ≡ true → result.status ≡ replay_status_of plan.shown.answer }
    ensures sent { result.sent ≡ true
        → K.written out.new ≡ appended (K.written out.old) (replay_bytes plan.shown) }
    ensures write_fault { result.sent ≡ false → (result.status ≡ 6) × Rose (K.faults out.old) (K.faults out.new) }
    ensures unsent { result.sent ≡ false
        → (n : ℕ) × (n < length (replay_bytes plan.shown))
        × (K.written out.new ≡ appended (K.written out.old) (take n (replay_bytes plan.shown))) }
    ensures silent { replay_bytes plan.shown ≡ [] → out.new ≡ out.old }
{
    let sent = send(out, plan.text.as_slice());
    let status = if sent {
        replay_status(&plan.shown.answer)
    } else {
        WRITE_FAULT
    };
    let Plan { shown, text: _ } = plan;
    ReplayOutcome {
        status,
        shown,
        sent,
    }
}

/// The answer to the words, with its report.
fn planned<F: Files>(alloc: Global, words: &[String], files: &mut F) -> Result<Plan, NoMemory>
    ensures text { IfOk result (λ plan. plan.text ≡ replay_bytes plan.shown) }
    ensures known { IfOk result (λ plan. plan.shown.answer ≢ ReplayAnswer.OutOfMemory) }
    ensures usage { replay_command_of (map string_bytes words.now) ≡ None
        → IfOk result (λ plan. plan.shown.answer ≡ ReplayAnswer.Usage) }
    ensures usage_only { IfOk result (λ plan. plan.shown.answer ≡ ReplayAnswer.Usage
        → replay_command_of (map string_bytes words.now) ≡ None) }
    ensures untouched { replay_command_of (map string_bytes words.now) ≡ None → files.new ≡ files.old }
    ensures named { IfOk result (λ plan. plan.shown.file
        ≡ unless_nothing (file_in (replay_command_of (map string_bytes words.now))) plan.shown.answer) }
    ensures choices_named { IfOk result (λ plan. plan.shown.choices
        ≡ unless_nothing (choices_in (replay_command_of (map string_bytes words.now))) plan.shown.answer) }
    ensures no_names { replay_command_of (map string_bytes words.now) ≡ None
        → IfOk result (λ plan. plan.shown.names ≡ []) }
    ensures rose { IfOk result (λ plan. plan.shown.answer ≡ ReplayAnswer.ReadFault
        → Rose (F.faults files.old) (F.faults files.new)) }
    ensures failed { IfOk result (λ plan. plan.shown.answer ≡ ReplayAnswer.ReadFault → F.failed files.new ≡ true) }
    ensures begun { (command : ReplayCommand) → replay_command_of (map string_bytes words.now) ≡ Some command
        → IfOk result (λ plan. IsOpenedLast (F.tells files.old) (F.bytes_of files.old command.file) command (F.begun files.new)
        plan.shown.answer) }
    ensures opened { (command : ReplayCommand) → replay_command_of (map string_bytes words.now) ≡ Some command
        → IfOk result (λ plan. AreOpened (F.tells files.old) (F.bytes_of files.old command.file) command
        (record { count = F.openings files.old; last = F.begun files.old }) (record { count = F.openings files.new; last = F.begun files.new }) plan.shown.answer) }
    ensures wanting { (command : ReplayCommand) → replay_command_of (map string_bytes words.now) ≡ Some command
        → OnErr result (AreOpened (F.tells files.old) (F.bytes_of files.old command.file) command
        (record { count = F.openings files.old; last = F.begun files.old }) (record { count = F.openings files.new; last = F.begun files.new }) ReplayAnswer.OutOfMemory) }
    ensures judged { (command : ReplayCommand) → replay_command_of (map string_bytes words.now) ≡ Some command
        → IfOk result (λ plan. IsAnswered (F.tells files.old) (F.bytes_of files.old command.file)
        (F.bytes_of files.old command.choices) command plan.shown.names plan.shown.answer) }
{
    match replay_command_of(alloc, words)? {
        Some(command) => planned_command(alloc, command, files),
        None => reported(alloc, nothing_shown(alloc, ReplayAnswer::Usage)),
    }
}

/// An answer that is about no file.
fn nothing_shown(alloc: Global, answer: ReplayAnswer) -> ReplayShown
    ensures { result ≡ record { file = []; choices = []; names = []; answer = answer } }
{
    ReplayShown {
        file: Text::new(alloc),
        choices: Text::new(alloc),
        names: List::new(alloc),
        answer,
    }
}

/// The answer to a command, with its report.
fn planned_command<F: Files>(
    alloc: Global,
    command: ReplayCommand,
    files: &mut F,
) -> Result<Plan, NoMemory>
    ensures text { IfOk result (λ plan. plan.text ≡ replay_bytes plan.shown) }
    ensures about { IfOk result (λ plan. IsAboutFiles plan.shown.answer) }
    ensures named { IfOk result (λ plan. plan.shown.file ≡ command.file) }
    ensures choices_named { IfOk result (λ plan. plan.shown.choices ≡ command.choices) }
    ensures rose { IfOk result (λ plan. plan.shown.answer ≡ ReplayAnswer.ReadFault
        → Rose (F.faults files.old) (F.faults files.new)) }
    ensures failed { IfOk result (λ plan. plan.shown.answer ≡ ReplayAnswer.ReadFault → F.failed files.new ≡ true) }
    ensures begun { IfOk result (λ plan. IsOpenedLast (F.tells files.old) (F.bytes_of files.old command.file) command
        (F.begun files.new) plan.shown.answer) }
    ensures opened { IfOk result (λ plan. AreOpened (F.tells files.old) (F.bytes_of files.old command.file) command
        (record { count = F.openings files.old; last = F.begun files.old }) (record { count = F.openings files.new; last = F.begun files.new }) plan.shown.answer) }
    ensures wanting { OnErr result (AreOpened (F.tells files.old) (F.bytes_of files.old command.file) command
        (record { count = F.openings files.old; last = F.begun files.old }) (record { count = F.openings files.new; last = F.begun files.new }) ReplayAnswer.OutOfMemory) }
    ensures judged { IfOk result (λ plan. IsAnswered (F.tells files.old) (F.bytes_of files.old command.file)
        (F.bytes_of files.old command.choices) command plan.shown.names plan.shown.answer) }
{
    let Answered { answer, names } = answer_of_command(alloc, &command, files)?;
    let ReplayCommand {
        file,
        choices,
        steps: _,
        model: _,
        strict: _,
    } = command;
    reported(
        alloc,
        ReplayShown {
            file,
            choices,
            names,
            answer,
        },
    )
}

/// An answer with its report.
fn reported(alloc: Global, shown: ReplayShown) -> Result<Plan, NoMemory>
    requires { HasPrintableReplay shown.names shown.answer }
    ensures shown { IfOk result (λ plan. plan.shown ≡ shown) }
    ensures text { IfOk result (λ plan. plan.text ≡ replay_bytes shown) }
{
    let text = replay_text(alloc, &shown)?;
    Ok(Plan { shown, text })
}
