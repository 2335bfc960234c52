ghost use Rattle.std.specs.Prelude.{◌≡◌, ◌≢◌, ◌↔◌, ◌⊎◌, ℕ, ◌+◌, ◌<◌, ◌≤◌, true, false, IsTrue, IfOk, None, Some};
ghost use Rattle.std.specs.Prelude.{List as Items, [], length, map, take, string_bytes};
ghost use Rattle.outside.specs.Faults.{Rose};
ghost use Rattle.outside.specs.Reading.{IsWithin, LeavesAtMost};
ghost use Rattle.outside.specs.Sink.{appended};
ghost use Rattle.ctokens.specs.InText.{most_bytes};
ghost use Rattle.command_line.specs.CommandLine.{command_of, file_of};
ghost use Rattle.report.specs.Report.{HasPrintable, report_bytes, status_of};
ghost use Rattle.report.specs.declared.answer.Answer.{Answer};
ghost use Rattle.verdicts.specs.Verdict.{CanBeAnalysed, IsAnalysed, IsExact, IsRefusal, IsVerdict, Judges};
ghost use Rattle.verdicts.specs.Answered.{IsAnswered};
ghost use Rattle.verdicts.specs.Opened.{IsOpened, IsOpenedAtMost};
ghost use Rattle.verdicts.specs.Shown.{file_in, file_shown, limits_in, limits_shown};

use crate::judge::{Judged, judge};
use cbase::{List, NoMemory, Text};
use command_line::{Command, command_of};
use outside::{Files, Reading, Sink, read_file, send};
use report::{Answer, Limits, Shown, report_text, status};
use std::alloc::Global;

/// How many bytes a file has at most, if it is to be read to its end.
const MOST_BYTES: u32 = 4_194_304;

/// The exit status where the report could not be written whole.
const WRITE_FAULT: u8 = 6;

/// What the program did.
#[derive(Drop)]
pub struct Outcome {
    /// The exit status.
    pub status: u8,
    /// The answer, with the file that it is about.
    pub shown: Shown,
    /// Whether the whole report was written.
    pub sent: bool,
}

/// An answer with its report.
#[derive(Drop)]
struct Plan {
    /// The answer, with the file that it is about.
    shown: Shown,
    /// The report's bytes.
    text: Text,
}

/// Reads the file that the words give, answers for it and writes the report.
///
/// The words are those behind the program's name. Where memory is wanting the answer is `OutOfMemory`, and
/// nothing is written.
#[tactic(auto, using(crate::proofs::Exactness::is_verdict))]
pub fn predator<F: Files, K: Sink>(
    alloc: Global,
    words: &[String],
    files: &mut F,
    out: &mut K,
) -> Outcome
    // Usage comes exactly where the words name no file, and no file is touched there.
    ensures usage { file_of (map string_bytes words.now) ≡ None
        → (result.shown.answer ≡ Answer.Usage) ⊎ (result.shown.answer ≡ Answer.OutOfMemory) }
    ensures usage_only { result.shown.answer ≡ Answer.Usage → file_of (map string_bytes words.now) ≡ None }
    ensures untouched { file_of (map string_bytes words.now) ≡ None → files.new ≡ files.old }

    // What is shown with the answer.
    ensures named { result.shown.file ≡ file_shown (file_in (command_of (map string_bytes words.now))) result.shown.answer }
    ensures no_names { file_of (map string_bytes words.now) ≡ None → result.shown.names ≡ [] }
    ensures limits { result.shown.limits ≡ limits_shown (limits_in (command_of (map string_bytes words.now))) result.shown.answer }

    // ReadFault comes only where the last call, on this very file, failed.
    ensures rose { result.shown.answer ≡ Answer.ReadFault → Rose (F.faults files.old) (F.faults files.new) }
    ensures failed { result.shown.answer ≡ Answer.ReadFault → F.failed files.new ≡ true }
    ensures begun { result.shown.answer ≡ Answer.ReadFault
        → file_of (map string_bytes words.now) ≡ Some (F.begun files.new) }

    // It is opened exactly once, and no other file is; where memory is wanting, at most once.
    ensures opened { (file : Items ℕ) → file_of (map string_bytes words.now) ≡ Some file
        → result.shown.answer ≢ Answer.OutOfMemory
        → IsOpened (record { count = F.openings files.old; last = F.begun files.old })
        (record { count = F.openings files.new; last = F.begun files.new }) file }
    ensures at_most { (file : Items ℕ) → file_of (map string_bytes words.now) ≡ Some file
        → IsOpenedAtMost (record { count = F.openings files.old; last = F.begun files.old })
        (record { count = F.openings files.new; last = F.begun files.new }) file }

    // The other answers say what is true of the file's bytes: each refusal exactly where it is true, and what the analysis came to exactly where the
    // bytes hold a program that can be analysed. The names are those of the files of the text.
    ensures verdict { (file : Items ℕ) → file_of (map string_bytes words.now) ≡ Some file
        → result.shown.answer ≢ Answer.ReadFault → result.shown.answer ≢ Answer.OutOfMemory
        → IsVerdict result.shown.answer }
    ensures judged { (file : Items ℕ) → file_of (map string_bytes words.now) ≡ Some file
        → IsAnswered (F.tells files.old) (F.bytes_of files.old file) (F.left files.new)
        (limits_in (command_of (map string_bytes words.now))) file result.shown.names result.shown.answer }
    ensures exactly { (file whole : Items ℕ) (other : Answer) → file_of (map string_bytes words.now) ≡ Some file
        → IsTrue (F.tells files.old) → F.bytes_of files.old file ≡ Some whole
        → result.shown.answer ≢ Answer.ReadFault → result.shown.answer ≢ Answer.OutOfMemory
        → IsRefusal other → (result.shown.answer ≡ other) ↔ Judges (limits_in (command_of (map string_bytes words.now))) file whole other }
    ensures analysed { (file whole : Items ℕ) → file_of (map string_bytes words.now) ≡ Some file
        → IsTrue (F.tells files.old) → F.bytes_of files.old file ≡ Some whole
        → result.shown.answer ≢ Answer.ReadFault → result.shown.answer ≢ Answer.OutOfMemory
        → IsAnalysed result.shown.answer ↔ CanBeAnalysed file whole }

    // At most 4,194,305 bytes of the file are taken.
    ensures taken { (file : Items ℕ) → file_of (map string_bytes words.now) ≡ Some file
        → IsTrue (F.tells files.old) → F.failed files.new ≡ false
        → (files.new ≡ files.old) ⊎ LeavesAtMost (most_bytes + 1) (F.bytes_of files.old file) (F.left files.new) }

    // The report is written, whole or up to a write fault.
    ensures status { result.sent ≡ true → result.status ≡ status_of result.shown.answer }
    ensures sent { result.sent ≡ true
        → K.written out.new ≡ appended (K.written out.old) (report_bytes result.shown) }
    ensures write_fault { result.sent ≡ false → (result.status ≡ 6) × Rose (K.faults out.old) (K.faults out.new) }
    ensures unsent { result.sent ≡ false
        → (n : ℕ) × (n < length (report_bytes result.shown))
        × (K.written out.new ≡ appended (K.written out.old) (take n (report_bytes result.shown))) }
    ensures silent { report_bytes result.shown ≡ [] → out.new ≡ out.old }
{
    match planned(alloc, words, files) {
        Ok(plan) => delivered(plan, out),
        Err(_) => Outcome {
            status: status(&Answer::OutOfMemory),
            shown: nothing_shown(alloc, Answer::OutOfMemory),
            sent: true,
        },
    }
}

/// Writes the report.
fn delivered<K: Sink>(plan: Plan, out: &mut K) -> Outcome
    requires { plan.text ≡ report_bytes plan.shown }
    ensures shown { result.shown ≡ plan.shown }
    ensures status { result.sent ≡ true → result.status ≡ status_of plan.shown.answer }
    ensures sent { result.sent ≡ true
        → K.written out.new ≡ appended (K.written out.old) (report_bytes plan.shown) }
    ensures write_fault { result.sent ≡ false → (result.status ≡ 6) × Rose (K.faults out.old) (K.faults out.new) }
    ensures unsent { result.sent ≡ false
        → (n : ℕ) × (n < length (report_bytes plan.shown))
        × (K.written out.new ≡ appended (K.written out.old) (take n (report_bytes plan.shown))) }
    ensures silent { report_bytes plan.shown ≡ [] → out.new ≡ out.old }
{
    let sent = send(out, plan.text.as_slice());
    let status = if sent {
        status(&plan.shown.answer)
    } else {
        WRITE_FAULT
    };
    let Plan { shown, text: _ } = plan;
    Outcome {
        status,
        shown,
        sent,
    }
}

/// The answer to the words, with its report.
#[tactic(auto, using(crate::proofs::Exactness::budget_some))]
fn planned<F: Files>(alloc: Global, words: &[String], files: &mut F) -> Result<Plan, NoMemory>
    ensures text { IfOk result (λ plan. plan.text ≡ report_bytes plan.shown) }
    ensures known { IfOk result (λ plan. plan.shown.answer ≢ Answer.OutOfMemory) }
    ensures usage { file_of (map string_bytes words.now) ≡ None
        → IfOk result (λ plan. plan.shown.answer ≡ Answer.Usage) }
    ensures usage_only { IfOk result (λ plan. plan.shown.answer ≡ Answer.Usage
        → file_of (map string_bytes words.now) ≡ None) }
    ensures named { IfOk result (λ plan. plan.shown.file
        ≡ file_shown (file_in (command_of (map string_bytes words.now))) plan.shown.answer) }
    ensures no_names { file_of (map string_bytes words.now) ≡ None → IfOk result (λ plan. plan.shown.names ≡ []) }
    ensures limits { IfOk result (λ plan. plan.shown.limits
        ≡ limits_shown (limits_in (command_of (map string_bytes words.now))) plan.shown.answer) }
    ensures rose { IfOk result (λ plan. plan.shown.answer ≡ Answer.ReadFault
        → Rose (F.faults files.old) (F.faults files.new)) }
    ensures failed { IfOk result (λ plan. plan.shown.answer ≡ Answer.ReadFault → F.failed files.new ≡ true) }
    ensures begun { IfOk result (λ plan. plan.shown.answer ≡ Answer.ReadFault
        → file_of (map string_bytes words.now) ≡ Some (F.begun files.new)) }
    ensures opened { (file : Items ℕ) → file_of (map string_bytes words.now) ≡ Some file
        → IfOk result (λ _. IsOpened (record { count = F.openings files.old; last = F.begun files.old })
        (record { count = F.openings files.new; last = F.begun files.new }) file) }
    ensures at_most { (file : Items ℕ) → file_of (map string_bytes words.now) ≡ Some file
        → IsOpenedAtMost (record { count = F.openings files.old; last = F.begun files.old })
        (record { count = F.openings files.new; last = F.begun files.new }) file }
    ensures judged { (file : Items ℕ) → file_of (map string_bytes words.now) ≡ Some file
        → IfOk result (λ plan. IsAnswered (F.tells files.old) (F.bytes_of files.old file)
        (F.left files.new) (limits_in (command_of (map string_bytes words.now))) file plan.shown.names plan.shown.answer) }
    ensures exact { (file whole : Items ℕ) → file_of (map string_bytes words.now) ≡ Some file
        → IsTrue (F.tells files.old) → F.bytes_of files.old file ≡ Some whole
        → IfOk result (λ plan. plan.shown.answer ≢ Answer.ReadFault
        → IsExact (limits_in (command_of (map string_bytes words.now))) file whole plan.shown.answer) }
    ensures taken { (file : Items ℕ) → file_of (map string_bytes words.now) ≡ Some file
        → IsTrue (F.tells files.old) → F.failed files.new ≡ false
        → (files.new ≡ files.old) ⊎ LeavesAtMost (most_bytes + 1) (F.bytes_of files.old file) (F.left files.new) }
    ensures untouched { file_of (map string_bytes words.now) ≡ None → files.new ≡ files.old }
{
    match command_of(alloc, words)? {
        Some(command) => planned_command(alloc, command, files),
        None => reported(alloc, nothing_shown(alloc, Answer::Usage)),
    }
}

/// An answer that is about no file.
fn nothing_shown(alloc: Global, answer: Answer) -> Shown
    ensures { result ≡ record { file = []; names = []; limits = limits_in None; answer = answer } }
{
    Shown {
        file: Text::new(alloc),
        names: List::new(alloc),
        limits: Limits::DEFAULT,
        answer,
    }
}

/// The answer to a command, with its report.
fn planned_command<F: Files>(
    alloc: Global,
    command: Command,
    files: &mut F,
) -> Result<Plan, NoMemory>
    requires { 1 ≤ command.budget }
    ensures text { IfOk result (λ plan. plan.text ≡ report_bytes plan.shown) }
    ensures known { IfOk result (λ plan. plan.shown.answer ≢ Answer.OutOfMemory) }
    ensures no_usage { IfOk result (λ plan. plan.shown.answer ≢ Answer.Usage) }
    ensures named { IfOk result (λ plan. plan.shown.file ≡ command.file) }
    ensures limits { IfOk result (λ plan. plan.shown.limits ≡ limits_in (Some command)) }
    ensures rose { IfOk result (λ plan. plan.shown.answer ≡ Answer.ReadFault
        → Rose (F.faults files.old) (F.faults files.new)) }
    ensures failed { IfOk result (λ plan. plan.shown.answer ≡ Answer.ReadFault → F.failed files.new ≡ true) }
    ensures begun { IfOk result (λ plan. plan.shown.answer ≡ Answer.ReadFault → F.begun files.new ≡ command.file) }
    ensures opened { IfOk result (λ _. IsOpened (record { count = F.openings files.old; last = F.begun files.old })
        (record { count = F.openings files.new; last = F.begun files.new }) command.file) }
    ensures at_most { IsOpenedAtMost (record { count = F.openings files.old; last = F.begun files.old })
        (record { count = F.openings files.new; last = F.begun files.new }) command.file }
    ensures judged { IfOk result (λ plan. IsAnswered (F.tells files.old) (F.bytes_of files.old command.file)
        (F.left files.new) (limits_in (Some command)) command.file plan.shown.names plan.shown.answer) }
    ensures exact { (whole : Items ℕ) → IsTrue (F.tells files.old)
        → F.bytes_of files.old command.file ≡ Some whole
        → IfOk result (λ plan. plan.shown.answer ≢ Answer.ReadFault → IsExact (limits_in (Some command)) command.file whole plan.shown.answer) }
    ensures taken { IsTrue (F.tells files.old) → F.failed files.new ≡ false
        → (files.new ≡ files.old) ⊎ LeavesAtMost (most_bytes + 1) (F.bytes_of files.old command.file) (F.left files.new) }
{
    let Command {
        file,
        budget,
        int_limit,
    } = command;
    let limits = Limits { budget, int_limit };
    let Judged { answer, names } = answer_of_file(alloc, &limits, file.as_slice(), files)?;
    reported(
        alloc,
        Shown {
            file,
            names,
            limits,
            answer,
        },
    )
}

/// An answer with its report.
fn reported(alloc: Global, shown: Shown) -> Result<Plan, NoMemory>
    requires { HasPrintable shown.names shown.answer }
    ensures shown { IfOk result (λ plan. plan.shown ≡ shown) }
    ensures text { IfOk result (λ plan. plan.text ≡ report_bytes shown) }
{
    let text = report_text(alloc, &shown)?;
    Ok(Plan { shown, text })
}

/// The answer to a file: what is read of it is judged.
#[tactic(auto, using(crate::proofs::OneVerdict::long_exact))]
fn answer_of_file<F: Files>(
    alloc: Global,
    limits: &Limits,
    file: &[u8],
    files: &mut F,
) -> Result<Judged, NoMemory>
    requires { 1 ≤ limits.now.budget }
    ensures known { IfOk result (λ judged. judged.answer ≢ Answer.OutOfMemory) }
    ensures no_usage { IfOk result (λ judged. judged.answer ≢ Answer.Usage) }
    ensures printable { IfOk result (λ judged. HasPrintable judged.names judged.answer) }
    ensures rose { IfOk result (λ judged. judged.answer ≡ Answer.ReadFault
        → Rose (F.faults files.old) (F.faults files.new)) }
    ensures failed { IfOk result (λ judged. judged.answer ≡ Answer.ReadFault → F.failed files.new ≡ true) }
    ensures begun { IfOk result (λ judged. judged.answer ≡ Answer.ReadFault → F.begun files.new ≡ file.now) }
    ensures opened { IfOk result (λ _. IsOpened (record { count = F.openings files.old; last = F.begun files.old })
        (record { count = F.openings files.new; last = F.begun files.new }) file.now) }
    ensures at_most { IsOpenedAtMost (record { count = F.openings files.old; last = F.begun files.old })
        (record { count = F.openings files.new; last = F.begun files.new }) file.now }
    ensures judged { IfOk result (λ judged. IsAnswered (F.tells files.old) (F.bytes_of files.old file.now)
        (F.left files.new) limits.now file.now judged.names judged.answer) }
    ensures exact { (whole : Items ℕ) → IsTrue (F.tells files.old)
        → F.bytes_of files.old file.now ≡ Some whole
        → IfOk result (λ judged. judged.answer ≢ Answer.ReadFault → IsExact limits.now file.now whole judged.answer) }
    ensures taken { IsTrue (F.tells files.old) → F.failed files.new ≡ false
        → (files.new ≡ files.old) ⊎ LeavesAtMost (most_bytes + 1) (F.bytes_of files.old file.now) (F.left files.new) }
{
    let name = Text::from_slice(alloc, file)?;
    match read_file(alloc, files, name, MOST_BYTES)? {
        Reading::Whole(text) => judge(alloc, limits, file, text.as_slice()),
        Reading::Long(_) => Ok(Judged {
            answer: Answer::TooLong {
                taken: MOST_BYTES + 1,
            },
            names: List::new(alloc),
        }),
        Reading::Failed => Ok(Judged {
            answer: Answer::ReadFault,
            names: List::new(alloc),
        }),
    }
}
