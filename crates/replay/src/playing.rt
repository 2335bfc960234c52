ghost use Rattle.std.specs.Prelude.{◌≡◌, List as Items, IfOk};
ghost use Rattle.choices.specs.declared.choice.Choice.{Choice};
ghost use Rattle.expressions.specs.Numbers.{Numbering};
ghost use Rattle.ctokens.specs.TokenList.{HasNamedFiles};
ghost use Rattle.c_machine.specs.Program.{Program};
ghost use Rattle.c_machine.specs.Run.{run_of};
ghost use Rattle.c_machine.specs.State.{StateIn};
ghost use Rattle.c_machine.specs.Trees.{text_of};
ghost use Rattle.c_text.specs.Stands.{StandsFor};
ghost use Rattle.c_steps.specs.ComesTo.{comes_to};
ghost use Rattle.report.specs.ReplayReport.{HasPrintableRun};
ghost use Rattle.replay.specs.Program.{what_of};

use c_run::run_program;
use c_steps::Outcome;
use c_text::TypedText;
use cbase::{Item, NoMemory};
use choices::Choice;
use ctokens::Tokens;
use report::Replayed;
use std::alloc::Global;
use verdicts::place_at;

/// What a run of a program does with these choices within so many steps.
///
/// The contract speaks of each program that the text stands for by some numbering.
pub(crate) fn play(
    alloc: Global,
    t: &Tokens,
    program: &[Item],
    text: &TypedText,
    strict: bool,
    choices: &[Choice],
    steps: u32,
) -> Result<Replayed, NoMemory>
    requires { HasNamedFiles t.now }
    ensures is { IfOk result (λ what. (n : Numbering) (p : Program) → StandsFor n text.now p
        → p.items ≡ program.now → p.strict ≡ strict
        → what_of t.now (run_of (text_of p) choices.now steps) ≡ what) }
    ensures printable { IfOk result (HasPrintableRun t.now.names) }
{
    let outcome = run_program(alloc, program, text, strict, choices, steps)?;
    Ok(replayed(t, outcome))
}

/// What is answered of what a run comes to.
fn replayed(t: &Tokens, outcome: Outcome) -> Replayed
    requires { HasNamedFiles t.now }
    ensures is { (p : Program) (state : StateIn (text_of p)) (rest : Items Choice)
        → what_of t.now (comes_to outcome state rest) ≡ result }
    ensures printable { HasPrintableRun t.now.names result }
{
    match outcome {
        Outcome::Went => Replayed::Running,
        Outcome::Waits => Replayed::Waits,
        Outcome::Ended => Replayed::Ended,
        Outcome::Faulted { kind, place } => Replayed::Fault {
            kind,
            place: place_at(t, place.at),
        },
        Outcome::Stuck => Replayed::Stuck,
    }
}
