//! What is answered of what was found of a program.
ghost use Rattle.std.specs.Prelude.{◌≡◌, IfOk, map};
ghost use Rattle.ctokens.specs.TokenList.{HasNamedFiles};
ghost use Rattle.verdicts.specs.Found.{answer_of_judgement, answer_of_verdict, warning_at};

use crate::places::place_at;
use cbase::{List, NoMemory};
use ctokens::Tokens;
use driver::Verdict;
use judgement::Judgement;
use report::{Answer, Warning};
use std::alloc::Global;

/// The answer to what was found of the program of a text; of one without a flow graph there is none.
pub(crate) fn answer_of_judgement(
    alloc: Global,
    t: &Tokens,
    judgement: &Judgement,
) -> Result<Option<Answer>, NoMemory>
    requires { HasNamedFiles t.now }
    ensures { IfOk result (λ answer. answer ≡ answer_of_judgement t.now judgement.now) }
{
    match judgement {
        Judgement::NoGraph => Ok(None),
        Judgement::Judged { verdict, .. } => {
            let answer = answer_of_verdict(alloc, t, verdict)?;
            Ok(Some(answer))
        }
    }
}

/// The answer to what the analysis of the program of a text came to.
fn answer_of_verdict(alloc: Global, t: &Tokens, verdict: &Verdict) -> Result<Answer, NoMemory>
    requires { HasNamedFiles t.now }
    ensures { IfOk result (λ answer. answer ≡ answer_of_verdict t.now verdict.now) }
{
    match verdict {
        Verdict::Safe { .. } => Ok(Answer::Safe),
        Verdict::Warned {
            warnings,
            complete,
            ..
        } => {
            let warnings = warnings_of(alloc, t, warnings.as_slice())?;
            Ok(Answer::Warned {
                warnings,
                complete: *complete,
            })
        }
        Verdict::Spent { .. } => Ok(Answer::Spent),
        Verdict::Large { .. } => Ok(Answer::Large),
        Verdict::NotYet { place } => Ok(Answer::NotYet {
            place: place_at(t, place.at),
        }),
    }
}

/// Warnings at the places of their tokens, in their order.
fn warnings_of(
    alloc: Global,
    t: &Tokens,
    warnings: &[driver::Warning],
) -> Result<List<Warning>, NoMemory>
    requires { HasNamedFiles t.now }
    ensures { IfOk result (λ placed. placed ≡ map (warning_at t.now) warnings.now) }
{
    let mut placed = List::new(alloc);
    for warning in warnings {
        placed.push(warning_at(t, warning))?;
    }
    Ok(placed)
}

/// A warning at the place of its token.
fn warning_at(t: &Tokens, warning: &driver::Warning) -> Warning
    requires { HasNamedFiles t.now }
    ensures { result ≡ warning_at t.now warning.now }
{
    Warning {
        place: place_at(t, warning.place.at),
        kind: warning.kind,
        error: warning.error,
    }
}
