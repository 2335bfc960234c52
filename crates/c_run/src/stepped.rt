ghost use Rattle.std.specs.Prelude.{◌≡◌, MatchResult, Ok, Err};
ghost use Rattle.c_run.specs.declared.stepped.Stepped.TheVariants.{Came};
ghost use Rattle.c_run.specs.Stepped.{goes_on, stepped_by};

use crate::tasks::Room;
use c_steps::Outcome;
use cbase::NoMemory;

/// What a step of a program comes to.
#[derive(Clone, Copy, Debug, PartialEq, Eq)]
pub enum Stepped {
    /// It is done, and came to that.
    Came(Outcome),
    /// It speaks of a type that is not kept, as `c_text::type_kind` says. The state is of no use.
    NotKept,
}

/// What a step that makes room comes to.
pub(crate) fn stepped_by(answer: Result<Room, NoMemory>) -> Result<Stepped, NoMemory>
    ensures { MatchResult answer (λ room. result ≡ Ok (stepped_by room)) (λ error. result ≡ Err error) }
{
    match answer {
        Ok(Room::Made) => Ok(Stepped::Came(Outcome::Went)),
        Ok(Room::NotKept) => Ok(Stepped::NotKept),
        Err(error) => Err(error),
    }
}

/// What a step that is done comes to.
pub(crate) fn came(answer: Result<Outcome, NoMemory>) -> Result<Stepped, NoMemory>
    ensures { MatchResult answer (λ outcome. result ≡ Ok (Came outcome)) (λ error. result ≡ Err error) }
{
    match answer {
        Ok(outcome) => Ok(Stepped::Came(outcome)),
        Err(error) => Err(error),
    }
}

/// Whether a run goes on behind a step.
pub(crate) fn goes_on(stepped: Stepped) -> bool
    ensures { result ≡ goes_on stepped }
{
    match stepped {
        Stepped::Came(Outcome::Went) => true,
        _ => false,
    }
}
