//! Blocks are entered and left (C11 6.8.2).
ghost use Rattle.lowering.specs.Placing.{enters, leaves};
ghost use Rattle.std.specs.Prelude.{◌≡◌, ◌∷◌, OnOk};

use crate::jobs::{Job, Jobs};
use cbase::{List, NoMemory, Place};
use flow::Instr;
use lowering::line::{TreeLine, emits};
use lowering::names::{Named, variables_of};
use std::alloc::Global;

/// The objects of a block begin to stand next.
pub(crate) fn enters<'a>(
    alloc: Global,
    line: &mut TreeLine<'a>,
    names: &[Named],
    place: Place,
) -> Result<(), NoMemory>
    ensures { OnOk result (line.new ≡ enters names.now place ∷ line.old) }
{
    let variables = variables_of(alloc, names)?;
    emits(line, Instr::Enter { variables }, place)
}

/// The objects of a block are left next.
pub(crate) fn leaves<'a>(
    alloc: Global,
    line: &mut TreeLine<'a>,
    names: &[Named],
    place: Place,
) -> Result<(), NoMemory>
    ensures { OnOk result (line.new ≡ leaves names.now place ∷ line.old) }
{
    let variables = variables_of(alloc, names)?;
    emits(line, Instr::Leave { variables }, place)
}

/// Moves in a block of these objects are to be placed next.
pub(crate) fn in_scope<'a>(
    jobs: &mut Jobs<'a>,
    levels: u64,
    from: u32,
    names: List<Named>,
    moves: TreeLine<'a>,
    to: u32,
) -> Result<(), NoMemory>
    ensures { OnOk result (jobs.new ≡ Job.Block names ∷ Job.Follow levels from moves.entry to ∷ Job.Unblock ∷ jobs.old) }
{
    jobs.push(Job::Unblock)?;
    jobs.push(Job::Follow {
        levels,
        from,
        moves,
        to,
    })?;
    jobs.push(Job::Block(names))
}
