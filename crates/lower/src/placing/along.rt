//! Moves one behind the other.
ghost use Rattle.std.specs.Prelude.{◌≡◌, ◌∷◌, IfOk, OnOk};
ghost use Rattle.c_machine.specs.Program.{Program};
ghost use Rattle.c_machine.specs.Trees.{text_of};
ghost use Rattle.lower.specs.Around.{around_of};
ghost use Rattle.lower.specs.Built.{made_of};
ghost use Rattle.lower.specs.Jobs.{LeadsTo};
ghost use Rattle.lowering.specs.Placing.{Around, along_at, along_from, go};
ghost use Rattle.lowering.specs.Source.{IsSource};
ghost use Rattle.lower.specs.Ways.{begin_in, way_in, BeginsAt};

use crate::around::Surroundings;
use crate::builder::{Builder, copied};
use crate::jobs::{Job, Jobs, go_next};
use crate::placing::begins::{begins, way_of};
use crate::placing::behind::behind;
use crate::placing::ways::Way;
use cbase::NoMemory;
use flow::Standing;
use lowering::line::{TreeLine, TreeMove};
use lowering::source::Source;
use std::alloc::Global;

/// The first of some moves is placed next, and then those behind it.
pub(crate) fn place_along<'a>(
    alloc: Global,
    source: &Source,
    builder: &mut Builder,
    jobs: &mut Jobs<'a>,
    around: &Surroundings,
    levels: u64,
    from: u32,
    standing: Standing,
    moves: TreeLine<'a>,
    to: u32,
) -> Result<(), NoMemory>
    ensures { OnOk result ((p : Program) → IsSource source.now p
        → LeadsTo p (around_of around.now) jobs.old (along_at (text_of p) (around_of around.now) (go levels (text_of p) (around_of around.now)) (made_of builder.old) from standing moves.entry to)
        jobs.new (made_of builder.new)) }
{
    let mut moves = moves;
    let mut standing = standing;
    match moves.pop() {
        None => Ok(()),
        Some(through) => {
            let way = way_of(source, around, &standing, &through);
            behind(alloc, source, &mut standing, &through)?;
            let begin = begins(source, around, &standing, &moves, to);
            place_first(
                alloc, builder, jobs, levels, from, through, way, begin, standing, moves, to,
            )
        }
    }
}

/// A move that goes a way is placed next, where this stands behind it, and then the moves behind it.
fn place_first<'a>(
    alloc: Global,
    builder: &mut Builder,
    jobs: &mut Jobs<'a>,
    levels: u64,
    from: u32,
    through: TreeMove<'a>,
    way: Way,
    begin: Option<u32>,
    standing: Standing,
    moves: TreeLine<'a>,
    to: u32,
) -> Result<(), NoMemory>
    ensures { OnOk result ((p : Program) (around : Around) → LeadsTo p around jobs.old
        (along_from (text_of p) (λ made point. along_at (text_of p) around (go levels (text_of p) around) made point standing moves.entry to)
        (go levels (text_of p) around) (made_of builder.old) from through.entry standing (way_in way) (begin_in begin)) jobs.new (made_of builder.new)) }
{
    match way {
        Way::Idle => along_next(jobs, levels, from, standing, moves, to),
        Way::Leads(_) => {
            let point = begin_at(alloc, builder, begin, &standing)?;
            along_next(jobs, levels, point, standing, moves, to)
        }
        Way::Goes => {
            let point = begin_at(alloc, builder, begin, &standing)?;
            along_next(jobs, levels, point, standing, moves, to)?;
            go_next(jobs, levels, from, through, point)
        }
    }
}

/// The point where moves begin: a new one has this standing.
fn begin_at(
    alloc: Global,
    builder: &mut Builder,
    begin: Option<u32>,
    standing: &Standing,
) -> Result<u32, NoMemory>
    ensures { IfOk result (λ point. BeginsAt begin standing.now point (made_of builder.old) (made_of builder.new)) }
{
    match begin {
        Some(point) => Ok(point),
        None => builder.point(copied(alloc, standing)?),
    }
}

/// Moves are to be placed next, where this stands at the first point.
fn along_next<'a>(
    jobs: &mut Jobs<'a>,
    levels: u64,
    from: u32,
    standing: Standing,
    moves: TreeLine<'a>,
    to: u32,
) -> Result<(), NoMemory>
    ensures { OnOk result (jobs.new ≡ Job.Along levels from standing moves.entry to ∷ jobs.old) }
{
    jobs.push(Job::Along {
        levels,
        from,
        standing,
        moves,
        to,
    })
}
