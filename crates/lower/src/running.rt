//! All that is to be placed, one thing behind the other.
ghost use Rattle.std.specs.Prelude.{◌≡◌, ◌∷◌, OnOk};
ghost use Rattle.c_machine.specs.Program.{Program};
ghost use Rattle.c_machine.specs.Trees.{text_of};
ghost use Rattle.lower.specs.Around.{around_of};
ghost use Rattle.lower.specs.Built.{made_of};
ghost use Rattle.lower.specs.Jobs.{jobs_done};
ghost use Rattle.lowering.specs.Source.{IsSource};

use crate::around::Surroundings;
use crate::builder::Builder;
use crate::jobs::{Job, Jobs, TreeJob};
use crate::placing::along::place_along;
use crate::placing::branches::{branch, place_full};
use crate::placing::step::go_through;
use cbase::NoMemory;
use lowering::source::Source;
use std::alloc::Global;

/// Places all that is to be placed. Where it takes 2^64 turns or more, memory is wanting.
pub(crate) fn place_all<'a>(
    alloc: Global,
    source: &Source,
    builder: &mut Builder,
    around: &mut Surroundings,
    jobs: &mut Jobs<'a>,
) -> Result<(), NoMemory>
    ensures { OnOk result ((p : Program) → IsSource source.now p
        → record { made = made_of builder.new; around = around_of around.new } ≡ jobs_done p jobs.old (record { made = made_of builder.old; around = around_of around.old })) }
{
    for _turn in 0..u64::MAX {
        match jobs.pop() {
            None => return Ok(()),
            Some(job) => do_job(alloc, source, builder, around, jobs, job)?,
        }
    }
    Err(NoMemory)
}

/// Does one thing of what is to be placed.
fn do_job<'a>(
    alloc: Global,
    source: &Source,
    builder: &mut Builder,
    around: &mut Surroundings,
    jobs: &mut Jobs<'a>,
    job: TreeJob<'a>,
) -> Result<(), NoMemory>
    ensures { OnOk result ((p : Program) → IsSource source.now p
        → jobs_done p jobs.new (record { made = made_of builder.new; around = around_of around.new })
        ≡ jobs_done p (job.entry ∷ jobs.old) (record { made = made_of builder.old; around = around_of around.old })) }
{
    match job {
        Job::Along {
            levels,
            from,
            standing,
            moves,
            to,
        } => place_along(
            alloc, source, builder, jobs, around, levels, from, standing, moves, to,
        ),
        Job::Follow {
            levels,
            from,
            moves,
            to,
        } => {
            let standing = builder.stands_at(alloc, from)?;
            place_along(
                alloc, source, builder, jobs, around, levels, from, standing, moves, to,
            )
        }
        Job::Go {
            levels,
            from,
            through,
            to,
        } => go_through(
            alloc, source, builder, jobs, around, levels, from, through, to,
        ),
        Job::Edge {
            from,
            instr,
            to,
            place,
        } => builder.emit(from, instr, to, place),
        Job::Branch {
            levels,
            from,
            test,
            close,
            one,
            one_to,
            other,
            other_to,
            turning,
        } => branch(
            alloc,
            source,
            builder,
            jobs,
            around,
            levels,
            from,
            test.get(),
            close,
            one,
            one_to,
            other,
            other_to,
            turning,
        ),
        Job::Full {
            levels,
            from,
            expr,
            end,
            to,
        } => place_full(
            alloc,
            source,
            builder,
            jobs,
            levels,
            from,
            expr.get(),
            end,
            to,
        ),
        Job::Block(names) => around.scopes.push(names),
        Job::Unblock => {
            drop(around.scopes.pop());
            Ok(())
        }
        Job::Within(current) => {
            around.current = current;
            Ok(())
        }
    }
}
