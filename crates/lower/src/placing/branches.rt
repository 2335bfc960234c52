//! Conditions with what follows on each side of them, and full expressions (C11 6.8p4, 6.8.4, 6.8.5).
ghost use Rattle.std.specs.Prelude.{◌≡◌, ◌+◌, ◌<◌, ◌^◌, ◌∷◌, ◌++◌, [], IfOk, OnOk};
ghost use Rattle.flow.specs.declared.instruction.Instr.TheVariants as i;
ghost use Rattle.c_machine.specs.Program.{Program};
ghost use Rattle.c_machine.specs.Trees.{text_of};
ghost use Rattle.lower.specs.Around.{around_of};
ghost use Rattle.lower.specs.Built.{made_of};
ghost use Rattle.lower.specs.Jobs.{LeadsTo};
ghost use Rattle.lowering.specs.declared.wanted.Wanted.TheVariants.{AsTest, AsWork};
ghost use Rattle.lowering.specs.LetGo.{left_of};
ghost use Rattle.lowering.specs.declared.moves.Move.TheVariants.{Emits};
ghost use Rattle.lowering.specs.Moves.{run_of};
ghost use Rattle.lowering.specs.Placing.{Around, along, branch, full_moves, go, place_branch, place_full, stands_at, with_point, with_registers, with_spares};
ghost use Rattle.lowering.specs.Source.{IsSource};

use crate::around::Surroundings;
use crate::builder::Builder;
use crate::jobs::{Job, Jobs, LoopAround, copied_loop, go_next};
use c_steps::{Stack, Tree};
use cbase::{Expr, NoMemory, Place};
use flow::Instr;
use lowering::left::left_of;
use lowering::line::{TreeLine, emits};
use lowering::moves::Move;
use lowering::source::Source;
use lowering::standing::with_spares;
use lowering::statement_lines::{full_moves, run_of};
use lowering::wanted::Wanted;
use std::alloc::Global;

/// A condition at a point, and on each side of it the end of its full expression and what follows, where it holds within a loop that may be another one.
pub(crate) fn branch<'a>(
    alloc: Global,
    source: &Source,
    builder: &mut Builder,
    jobs: &mut Jobs<'a>,
    around: &Surroundings,
    levels: u64,
    from: u32,
    test: &'a Expr,
    close: Place,
    one: TreeLine<'a>,
    one_to: u32,
    other: TreeLine<'a>,
    other_to: u32,
    turning: Option<LoopAround>,
) -> Result<(), NoMemory>
    ensures { OnOk result ((p : Program) → IsSource source.now p → LeadsTo p (around_of around.now) jobs.old
        (branch (text_of p) (go levels (text_of p)) (around_of around.now) (record (around_of around.now) { loop = turning }) (made_of builder.old) from test.now close one.entry one_to
        other.entry other_to) jobs.new (made_of builder.new)) }
{
    let count = left_of(source, Wanted::AsTest, test)?;
    branch_with(
        alloc, builder, jobs, around, levels, from, test, count, close, one, one_to, other,
        other_to, turning,
    )
}

/// The same of a condition that lets go of so many values.
fn branch_with<'a>(
    alloc: Global,
    builder: &mut Builder,
    jobs: &mut Jobs<'a>,
    around: &Surroundings,
    levels: u64,
    from: u32,
    test: &'a Expr,
    count: u32,
    close: Place,
    one: TreeLine<'a>,
    one_to: u32,
    other: TreeLine<'a>,
    other_to: u32,
    turning: Option<LoopAround>,
) -> Result<(), NoMemory>
    ensures { OnOk result ((p : Program) → LeadsTo p (around_of around.now) jobs.old
        (place_branch (text_of p) (go levels (text_of p)) (around_of around.now) (record (around_of around.now) { loop = turning }) (made_of builder.old) from test.now count close
        one.entry one_to other.entry other_to) jobs.new (made_of builder.new)) }
{
    let first = builder.registers;
    let off = sides(alloc, builder, from, first, count)?;
    let outside = copied_loop(alloc, &around.current)?;
    let mut one = one;
    let mut other = other;
    finish_first(alloc, &mut one, first, count, close)?;
    finish_first(alloc, &mut other, first, count, close)?;
    branch_jobs(
        jobs, levels, from, test, first, off, one, one_to, other, other_to, turning, outside,
    )
}

/// The points where the two sides of a condition begin, and the registers for what it lets go of. It answers the number of the first point.
fn sides(
    alloc: Global,
    builder: &mut Builder,
    from: u32,
    first: u32,
    count: u32,
) -> Result<u32, NoMemory>
    requires { first ≡ builder.old.registers }
    ensures is { IfOk result (λ off. (off ≡ builder.old.points) × (made_of builder.new ≡ with_registers count
        (with_point (with_spares first count (stands_at (made_of builder.old) from)) (with_point (with_spares first count (stands_at (made_of builder.old) from)) (made_of builder.old))))) }
    ensures fits { IfOk result (λ off. off + 1 < 2 ^ 32) }
{
    let mut standing = builder.stands_at(alloc, from)?;
    with_spares(alloc, &mut standing, first, count)?;
    let off = builder.two_points(alloc, &standing)?;
    match builder.registers(count) {
        Ok(_) => Ok(off),
        Err(error) => Err(error),
    }
}

/// The end of a full expression is to be placed next, with registers from one on.
fn finish_first<'a>(
    alloc: Global,
    line: &mut TreeLine<'a>,
    first: u32,
    count: u32,
    place: Place,
) -> Result<(), NoMemory>
    ensures { OnOk result (line.new ≡ Emits (i.Finish (run_of first count)) place ∷ line.old) }
{
    let registers = run_of(alloc, first, count)?;
    emits(line, Instr::Finish { registers }, place)
}

/// The jobs of a condition with what follows on each side.
fn branch_jobs<'a>(
    jobs: &mut Jobs<'a>,
    levels: u64,
    from: u32,
    test: &'a Expr,
    first: u32,
    off: u32,
    one: TreeLine<'a>,
    one_to: u32,
    other: TreeLine<'a>,
    other_to: u32,
    turning: Option<LoopAround>,
    outside: Option<LoopAround>,
) -> Result<(), NoMemory>
    requires { off + 1 < 2 ^ 32 }
    ensures { OnOk result (jobs.new ≡ Job.Go levels from (Move.Asks test.now first off (off + 1)) from ∷ Job.Within turning ∷ Job.Follow levels (off + 1) one.entry one_to
        ∷ Job.Within outside ∷ Job.Follow levels off other.entry other_to ∷ jobs.old) }
{
    jobs.push(Job::Follow {
        levels,
        from: off,
        moves: other,
        to: other_to,
    })?;
    jobs.push(Job::Within(outside))?;
    let on = off + 1;
    jobs.push(Job::Follow {
        levels,
        from: on,
        moves: one,
        to: one_to,
    })?;
    jobs.push(Job::Within(turning))?;
    go_next(
        jobs,
        levels,
        from,
        Move::Asks {
            expr: Tree::of(test),
            spare: first,
            off,
            on,
        },
        from,
    )
}

/// A full expression whose value is not used.
pub(crate) fn place_full<'a>(
    alloc: Global,
    source: &Source,
    builder: &mut Builder,
    jobs: &mut Jobs<'a>,
    levels: u64,
    from: u32,
    expr: &'a Expr,
    end: Place,
    to: u32,
) -> Result<(), NoMemory>
    ensures { OnOk result ((p : Program) (around : Around) → IsSource source.now p → LeadsTo p around jobs.old
        (place_full (text_of p) (go levels (text_of p)) around (made_of builder.old) from expr.now end to) jobs.new (made_of builder.new)) }
{
    let count = left_of(source, Wanted::AsWork, expr)?;
    full_with(alloc, builder, jobs, levels, from, expr, count, end, to)
}

/// The same of one that lets go of so many values.
fn full_with<'a>(
    alloc: Global,
    builder: &mut Builder,
    jobs: &mut Jobs<'a>,
    levels: u64,
    from: u32,
    expr: &'a Expr,
    count: u32,
    end: Place,
    to: u32,
) -> Result<(), NoMemory>
    ensures { OnOk result ((p : Program) (around : Around) → LeadsTo p around jobs.old
        (along (text_of p) around (go levels (text_of p) around) (with_registers count (made_of builder.old)) from
        (full_moves (text_of p) expr.now builder.old.registers count end) to) jobs.new (made_of builder.new)) }
{
    let first = builder.registers(count)?;
    let mut moves = Stack::new(alloc);
    full_moves(alloc, &mut moves, expr, first, count, end)?;
    jobs.push(Job::Follow {
        levels,
        from,
        moves,
        to,
    })
}
