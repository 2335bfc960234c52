//! `&&` and `||` as conditions (C11 6.5.13, 6.5.14).
ghost use Rattle.c_machine.specs.Program.{Program};
ghost use Rattle.c_machine.specs.Trees.{text_of};
ghost use Rattle.lower.specs.Built.{made_of};
ghost use Rattle.lower.specs.Jobs.{LeadsTo};
ghost use Rattle.lowering.specs.declared.moves.Move.TheVariants.{Asks};
ghost use Rattle.lowering.specs.Moves.{pads};
ghost use Rattle.lowering.specs.Placing.{Around, go, stands_at, two_tests, with_spares};
ghost use Rattle.lower.specs.TwoTests.{first_test};
ghost use Rattle.std.specs.Prelude.{◌≡◌, OnOk, if◌then◌else◌};

use crate::builder::{Builder, copied};
use crate::jobs::{Job, Jobs, asks, go_next};
use c_steps::Stack;
use cbase::{Expr, NoMemory};
use flow::Standing;
use lowering::conditions::pads;
use lowering::line::{TreeLine, TreeMove};
use lowering::standing::with_spares;
use std::alloc::Global;

/// The same of conditions that let go of so many values.
pub(crate) fn both_with<'a>(
    alloc: Global,
    builder: &mut Builder,
    jobs: &mut Jobs<'a>,
    levels: u64,
    from: u32,
    expr: &'a Expr,
    left: &'a Expr,
    right: &'a Expr,
    spare: u32,
    tested: u32,
    other: u32,
    off: u32,
    on: u32,
    both: bool,
) -> Result<(), NoMemory>
    ensures { OnOk result ((p : Program) (around : Around)
        → LeadsTo p around jobs.old
        (two_tests (text_of p) around (go levels (text_of p) around) (made_of builder.old) from (first_test both left.now spare) (Asks right.now spare off on)
        (with_spares spare tested (stands_at (made_of builder.old) from)) (pads spare tested other expr.now.place) (if both then off else on))
        jobs.new (made_of builder.new)) }
{
    let mut standing = builder.stands_at(alloc, from)?;
    with_spares(alloc, &mut standing, spare, tested)?;
    let mut filled = Stack::new(alloc);
    match spare.checked_add(other) {
        None => return Err(NoMemory),
        Some(_) => pads(&mut filled, spare, tested, other, expr.place)?,
    }
    let end = if both { off } else { on };
    two_tests(
        alloc, builder, jobs, levels, from, left, right, spare, &standing, filled, off, on, end,
        both,
    )
}

/// The same, where this stands behind the first condition, and these registers are filled where it leads to the end of both.
fn two_tests<'a>(
    alloc: Global,
    builder: &mut Builder,
    jobs: &mut Jobs<'a>,
    levels: u64,
    from: u32,
    left: &'a Expr,
    right: &'a Expr,
    spare: u32,
    standing: &Standing,
    filled: TreeLine<'a>,
    off: u32,
    on: u32,
    end: u32,
    both: bool,
) -> Result<(), NoMemory>
    ensures { OnOk result ((p : Program) (around : Around)
        → LeadsTo p around jobs.old
        (two_tests (text_of p) around (go levels (text_of p) around) (made_of builder.old) from (first_test both left.now spare) (Asks right.now spare off on)
        standing.now filled.entry end) jobs.new (made_of builder.new)) }
{
    if filled.len() == 0 {
        let between = builder.point(copied(alloc, standing)?)?;
        go_next(jobs, levels, between, asks(right, spare, off, on), end)?;
        let first = first_test(both, left, spare, end, between);
        return go_next(jobs, levels, from, first, end);
    }
    let between = builder.two_points(alloc, standing)?;
    let early = between + 1;
    go_next(jobs, levels, between, asks(right, spare, off, on), end)?;
    jobs.push(Job::Follow {
        levels,
        from: early,
        moves: filled,
        to: end,
    })?;
    let first = first_test(both, left, spare, early, between);
    go_next(jobs, levels, from, first, end)
}

/// The first condition of `&&` leads early to a point where it does not hold, that of `||` where it holds.
fn first_test<'a>(both: bool, left: &'a Expr, spare: u32, early: u32, between: u32) -> TreeMove<'a>
    ensures { result ≡ first_test both left.now spare early between }
{
    if both {
        asks(left, spare, early, between)
    } else {
        asks(left, spare, between, early)
    }
}
