//! `?:`, whose arms lead to one point with their value in one register (C11 6.5.15).
ghost use Rattle.std.specs.Prelude.{◌≡◌, ◌++◌, OnOk};
ghost use Rattle.c_machine.specs.Expressions.{value_kind};
ghost use Rattle.c_machine.specs.Program.{Program};
ghost use Rattle.c_machine.specs.Trees.{text_of};
ghost use Rattle.lower.specs.Pieces.{PlacesAll, Chosen};
ghost use Rattle.lower.specs.Built.{made_of};
ghost use Rattle.lower.specs.Jobs.{LeadsTo};
ghost use Rattle.lowering.specs.declared.wanted.Wanted.TheVariants.{AsTest};
ghost use Rattle.lowering.specs.LetGo.{left_as, left_of};
ghost use Rattle.lowering.specs.Placing.{Around, go, place_arms, place_choice, place_choose, stands_at, with_spares};
ghost use Rattle.lowering.specs.Source.{IsSource};

use crate::builder::Builder;
use crate::jobs::{Job, Jobs, asks, go_next};
use c_machine::Kind;
use c_steps::Stack;
use cbase::{Expr, NoMemory};
use flow::Standing;
use lowering::arms::arm_moves;
use lowering::left::{left_as, left_of};
use lowering::line::TreeLine;
use lowering::source::{Source, value_kind};
use lowering::standing::with_spares;
use lowering::wanted::Wanted;
use std::alloc::Global;

/// `?:`.
pub(crate) fn place_choose<'a>(
    alloc: Global,
    source: &Source,
    builder: &mut Builder,
    jobs: &mut Jobs<'a>,
    levels: u64,
    from: u32,
    expr: &'a Expr,
    test: &'a Expr,
    one: &'a Expr,
    other: &'a Expr,
    spare: u32,
    into: u32,
    to: u32,
) -> Result<(), NoMemory>
    ensures { OnOk result (PlacesAll source.now levels (Chosen from expr.now test.now one.now other.now spare into to) jobs.old jobs.new (made_of builder.old) (made_of builder.new)) }
{
    let own = value_kind(source, expr)?;
    let kind = &own;
    let in_spare = into == spare;
    let tested = left_of(source, Wanted::AsTest, test)?;
    let left_one = left_as(source, one, in_spare, *kind)?;
    let left_other = left_as(source, other, in_spare, *kind)?;
    place_choice(
        alloc, builder, jobs, levels, from, expr, test, one, other, kind, spare, into, tested,
        left_one, left_other, to,
    )
}

/// The same, where the condition and the arms let go of so much.
fn place_choice<'a>(
    alloc: Global,
    builder: &mut Builder,
    jobs: &mut Jobs<'a>,
    levels: u64,
    from: u32,
    expr: &'a Expr,
    test: &'a Expr,
    one: &'a Expr,
    other: &'a Expr,
    kind: &Kind,
    spare: u32,
    into: u32,
    tested: u32,
    left_one: u32,
    left_other: u32,
    to: u32,
) -> Result<(), NoMemory>
    ensures { OnOk result ((p : Program) (around : Around)
        → LeadsTo p around jobs.old
        (place_choice (text_of p) around (go levels (text_of p) around) (made_of builder.old) from expr.now test.now one.now other.now kind.now spare into tested left_one left_other to)
        jobs.new (made_of builder.new)) }
{
    let mut standing = builder.stands_at(alloc, from)?;
    with_spares(alloc, &mut standing, spare, tested)?;
    let want = tested.max(left_one.max(left_other));
    let mut first = Stack::new(alloc);
    arm_moves(
        &mut first,
        *kind,
        spare,
        into,
        tested.max(left_one),
        want,
        expr.place,
        one,
    )?;
    let mut second = Stack::new(alloc);
    arm_moves(
        &mut second,
        *kind,
        spare,
        into,
        tested.max(left_other),
        want,
        expr.place,
        other,
    )?;
    place_arms(
        alloc, builder, jobs, levels, from, test, spare, &standing, first, second, to,
    )
}

/// The condition of `?:`, behind which this stands, and its arms.
fn place_arms<'a>(
    alloc: Global,
    builder: &mut Builder,
    jobs: &mut Jobs<'a>,
    levels: u64,
    from: u32,
    test: &'a Expr,
    spare: u32,
    standing: &Standing,
    one: TreeLine<'a>,
    other: TreeLine<'a>,
    to: u32,
) -> Result<(), NoMemory>
    ensures { OnOk result ((p : Program) (around : Around)
        → LeadsTo p around jobs.old
        (place_arms (text_of p) around (go levels (text_of p) around) (made_of builder.old) from test.now spare standing.now one.entry other.entry to)
        jobs.new (made_of builder.new)) }
{
    let off = builder.two_points(alloc, standing)?;
    let on = off + 1;
    jobs.push(Job::Follow {
        levels,
        from: off,
        moves: other,
        to,
    })?;
    jobs.push(Job::Follow {
        levels,
        from: on,
        moves: one,
        to,
    })?;
    go_next(jobs, levels, from, asks(test, spare, off, on), to)
}
