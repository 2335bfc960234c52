//! Conditions as numbers (C11 6.5.3.3p5, 6.5.13p3, 6.3.1.2).
ghost use Rattle.c_machine.specs.Program.{Program};
ghost use Rattle.c_machine.specs.Trees.{text_of};
ghost use Rattle.flow.specs.declared.instruction.Instr.TheVariants as i;
ghost use Rattle.lower.specs.Built.{made_of};
ghost use Rattle.lower.specs.Jobs.{LeadsTo};
ghost use Rattle.lowering.specs.Placing.{Around, emit, go, place_answer, place_told, stands_at, with_spares, with_width, without_register};
ghost use Rattle.std.specs.Prelude.{◌≡◌, ◌∷◌, OnOk};

use crate::builder::{Builder, copied};
use crate::jobs::{Job, Jobs, go_next};
use c_steps::Tree;
use cbase::{Expr, NoMemory, Place};
use flow::{Instr, Standing};
use lowering::moves::Move;
use lowering::standing::{with_spares, with_width, without_register};
use std::alloc::Global;

/// The same of a condition that lets go of so many values.
pub(crate) fn answer_with<'a>(
    alloc: Global,
    builder: &mut Builder,
    jobs: &mut Jobs<'a>,
    levels: u64,
    from: u32,
    expr: &'a Expr,
    spare: u32,
    count: u32,
    into: u32,
    size: u8,
    to: u32,
) -> Result<(), NoMemory>
    ensures { OnOk result ((p : Program) (around : Around) → LeadsTo p around jobs.old
        (place_answer (text_of p) (go levels (text_of p) around) (made_of builder.old) from expr.now spare into size
        (with_spares spare count (stands_at (made_of builder.old) from)) to) jobs.new (made_of builder.new)) }
{
    let mut standing = builder.stands_at(alloc, from)?;
    with_spares(alloc, &mut standing, spare, count)?;
    answer_at(
        alloc, builder, jobs, levels, from, expr, spare, into, size, &standing, to,
    )
}

/// The same, where this stands behind the condition.
fn answer_at<'a>(
    alloc: Global,
    builder: &mut Builder,
    jobs: &mut Jobs<'a>,
    levels: u64,
    from: u32,
    expr: &'a Expr,
    spare: u32,
    into: u32,
    size: u8,
    standing: &Standing,
    to: u32,
) -> Result<(), NoMemory>
    ensures { OnOk result ((p : Program) (around : Around) → LeadsTo p around jobs.old
        (place_answer (text_of p) (go levels (text_of p) around) (made_of builder.old) from expr.now spare into size standing.now to) jobs.new (made_of builder.new)) }
{
    let off = builder.two_points(alloc, standing)?;
    let on = off + 1;
    number_edge(jobs, off, into, 0, size, to, expr.place)?;
    number_edge(jobs, on, into, 1, size, to, expr.place)?;
    go_next(
        jobs,
        levels,
        from,
        Move::Asks {
            expr: Tree::of(expr),
            spare,
            off,
            on,
        },
        to,
    )
}

/// An edge that puts a number into a register is to be placed next.
fn number_edge(
    jobs: &mut Jobs,
    from: u32,
    into: u32,
    value: u64,
    size: u8,
    to: u32,
    place: Place,
) -> Result<(), NoMemory>
    ensures { OnOk result (jobs.new ≡ Job.Edge from (i.Number into value size) to place ∷ jobs.old) }
{
    jobs.push(Job::Edge {
        from,
        instr: Instr::Number { into, value, size },
        to,
        place,
    })
}

/// Whether a register of so many bytes holds something else than 0: a test against a 0 of its size, and then 1 or 0.
pub(crate) fn tells(
    alloc: Global,
    builder: &mut Builder,
    from: u32,
    register: u32,
    size: u8,
    into: u32,
    place: Place,
    to: u32,
) -> Result<(), NoMemory>
    ensures { OnOk result (made_of builder.new ≡ place_told (made_of builder.old) from register size into
        (with_width builder.old.registers size (stands_at (made_of builder.old) from)) (without_register register (stands_at (made_of builder.old) from)) place to) }
{
    let mut tested = builder.stands_at(alloc, from)?;
    let mut standing = copied(alloc, &tested)?;
    with_width(alloc, &mut tested, builder.registers, size)?;
    without_register(alloc, &mut standing, register)?;
    place_told(
        alloc, builder, from, register, size, into, tested, &standing, place, to,
    )
}

/// The same, where this stands behind the 0, and that behind the test.
fn place_told(
    alloc: Global,
    builder: &mut Builder,
    from: u32,
    register: u32,
    size: u8,
    into: u32,
    tested: Standing,
    standing: &Standing,
    place: Place,
    to: u32,
) -> Result<(), NoMemory>
    ensures { OnOk result (made_of builder.new ≡ place_told (made_of builder.old) from register size into tested standing.now place to) }
{
    let zero = builder.registers(1)?;
    let test = builder.point(tested)?;
    let off = builder.two_points(alloc, standing)?;
    let on = off + 1;
    put_number(builder, from, zero, 0, size, test, place)?;
    test_edges(builder, test, register, zero, off, on, place)?;
    put_number(builder, on, into, 1, 1, to, place)?;
    put_number(builder, off, into, 0, 1, to, place)
}

/// An edge that puts a number into a register.
fn put_number(
    builder: &mut Builder,
    from: u32,
    into: u32,
    value: u64,
    size: u8,
    to: u32,
    place: Place,
) -> Result<(), NoMemory>
    ensures { OnOk result (made_of builder.new ≡ emit (made_of builder.old) from (i.Number into value size) to place) }
{
    builder.emit(from, Instr::Number { into, value, size }, to, place)
}

/// The two edges of a test of two registers: to a point where they are equal, and to one where they differ.
fn test_edges(
    builder: &mut Builder,
    from: u32,
    one: u32,
    other: u32,
    same: u32,
    differs: u32,
    place: Place,
) -> Result<(), NoMemory>
    ensures { OnOk result (made_of builder.new ≡ emit (emit (made_of builder.old) from (i.IfSame one other) same place) from (i.IfDifferent one other) differs place) }
{
    builder.emit(
        from,
        Instr::IfSame {
            left: one,
            right: other,
        },
        same,
        place,
    )?;
    builder.emit(
        from,
        Instr::IfDifferent {
            left: one,
            right: other,
        },
        differs,
        place,
    )
}
