//! Conditions, to one of two points, and as numbers (C11 6.5.3.3p5, 6.5.9, 6.5.13, 6.5.14).
ghost use Rattle.c_machine.specs.Program.{Program};
ghost use Rattle.c_machine.specs.Text.{Binary};
ghost use Rattle.c_machine.specs.Trees.{text_of};
ghost use Rattle.flow.specs.declared.instruction.Instr.TheVariants.{IfDifferent, IfSame, Number};
ghost use Rattle.lower.specs.Built.{made_of};
ghost use Rattle.lower.specs.Jobs.{LeadsTo};
ghost use Rattle.lowering.specs.Kinds.{sides, width};
ghost use Rattle.lowering.specs.declared.wanted.Wanted.TheVariants.{AsTest};
ghost use Rattle.lowering.specs.LetGo.{left_of};
ghost use Rattle.lowering.specs.declared.moves.Move.TheVariants.{Answers, Asks, Emits, Evaluates, Parts};
ghost use Rattle.lowering.specs.Moves.{taking};
ghost use Rattle.lower.specs.Pieces.{PlacesAll, BothTests, Equality, Tested, Through, ZeroTest};
ghost use Rattle.lowering.specs.Placing.{Around, along_line, equality_moves, go, place_answer};
ghost use Rattle.lowering.specs.Reading.{form_in};
ghost use Rattle.std.specs.Prelude.{◌≡◌, OnOk, suc, ◌∷◌, []};

use crate::builder::Builder;
use crate::jobs::{Job, Jobs, asks, go_next};
use crate::placing::answers::answer_with;
use crate::placing::two_tests::both_with;
use c_machine::Kind;
use c_steps::Stack;
use cbase::{BinaryOp, Expr, NoMemory, UnaryOp};
use lowering::conditions::{equality_line, zero_test_line};
use lowering::form::{TreeForm, read_form};
use lowering::left::left_of;
use lowering::source::{Source, value_kind};
use lowering::wanted::Wanted;
use std::alloc::Global;

/// A condition.
pub(crate) fn place_test<'a>(
    alloc: Global,
    source: &Source,
    builder: &mut Builder,
    jobs: &mut Jobs<'a>,
    levels: u64,
    from: u32,
    expr: &'a Expr,
    spare: u32,
    off: u32,
    on: u32,
    to: u32,
) -> Result<(), NoMemory>
    ensures { OnOk result (PlacesAll source.now levels (Through from (Asks expr.now spare off on) to) jobs.old jobs.new (made_of builder.old) (made_of builder.new)) }
{
    let form = read_form(source, expr);
    place_test_by(
        alloc, source, builder, jobs, levels, from, expr, &form, spare, off, on,
    )
}

/// A condition, by what it is.
fn place_test_by<'a>(
    alloc: Global,
    source: &Source,
    builder: &mut Builder,
    jobs: &mut Jobs<'a>,
    levels: u64,
    from: u32,
    expr: &'a Expr,
    form: &TreeForm<'a>,
    spare: u32,
    off: u32,
    on: u32,
) -> Result<(), NoMemory>
    ensures { OnOk result (PlacesAll source.now levels (Tested from expr.now spare off on (form_in form.now)) jobs.old jobs.new (made_of builder.old) (made_of builder.new)) }
{
    match form {
        TreeForm::Unary {
            op: UnaryOp::Not,
            arg,
        } => go_next(jobs, levels, from, asks(arg.get(), spare, on, off), off),
        TreeForm::Binary { op, left, right } => place_binary_test(
            alloc,
            source,
            builder,
            jobs,
            levels,
            from,
            expr,
            *op,
            left.get(),
            right.get(),
            spare,
            off,
            on,
        ),
        _ => place_zero_test(
            alloc, source, builder, jobs, levels, from, expr, spare, off, on,
        ),
    }
}

/// A condition that is a binary operator.
fn place_binary_test<'a>(
    alloc: Global,
    source: &Source,
    builder: &mut Builder,
    jobs: &mut Jobs<'a>,
    levels: u64,
    from: u32,
    expr: &'a Expr,
    op: BinaryOp,
    left: &'a Expr,
    right: &'a Expr,
    spare: u32,
    off: u32,
    on: u32,
) -> Result<(), NoMemory>
    ensures { OnOk result (PlacesAll source.now levels (Tested from expr.now spare off on (Binary op left.now right.now)) jobs.old jobs.new (made_of builder.old) (made_of builder.new)) }
{
    match op {
        BinaryOp::Both => place_both(
            alloc, source, builder, jobs, levels, from, expr, left, right, spare, off, on, true,
        ),
        BinaryOp::Either => place_both(
            alloc, source, builder, jobs, levels, from, expr, left, right, spare, off, on, false,
        ),
        BinaryOp::Equal => place_equality(
            alloc, source, builder, jobs, levels, from, op, expr, left, right, spare, on, off,
        ),
        BinaryOp::NotEqual => place_equality(
            alloc, source, builder, jobs, levels, from, op, expr, left, right, spare, off, on,
        ),
        _ => place_zero_test(
            alloc, source, builder, jobs, levels, from, expr, spare, off, on,
        ),
    }
}

/// A value is tested against a 0 of its own size.
fn place_zero_test<'a>(
    alloc: Global,
    source: &Source,
    builder: &mut Builder,
    jobs: &mut Jobs<'a>,
    levels: u64,
    from: u32,
    expr: &'a Expr,
    spare: u32,
    off: u32,
    on: u32,
) -> Result<(), NoMemory>
    ensures { OnOk result (PlacesAll source.now levels (ZeroTest from expr.now spare off on) jobs.old jobs.new (made_of builder.old) (made_of builder.new)) }
{
    let kind = value_kind(source, expr)?;
    zero_test_of(
        alloc, builder, jobs, levels, from, expr, kind, spare, off, on,
    )
}

/// The same of a value of a kind.
fn zero_test_of<'a>(
    alloc: Global,
    builder: &mut Builder,
    jobs: &mut Jobs<'a>,
    levels: u64,
    from: u32,
    expr: &'a Expr,
    kind: Kind,
    spare: u32,
    off: u32,
    on: u32,
) -> Result<(), NoMemory>
    ensures { OnOk result ((p : Program) (around : Around)
        → LeadsTo p around jobs.old (along_line (text_of p) around (go levels (text_of p) around) (made_of builder.old) from
        (taking 2 (Evaluates expr.now spare builder.old.registers ∷ Emits (Number (suc builder.old.registers) 0 (width kind)) expr.now.place
        ∷ Parts (IfSame builder.old.registers (suc builder.old.registers)) off (IfDifferent builder.old.registers (suc builder.old.registers)) on expr.now.place ∷ [])) off)
        jobs.new (made_of builder.new)) }
{
    let mut moves = Stack::new(alloc);
    zero_test_line(
        &mut builder.registers,
        &mut moves,
        expr,
        kind,
        spare,
        off,
        on,
    )?;
    jobs.push(Job::Follow {
        levels,
        from,
        moves,
        to: off,
    })
}

/// `==` or `!=`: to one point where both sides are equal, and to another where they differ.
fn place_equality<'a>(
    alloc: Global,
    source: &Source,
    builder: &mut Builder,
    jobs: &mut Jobs<'a>,
    levels: u64,
    from: u32,
    op: BinaryOp,
    expr: &'a Expr,
    left: &'a Expr,
    right: &'a Expr,
    spare: u32,
    same: u32,
    differs: u32,
) -> Result<(), NoMemory>
    ensures { OnOk result (PlacesAll source.now levels (Equality from op expr.now left.now right.now spare same differs) jobs.old jobs.new (made_of builder.old) (made_of builder.new)) }
{
    let left_kind = value_kind(source, left)?;
    let right_kind = value_kind(source, right)?;
    equality_of(
        alloc, builder, jobs, levels, from, op, expr, left, right, left_kind, right_kind, spare,
        same, differs,
    )
}

/// The same of sides of two kinds.
fn equality_of<'a>(
    alloc: Global,
    builder: &mut Builder,
    jobs: &mut Jobs<'a>,
    levels: u64,
    from: u32,
    op: BinaryOp,
    expr: &'a Expr,
    left: &'a Expr,
    right: &'a Expr,
    left_kind: Kind,
    right_kind: Kind,
    spare: u32,
    same: u32,
    differs: u32,
) -> Result<(), NoMemory>
    ensures { OnOk result ((p : Program) (around : Around)
        → LeadsTo p around jobs.old (along_line (text_of p) around (go levels (text_of p) around) (made_of builder.old) from
        (taking 4 (equality_moves (text_of p) (sides op left_kind right_kind) expr.now left.now right.now spare builder.old.registers same differs)) same)
        jobs.new (made_of builder.new)) }
{
    let mut moves = Stack::new(alloc);
    equality_line(
        &mut builder.registers,
        &mut moves,
        op,
        expr,
        left,
        right,
        left_kind,
        right_kind,
        spare,
        same,
        differs,
    )?;
    jobs.push(Job::Follow {
        levels,
        from,
        moves,
        to: same,
    })
}

/// `&&`, or `||` where `both` does not hold: the second condition begins at a point of its own, and the first one may lead to the end of both.
pub(crate) fn place_both<'a>(
    alloc: Global,
    source: &Source,
    builder: &mut Builder,
    jobs: &mut Jobs<'a>,
    levels: u64,
    from: u32,
    expr: &'a Expr,
    left: &'a Expr,
    right: &'a Expr,
    spare: u32,
    off: u32,
    on: u32,
    both: bool,
) -> Result<(), NoMemory>
    ensures { OnOk result (PlacesAll source.now levels (BothTests from expr.now left.now right.now spare off on both) jobs.old jobs.new (made_of builder.old) (made_of builder.new)) }
{
    let tested = left_of(source, Wanted::AsTest, left)?;
    let other = left_of(source, Wanted::AsTest, right)?;
    both_with(
        alloc, builder, jobs, levels, from, expr, left, right, spare, tested, other, off, on, both,
    )
}

/// Whether a condition holds, as 1 or 0 in a register of so many bytes.
pub(crate) fn place_answer<'a>(
    alloc: Global,
    source: &Source,
    builder: &mut Builder,
    jobs: &mut Jobs<'a>,
    levels: u64,
    from: u32,
    expr: &'a Expr,
    spare: u32,
    into: u32,
    size: u8,
    to: u32,
) -> Result<(), NoMemory>
    ensures { OnOk result (PlacesAll source.now levels (Through from (Answers expr.now spare into size) to) jobs.old jobs.new (made_of builder.old) (made_of builder.new)) }
{
    let count = left_of(source, Wanted::AsTest, expr)?;
    answer_with(
        alloc, builder, jobs, levels, from, expr, spare, count, into, size, to,
    )
}
