//! Values of expressions, and expressions whose value is not used (C11 6.5, 6.8.3).
ghost use Rattle.std.specs.Prelude.{OnOk};
ghost use Rattle.lower.specs.Built.{made_of};
ghost use Rattle.lowering.specs.declared.moves.Move.TheVariants.{Evaluates, Works};
ghost use Rattle.lower.specs.Pieces.{PlacesAll, Formed, LineOfValue, LineOfWork, Through, Valued, VoidInside, Voided, Worked};
ghost use Rattle.lowering.specs.Reading.{form_in};

use crate::builder::Builder;
use crate::jobs::{Job, Jobs};
use crate::placing::arms::place_choose;
use crate::placing::inner::place_inner;
use c_steps::Stack;
use cbase::{Expr, NoMemory, Place, Stmt};
use lowering::form::{TreeForm, read_form};
use lowering::kinds::is_void;
use lowering::made::{is_made, kind_made, kind_of_last};
use lowering::source::{Source, value_kind};
use lowering::value::value_line;
use lowering::work::work_line;
use std::alloc::Global;

/// The value of an expression.
pub(crate) fn place_value<'a>(
    alloc: Global,
    source: &Source,
    builder: &mut Builder,
    jobs: &mut Jobs<'a>,
    levels: u64,
    from: u32,
    expr: &'a Expr,
    spare: u32,
    into: u32,
    to: u32,
) -> Result<(), NoMemory>
    ensures { OnOk result (PlacesAll source.now levels (Through from (Evaluates expr.now spare into) to) jobs.old jobs.new (made_of builder.old) (made_of builder.new)) }
{
    let form = read_form(source, expr);
    place_value_by(
        alloc, source, builder, jobs, levels, from, expr, &form, spare, into, to,
    )
}

/// The value of an expression, by what it is, where it is made as its type says.
fn place_value_by<'a>(
    alloc: Global,
    source: &Source,
    builder: &mut Builder,
    jobs: &mut Jobs<'a>,
    levels: u64,
    from: u32,
    expr: &'a Expr,
    form: &TreeForm<'a>,
    spare: u32,
    into: u32,
    to: u32,
) -> Result<(), NoMemory>
    ensures { OnOk result (PlacesAll source.now levels (Valued from expr.now spare into to (form_in form.now)) jobs.old jobs.new (made_of builder.old) (made_of builder.new)) }
{
    let made = is_made(source, expr, form)?;
    if !made {
        builder.fail();
        return Ok(());
    }
    place_value_form(
        alloc, source, builder, jobs, levels, from, expr, form, spare, into, to,
    )
}

/// The value of an expression, by what it is.
fn place_value_form<'a>(
    alloc: Global,
    source: &Source,
    builder: &mut Builder,
    jobs: &mut Jobs<'a>,
    levels: u64,
    from: u32,
    expr: &'a Expr,
    form: &TreeForm<'a>,
    spare: u32,
    into: u32,
    to: u32,
) -> Result<(), NoMemory>
    ensures { OnOk result (PlacesAll source.now levels (Formed from expr.now spare into to (form_in form.now)) jobs.old jobs.new (made_of builder.old) (made_of builder.new)) }
{
    match form {
        TreeForm::Choose { test, one, other } => place_choose(
            alloc,
            source,
            builder,
            jobs,
            levels,
            from,
            expr,
            test.get(),
            one.get(),
            other.get(),
            spare,
            into,
            to,
        ),
        TreeForm::Inner { body, close } => place_inner(
            alloc,
            source,
            builder,
            jobs,
            levels,
            from,
            expr,
            body.get().as_slice(),
            *close,
            into,
            to,
        ),
        _ => place_line_of_value(
            alloc, source, builder, jobs, levels, from, expr, form, spare, into, to,
        ),
    }
}

/// The value of an expression that is one line of moves.
fn place_line_of_value<'a>(
    alloc: Global,
    source: &Source,
    builder: &mut Builder,
    jobs: &mut Jobs<'a>,
    levels: u64,
    from: u32,
    expr: &'a Expr,
    form: &TreeForm<'a>,
    spare: u32,
    into: u32,
    to: u32,
) -> Result<(), NoMemory>
    ensures { OnOk result (PlacesAll source.now levels (LineOfValue from expr.now spare into to (form_in form.now)) jobs.old jobs.new (made_of builder.old) (made_of builder.new)) }
{
    let mut moves = Stack::new(alloc);
    value_line(
        source,
        &mut builder.registers,
        &mut moves,
        expr,
        form,
        spare,
        into,
    )?;
    jobs.push(Job::Follow {
        levels,
        from,
        moves,
        to,
    })
}

/// An expression whose value is not used.
pub(crate) fn place_work<'a>(
    alloc: Global,
    source: &Source,
    builder: &mut Builder,
    jobs: &mut Jobs<'a>,
    levels: u64,
    from: u32,
    expr: &'a Expr,
    spare: u32,
    to: u32,
) -> Result<(), NoMemory>
    ensures { OnOk result (PlacesAll source.now levels (Through from (Works expr.now spare) to) jobs.old jobs.new (made_of builder.old) (made_of builder.new)) }
{
    let form = read_form(source, expr);
    place_work_by(
        alloc, source, builder, jobs, levels, from, expr, &form, spare, to,
    )
}

/// An expression whose value is not used, by what it is.
fn place_work_by<'a>(
    alloc: Global,
    source: &Source,
    builder: &mut Builder,
    jobs: &mut Jobs<'a>,
    levels: u64,
    from: u32,
    expr: &'a Expr,
    form: &TreeForm<'a>,
    spare: u32,
    to: u32,
) -> Result<(), NoMemory>
    ensures { OnOk result (PlacesAll source.now levels (Worked from expr.now spare to (form_in form.now)) jobs.old jobs.new (made_of builder.old) (made_of builder.new)) }
{
    let own = value_kind(source, expr)?;
    if !is_void(own) {
        return place_line_of_work(
            alloc, source, builder, jobs, levels, from, expr, form, spare, to,
        );
    }
    let made = kind_made(source, expr, form)?;
    if !is_void(made) {
        builder.fail();
        return Ok(());
    }
    place_void(
        alloc, source, builder, jobs, levels, from, expr, form, spare, to,
    )
}

/// An expression that has no value, and makes none, by what it is.
fn place_void<'a>(
    alloc: Global,
    source: &Source,
    builder: &mut Builder,
    jobs: &mut Jobs<'a>,
    levels: u64,
    from: u32,
    expr: &'a Expr,
    form: &TreeForm<'a>,
    spare: u32,
    to: u32,
) -> Result<(), NoMemory>
    ensures { OnOk result (PlacesAll source.now levels (Voided from expr.now spare to (form_in form.now)) jobs.old jobs.new (made_of builder.old) (made_of builder.new)) }
{
    match form {
        TreeForm::Choose { test, one, other } => place_choose(
            alloc,
            source,
            builder,
            jobs,
            levels,
            from,
            expr,
            test.get(),
            one.get(),
            other.get(),
            spare,
            spare,
            to,
        ),
        TreeForm::Inner { body, close } => place_void_inner(
            alloc,
            source,
            builder,
            jobs,
            levels,
            from,
            expr,
            body.get().as_slice(),
            *close,
            spare,
            to,
        ),
        _ => place_line_of_work(
            alloc, source, builder, jobs, levels, from, expr, form, spare, to,
        ),
    }
}

/// A statement expression, where its value is none.
fn place_void_inner<'a>(
    alloc: Global,
    source: &Source,
    builder: &mut Builder,
    jobs: &mut Jobs<'a>,
    levels: u64,
    from: u32,
    expr: &'a Expr,
    body: &'a [Stmt],
    close: Place,
    into: u32,
    to: u32,
) -> Result<(), NoMemory>
    ensures { OnOk result (PlacesAll source.now levels (VoidInside from expr.now body.now close into to) jobs.old jobs.new (made_of builder.old) (made_of builder.new)) }
{
    let kind = kind_of_last(source, body)?;
    if !is_void(kind) {
        builder.fail();
        return Ok(());
    }
    place_inner(
        alloc, source, builder, jobs, levels, from, expr, body, close, into, to,
    )
}

/// An expression whose value is not used that is one line of moves.
fn place_line_of_work<'a>(
    alloc: Global,
    source: &Source,
    builder: &mut Builder,
    jobs: &mut Jobs<'a>,
    levels: u64,
    from: u32,
    expr: &'a Expr,
    form: &TreeForm<'a>,
    spare: u32,
    to: u32,
) -> Result<(), NoMemory>
    ensures { OnOk result (PlacesAll source.now levels (LineOfWork from expr.now spare to (form_in form.now)) jobs.old jobs.new (made_of builder.old) (made_of builder.new)) }
{
    let mut moves = Stack::new(alloc);
    work_line(
        source,
        &mut builder.registers,
        &mut moves,
        expr,
        form,
        spare,
    )?;
    jobs.push(Job::Follow {
        levels,
        from,
        moves,
        to,
    })
}
