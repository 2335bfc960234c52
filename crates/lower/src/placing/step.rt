//! A move between two points, by what it is.
ghost use Rattle.std.specs.Prelude.{◌≡◌, suc, OnOk};
ghost use Rattle.c_machine.specs.Program.{Program};
ghost use Rattle.c_machine.specs.Trees.{text_of};
ghost use Rattle.lower.specs.Around.{around_of};
ghost use Rattle.lower.specs.Pieces.{Places, Through};
ghost use Rattle.lower.specs.Built.{made_of};
ghost use Rattle.lower.specs.Jobs.{LeadsTo};
ghost use Rattle.lowering.specs.Placing.{Around, emit, go};
ghost use Rattle.lowering.specs.Source.{IsSource};

use crate::around::Surroundings;
use crate::builder::Builder;
use crate::jobs::Jobs;
use crate::placing::addresses::{place_address, place_conversion};
use crate::placing::answers::tells;
use crate::placing::conditions::{place_answer, place_test};
use crate::placing::initialisers::{place_clear, place_initialiser};
use crate::placing::statements::place_statement;
use crate::placing::values::{place_value, place_work};
use cbase::{NoMemory, Place};
use flow::Instr;
use lowering::line::TreeMove;
use lowering::moves::Move;
use lowering::source::Source;
use std::alloc::Global;

/// A move between two points is placed next, where trees have at most so many levels.
pub(crate) fn go_through<'a>(
    alloc: Global,
    source: &Source,
    builder: &mut Builder,
    jobs: &mut Jobs<'a>,
    around: &Surroundings,
    levels: u64,
    from: u32,
    through: TreeMove<'a>,
    to: u32,
) -> Result<(), NoMemory>
    ensures { OnOk result ((p : Program) → IsSource source.now p
        → LeadsTo p (around_of around.now) jobs.old (go levels (text_of p) (around_of around.now) (made_of builder.old) from through.entry to) jobs.new (made_of builder.new)) }
{
    match levels.checked_sub(1) {
        None => go_without_levels(alloc, builder, from, through, to),
        Some(levels) => go_within(
            alloc, source, builder, jobs, around, levels, from, through, to,
        ),
    }
}

/// The same where there is no level: edges need none.
fn go_without_levels<'a>(
    alloc: Global,
    builder: &mut Builder,
    from: u32,
    through: TreeMove<'a>,
    to: u32,
) -> Result<(), NoMemory>
    ensures { OnOk result ((p : Program) (around : Around) → made_of builder.new ≡ go 0 (text_of p) around (made_of builder.old) from through.entry to) }
{
    match through {
        Move::Emits { instr, place } => builder.emit(from, instr, to, place),
        Move::Pairs { one, other, place } => emit_two(builder, from, one, to, other, to, place),
        Move::Parts {
            one,
            off,
            other,
            on,
            place,
        } => emit_two(builder, from, one, off, other, on, place),
        Move::Tells {
            register,
            size,
            into,
            place,
        } => tells(alloc, builder, from, register, size, into, place, to),
        Move::Stops => Ok(()),
        _ => {
            builder.fail();
            Ok(())
        }
    }
}

/// Two edges from a point.
fn emit_two(
    builder: &mut Builder,
    from: u32,
    one: Instr,
    one_to: u32,
    other: Instr,
    other_to: u32,
    place: Place,
) -> Result<(), NoMemory>
    ensures { OnOk result (made_of builder.new ≡ emit (emit (made_of builder.old) from one one_to place) from other other_to place) }
{
    builder.emit(from, one, one_to, place)?;
    builder.emit(from, other, other_to, place)
}

/// A move between two points is placed next, where the parts of trees have at most so many levels.
fn go_within<'a>(
    alloc: Global,
    source: &Source,
    builder: &mut Builder,
    jobs: &mut Jobs<'a>,
    around: &Surroundings,
    levels: u64,
    from: u32,
    through: TreeMove<'a>,
    to: u32,
) -> Result<(), NoMemory>
    ensures { OnOk result (Places source.now (around_of around.now) levels (Through from through.entry to) jobs.old jobs.new (made_of builder.old) (made_of builder.new)) }
{
    match through {
        Move::Emits { instr, place } => builder.emit(from, instr, to, place),
        Move::Pairs { one, other, place } => emit_two(builder, from, one, to, other, to, place),
        Move::Parts {
            one,
            off,
            other,
            on,
            place,
        } => emit_two(builder, from, one, off, other, on, place),
        Move::Tells {
            register,
            size,
            into,
            place,
        } => tells(alloc, builder, from, register, size, into, place, to),
        Move::Stops => Ok(()),
        Move::Fails => {
            builder.fail();
            Ok(())
        }
        Move::Evaluates { expr, spare, into } => place_value(
            alloc,
            source,
            builder,
            jobs,
            levels,
            from,
            expr.get(),
            spare,
            into,
            to,
        ),
        Move::Converts {
            expr,
            kind,
            spare,
            into,
        } => place_conversion(
            alloc,
            source,
            builder,
            jobs,
            levels,
            from,
            expr.get(),
            kind,
            spare,
            into,
            to,
        ),
        Move::Answers {
            expr,
            spare,
            into,
            size,
        } => place_answer(
            alloc,
            source,
            builder,
            jobs,
            levels,
            from,
            expr.get(),
            spare,
            into,
            size,
            to,
        ),
        Move::Locates { expr, spare, into } => place_address(
            alloc,
            source,
            builder,
            jobs,
            around,
            levels,
            from,
            expr.get(),
            spare,
            into,
            to,
        ),
        Move::Works { expr, spare } => place_work(
            alloc,
            source,
            builder,
            jobs,
            levels,
            from,
            expr.get(),
            spare,
            to,
        ),
        Move::Asks {
            expr,
            spare,
            off,
            on,
        } => place_test(
            alloc,
            source,
            builder,
            jobs,
            levels,
            from,
            expr.get(),
            spare,
            off,
            on,
            to,
        ),
        Move::Does(stmt) => place_statement(
            alloc,
            source,
            builder,
            jobs,
            around,
            levels,
            from,
            stmt.get(),
            to,
        ),
        Move::Clears { place, object } => place_clear(
            alloc, source, builder, jobs, around, levels, from, place, object, to,
        ),
        Move::Initialises { place, init } => place_initialiser(
            alloc,
            source,
            builder,
            jobs,
            around,
            levels,
            from,
            place,
            init.get(),
            to,
        ),
    }
}
