//! What stands behind a move.
ghost use Rattle.std.specs.Prelude.{◌≡◌, nat_eq, IfOk, OnOk};
ghost use Rattle.c_machine.specs.Expressions.{value_kind};
ghost use Rattle.c_machine.specs.Program.{Program};
ghost use Rattle.c_machine.specs.Trees.{text_of};
ghost use Rattle.flow.specs.Standing.{stands_after};
ghost use Rattle.lowering.specs.Kinds.{width};
ghost use Rattle.lowering.specs.declared.wanted.Wanted.TheVariants.{AsPlace, AsTest, AsValue, AsWork};
ghost use Rattle.lowering.specs.LetGo.{left_as, left_of};
ghost use Rattle.lowering.specs.declared.moves.Move.TheVariants.{Answers, Converts, Evaluates, Locates};
ghost use Rattle.lowering.specs.Placing.{after, with_spares, with_width, without_calls};
ghost use Rattle.lowering.specs.Source.{IsSource};

use c_machine::Kind;
use cbase::{Abi, Expr, List, NoMemory};
use flow::{Flow, Instr, Standing, stands_behind};
use lowering::kinds::width;
use lowering::left::{left_as, left_of};
use lowering::line::TreeMove;
use lowering::moves::Move;
use lowering::source::{Source, value_kind};
use lowering::standing::{with_spares, with_value, with_width, without_register};
use lowering::wanted::Wanted;
use std::alloc::Global;

/// A graph without functions. It takes no memory.
fn without_calls(alloc: Global) -> Flow
    ensures { result ≡ without_calls }
{
    Flow {
        points: 0,
        edges: List::new(alloc),
        functions: List::new(alloc),
        variables: List::new(alloc),
        initial: List::new(alloc),
        heads: List::new(alloc),
        main: 0,
        stands: List::new(alloc),
        abi: Abi::Lp64,
        strict: false,
    }
}

/// What stands behind an instruction.
pub(crate) fn behind_instr(
    alloc: Global,
    standing: &mut Standing,
    instr: &Instr,
) -> Result<(), NoMemory>
    ensures { OnOk result (standing.new ≡ stands_after without_calls instr.now standing.old) }
{
    match stands_behind(alloc, &without_calls(alloc), instr, standing) {
        Ok(after) => {
            *standing = after;
            Ok(())
        }
        Err(error) => Err(error),
    }
}

/// What stands behind a move, where this stood before it. It takes time for the expression, and for what stands.
pub(crate) fn behind<'a>(
    alloc: Global,
    source: &Source,
    standing: &mut Standing,
    through: &TreeMove<'a>,
) -> Result<(), NoMemory>
    ensures { OnOk result ((p : Program) → IsSource source.now p
        → standing.new ≡ after (text_of p) through.now standing.old) }
{
    match through {
        Move::Emits { instr, .. } => behind_instr(alloc, standing, instr),
        Move::Pairs { one, .. } => behind_instr(alloc, standing, one),
        Move::Parts { one, .. } => behind_instr(alloc, standing, one),
        Move::Evaluates { expr, spare, into } => behind_value(
            alloc,
            source,
            standing,
            expr.get(),
            *spare,
            *into,
        ),
        Move::Converts {
            expr,
            kind,
            spare,
            into,
        } => behind_conversion(alloc, source, standing, expr.get(), kind, *spare, *into),
        Move::Answers {
            expr,
            spare,
            into,
            size,
        } => {
            behind_part(alloc, source, standing, Wanted::AsTest, expr.get(), *spare)?;
            with_width(alloc, standing, *into, *size)
        }
        Move::Tells { register, into, .. } => {
            without_register(alloc, standing, *register)?;
            with_width(alloc, standing, *into, 1)
        }
        Move::Locates { expr, spare, into } => {
            behind_part(
                alloc,
                source,
                standing,
                Wanted::AsPlace {
                    in_spare: *into == *spare,
                },
                expr.get(),
                *spare,
            )?;
            with_width(alloc, standing, *into, 8)
        }
        Move::Works { expr, spare } => behind_part(
            alloc,
            source,
            standing,
            Wanted::AsWork,
            expr.get(),
            *spare,
        ),
        Move::Asks { expr, spare, .. } => behind_part(
            alloc,
            source,
            standing,
            Wanted::AsTest,
            expr.get(),
            *spare,
        ),
        Move::Does(_)
        | Move::Clears { .. }
        | Move::Initialises { .. }
        | Move::Stops
        | Move::Fails => Ok(()),
    }
}

/// What stands behind a part, as far as it is let go of.
fn behind_part<'a>(
    alloc: Global,
    source: &Source,
    standing: &mut Standing,
    wanted: Wanted,
    expr: &'a Expr,
    spare: u32,
) -> Result<(), NoMemory>
    ensures { OnOk result ((p : Program) → IsSource source.now p
        → standing.new ≡ with_spares spare (left_of (text_of p) (wanted) expr.now) standing.old) }
{
    match left_of(source, wanted, expr) {
        Ok(count) => with_spares(alloc, standing, spare, count),
        Err(error) => Err(error),
    }
}

/// What stands behind the value of an expression.
fn behind_value<'a>(
    alloc: Global,
    source: &Source,
    standing: &mut Standing,
    expr: &'a Expr,
    spare: u32,
    into: u32,
) -> Result<(), NoMemory>
    ensures { OnOk result ((p : Program) → IsSource source.now p
        → standing.new ≡ after (text_of p) (Evaluates expr.now spare into) standing.old) }
{
    let kind = value_kind(source, expr)?;
    behind_part(
        alloc,
        source,
        standing,
        Wanted::AsValue {
            in_spare: into == spare,
        },
        expr,
        spare,
    )?;
    with_width(alloc, standing, into, width(kind))
}

/// What stands behind the value of an expression as one of a kind.
fn behind_conversion<'a>(
    alloc: Global,
    source: &Source,
    standing: &mut Standing,
    expr: &'a Expr,
    kind: &Kind,
    spare: u32,
    into: u32,
) -> Result<(), NoMemory>
    ensures { OnOk result ((p : Program) → IsSource source.now p
        → standing.new ≡ after (text_of p) (Converts expr.now kind.now spare into) standing.old) }
{
    let count = left_as(source, expr, into == spare, *kind)?;
    with_spares(alloc, standing, spare, count)?;
    with_value(alloc, standing, into, *kind)
}
