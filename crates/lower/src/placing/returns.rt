//! `return` (C11 6.8.6.4).
ghost use Rattle.std.specs.Prelude.{◌≡◌, ◌+◌, ◌++◌, false, true, None, OnOk};
ghost use Rattle.c_machine.specs.Program.{Program};
ghost use Rattle.c_machine.specs.Trees.{text_of};
ghost use Rattle.lower.specs.Around.{around_of};
ghost use Rattle.lower.specs.Built.{made_of};
ghost use Rattle.lower.specs.Jobs.{LeadsTo};
ghost use Rattle.lowering.specs.Kinds.{conversion, is_void, width};
ghost use Rattle.lowering.specs.declared.wanted.Wanted.TheVariants.{AsValue};
ghost use Rattle.lowering.specs.LetGo.{left_of};
ghost use Rattle.lowering.specs.Moves.{taking};
ghost use Rattle.lowering.specs.Placing.{along_line, function_leaves, go, place_return, place_return_value, stands_at};
ghost use Rattle.lowering.specs.Returns.{given_moves};
ghost use Rattle.lowering.specs.Source.{IsSource};

use crate::around::Surroundings;
use crate::builder::Builder;
use crate::jobs::{Job, Jobs};
use crate::placing::jumps::function_leaves;
use c_machine::Kind;
use c_steps::{Stack, Tree};
use cbase::{Expr, List, NoMemory, Place};
use lowering::kinds::is_void;
use lowering::left::left_of;
use lowering::source::{Source, value_kind};
use lowering::statement_lines::{finishes, push_registers, return_line};
use lowering::wanted::Wanted;
use std::alloc::Global;

/// A `return` at a word.
pub(crate) fn place_return<'a>(
    alloc: Global,
    source: &Source,
    builder: &mut Builder,
    jobs: &mut Jobs<'a>,
    around: &Surroundings,
    levels: u64,
    from: u32,
    word: Place,
    expr: Option<Tree<'a, Expr>>,
) -> Result<(), NoMemory>
    ensures { OnOk result ((p : Program) → IsSource source.now p → LeadsTo p (around_of around.now) jobs.old
        (place_return (text_of p) (go levels (text_of p)) (around_of around.now) (made_of builder.old) from word (is_void around.now.frame.kind) expr.entry)
        jobs.new (made_of builder.new)) }
{
    match expr {
        None => {
            if !is_void(around.frame.kind) {
                builder.fail();
                return Ok(());
            }
            place_return_alone(alloc, builder, jobs, around, levels, from, word)
        }
        Some(expr) => {
            if is_void(around.frame.kind) {
                builder.fail();
                return Ok(());
            }
            place_return_value(
                alloc,
                source,
                builder,
                jobs,
                around,
                levels,
                from,
                expr.get(),
                word,
            )
        }
    }
}

/// A `return` without a value.
fn place_return_alone<'a>(
    alloc: Global,
    builder: &mut Builder,
    jobs: &mut Jobs<'a>,
    around: &Surroundings,
    levels: u64,
    from: u32,
    word: Place,
) -> Result<(), NoMemory>
    ensures { OnOk result ((p : Program) → LeadsTo p (around_of around.now) jobs.old
        (place_return (text_of p) (go levels (text_of p)) (around_of around.now) (made_of builder.old) from word true None)
        jobs.new (made_of builder.new)) }
{
    let standing = builder.stands_at(alloc, from)?;
    let mut registers = List::new(alloc);
    push_registers(&mut registers, standing.registers.as_slice())?;
    let mut moves = Stack::new(alloc);
    function_leaves(alloc, &mut moves, around, word)?;
    finishes(&mut moves, registers, word)?;
    jobs.push(Job::Follow {
        levels,
        from,
        moves,
        to: around.frame.exit,
    })
}

/// A `return` with a value.
fn place_return_value<'a>(
    alloc: Global,
    source: &Source,
    builder: &mut Builder,
    jobs: &mut Jobs<'a>,
    around: &Surroundings,
    levels: u64,
    from: u32,
    expr: &'a Expr,
    word: Place,
) -> Result<(), NoMemory>
    ensures { OnOk result ((p : Program) → IsSource source.now p → LeadsTo p (around_of around.now) jobs.old
        (place_return_value (text_of p) (go levels (text_of p)) (around_of around.now) (made_of builder.old) from expr.now word (left_of (text_of p) (AsValue false) expr.now))
        jobs.new (made_of builder.new)) }
{
    let count = left_of(source, Wanted::AsValue { in_spare: false }, expr)?;
    let own = value_kind(source, expr)?;
    return_with(
        alloc, builder, jobs, around, levels, from, expr, own, count, word,
    )
}

/// The same of a value of a kind that lets go of so many values.
fn return_with<'a>(
    alloc: Global,
    builder: &mut Builder,
    jobs: &mut Jobs<'a>,
    around: &Surroundings,
    levels: u64,
    from: u32,
    expr: &'a Expr,
    own: Kind,
    count: u32,
    word: Place,
) -> Result<(), NoMemory>
    ensures { OnOk result ((p : Program) → LeadsTo p (around_of around.now) jobs.old
        (along_line (text_of p) (around_of around.now) (go levels (text_of p) (around_of around.now)) (made_of builder.old) from
        (taking (count + 2) (given_moves (text_of p) expr.now builder.old.registers count (builder.old.registers + count) (width own) (conversion own around.now.frame.kind)
        around.now.frame.result (stands_at (made_of builder.old) from) word ++ function_leaves (around_of around.now) word)) around.now.frame.exit)
        jobs.new (made_of builder.new)) }
{
    let standing = builder.stands_at(alloc, from)?;
    let mut moves = Stack::new(alloc);
    function_leaves(alloc, &mut moves, around, word)?;
    return_line(
        alloc,
        &mut builder.registers,
        &mut moves,
        expr,
        own,
        around.frame.kind,
        around.frame.result,
        count,
        &standing,
        word,
    )?;
    jobs.push(Job::Follow {
        levels,
        from,
        moves,
        to: around.frame.exit,
    })
}
