//! Jumps: what is finished and left at a word (C11 6.8.6).
ghost use Rattle.std.specs.Prelude.{◌≡◌, ◌≤◌, ◌∷◌, ◌++◌, [], length, map, take, OnOk, IfOk};
ghost use Rattle.c_machine.specs.Program.{Program};
ghost use Rattle.c_machine.specs.Trees.{text_of};
ghost use Rattle.simulation.specs.Names.{names_of, variables_of};
ghost use Rattle.lower.specs.Around.{around_of};
ghost use Rattle.lower.specs.Built.{made_of};
ghost use Rattle.lower.specs.Jobs.{LeadsTo};
ghost use Rattle.lowering.specs.Placing.{along, closings, function_leaves, go, jump_moves, leaves, place_break, place_continue, registers_left, stands_at};

use crate::around::{Scopes, Surroundings};
use crate::builder::Builder;
use crate::jobs::{Job, Jobs, LoopAround};
use crate::placing::blocks::leaves;
use crate::placing::ways::is_kept;
use c_steps::Stack;
use cbase::{List, NoMemory, Place};
use flow::{Instr, Width};
use lowering::line::{TreeLine, emits};
use lowering::names::push_variables;
use lowering::statement_lines::finishes;
use std::alloc::Global;

/// The registers that stand and are none of these.
fn registers_left(alloc: Global, stands: &[Width], kept: &[Width]) -> Result<List<u32>, NoMemory>
    ensures { IfOk result (λ left. left ≡ registers_left stands.now kept.now) }
{
    let mut left = List::new(alloc);
    push_left(&mut left, stands, kept)?;
    Ok(left)
}

/// Puts the registers that stand and are none of these behind others.
#[tactic(auto, using(lowering::proofs::ScopesLeft::next_register))]
fn push_left(left: &mut List<u32>, stands: &[Width], kept: &[Width]) -> Result<(), NoMemory>
    ensures { OnOk result (left.new ≡ left.old ++ registers_left stands.now kept.now) }
{
    for one in stands {
        push_unless_kept(left, kept, *one)?;
    }
    Ok(())
}

/// Puts a register behind others, unless it is one of these.
fn push_unless_kept(left: &mut List<u32>, kept: &[Width], one: Width) -> Result<(), NoMemory>
    ensures { OnOk result (left.new ≡ left.old ++ registers_left (one ∷ []) kept.now) }
{
    if is_kept(kept, one.register) {
        return Ok(());
    }
    left.push(one.register)
}

/// The innermost so many blocks are left next, one after the other.
fn leaves_each<'a>(
    alloc: Global,
    line: &mut TreeLine<'a>,
    scopes: &Scopes,
    count: usize,
    word: Place,
) -> Result<(), NoMemory>
    requires { count ≤ length scopes.now }
    ensures { OnOk result (line.new ≡ map (λ names. leaves names word) (take count scopes.now) ++ line.old) }
{
    let mut left = count;
    while left > 0 {
        left -= 1;
        leaves(alloc, line, scopes.item(left).as_slice(), word)?;
    }
    Ok(())
}

/// A jump at a word, which leaves all but so many blocks and leads to a point.
fn place_jump<'a>(
    alloc: Global,
    builder: &mut Builder,
    jobs: &mut Jobs<'a>,
    around: &Surroundings,
    levels: u64,
    from: u32,
    kept: usize,
    one: &LoopAround,
    word: Place,
    to: u32,
) -> Result<(), NoMemory>
    ensures { OnOk result ((p : Program) → LeadsTo p (around_of around.now) jobs.old
        (along (text_of p) (around_of around.now) (go levels (text_of p) (around_of around.now)) (made_of builder.old) from (jump_moves (around_of around.now) (stands_at (made_of builder.old) from) kept one.now word) to)
        jobs.new (made_of builder.new)) }
{
    let standing = builder.stands_at(alloc, from)?;
    let mut moves = Stack::new(alloc);
    leaves_each(
        alloc,
        &mut moves,
        &around.scopes,
        around.scopes.len().saturating_sub(kept),
        word,
    )?;
    let registers = registers_left(
        alloc,
        standing.registers.as_slice(),
        one.registers.as_slice(),
    )?;
    finishes(&mut moves, registers, word)?;
    jobs.push(Job::Follow {
        levels,
        from,
        moves,
        to,
    })
}

/// A `break` (C11 6.8.6.3).
pub(crate) fn place_break<'a>(
    alloc: Global,
    builder: &mut Builder,
    jobs: &mut Jobs<'a>,
    around: &Surroundings,
    levels: u64,
    from: u32,
    word: Place,
) -> Result<(), NoMemory>
    ensures { OnOk result ((p : Program) → LeadsTo p (around_of around.now) jobs.old
        (place_break (text_of p) (go levels (text_of p)) (around_of around.now) (made_of builder.old) from word around.now.current) jobs.new (made_of builder.new)) }
{
    match &around.current {
        None => {
            builder.fail();
            Ok(())
        }
        Some(one) => place_jump(
            alloc, builder, jobs, around, levels, from, one.outer, one, word, one.behind,
        ),
    }
}

/// A `continue` (C11 6.8.6.2).
pub(crate) fn place_continue<'a>(
    alloc: Global,
    builder: &mut Builder,
    jobs: &mut Jobs<'a>,
    around: &Surroundings,
    levels: u64,
    from: u32,
    word: Place,
) -> Result<(), NoMemory>
    ensures { OnOk result ((p : Program) → LeadsTo p (around_of around.now) jobs.old
        (place_continue (text_of p) (go levels (text_of p)) (around_of around.now) (made_of builder.old) from word around.now.current) jobs.new (made_of builder.new)) }
{
    match &around.current {
        None => {
            builder.fail();
            Ok(())
        }
        Some(one) => place_jump(
            alloc, builder, jobs, around, levels, from, one.inner, one, word, one.again,
        ),
    }
}

/// All blocks of a function are left at once, and then, where that is asked for, it is looked for blocks that were never freed.
pub(crate) fn function_leaves<'a>(
    alloc: Global,
    line: &mut TreeLine<'a>,
    around: &Surroundings,
    word: Place,
) -> Result<(), NoMemory>
    ensures { OnOk result (line.new ≡ function_leaves (around_of around.now) word ++ line.old) }
{
    closings(line, around.frame.closes, word)?;
    leaves_all(alloc, line, &around.scopes, word)
}

/// It is looked for blocks that were never freed, where that is asked for.
pub(crate) fn closings(line: &mut TreeLine, closes: bool, word: Place) -> Result<(), NoMemory>
    ensures { OnOk result (line.new ≡ closings closes word ++ line.old) }
{
    if !closes {
        return Ok(());
    }
    emits(line, Instr::Close, word)
}

/// All blocks of a function are left at once.
fn leaves_all<'a>(
    alloc: Global,
    line: &mut TreeLine<'a>,
    scopes: &Scopes,
    word: Place,
) -> Result<(), NoMemory>
    ensures { OnOk result (line.new ≡ leaves (names_of scopes.now) word ∷ line.old) }
{
    let mut variables = List::new(alloc);
    push_scopes(&mut variables, scopes)?;
    emits(line, Instr::Leave { variables }, word)
}

/// Puts the variables of all blocks behind others, the innermost block first.
#[tactic(auto, using(lowering::proofs::ScopesLeft::next_scope))]
fn push_scopes(variables: &mut List<u32>, scopes: &Scopes) -> Result<(), NoMemory>
    ensures { OnOk result (variables.new ≡ variables.old ++ variables_of (names_of scopes.now)) }
{
    let mut at = 0;
    while at < scopes.len() {
        push_variables(variables, scopes.item(at).as_slice())?;
        at += 1;
    }
    Ok(())
}
