//! Conditions of `if`, of loops and of `?:`, and what is done behind them (C11 6.5.15, 6.8.4, 6.8.5).
ghost use Rattle.std.specs.Prelude.{◌≡◌, ℕ, List as Items, IfOk, length};
ghost use Rattle.choices.specs.declared.choice.Choice.{Choice};
ghost use Rattle.c_machine.specs.declared.task.Task.TheVariants.{Again, Branch, Pick, Test};
ghost use Rattle.c_machine.specs.Program.{Program};
ghost use Rattle.c_machine.specs.State.{doing};
ghost use Rattle.c_machine.specs.Statements.{branch_place, branch_tasks};
ghost use Rattle.c_machine.specs.Step.{unless_lost};
ghost use Rattle.c_machine.specs.Trees.{text_of};
ghost use Rattle.c_steps.specs.ComesTo.{comes_to};
ghost use Rattle.expressions.specs.Numbers.{Numbering};
ghost use Rattle.c_text.specs.Stands.{StandsFor};
ghost use Rattle.c_run.specs.Stepped.{IsStepOf};

use crate::stepped::{Stepped, came, stepped_by};
use crate::tasks::{TreeState, again_tasks, branch_place, branch_tasks, test_tasks, value_kind};
use c_machine::Kind;
use c_steps::branches::pick;
use c_steps::words::is_true;
use c_steps::{Outcome, Tree, keep};
use c_text::TypedText;
use cbase::{Expr, NoMemory, Stmt};
use std::alloc::Global;

/// The condition of a loop.
pub(crate) fn test_step<'a>(state: &mut TreeState<'a>, stmt: &'a Stmt) -> Result<Stepped, NoMemory>
    ensures { IfOk result (λ stepped. (p : Program) (choices : Items Choice) →
        IsStepOf (text_of p) (Test stmt.now) stepped state.old choices state.new choices) }
{
    let held = state.held();
    stepped_by(test_tasks(state, stmt, held))
}

/// What a loop does behind its body, however many operands unfinished expressions around it hold.
pub(crate) fn again_step<'a>(state: &mut TreeState<'a>, stmt: &'a Stmt) -> Result<Stepped, NoMemory>
    ensures { IfOk result (λ stepped. (p : Program) (held : ℕ) (choices : Items Choice) →
        IsStepOf (text_of p) (Again stmt.now held) stepped state.old choices state.new choices) }
{
    stepped_by(again_tasks(state, stmt))
}

/// An `if` or a loop behind its condition, which does or does not hold: the condition was a full expression (C11 6.8p4).
fn branched<'a>(
    alloc: Global,
    state: &mut TreeState<'a>,
    stmt: &'a Stmt,
    holds: bool,
) -> Result<Outcome, NoMemory>
    ensures { IfOk result (λ outcome. (p : Program) (choices : Items Choice) →
        comes_to outcome state.new choices
        ≡ unless_lost (branch_place (text_of p) stmt.now) (doing (branch_tasks (text_of p) stmt.now (length state.old.operands) holds) state.old) choices) }
{
    let held = state.held();
    branch_tasks(state, stmt, held, holds)?;
    keep(alloc, state, branch_place(stmt))
}

/// An `if` or a loop behind its condition.
pub(crate) fn branch_step<'a>(
    alloc: Global,
    state: &mut TreeState<'a>,
    stmt: &'a Stmt,
) -> Result<Stepped, NoMemory>
    ensures { IfOk result (λ stepped. (p : Program) (choices : Items Choice) →
        IsStepOf (text_of p) (Branch stmt.now) stepped state.old choices state.new choices) }
{
    let Some(word) = state.pop() else {
        return Ok(Stepped::Came(Outcome::Stuck));
    };
    let holds = is_true(state.memory(), word);
    came(branched(alloc, state, stmt, holds))
}

/// `?:` behind its test.
pub(crate) fn pick_step<'a>(
    text: &TypedText,
    state: &mut TreeState<'a>,
    kind: Kind,
    one: &'a Expr,
    other: &'a Expr,
) -> Result<Stepped, NoMemory>
    ensures { IfOk result (λ stepped. (n : Numbering) (p : Program) (choices : Items Choice) → StandsFor n text.now p
        → IsStepOf (text_of p) (Pick kind one.now other.now) stepped state.old choices state.new choices) }
{
    let Some(one_kind) = value_kind(text, one) else {
        return Ok(Stepped::NotKept);
    };
    let Some(other_kind) = value_kind(text, other) else {
        return Ok(Stepped::NotKept);
    };
    came(pick(
        state,
        kind,
        Tree::of(one),
        one_kind,
        Tree::of(other),
        other_kind,
    ))
}
