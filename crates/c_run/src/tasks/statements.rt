//! Statements (C11 6.8).
ghost use Rattle.std.specs.Prelude.{IfOk};
ghost use Rattle.c_machine.specs.Statements.{statement_tasks};
ghost use Rattle.expressions.specs.Numbers.{Numbering};
ghost use Rattle.c_machine.specs.Program.{Program};
ghost use Rattle.c_machine.specs.Trees.{text_of};
ghost use Rattle.c_text.specs.Stands.{StandsFor};
ghost use Rattle.c_run.specs.tasks.Room.{MakesRoom};

use crate::tasks::blocks::in_block;
use crate::tasks::branches::tested;
use crate::tasks::declarations::declared_names;
use crate::tasks::jumps::returned;
use crate::tasks::loops::{for_loop, test_alone, turn};
use crate::tasks::pushes::{alone, value_then};
use crate::tasks::room::Room;
use crate::tasks::state::TreeState;
use c_machine::Task;
use c_text::TypedText;
use cbase::{NoMemory, Stmt, StmtForm};

/// What is to be done for a statement, where unfinished expressions around it hold so many operands (C11 6.8).
///
/// The full expression of an expression statement, if there is one, ends at its last token (C11 6.8.3). It takes one step, and at a block or a
/// declaration time for what stands directly in it.
pub fn statement_tasks<'a>(
    text: &TypedText,
    state: &mut TreeState<'a>,
    stmt: &'a Stmt,
    held: usize,
) -> Result<Room, NoMemory>
    ensures { IfOk result (λ room. (n : Numbering) (p : Program) → StandsFor n text.now p → MakesRoom (statement_tasks (text_of p) stmt.now held) room state.old state.new) }
{
    match &stmt.form {
        StmtForm::Declare(decl) => declared_names(text, state, decl.get().names.as_slice()),
        StmtForm::Eval(expr) => match expr {
            None => Ok(Room::Made),
            Some(expr) => value_then(state, expr, Task::Finish(stmt.after)),
        },
        StmtForm::Block(body) => in_block(text, state, body.as_slice(), stmt.after),
        StmtForm::If { test, .. } => tested(state, stmt, test.get()),
        StmtForm::While { .. } => test_alone(state, stmt),
        StmtForm::Do { body, .. } => turn(state, stmt, held, body.get()),
        StmtForm::For { first, .. } => for_loop(text, state, stmt, first.get()),
        StmtForm::Break => alone(state, Task::BreakAt(stmt.place)),
        StmtForm::Continue => alone(state, Task::ContinueAt(stmt.place)),
        StmtForm::Return(expr) => returned(text, state, stmt.place, expr),
    }
}
