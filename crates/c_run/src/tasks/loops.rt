//! Loops (C11 6.8.5).
ghost use Rattle.std.specs.Prelude.{◌≡◌, [], ◌∷◌, ◌++◌, IfOk};
ghost use Rattle.c_machine.specs.declared.task.Task.TheVariants.{Again, Execute, LeaveBlock, OpenBlock, Test};
ghost use Rattle.c_machine.specs.Blocks.{objects_in};
ghost use Rattle.c_machine.specs.Statements.{again_tasks, test_tasks};
ghost use Rattle.expressions.specs.Numbers.{Numbering};
ghost use Rattle.c_machine.specs.Program.{Program};
ghost use Rattle.c_machine.specs.Trees.{text_of};
ghost use Rattle.c_text.specs.Stands.{StandsFor};
ghost use Rattle.c_run.specs.tasks.Loops.{is_for};
ghost use Rattle.c_run.specs.tasks.Room.{MakesRoom};

use crate::tasks::blocks::objects_in;
use crate::tasks::branches::tested;
use crate::tasks::pushes::{alone, do_statement, statement_alone, unknown, value_then};
use crate::tasks::room::Room;
use crate::tasks::state::TreeState;
use c_machine::Task;
use c_steps::Tree;
use c_text::TypedText;
use cbase::{NoMemory, Stmt, StmtForm};

/// What is to be done for the condition of a loop: a `for` without one goes on (C11 6.8.5p4, 6.8.5.3p2).
///
/// Unfinished expressions around the loop hold so many operands.
pub fn test_tasks<'a>(
    state: &mut TreeState<'a>,
    stmt: &'a Stmt,
    held: usize,
) -> Result<Room, NoMemory>
    ensures { IfOk result (λ room. (p : Program) → MakesRoom (test_tasks (text_of p) stmt.now held) room state.old state.new) }
{
    match &stmt.form {
        StmtForm::While { test, .. } => tested(state, stmt, test.get()),
        StmtForm::Do { test, .. } => tested(state, stmt, test.get()),
        StmtForm::For { test, body, .. } => match test {
            None => turn(state, stmt, held, body.get()),
            Some(test) => tested(state, stmt, test.get()),
        },
        _ => unknown(state),
    }
}

/// What is to be done behind the body of a loop: in a `for` what is done after each turn, and then the condition (C11 6.8.5.3p1).
pub fn again_tasks<'a>(state: &mut TreeState<'a>, stmt: &'a Stmt) -> Result<Room, NoMemory>
    ensures { IfOk result (λ room. (p : Program) → MakesRoom (again_tasks (text_of p) stmt.now) room state.old state.new) }
{
    match &stmt.form {
        StmtForm::For { next, close, .. } => {
            state.do_first(Task::Test(Tree::of(stmt)))?;
            match next {
                None => Ok(Room::Made),
                Some(next) => value_then(state, next.get(), Task::Finish(*close)),
            }
        }
        _ => test_alone(state, stmt),
    }
}

/// Whether a statement is a `for`, whose block a `break` leaves, too (C11 6.8.5p5, 6.8.6.3).
pub fn is_for(stmt: &Stmt) -> bool
    ensures { (p : Program) → result ≡ is_for ((text_of p).clause stmt.now) }
{
    match &stmt.form {
        StmtForm::For { .. } => true,
        _ => false,
    }
}

/// The condition of a loop alone.
pub(crate) fn test_alone<'a>(state: &mut TreeState<'a>, stmt: &'a Stmt) -> Result<Room, NoMemory>
    ensures { IfOk result (λ room. MakesRoom (Test stmt.now ∷ []) room state.old state.new) }
{
    alone(state, Task::Test(Tree::of(stmt)))
}

/// A turn of a loop.
pub(crate) fn turn<'a>(
    state: &mut TreeState<'a>,
    stmt: &'a Stmt,
    held: usize,
    body: &'a Stmt,
) -> Result<Room, NoMemory>
    ensures { IfOk result (λ room. MakesRoom (Execute body.now ∷ Again stmt.now held ∷ []) room state.old state.new) }
{
    state.do_first(Task::Again {
        stmt: Tree::of(stmt),
        held,
    })?;
    statement_alone(state, body)
}

/// A `for` is a block of its own, which is left at its word (C11 6.8.5p5): what comes first, and the condition.
pub(crate) fn for_loop<'a>(
    text: &TypedText,
    state: &mut TreeState<'a>,
    stmt: &'a Stmt,
    first: &'a Stmt,
) -> Result<Room, NoMemory>
    ensures { IfOk result (λ room. (n : Numbering) (p : Program) → StandsFor n text.now p
        → MakesRoom (OpenBlock ∷ (objects_in (text_of p) first.now ++ Execute first.now ∷ Test stmt.now ∷ LeaveBlock stmt.now.place ∷ [])) room state.old state.new) }
{
    state.do_first(Task::LeaveBlock(stmt.place))?;
    state.do_first(Task::Test(Tree::of(stmt)))?;
    do_statement(state, first)?;
    match objects_in(text, state, first)? {
        Room::Made => alone(state, Task::OpenBlock),
        Room::NotKept => Ok(Room::NotKept),
    }
}
