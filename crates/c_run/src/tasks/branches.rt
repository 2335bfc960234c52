//! Conditions of `if` and loops, and what is done behind them (C11 6.8.4, 6.8.5).
ghost use Rattle.std.specs.Prelude.{◌≡◌, [], ◌∷◌, if◌then◌else◌, IfOk};
ghost use Rattle.c_machine.specs.declared.task.Task.TheVariants.{Again, Branch, Execute, ValueOf};
ghost use Rattle.c_machine.specs.Statements.{branch_place, branch_tasks, other_branch};
ghost use Rattle.c_machine.specs.Program.{Program};
ghost use Rattle.c_machine.specs.Trees.{text_of};
ghost use Rattle.c_run.specs.tasks.Room.{MakesRoom};

use crate::tasks::loops::turn;
use crate::tasks::pushes::{statement_alone, unknown, value_then};
use crate::tasks::room::Room;
use crate::tasks::state::TreeState;
use c_machine::Task;
use c_steps::Tree;
use cbase::{Boxed, Expr, NoMemory, Place, Stmt, StmtForm};

/// Where the condition of an `if` or a loop ends, and of any other statement the place of its last token (C11 6.8p4).
pub fn branch_place(stmt: &Stmt) -> Place
    ensures { (p : Program) → result ≡ branch_place (text_of p) stmt.now }
{
    match &stmt.form {
        StmtForm::If { close, .. } => *close,
        StmtForm::While { close, .. } => *close,
        StmtForm::Do { close, .. } => *close,
        StmtForm::For { semicolon, .. } => *semicolon,
        _ => stmt.after,
    }
}

/// What is to be done behind the condition of an `if` or a loop, by whether it holds (C11 6.8.4.1p2, 6.8.5p4).
///
/// Unfinished expressions around a loop hold so many operands.
pub fn branch_tasks<'a>(
    state: &mut TreeState<'a>,
    stmt: &'a Stmt,
    held: usize,
    holds: bool,
) -> Result<Room, NoMemory>
    ensures { IfOk result (λ room. (p : Program) → MakesRoom (branch_tasks (text_of p) stmt.now held holds) room state.old state.new) }
{
    match &stmt.form {
        StmtForm::If { yes, no, .. } => chosen_branch(state, yes.get(), no, holds),
        StmtForm::While { body, .. } => turn_or_end(state, stmt, held, body.get(), holds),
        StmtForm::Do { body, .. } => turn_or_end(state, stmt, held, body.get(), holds),
        StmtForm::For { body, .. } => turn_or_end(state, stmt, held, body.get(), holds),
        _ => unknown(state),
    }
}

/// The statement behind the condition of an `if`, or that behind `else`, if there is one (C11 6.8.4.1p2).
fn chosen_branch<'a>(
    state: &mut TreeState<'a>,
    yes: &'a Stmt,
    no: &'a Option<Boxed<Stmt>>,
    holds: bool,
) -> Result<Room, NoMemory>
    ensures { IfOk result (λ room. (p : Program) → MakesRoom (if holds then Execute yes.now ∷ [] else other_branch (text_of p) no.now) room state.old state.new) }
{
    if holds {
        return statement_alone(state, yes);
    }
    match no {
        None => Ok(Room::Made),
        Some(no) => statement_alone(state, no.get()),
    }
}

/// A turn of a loop, or its end.
fn turn_or_end<'a>(
    state: &mut TreeState<'a>,
    stmt: &'a Stmt,
    held: usize,
    body: &'a Stmt,
    holds: bool,
) -> Result<Room, NoMemory>
    ensures { IfOk result (λ room. MakesRoom (if holds then Execute body.now ∷ Again stmt.now held ∷ [] else []) room state.old state.new) }
{
    if holds {
        turn(state, stmt, held, body)
    } else {
        Ok(Room::Made)
    }
}

/// A condition, and then one of the branches behind it.
pub(crate) fn tested<'a>(
    state: &mut TreeState<'a>,
    stmt: &'a Stmt,
    test: &'a Expr,
) -> Result<Room, NoMemory>
    ensures { IfOk result (λ room. MakesRoom (ValueOf test.now ∷ Branch stmt.now ∷ []) room state.old state.new) }
{
    value_then(state, test, Task::Branch(Tree::of(stmt)))
}
