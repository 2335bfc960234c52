//! The addresses of lvalues (C11 6.3.2.1, 6.5.2.1, 6.5.2.3, 6.5.3.2).
ghost use Rattle.std.specs.Prelude.{IfOk};
ghost use Rattle.cbase.specs.declared.tree.expr.ExprForm.TheOpen as tree;
ghost use Rattle.c_machine.specs.Expressions.{address_parts, address_tasks, named};
ghost use Rattle.c_machine.specs.Trees.{form_of};
ghost use Rattle.expressions.specs.Numbers.{Numbering};
ghost use Rattle.c_machine.specs.Program.{Program};
ghost use Rattle.c_machine.specs.Trees.{text_of};
ghost use Rattle.c_text.specs.Stands.{StandsFor};
ghost use Rattle.c_run.specs.tasks.Room.{MakesRoom};

use crate::tasks::operations::operated;
use crate::tasks::pushes::{address_then, alone, unknown, value_alone, value_then};
use crate::tasks::room::Room;
use crate::tasks::state::TreeState;
use c_machine::Task;
use c_text::{Standing, TypedText};
use cbase::{BinaryOp, Expr, ExprForm, Identifier, NoMemory, UnaryOp};

/// What is to be done for the address of the lvalue that an expression is (C11 6.3.2.1p1).
///
/// That of an item `a[i]` is `a + i` (C11 6.5.2.1p2). It takes one step, and at a member one look-up in the names of the members.
pub fn address_tasks<'a>(
    text: &TypedText,
    state: &mut TreeState<'a>,
    expr: &'a Expr,
) -> Result<Room, NoMemory>
    ensures { IfOk result (λ room. (n : Numbering) (p : Program) → StandsFor n text.now p → MakesRoom (address_tasks (text_of p) expr.now) room state.old state.new) }
{
    match &expr.form {
        ExprForm::Name(_) => object_address(text, state, expr),
        ExprForm::Unary {
            op: UnaryOp::Follow,
            arg,
        } => value_alone(state, arg.get()),
        ExprForm::Index { base, index } => {
            operated(text, state, BinaryOp::Add, base.get(), index.get())
        }
        ExprForm::Member {
            base,
            name,
            through,
        } => member_address(text, state, expr, base.get(), name.get(), *through),
        _ => unknown(state),
    }
}

/// The address of the object that a name stands for (C11 6.5.1p2).
fn object_address<'a>(
    text: &TypedText,
    state: &mut TreeState<'a>,
    expr: &'a Expr,
) -> Result<Room, NoMemory>
    ensures { IfOk result (λ room. (n : Numbering) (p : Program) → StandsFor n text.now p → MakesRoom (named (text_of p) ((text_of p).stands expr.now)) room state.old state.new) }
{
    match text.standing(expr.number) {
        Standing::Object(token) => alone(state, Task::ObjectAt(token)),
        _ => unknown(state),
    }
}

/// The address of a member of the struct that an expression is, and behind `->` of the struct to which it leads (C11 6.5.2.3p3, p4).
fn member_address<'a>(
    text: &TypedText,
    state: &mut TreeState<'a>,
    expr: &'a Expr,
    base: &'a Expr,
    name: &'a Identifier,
    through: bool,
) -> Result<Room, NoMemory>
    ensures { IfOk result (λ room. (n : Numbering) (p : Program) → StandsFor n text.now p → MakesRoom (address_parts (text_of p) expr.now (form_of p expr.now (tree.ExprForm::Member base.now name.now through))) room state.old state.new) }
{
    let spelled = name.name.as_slice();
    if through {
        let offset = text.pointed_offset(base.number, spelled);
        value_then(state, base, Task::Shift(offset))
    } else {
        let offset = text.member_offset(base.number, spelled);
        address_then(state, base, Task::Shift(offset))
    }
}
