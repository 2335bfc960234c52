ghost use Rattle.std.specs.Prelude.{◌≡◌, ◌≤◌, ◌+◌, IfOk};
ghost use Rattle.cbase.specs.declared.tree.expr.ExprForm.TheViews.{out-StmtForm};
ghost use Rattle.ctrees.specs.Levels.{stmt_levels, statement_form_levels};
ghost use Rattle.typing.specs.Statements.{parts_in, has_scope};
ghost use Rattle.typing.specs.Typing.{StatementIs};
ghost use Rattle.expressions.specs.Found.{nothing};
ghost use Rattle.expressions.specs.Nests.{Nests};
ghost use Rattle.expressions.specs.Walked.{Walked, Says};
ghost use Rattle.items.specs.statements.Parts.{SaysParts};

use crate::declarations::declaration;
use crate::statements::blocks::block;
use crate::statements::branches::choose;
use crate::statements::demands::Demand;
use crate::statements::jumps::{leave_loop, return_value};
use crate::statements::loops::{do_loop, for_loop, while_loop};
use crate::statements::taken::optional_unboxed;
use cbase::{NoMemory, Place, Stmt, StmtForm};
use expressions::{Checker, Context, Found, Part, Told, Within};
use std::alloc::Global;

/// What is found of a statement, or of a declaration in a block (C11 6.8): it passes, or what is refused in it first.
///
/// Its parts are walked in the order of the text, those of an `if` and of a loop in a scope of their own. What is found of each expression in it that
/// passes is handed on in the context, in the order of their numbers. Where something is refused in it the scopes that it opened are left, and the
/// place lies in a loop or not as before. Want of memory is the only error, and nothing is said of the context then.
pub fn statement<F: Fn(&mut Context, Within, Part<'_>) -> Result<Found<Told>, NoMemory>>(
    checker: &Checker<F>,
    alloc: Global,
    context: &mut Context,
    stmt: &Stmt,
) -> Result<Found<()>, NoMemory>
    requires nests { Nests checker.now.abi checker.now.depth (F.pre checker.now.inner) (F.post checker.now.inner) }
    requires deep { stmt_levels stmt.now ≤ checker.now.depth + 1 }
    ensures { IfOk result (λ found. Walked (Says checker.now.abi (λ o. StatementIs stmt.now o)) nothing context.old context.new found) }
{
    if !has_scope(&stmt.form) {
        return parts(checker, alloc, context, stmt.place, &stmt.form);
    }
    context.enter(alloc)?;
    let found = parts(checker, alloc, context, stmt.place, &stmt.form)?;
    context.leave();
    Ok(found)
}

/// Whether the parts of a statement stand in a scope of their own: an `if` and a loop is a block, also without braces (C11 6.8.4p3, 6.8.5p5).
fn has_scope(form: &StmtForm) -> bool
    ensures { result ≡ has_scope (out-StmtForm form.now) }
{
    match form {
        StmtForm::If { .. } | StmtForm::While { .. } | StmtForm::Do { .. } | StmtForm::For { .. } =>
            true,
        StmtForm::Declare(_)
        | StmtForm::Eval(_)
        | StmtForm::Block(_)
        | StmtForm::Break
        | StmtForm::Continue
        | StmtForm::Return(_) => false,
    }
}

/// The parts of a statement whose first token stands there, by its form.
fn parts<F: Fn(&mut Context, Within, Part<'_>) -> Result<Found<Told>, NoMemory>>(
    checker: &Checker<F>,
    alloc: Global,
    context: &mut Context,
    place: Place,
    form: &StmtForm,
) -> Result<Found<()>, NoMemory>
    requires nests { Nests checker.now.abi checker.now.depth (F.pre checker.now.inner) (F.post checker.now.inner) }
    requires deep { statement_form_levels form.now ≤ checker.now.depth }
    ensures { IfOk result (λ found. Walked (SaysParts checker.now.abi (parts_in place (out-StmtForm form.now))) nothing context.old context.new found) }
{
    match form {
        StmtForm::Declare(decl) => declaration(checker, alloc, context, place, decl.get()),
        StmtForm::Eval(expr) => optional_unboxed(checker, context, Demand::Dropped, expr),
        StmtForm::Block(body) => block(checker, alloc, context, body.as_slice()),
        StmtForm::If { test, yes, no, .. } => {
            choose(checker, alloc, context, test.get(), yes.get(), no)
        }
        StmtForm::While { test, body, .. } => {
            while_loop(checker, alloc, context, test.get(), body.get())
        }
        StmtForm::Do { body, test, .. } => do_loop(checker, alloc, context, body.get(), test.get()),
        StmtForm::For {
            first,
            test,
            next,
            body,
            ..
        } => for_loop(checker, alloc, context, first.get(), test, next, body.get()),
        StmtForm::Break => Ok(leave_loop(context, place)),
        StmtForm::Continue => Ok(leave_loop(context, place)),
        StmtForm::Return(expr) => return_value(checker, context, place, expr),
    }
}
