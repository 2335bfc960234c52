//! What stands directly in an expression (C11 6.5).
ghost use Rattle.std.specs.Prelude.{◌≡◌, ◌∷◌, ◌++◌, map, OnOk};
ghost use Rattle.std.specs.List.{flat_map};
ghost use Rattle.cbase.specs.declared.tree.expr.ExprForm.TheViews.{out-ExprForm, out-Part};
ghost use Rattle.c_machine.specs.Statics.{AnExpr, in_form, in_step, in_type_name};

use crate::statics::node::Nodes;
use crate::statics::parts::list::{push_exprs, push_stmts};
use crate::statics::parts::name::push_in_type_name;
use crate::statics::parts::single::{push_expr, push_two};
use cbase::{Expr, ExprForm, NoMemory, Part, TypeName};

/// What stands in an expression.
pub fn push_in_expr<'a>(nodes: &mut Nodes<'a>, expr: &'a Expr) -> Result<(), NoMemory>
    ensures { OnOk result (nodes.new ≡ in_form (out-ExprForm expr.now.form) ++ nodes.old) }
{
    match &expr.form {
        ExprForm::Name(_) => Ok(()),
        ExprForm::Constant(_) => Ok(()),
        ExprForm::Unary { arg, .. } => push_expr(nodes, arg.get()),
        ExprForm::Binary { left, right, .. } => push_two(nodes, left.get(), right.get()),
        ExprForm::Assign { left, right, .. } => push_two(nodes, left.get(), right.get()),
        ExprForm::Count { arg, .. } => push_expr(nodes, arg.get()),
        ExprForm::Choose { test, yes, no } => push_three(nodes, test.get(), yes.get(), no.get()),
        ExprForm::Cast { to, arg } => push_cast(nodes, to.get(), arg.get()),
        ExprForm::SizeOf(arg) => push_expr(nodes, arg.get()),
        ExprForm::SizeOfType(to) => push_in_type_name(nodes, to.get()),
        ExprForm::OffsetOf { to, path } => push_way(nodes, to.get(), path.as_slice()),
        ExprForm::Index { base, index } => push_two(nodes, base.get(), index.get()),
        ExprForm::Member { base, .. } => push_expr(nodes, base.get()),
        ExprForm::Call { callee, args } => push_call(nodes, callee.get(), args.as_slice()),
        ExprForm::Inner { body, .. } => push_stmts(nodes, body.as_slice()),
        ExprForm::AssertFail => Ok(()),
    }
}

/// What stands in `?:` (C11 6.5.15).
fn push_three<'a>(
    nodes: &mut Nodes<'a>,
    test: &'a Expr,
    one: &'a Expr,
    other: &'a Expr,
) -> Result<(), NoMemory>
    ensures { OnOk result (nodes.new ≡ AnExpr test.now ∷ AnExpr one.now ∷ AnExpr other.now ∷ nodes.old) }
{
    push_two(nodes, one, other)?;
    push_expr(nodes, test)
}

/// What stands in a cast (C11 6.5.4).
fn push_cast<'a>(nodes: &mut Nodes<'a>, to: &'a TypeName, arg: &'a Expr) -> Result<(), NoMemory>
    ensures { OnOk result (nodes.new ≡ in_type_name to.now ++ AnExpr arg.now ∷ nodes.old) }
{
    push_expr(nodes, arg)?;
    push_in_type_name(nodes, to)
}

/// What stands in a call (C11 6.5.2.2).
fn push_call<'a>(nodes: &mut Nodes<'a>, callee: &'a Expr, args: &'a [Expr]) -> Result<(), NoMemory>
    ensures { OnOk result (nodes.new ≡ AnExpr callee.now ∷ map AnExpr args.now ++ nodes.old) }
{
    push_exprs(nodes, args)?;
    push_expr(nodes, callee)
}

/// What stands in `__builtin_offsetof`.
fn push_way<'a>(nodes: &mut Nodes<'a>, to: &'a TypeName, path: &'a [Part]) -> Result<(), NoMemory>
    ensures { OnOk result (nodes.new ≡ in_type_name to.now ++ (flat_map (λ step. in_step (out-Part step)) path.now ++ nodes.old)) }
{
    push_in_steps(nodes, path)?;
    push_in_type_name(nodes, to)
}

/// What stands on the way to a member.
fn push_in_steps<'a>(nodes: &mut Nodes<'a>, path: &'a [Part]) -> Result<(), NoMemory>
    ensures { OnOk result (nodes.new ≡ flat_map (λ step. in_step (out-Part step)) path.now ++ nodes.old) }
{
    let mut left = path.len();
    while left > 0 {
        left -= 1;
        push_in_step(nodes, &path[left])?;
    }
    Ok(())
}

/// What stands in a step of the way to a member.
fn push_in_step<'a>(nodes: &mut Nodes<'a>, step: &'a Part) -> Result<(), NoMemory>
    ensures { OnOk result (nodes.new ≡ in_step (out-Part step.now) ++ nodes.old) }
{
    match step {
        Part::Member(_) => Ok(()),
        Part::At(index) => push_expr(nodes, index),
    }
}
