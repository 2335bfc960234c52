//! The kind of what a form makes, where that is not said by the kind of the expression itself.
ghost use Rattle.std.specs.Prelude.{◌≡◌, IfOk};
ghost use Rattle.c_machine.specs.Text.{Binary, Unary};
ghost use Rattle.lowering.specs.Made.{IsAssignedKind, IsLastKind, IsMade, IsMadeKind, IsResult, kind_of_called, promoted_kind};
ghost use Rattle.lowering.specs.Reading.{form_in};
ghost use Rattle.lowering.specs.Table.{assigned};

use crate::called::{Called, called_by};
use crate::form::TreeForm;
use crate::inner::last_of;
use crate::kinds::{fits, is_void, made_by};
use crate::source::{Source, kind, value_kind};
use c_machine::{Kind, WholeType};
use cbase::{BinaryOp, Expr, NoMemory, Stmt, UnaryOp};

/// The kind of what a form makes.
pub fn kind_made(source: &Source, expr: &Expr, form: &TreeForm) -> Result<Kind, NoMemory>
    ensures { IfOk result (λ kind. IsMadeKind source.now expr.now (form_in form.now) kind) }
{
    match form {
        TreeForm::Unary { op, arg } => made_by_unary(source, expr, *op, arg.get()),
        TreeForm::Binary { op, left, right } => made_by_binary(
            source,
            expr,
            *op,
            left.get(),
            right.get(),
        ),
        TreeForm::Assign { op, left, .. } => made_by_assignment(source, *op, left.get()),
        TreeForm::Count { arg, .. } => kind(source, arg.get()),
        TreeForm::Call { callee, .. } => result_of(source, callee.get()),
        TreeForm::Inner { body, .. } => kind_of_last(source, body.get().as_slice()),
        _ => value_kind(source, expr),
    }
}

/// The kind of what a unary operator makes.
fn made_by_unary(source: &Source, expr: &Expr, op: UnaryOp, arg: &Expr) -> Result<Kind, NoMemory>
    ensures { IfOk result (λ kind. IsMadeKind source.now expr.now (Unary op arg.now) kind) }
{
    match op {
        UnaryOp::Follow => value_kind(source, expr),
        UnaryOp::Address => Ok(Kind::Pointer(1)),
        UnaryOp::Not => Ok(Kind::Integer(WholeType::int())),
        _ => {
            let own = value_kind(source, arg)?;
            Ok(promoted(own))
        }
    }
}

/// The kind of an operand behind its promotion (C11 6.3.1.1p2).
fn promoted(kind: Kind) -> Kind
    ensures { result ≡ promoted_kind kind }
{
    match kind {
        Kind::Integer(of) => Kind::Integer(of.promoted()),
        _ => kind,
    }
}

/// The kind of what a binary operator or the comma makes.
fn made_by_binary(
    source: &Source,
    expr: &Expr,
    op: BinaryOp,
    left: &Expr,
    right: &Expr,
) -> Result<Kind, NoMemory>
    ensures { IfOk result (λ kind. IsMadeKind source.now expr.now (Binary op left.now right.now) kind) }
{
    match op {
        BinaryOp::Comma => value_kind(source, right),
        _ => {
            let left_kind = value_kind(source, left)?;
            let right_kind = value_kind(source, right)?;
            Ok(made_by(op, left_kind, right_kind))
        }
    }
}

/// The kind of what an assignment makes: that of a struct makes no value.
fn made_by_assignment(source: &Source, op: Option<BinaryOp>, left: &Expr) -> Result<Kind, NoMemory>
    ensures { IfOk result (λ kind. IsAssignedKind source.now op left.now kind) }
{
    let own = kind(source, left)?;
    match op {
        None => Ok(assigned(own)),
        Some(_) => Ok(own),
    }
}

/// The kind of what `=` makes on a left side of a kind.
fn assigned(kind: Kind) -> Kind
    ensures { result ≡ assigned kind }
{
    match kind {
        Kind::Struct(_) => Kind::Void,
        _ => kind,
    }
}

/// The kind of the value of a statement expression.
pub fn kind_of_last(source: &Source, body: &[Stmt]) -> Result<Kind, NoMemory>
    ensures { IfOk result (λ kind. IsLastKind source.now body.now kind) }
{
    match last_of(body) {
        None => Ok(Kind::Void),
        Some(last) => value_kind(source, last),
    }
}

/// The kind of what a call makes.
fn result_of(source: &Source, callee: &Expr) -> Result<Kind, NoMemory>
    ensures { IfOk result (λ kind. IsResult source.now callee.now kind) }
{
    let called = called_by(source, callee)?;
    Ok(kind_of_called(&called))
}

/// The kind of the result of what is called.
fn kind_of_called(called: &Called) -> Kind
    ensures { result ≡ kind_of_called called.now }
{
    match called {
        Called::BuiltIn { made, .. } => *made,
        Called::Body { made, .. } => *made,
        Called::Nothing => Kind::Void,
    }
}

/// Whether a value is made as the expression says.
pub fn is_made(source: &Source, expr: &Expr, form: &TreeForm) -> Result<bool, NoMemory>
    ensures { IfOk result (λ made. IsMade source.now expr.now (form_in form.now) made) }
{
    let own = value_kind(source, expr)?;
    let made = kind_made(source, expr, form)?;
    Ok(!is_void(own) && fits(made, own))
}
