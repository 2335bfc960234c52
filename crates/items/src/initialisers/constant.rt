ghost use Rattle.std.specs.Prelude.{◌≡◌, ℕ, map, option_map, IfOk};
ghost use Rattle.cbase.specs.declared.tree.expr.ExprForm.TheViews.{out-ExprForm};
ghost use Rattle.ctrees.specs.Levels.{expr_levels};
ghost use Rattle.typing.specs.Initialisers.{value_leads, place_leads, leads};
ghost use Rattle.expressions.specs.Context.{Agrees};
ghost use Rattle.expressions.specs.Numbers.{handed_at};
ghost use Rattle.items.specs.initialisers.Constants.{use_at, IsLeading, IsConstantBy};

use crate::initialisers::rows::{has_value, is_array, is_fixed, is_pointer, row_of};
use cbase::{Expr, ExprForm, NoMemory, UnaryOp};
use expressions::{Context, HandedRow};

/// What an expression is asked to be.
#[derive(Clone, Copy)]
pub(crate) enum Use {
    /// A constant (C11 6.6p7).
    Value,
    /// An object whose address is one (C11 6.6p9).
    Place,
}

/// What a form tells of that.
#[derive(Clone, Copy)]
enum Leading<'a> {
    /// It is one, or not.
    Ends(bool),
    /// It is one where a part of it is that.
    GoesOn(Use, &'a Expr),
}

/// Whether an expression has the form that a static initialiser has (C11 6.6p7, p9), or is a place whose address has it, by the rows that were handed on of it
/// and of its parts. It goes down the expression, with at most three look-ups at each level.
pub(crate) fn is_constant(
    context: &Context,
    rows: &[HandedRow],
    manner: Use,
    expr: &Expr,
) -> Result<bool, NoMemory>
    ensures { IfOk result (λ constant. IsConstantBy context.now rows.now (use_at manner) expr.now constant) }
{
    match leads(context, rows, manner, expr)? {
        Leading::Ends(constant) => Ok(constant),
        Leading::GoesOn(next, inner) => is_constant(context, rows, next, inner),
    }
}

/// What the form of an expression tells.
fn leads<'a>(
    context: &Context,
    rows: &[HandedRow],
    manner: Use,
    expr: &'a Expr,
) -> Result<Leading<'a>, NoMemory>
    ensures { IfOk result (λ leading. IsLeading context.now expr.now (λ n. leads (map (handed_at n) rows.now) (use_at manner) expr.now.number (out-ExprForm expr.now.form)) leading) }
{
    match manner {
        Use::Value => {
            if has_value(row_of(rows, expr.number)) {
                return Ok(Leading::Ends(true));
            }
            value_leads(context, rows, expr)
        }
        Use::Place => place_leads(context, rows, expr),
    }
}

/// What the form of a value tells that is no integer constant expression.
fn value_leads<'a>(
    context: &Context,
    rows: &[HandedRow],
    expr: &'a Expr,
) -> Result<Leading<'a>, NoMemory>
    ensures { IfOk result (λ leading. IsLeading context.now expr.now (λ n. value_leads (map (handed_at n) rows.now) expr.now.number (out-ExprForm expr.now.form)) leading) }
{
    let row = row_of(rows, expr.number);
    match &expr.form {
        ExprForm::Name(_) => {
            if !is_fixed(row) {
                return Ok(Leading::Ends(false));
            }
            Ok(Leading::Ends(is_array(context, row)?))
        }
        ExprForm::Unary {
            op: UnaryOp::Address,
            arg,
        } => Ok(Leading::GoesOn(Use::Place, arg.get())),
        ExprForm::Cast { arg, .. } => {
            if !is_pointer(context, row)? {
                return Ok(Leading::Ends(false));
            }
            Ok(Leading::GoesOn(Use::Value, arg.get()))
        }
        _ => Ok(Leading::Ends(false)),
    }
}

/// What the form of a place tells.
fn place_leads<'a>(
    context: &Context,
    rows: &[HandedRow],
    expr: &'a Expr,
) -> Result<Leading<'a>, NoMemory>
    ensures { IfOk result (λ leading. IsLeading context.now expr.now (λ n. place_leads (map (handed_at n) rows.now) expr.now.number (out-ExprForm expr.now.form)) leading) }
{
    match &expr.form {
        ExprForm::Name(_) => Ok(Leading::Ends(is_fixed(row_of(rows, expr.number)))),
        ExprForm::Member {
            base,
            through: false,
            ..
        } => Ok(Leading::GoesOn(Use::Place, base.get())),
        ExprForm::Index { base, index } => {
            if !has_value(row_of(rows, index.get().number)) {
                return Ok(Leading::Ends(false));
            }
            if !is_array(context, row_of(rows, base.get().number))? {
                return Ok(Leading::Ends(false));
            }
            Ok(Leading::GoesOn(Use::Place, base.get()))
        }
        _ => Ok(Leading::Ends(false)),
    }
}
