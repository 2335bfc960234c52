//! What an expression is, one layer of it, with what is known of it from typing.
ghost use Rattle.lowering.specs.Reading.{IsForm, IsKnown, IsMember, form_in};

use crate::source::Source;
use c_steps::Tree;
use cbase::{BinaryOp, Expr, ExprForm, Identifier, List, Place, Stmt, UnaryOp};

/// What an expression is (C11 6.5). Constants, `sizeof` and `__builtin_offsetof` have the bits of their value; a member has how many bytes stand before it.
#[derive(Drop)]
pub enum TreeForm<'a> {
    /// A name.
    Name,
    /// A constant, `sizeof` or `__builtin_offsetof`, where its value is known.
    Known(Option<u64>),
    /// A unary operator.
    Unary {
        /// The operator.
        op: UnaryOp,
        /// Its operand.
        arg: Tree<'a, Expr>,
    },
    /// A binary operator or the comma.
    Binary {
        /// The operator.
        op: BinaryOp,
        /// Its left operand.
        left: Tree<'a, Expr>,
        /// Its right operand.
        right: Tree<'a, Expr>,
    },
    /// An assignment.
    Assign {
        /// The operation of `+=` and its like; none for `=`.
        op: Option<BinaryOp>,
        /// What is assigned to.
        left: Tree<'a, Expr>,
        /// The value.
        right: Tree<'a, Expr>,
    },
    /// `++` or `--`.
    Count {
        /// Whether it is `++`.
        up: bool,
        /// Whether it stands behind its operand.
        after: bool,
        /// Its operand.
        arg: Tree<'a, Expr>,
    },
    /// `?:`.
    Choose {
        /// The condition.
        test: Tree<'a, Expr>,
        /// The arm behind `?`.
        one: Tree<'a, Expr>,
        /// The arm behind `:`.
        other: Tree<'a, Expr>,
    },
    /// A cast.
    Cast(Tree<'a, Expr>),
    /// An item of an array.
    Index {
        /// What stands before `[`.
        base: Tree<'a, Expr>,
        /// What stands in the brackets.
        index: Tree<'a, Expr>,
    },
    /// A member of a struct.
    Member {
        /// The struct, or the pointer to it.
        base: Tree<'a, Expr>,
        /// How many bytes stand before it.
        offset: u64,
        /// Whether it is reached by `->`, and not by `.`.
        through: bool,
    },
    /// A call.
    Call {
        /// What is called.
        callee: Tree<'a, Expr>,
        /// The arguments, left to right.
        args: Tree<'a, List<Expr>>,
    },
    /// A block in brackets, whose value is that of its last statement.
    Inner {
        /// The statements of the block.
        body: Tree<'a, List<Stmt>>,
        /// The place of the block's `}`.
        close: Place,
    },
    /// `__assert_fail` with its arguments, which are not read.
    AssertFail,
}

/// What an expression is. It takes one step, and at a member one look-up in the names of the members.
pub fn read_form<'a>(source: &Source, expr: &'a Expr) -> TreeForm<'a>
    ensures { IsForm source.now.context expr.now (form_in result) }
{
    match &expr.form {
        ExprForm::Name(_) => TreeForm::Name,
        ExprForm::Constant(_) => known(source, expr),
        ExprForm::Unary { op, arg } => TreeForm::Unary {
            op: *op,
            arg: Tree::of(arg.get()),
        },
        ExprForm::Binary { op, left, right } => TreeForm::Binary {
            op: *op,
            left: Tree::of(left.get()),
            right: Tree::of(right.get()),
        },
        ExprForm::Assign { op, left, right } => TreeForm::Assign {
            op: *op,
            left: Tree::of(left.get()),
            right: Tree::of(right.get()),
        },
        ExprForm::Count { up, after, arg } => TreeForm::Count {
            up: *up,
            after: *after,
            arg: Tree::of(arg.get()),
        },
        ExprForm::Choose { test, yes, no } => TreeForm::Choose {
            test: Tree::of(test.get()),
            one: Tree::of(yes.get()),
            other: Tree::of(no.get()),
        },
        ExprForm::Cast { arg, .. } => TreeForm::Cast(Tree::of(arg.get())),
        ExprForm::SizeOf(_) => known(source, expr),
        ExprForm::SizeOfType(_) => known(source, expr),
        ExprForm::OffsetOf { .. } => known(source, expr),
        ExprForm::Index { base, index } => TreeForm::Index {
            base: Tree::of(base.get()),
            index: Tree::of(index.get()),
        },
        ExprForm::Member {
            base,
            name,
            through,
        } => member(source, base.get(), name.get(), *through),
        ExprForm::Call { callee, args } => TreeForm::Call {
            callee: Tree::of(callee.get()),
            args: Tree::of(args),
        },
        ExprForm::Inner { body, close } => TreeForm::Inner {
            body: Tree::of(body),
            close: *close,
        },
        ExprForm::AssertFail => TreeForm::AssertFail,
    }
}

/// A constant, `sizeof` or `__builtin_offsetof` (C11 6.4.4, 6.5.3.4, 7.19).
fn known<'a>(source: &Source, expr: &'a Expr) -> TreeForm<'a>
    ensures { IsKnown source.now.context expr.now (form_in result) }
{
    TreeForm::Known(source.text().constant(expr.number))
}

/// A member of the struct that an expression is, and behind `->` of the struct to which it leads (C11 6.5.2.3p3, p4).
fn member<'a>(source: &Source, base: &'a Expr, name: &'a Identifier, through: bool) -> TreeForm<'a>
    ensures { IsMember source.now.context base.now name.now through (form_in result) }
{
    let spelled = name.name.as_slice();
    if through {
        TreeForm::Member {
            base: Tree::of(base),
            offset: source.text().pointed_offset(base.number, spelled),
            through,
        }
    } else {
        TreeForm::Member {
            base: Tree::of(base),
            offset: source.text().member_offset(base.number, spelled),
            through,
        }
    }
}
