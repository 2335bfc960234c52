ghost use Rattle.std.specs.Prelude.{◌≤◌, ◌+◌, ℕ, IfOk};
ghost use Rattle.ctrees.specs.Levels.{expr_levels};
ghost use Rattle.typing.specs.Typing.{ExpressionIs};
ghost use Rattle.expressions.specs.Exact.{NothingElse};
ghost use Rattle.expressions.specs.Found.{an_expression};
ghost use Rattle.expressions.specs.Nests.{Nests};
ghost use Rattle.expressions.specs.Walked.{Walked, Says};

use crate::checker::{Checker, Within};
use crate::context::Context;
use crate::found::Found;
use crate::known::Known;
use crate::nodes::constant::constant_node;
use crate::nodes::finishing::Node;
use crate::nodes::names::name_node;
use crate::nodes::shapes::{Pair, Single};
use crate::nodes::sizes::size_node;
use crate::part::{Part, Told};
use crate::walk::forms::failed_assertion;
use cbase::{Expr, ExprForm, NoMemory};
use std::alloc::Global;

impl<F: Fn(&mut Context, Within, Part<'_>) -> Result<Found<Told>, NoMemory>> Checker<F> {
    /// What is found of an expression (C11 6.5): its type and what else is known of it, or the first thing that is refused in it.
    ///
    /// Its parts are walked in the order of the text, and the expression itself behind them. What is found of each expression in it that passes is
    /// handed on in the context, in the order of their numbers. Want of memory is the only error, and nothing is said of the context then.
    pub fn expression(
        &self,
        alloc: Global,
        context: &mut Context,
        expr: &Expr,
    ) -> Result<Found<Known>, NoMemory>
        requires nests { Nests self.now.abi self.now.depth (F.pre self.now.inner) (F.post self.now.inner) }
        requires deep { expr_levels expr.now ≤ self.now.depth + 1 }
        ensures found { IfOk result (λ found. Walked (Says self.now.abi (λ o. ExpressionIs expr.now o)) an_expression context.old context.new found) }
        ensures nothing_else { IfOk result (λ found. NothingElse self.now.abi expr.now context.old context.new found) }
    {
        let node = Node {
            number: expr.number,
            place: expr.place,
        };
        match &expr.form {
            ExprForm::Name(name) => name_node(context, node, name.as_slice()),
            ExprForm::Constant(spelling) => {
                constant_node(context, node, self.abi, spelling.as_slice())
            }
            ExprForm::Unary { op, arg } => self.single(context, node, Single::Unary(*op), arg),
            ExprForm::Binary { op, left, right } => {
                self.pair(context, node, Pair::Binary(*op), left, right)
            }
            ExprForm::Assign { op, left, right } => {
                self.pair(context, node, Pair::Assign(*op), left, right)
            }
            ExprForm::Count { up, after, arg } => self.single(
                context,
                node,
                Single::Count {
                    up: *up,
                    after: *after,
                },
                arg,
            ),
            ExprForm::Choose { test, yes, no } => {
                self.choice(context, node, test.get(), yes.get(), no.get())
            }
            ExprForm::Cast { to, arg } => self.cast(alloc, context, node, to.get(), arg.get()),
            ExprForm::SizeOf(arg) => self.single(context, node, Single::Size, arg),
            ExprForm::SizeOfType(to) => match self.type_name(alloc, context, to.get()) {
                Ok(Found::Passes(named)) => size_node(context, node, named),
                Ok(Found::Refused(fault)) => Ok(Found::Refused(fault)),
                Err(error) => Err(error),
            },
            ExprForm::OffsetOf { to, path } => {
                self.offset(context, node, to.get(), path.as_slice(), alloc)
            }
            ExprForm::Index { base, index } => {
                self.pair(context, node, Pair::Index, base, index)
            }
            ExprForm::Member {
                base,
                name,
                through,
            } => self.single(context, node, Single::Member(name.get(), *through), base),
            ExprForm::Call { callee, args } => {
                self.call(alloc, context, node, callee.get(), args.as_slice())
            }
            ExprForm::Inner { body, .. } => {
                self.statement_expression(alloc, context, node, body.as_slice())
            }
            ExprForm::AssertFail => failed_assertion(context, node),
        }
    }
}
