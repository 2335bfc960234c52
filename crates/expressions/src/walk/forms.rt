ghost use Rattle.std.specs.Prelude.{◌≤◌, ℕ, All, IfOk};
ghost use Rattle.cbase.specs.declared.tree.expr.ExprForm.TheOpen.{Choose, Cast, OffsetOf, AssertFail};
ghost use Rattle.cbase.specs.declared.abi.Abi.{Abi};
ghost use Rattle.ctrees.specs.Levels.{expr_levels, type_name_levels, part_levels};
ghost use Rattle.expressions.specs.Found.{an_expression};
ghost use Rattle.expressions.specs.Nests.{Nests};
ghost use Rattle.expressions.specs.Shapes.{single_form, pair_form};
ghost use Rattle.expressions.specs.Walked.{Walked, SaysForm};

use crate::checker::{Checker, Within};
use crate::context::Context;
use crate::found::Found;
use crate::known::Known;
use crate::nodes::casting::cast_node;
use crate::nodes::choosing::choice_node;
use crate::nodes::finishing::{Node, pass};
use crate::nodes::offsets::offset_node;
use crate::nodes::shapes::{Pair, Single, is_loaded, pair_node, single_node};
use crate::part::{Part, Told};
use cbase::{Boxed, Expr, NoMemory, TypeName};
use std::alloc::Global;

impl<F: Fn(&mut Context, Within, Part<'_>) -> Result<Found<Told>, NoMemory>> Checker<F> {
    /// A form of one operand, of which the value is taken, or only the place or the type is asked.
    pub(crate) fn single(
        &self,
        context: &mut Context,
        node: Node,
        single: Single<'_>,
        arg: &Boxed<Expr>,
    ) -> Result<Found<Known>, NoMemory>
        requires nests { Nests self.now.abi self.now.depth (F.pre self.now.inner) (F.post self.now.inner) }
        requires arg { expr_levels arg.now ≤ self.now.depth }
        ensures { IfOk result (λ found. Walked (SaysForm self.now.abi node.number node.place (single_form single.entry arg.now)) an_expression context.old context.new found) }
    {
        let arg = arg.get();
        let told = if is_loaded(single) {
            self.loaded(context, arg)
        } else {
            self.ask_expression(context, arg)
        };
        match told {
            Ok(Found::Passes(a)) => single_node(context, node, single, a),
            Ok(Found::Refused(fault)) => Ok(Found::Refused(fault)),
            Err(error) => Err(error),
        }
    }

    /// A form of two operands, whose values are taken or given.
    pub(crate) fn pair(
        &self,
        context: &mut Context,
        node: Node,
        pair: Pair,
        left: &Boxed<Expr>,
        right: &Boxed<Expr>,
    ) -> Result<Found<Known>, NoMemory>
        requires nests { Nests self.now.abi self.now.depth (F.pre self.now.inner) (F.post self.now.inner) }
        requires left { expr_levels left.now ≤ self.now.depth }
        requires right { expr_levels right.now ≤ self.now.depth }
        ensures { IfOk result (λ found. Walked (SaysForm self.now.abi node.number node.place (pair_form pair left.now right.now)) an_expression context.old context.new found) }
    {
        let left = left.get();
        let right = right.get();
        match self.two(context, left, right) {
            Ok(Found::Passes((a, b))) => pair_node(context, node, pair, a, b, right.place),
            Ok(Found::Refused(fault)) => Ok(Found::Refused(fault)),
            Err(error) => Err(error),
        }
    }

    /// `?:` (C11 6.5.15).
    pub(crate) fn choice(
        &self,
        context: &mut Context,
        node: Node,
        test: &Expr,
        one: &Expr,
        other: &Expr,
    ) -> Result<Found<Known>, NoMemory>
        requires nests { Nests self.now.abi self.now.depth (F.pre self.now.inner) (F.post self.now.inner) }
        requires test { expr_levels test.now ≤ self.now.depth }
        requires one { expr_levels one.now ≤ self.now.depth }
        requires other { expr_levels other.now ≤ self.now.depth }
        ensures { IfOk result (λ found. Walked (SaysForm self.now.abi node.number node.place (Choose test.now one.now other.now)) an_expression context.old context.new found) }
    {
        let t = match self.loaded(context, test) {
            Ok(Found::Passes(known)) => known,
            Ok(Found::Refused(fault)) => return Ok(Found::Refused(fault)),
            Err(error) => return Err(error),
        };
        match self.two(context, one, other) {
            Ok(Found::Passes((a, b))) => choice_node(context, node, t, a, b),
            Ok(Found::Refused(fault)) => Ok(Found::Refused(fault)),
            Err(error) => Err(error),
        }
    }

    /// A cast (C11 6.5.4).
    pub(crate) fn cast(
        &self,
        alloc: Global,
        context: &mut Context,
        node: Node,
        to: &TypeName,
        arg: &Expr,
    ) -> Result<Found<Known>, NoMemory>
        requires nests { Nests self.now.abi self.now.depth (F.pre self.now.inner) (F.post self.now.inner) }
        requires to { type_name_levels to.now ≤ self.now.depth }
        requires arg { expr_levels arg.now ≤ self.now.depth }
        ensures { IfOk result (λ found. Walked (SaysForm self.now.abi node.number node.place (Cast to.now arg.now)) an_expression context.old context.new found) }
    {
        let named = match self.type_name(alloc, context, to) {
            Ok(Found::Passes(named)) => named,
            Ok(Found::Refused(fault)) => return Ok(Found::Refused(fault)),
            Err(error) => return Err(error),
        };
        match self.loaded(context, arg) {
            Ok(Found::Passes(a)) => cast_node(context, node, named, a),
            Ok(Found::Refused(fault)) => Ok(Found::Refused(fault)),
            Err(error) => Err(error),
        }
    }

    /// `__builtin_offsetof` (C11 7.19p3).
    pub(crate) fn offset(
        &self,
        context: &mut Context,
        node: Node,
        to: &TypeName,
        path: &[cbase::Part],
        alloc: Global,
    ) -> Result<Found<Known>, NoMemory>
        requires nests { Nests self.now.abi self.now.depth (F.pre self.now.inner) (F.post self.now.inner) }
        requires to { type_name_levels to.now ≤ self.now.depth }
        requires path { All (λ part. part_levels part ≤ self.now.depth) path.now }
        ensures { IfOk result (λ found. Walked (SaysForm self.now.abi node.number node.place (OffsetOf to.now path.now)) an_expression context.old context.new found) }
    {
        let named = match self.type_name(alloc, context, to) {
            Ok(Found::Passes(named)) => named,
            Ok(Found::Refused(fault)) => return Ok(Found::Refused(fault)),
            Err(error) => return Err(error),
        };
        let mut words = Vec::new(alloc);
        match self.indices(context, path, &mut words) {
            Ok(Found::Passes(())) => offset_node(context, node, named, path, &words),
            Ok(Found::Refused(fault)) => Ok(Found::Refused(fault)),
            Err(error) => Err(error),
        }
    }
}

/// `__assert_fail`, whose arguments are not read: it has no value.
pub(crate) fn failed_assertion(context: &mut Context, node: Node) -> Result<Found<Known>, NoMemory>
    ensures { (abi : Abi) → IfOk result (λ found. Walked (SaysForm abi node.number node.place AssertFail) an_expression context.old context.new found) }
{
    match context.void() {
        Ok(ctype) => pass(context, node.number, Known::plain(ctype)),
        Err(error) => Err(error),
    }
}
