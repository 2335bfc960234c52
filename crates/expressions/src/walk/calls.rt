ghost use Rattle.std.specs.Prelude.{◌≡◌, ◌<◌, ◌≤◌, ◌||◌, ℕ, Bool, List, All, Some, IfOk, IfSome, IfNone, length};
ghost use Rattle.cbase.specs.declared.tree.expr.ExprForm.TheOpen.{Call};
ghost use Rattle.ctrees.specs.Levels.{expr_levels};
ghost use Rattle.typing.specs.environment.Environment.{name_found};
ghost use Rattle.typing.specs.declared.environment.entity.Entity.TheVariants.{Function};
ghost use Rattle.typing.specs.Nodes.{function_faults, called_of};
ghost use Rattle.typing.specs.Typing.{named};
ghost use Rattle.expressions.specs.Found.{an_expression};
ghost use Rattle.expressions.specs.Nests.{Nests};
ghost use Rattle.expressions.specs.Numbers.{function_at};
ghost use Rattle.expressions.specs.Settled.{Settled};
ghost use Rattle.expressions.specs.Walked.{Walked, SaysForm};

use crate::checker::{Checker, Within};
use crate::context::Context;
use crate::found::Found;
use crate::known::Known;
use crate::nodes::calling::{Callee, call_node};
use crate::nodes::finishing::{Node, settle};
use crate::nodes::first::unless;
use crate::part::{Part, Told};
use cbase::{Expr, ExprForm, NoMemory};
use std::alloc::Global;
use typing::ctypes::Broken;
use typing::environment::Entity;

impl<F: Fn(&mut Context, Within, Part<'_>) -> Result<Found<Told>, NoMemory>> Checker<F> {
    /// A call (C11 6.5.2.2).
    pub(crate) fn call(
        &self,
        alloc: Global,
        context: &mut Context,
        node: Node,
        callee: &Expr,
        args: &[Expr],
    ) -> Result<Found<Known>, NoMemory>
        requires nests { Nests self.now.abi self.now.depth (F.pre self.now.inner) (F.post self.now.inner) }
        requires callee { expr_levels callee.now ≤ self.now.depth }
        requires args { All (λ arg. expr_levels arg ≤ self.now.depth) args.now }
        ensures { IfOk result (λ found. Walked (SaysForm self.now.abi node.number node.place (Call callee.now args.now)) an_expression context.old context.new found) }
    {
        let function = named_function(context, callee);
        let told = match function {
            Some(function) => called_function(context, callee, function),
            None => self.loaded(context, callee),
        };
        match told {
            Ok(Found::Passes(_)) => {}
            Ok(Found::Refused(fault)) => return Ok(Found::Refused(fault)),
            Err(error) => return Err(error),
        }
        let mut known = Vec::new(alloc);
        match self.arguments(context, args, &mut known) {
            Ok(Found::Passes(())) => call_node(context, node, function, args, &known),
            Ok(Found::Refused(fault)) => Ok(Found::Refused(fault)),
            Err(error) => Err(error),
        }
    }
}

/// What is found at the name of a function that is called. One without definition is construct 12. The name is handed on with the type of the call.
fn called_function(
    context: &mut Context,
    callee: &Expr,
    function: Callee<'_>,
) -> Result<Found<Known>, NoMemory>
    requires { function.signature < length context.old.environment.signatures }
    ensures { IfOk result (λ found. Settled (λ n. function_faults callee.now.place (function_at n (n.signature function.entry.signature) function.entry.defined function.entry.built_in)) (λ n. called_of (function_at n (n.signature function.entry.signature) function.entry.defined function.entry.built_in)) callee.now.number context.old context.new found) }
{
    let result = context.result_of(function.signature);
    let is_there = is_there(function.defined, function.built_in);
    let broken = unless(is_there, callee.place, Broken::Construct(12));
    let known = Known {
        stands: Some(Entity::Function {
            signature: function.signature,
            defined: function.defined,
            built_in: function.built_in,
        }),
        ..Known::plain(result)
    };
    settle(context, callee.number, broken, known)
}

/// Whether a function has a definition, in the text or built in.
fn is_there(defined: bool, built_in: bool) -> bool
    ensures { result ≡ (defined || built_in) }
{
    defined || built_in
}

/// The function that a callee names, if it names one.
fn named_function<'a>(context: &Context, callee: &'a Expr) -> Option<Callee<'a>>
    ensures some { IfSome result (λ function. (named callee.now ≡ Some function.name.now) × (name_found function.name.now context.now.environment ≡ Some (Function function.signature function.defined function.built_in))) }
    ensures place { IfSome result (λ function. function.place ≡ callee.now.place) }
    ensures signature { IfSome result (λ function. function.signature < length context.now.environment.signatures) }
    ensures none { IfNone result ((name : List ℕ) (signature : ℕ) (defined built_in : Bool) → named callee.now ≡ Some name → name_found name context.now.environment ≡ Some (Function signature defined built_in) → ⊥) }
{
    let ExprForm::Name(name) = &callee.form else {
        return None;
    };
    match context.look_up(name.as_slice()) {
        Some(
            Entity::Function {
                signature,
                defined,
                built_in,
            },
        ) => Some(Callee {
            name: name.as_slice(),
            place: callee.place,
            signature,
            defined,
            built_in,
        }),
        _ => None,
    }
}
