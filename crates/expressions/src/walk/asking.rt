ghost use Rattle.std.specs.Prelude.{◌≡◌, ◌<◌, ◌≤◌, ℕ, IfOk, length};
ghost use Rattle.ctrees.specs.Levels.{expr_levels, stmt_levels, init_levels};
ghost use Rattle.typing.specs.Typing.{ExpressionIs, StatementIs, InitialiserIs, SurplusIs};
ghost use Rattle.expressions.specs.Found.{an_expression, nothing};
ghost use Rattle.expressions.specs.Nests.{Nests, part_levels, subject_of, slot_at};
ghost use Rattle.expressions.specs.Telling.{IsOfExpression, IsOfType, IsOfNothing, expression_told, type_told, nothing_told};
ghost use Rattle.expressions.specs.TypeParts.{IsTypePart, IsTypeTold};
ghost use Rattle.expressions.specs.Walked.{Walked, Says, SaysBy};

use crate::checker::{Checker, Within};
use crate::context::Context;
use crate::found::Found;
use crate::known::Known;
use crate::named_type::NamedType;
use crate::part::{Part, Slot, Subject, Told};
use cbase::{Expr, Init, NoMemory, Stmt};

impl<F: Fn(&mut Context, Within, Part<'_>) -> Result<Found<Told>, NoMemory>> Checker<F> {
    /// What is found of an expression that lies in a tree.
    pub fn ask_expression(
        &self,
        context: &mut Context,
        expr: &Expr,
    ) -> Result<Found<Known>, NoMemory>
        requires nests { Nests self.now.abi self.now.depth (F.pre self.now.inner) (F.post self.now.inner) }
        requires deep { expr_levels expr.now ≤ self.now.depth }
        ensures { IfOk result (λ found. Walked (Says self.now.abi (λ o. ExpressionIs expr.now o)) an_expression context.old context.new found) }
    {
        let within = Within {
            abi: self.abi,
            depth: self.depth,
        };
        expression_in((self.inner)(context, within, Part::Expression(expr)))
    }

    /// What is found of a type name that lies in a tree, and of a struct or an enum with braces.
    pub fn ask_type(
        &self,
        context: &mut Context,
        part: Part<'_>,
    ) -> Result<Found<NamedType>, NoMemory>
        requires nests { Nests self.now.abi self.now.depth (F.pre self.now.inner) (F.post self.now.inner) }
        requires deep { part_levels part ≤ self.now.depth }
        requires of_type { IsTypePart part }
        ensures { IfOk result (λ found. IsTypeTold self.now.abi part.entry context.old context.new found) }
    {
        let within = Within {
            abi: self.abi,
            depth: self.depth,
        };
        type_in((self.inner)(context, within, part))
    }

    /// What is found of a statement or a declaration in a block.
    pub fn ask_statement(&self, context: &mut Context, stmt: &Stmt) -> Result<Found<()>, NoMemory>
        requires nests { Nests self.now.abi self.now.depth (F.pre self.now.inner) (F.post self.now.inner) }
        requires deep { stmt_levels stmt.now ≤ self.now.depth }
        ensures { IfOk result (λ found. Walked (Says self.now.abi (λ o. StatementIs stmt.now o)) nothing context.old context.new found) }
    {
        let within = Within {
            abi: self.abi,
            depth: self.depth,
        };
        nothing_in((self.inner)(context, within, Part::Statement(stmt)))
    }

    /// What is found of an initialiser of what is set in an object.
    pub fn ask_initialiser(
        &self,
        context: &mut Context,
        subject: Subject,
        slot: Slot,
        init: &Init,
    ) -> Result<Found<()>, NoMemory>
        requires nests { Nests self.now.abi self.now.depth (F.pre self.now.inner) (F.post self.now.inner) }
        requires deep { init_levels init.now ≤ self.now.depth }
        requires slot { slot.ctype < length context.old.types }
        ensures { IfOk result (λ found. Walked (SaysBy self.now.abi (λ n o. InitialiserIs (subject_of subject) (slot_at n slot) init.now o)) nothing context.old context.new found) }
    {
        let within = Within {
            abi: self.abi,
            depth: self.depth,
        };
        nothing_in(
            (self.inner)(
                context,
                within,
                Part::Initialiser(subject, Some(slot), init),
            ),
        )
    }

    /// What is found of an initialiser for which there is no place.
    pub fn ask_surplus(
        &self,
        context: &mut Context,
        subject: Subject,
        init: &Init,
    ) -> Result<Found<()>, NoMemory>
        requires nests { Nests self.now.abi self.now.depth (F.pre self.now.inner) (F.post self.now.inner) }
        requires deep { init_levels init.now ≤ self.now.depth }
        ensures { IfOk result (λ found. Walked (Says self.now.abi (λ o. SurplusIs subject.place init.now o)) nothing context.old context.new found) }
    {
        let within = Within {
            abi: self.abi,
            depth: self.depth,
        };
        nothing_in((self.inner)(context, within, Part::Initialiser(subject, None, init)))
    }
}

/// What is told of an expression.
fn expression_in(told: Result<Found<Told>, NoMemory>) -> Result<Found<Known>, NoMemory>
    requires { IfOk told IsOfExpression }
    ensures { told ≡ expression_told result }
{
    match told {
        Ok(Found::Passes(Told::Expression(known))) => Ok(Found::Passes(known)),
        Ok(Found::Passes(_)) => unreachable!(),
        Ok(Found::Refused(fault)) => Ok(Found::Refused(fault)),
        Err(error) => Err(error),
    }
}

/// What is told of a type name, and of a struct or an enum with braces.
fn type_in(told: Result<Found<Told>, NoMemory>) -> Result<Found<NamedType>, NoMemory>
    requires { IfOk told IsOfType }
    ensures { told ≡ type_told result }
{
    match told {
        Ok(Found::Passes(Told::TypeName(named))) => Ok(Found::Passes(named)),
        Ok(Found::Passes(_)) => unreachable!(),
        Ok(Found::Refused(fault)) => Ok(Found::Refused(fault)),
        Err(error) => Err(error),
    }
}

/// That a statement or an initialiser passes.
fn nothing_in(told: Result<Found<Told>, NoMemory>) -> Result<Found<()>, NoMemory>
    requires { IfOk told IsOfNothing }
    ensures { told ≡ nothing_told result }
{
    match told {
        Ok(Found::Passes(Told::Nothing)) => Ok(Found::Passes(())),
        Ok(Found::Passes(_)) => unreachable!(),
        Ok(Found::Refused(fault)) => Ok(Found::Refused(fault)),
        Err(error) => Err(error),
    }
}
