//! The walk over the parts of a tree, which hands itself in as the walk over what lies in them.
ghost use Rattle.std.specs.Prelude.{◌≡◌, ◌≤◌, ◌+◌, IfOk, length};
ghost use Rattle.ctrees.specs.Levels.{expr_levels, item_levels, stmt_levels};
ghost use Rattle.expressions.specs.Found.{an_expression, nothing};
ghost use Rattle.expressions.specs.Nests.{Nests, IsTold, IsPartBelow, part_levels};
ghost use Rattle.expressions.specs.Walked.{Walked, Says};
ghost use Rattle.typing.specs.Typing.{ExpressionIs, StatementIs};
ghost use Rattle.expressions.specs.Exact.{NothingElse as ExpressionIsNothingElse};
ghost use Rattle.items.specs.InFile.{SaysInFile};
ghost use Rattle.typing.specs.Items.{ItemIs};
ghost use Rattle.items.specs.tree_walk.Exact.{ItemIsNothingElse, NothingElse};

use crate::initialisers::initialiser;
use crate::statements::statement;
use crate::walk::item;
use cbase::{Abi, Expr, Item, NoMemory, Place, Stmt};
use expressions::{Checker, Context, Found, Known, Part, Told, Within};

/// How many levels a tree that is read has at most.
const MOST_LEVELS: u32 = 1024;

/// What is found of an expression (C11 6.5), or the first thing that is refused in it: that is found of it, and nothing else.
///
/// Want of memory is the only error, and nothing is said of the context then.
pub fn expression_found(
    context: &mut Context,
    abi: Abi,
    expr: &Expr,
) -> Result<Found<Known>, NoMemory>
    requires { expr_levels expr.now ≤ 1024 }
    ensures found { IfOk result (λ found. Walked (Says abi (λ o. ExpressionIs expr.now o)) an_expression context.old context.new found) }
    ensures nothing_else { IfOk result (λ found. ExpressionIsNothingElse abi expr.now context.old context.new found) }
{
    expression_walked(context, abi, expr)
}

/// What is found of an expression.
fn expression_walked(context: &mut Context, abi: Abi, expr: &Expr) -> Result<Found<Known>, NoMemory>
    requires { expr_levels expr.now ≤ 1024 }
    ensures { IfOk result (λ found. Walked (Says abi (λ o. ExpressionIs expr.now o)) an_expression context.old context.new found) }
{
    match walk(context, whole(abi), Part::Expression(expr))? {
        Found::Passes(Told::Expression(known)) => Ok(Found::Passes(known)),
        Found::Passes(_) => unreachable!(),
        Found::Refused(fault) => Ok(Found::Refused(fault)),
    }
}

/// What is found of a statement or a declaration in a block (C11 6.7, 6.8), or the first thing that is refused in it: that is found of it, and nothing else.
///
/// Want of memory is the only error, and nothing is said of the context then.
pub fn statement_found(context: &mut Context, abi: Abi, stmt: &Stmt) -> Result<Found<()>, NoMemory>
    requires { stmt_levels stmt.now ≤ 1024 }
    ensures found { IfOk result (λ found. Walked (Says abi (λ o. StatementIs stmt.now o)) nothing context.old context.new found) }
    ensures nothing_else { IfOk result (λ found. NothingElse abi stmt.now context.old context.new found) }
{
    statement_walked(context, abi, stmt)
}

/// What is found of a statement or a declaration in a block.
fn statement_walked(context: &mut Context, abi: Abi, stmt: &Stmt) -> Result<Found<()>, NoMemory>
    requires { stmt_levels stmt.now ≤ 1024 }
    ensures { IfOk result (λ found. Walked (Says abi (λ o. StatementIs stmt.now o)) nothing context.old context.new found) }
{
    match walk(context, whole(abi), Part::Statement(stmt))? {
        Found::Passes(Told::Nothing) => Ok(Found::Passes(())),
        Found::Passes(_) => unreachable!(),
        Found::Refused(fault) => Ok(Found::Refused(fault)),
    }
}

/// What is found of an item of the file that begins at a place (C11 6.9), or the first thing that is refused in it: that is found of it, and nothing else.
///
/// Want of memory is the only error, and nothing is said of the context then.
pub fn item_found(
    context: &mut Context,
    abi: Abi,
    place: Place,
    it: &Item,
) -> Result<Found<()>, NoMemory>
    requires { item_levels it.now ≤ 1024 }
    ensures found { IfOk result (λ found. Walked (SaysInFile abi (λ o. ItemIs place it.now o)) nothing context.old context.new found) }
    ensures nothing_else { IfOk result (λ found. ItemIsNothingElse abi place it.now context.old context.new found) }
{
    item_walked(context, abi, place, it)
}

/// What is found of an item of the file.
fn item_walked(
    context: &mut Context,
    abi: Abi,
    place: Place,
    it: &Item,
) -> Result<Found<()>, NoMemory>
    requires { item_levels it.now ≤ 1024 }
    ensures { IfOk result (λ found. Walked (SaysInFile abi (λ o. ItemIs place it.now o)) nothing context.old context.new found) }
{
    let alloc = context.alloc;
    let checker = Checker {
        abi,
        depth: MOST_LEVELS,
        inner: walk,
    };
    item(&checker, alloc, context, place, it)
}

/// A whole tree in a data layout.
pub fn whole(abi: Abi) -> Within
    ensures { result ≡ record { abi = abi; depth = 1024 } }
{
    Within {
        abi,
        depth: MOST_LEVELS,
    }
}

/// What is found of a part of a tree that is read.
pub fn walk(context: &mut Context, within: Within, part: Part<'_>) -> Result<Found<Told>, NoMemory>
    requires deep { part_levels part ≤ within.depth }
    requires below { IsPartBelow (length context.old.types) part }
    ensures { IfOk result (λ found. IsTold within.abi part.entry context.old context.new found) }
{
    let checker = Checker {
        abi: within.abi,
        depth: levels_below(within.depth, part),
        inner: walk,
    };
    told_of(&checker, context, part)
}

/// How many levels what lies in a part may have: each part has a level of its own.
pub fn levels_below(depth: u32, part: Part<'_>) -> u32
    requires { part_levels part ≤ depth }
    ensures { result + 1 ≡ depth }
{
    depth - 1
}

/// What is found of a part with the walk over what lies in it.
pub fn told_of<F: Fn(&mut Context, Within, Part<'_>) -> Result<Found<Told>, NoMemory>>(
    checker: &Checker<F>,
    context: &mut Context,
    part: Part<'_>,
) -> Result<Found<Told>, NoMemory>
    requires nests { Nests checker.now.abi checker.now.depth (F.pre checker.now.inner) (F.post checker.now.inner) }
    requires deep { part_levels part ≤ checker.now.depth + 1 }
    requires below { IsPartBelow (length context.old.types) part }
    ensures { IfOk result (λ found. IsTold checker.now.abi part.entry context.old context.new found) }
{
    let alloc = context.alloc;
    match part {
        Part::Expression(expr) => match checker.expression(alloc, context, expr)? {
            Found::Passes(known) => Ok(Found::Passes(Told::Expression(known))),
            Found::Refused(fault) => Ok(Found::Refused(fault)),
        },
        Part::TypeName(name) => match checker.type_name(alloc, context, name)? {
            Found::Passes(named) => Ok(Found::Passes(Told::TypeName(named))),
            Found::Refused(fault) => Ok(Found::Refused(fault)),
        },
        Part::Statement(stmt) => match statement(checker, alloc, context, stmt)? {
            Found::Passes(()) => Ok(Found::Passes(Told::Nothing)),
            Found::Refused(fault) => Ok(Found::Refused(fault)),
        },
        Part::Initialiser(subject, slot, init) => match initialiser(
            checker, alloc, context, subject, slot, init,
        )? {
            Found::Passes(()) => Ok(Found::Passes(Told::Nothing)),
            Found::Refused(fault) => Ok(Found::Refused(fault)),
        },
        Part::Members(name, fields) => match checker.members(alloc, context, name, fields)? {
            Found::Passes(named) => Ok(Found::Passes(Told::TypeName(named))),
            Found::Refused(fault) => Ok(Found::Refused(fault)),
        },
        Part::Enumerators(name, values) => match checker.enumerators(
            alloc, context, name, values,
        )? {
            Found::Passes(named) => Ok(Found::Passes(Told::TypeName(named))),
            Found::Refused(fault) => Ok(Found::Refused(fault)),
        },
    }
}
