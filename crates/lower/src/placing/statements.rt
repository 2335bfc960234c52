//! Statements (C11 6.8).
ghost use Rattle.std.specs.Prelude.{◌≡◌, ◌∷◌, ◌++◌, [], map, OnOk, IfOk};
ghost use Rattle.c_machine.specs.Program.{Program};
ghost use Rattle.c_machine.specs.Trees.{text_of};
ghost use Rattle.lower.specs.Around.{around_of};
ghost use Rattle.lower.specs.Pieces.{Places, Stated, Through};
ghost use Rattle.lower.specs.Built.{made_of};
ghost use Rattle.lowering.specs.Clauses.{clause_in};
ghost use Rattle.lower.specs.Jobs.{LeadsTo};
ghost use Rattle.lowering.specs.declared.moves.Move.TheVariants.{Does};
ghost use Rattle.lowering.specs.Placing.{Made, branch, go, other_moves, place_statement};
ghost use Rattle.lowering.specs.Source.{IsSource};
ghost use Rattle.lowering.specs.Told.{trees};
ghost use Rattle.c_machine.specs.declared.kind.Kind.TheVariants.{Void};

use crate::around::Surroundings;
use crate::builder::Builder;
use crate::jobs::{Job, Jobs, copied_loop};
use crate::placing::branches::place_full;
use crate::placing::initialisers::place_declared;
use crate::placing::jumps::{place_break, place_continue};
use crate::placing::loops::{place_do, place_for, place_while};
use crate::placing::objects::place_block;
use crate::placing::returns::place_return;
use c_steps::{Stack, Tree};
use cbase::{Expr, NoMemory, Place, Stmt};
use lowering::clause::{TreeClause, read_clause};
use lowering::inner::does;
use lowering::line::TreeLine;
use lowering::source::Source;
use std::alloc::Global;

/// A statement.
pub(crate) fn place_statement<'a>(
    alloc: Global,
    source: &Source,
    builder: &mut Builder,
    jobs: &mut Jobs<'a>,
    around: &Surroundings,
    levels: u64,
    from: u32,
    stmt: &'a Stmt,
    to: u32,
) -> Result<(), NoMemory>
    ensures { OnOk result (Places source.now (around_of around.now) levels (Through from (Does stmt.now) to) jobs.old jobs.new (made_of builder.old) (made_of builder.new)) }
{
    let clause = read_clause(stmt);
    place_clause(
        alloc, source, builder, jobs, around, levels, from, stmt, clause, to,
    )
}

/// A statement, by what it is.
fn place_clause<'a>(
    alloc: Global,
    source: &Source,
    builder: &mut Builder,
    jobs: &mut Jobs<'a>,
    around: &Surroundings,
    levels: u64,
    from: u32,
    stmt: &'a Stmt,
    clause: TreeClause<'a>,
    to: u32,
) -> Result<(), NoMemory>
    ensures { OnOk result (Places source.now (around_of around.now) levels (Stated from stmt.now to (clause_in clause.entry)) jobs.old jobs.new (made_of builder.old) (made_of builder.new)) }
{
    match clause {
        TreeClause::Declare(names) => place_declared(
            alloc,
            source,
            jobs,
            levels,
            from,
            names.get().as_slice(),
            to,
        ),
        TreeClause::Eval(None) => Ok(()),
        TreeClause::Eval(Some(expr)) => place_full(
            alloc,
            source,
            builder,
            jobs,
            levels,
            from,
            expr.get(),
            stmt.after,
            to,
        ),
        TreeClause::Block(body) => place_block(
            alloc,
            source,
            builder,
            jobs,
            levels,
            from,
            stmt,
            body.get().as_slice(),
            to,
        ),
        TreeClause::If {
            test,
            close,
            one,
            other,
        } => place_if(
            alloc,
            jobs,
            around,
            levels,
            from,
            test.get(),
            close,
            one.get(),
            other,
            to,
        ),
        TreeClause::While { test, close, body } => place_while(
            alloc,
            builder,
            jobs,
            around,
            levels,
            from,
            test.get(),
            close,
            body.get(),
            to,
        ),
        TreeClause::Do { body, test, close } => place_do(
            alloc,
            builder,
            jobs,
            around,
            levels,
            from,
            body.get(),
            test.get(),
            close,
            to,
        ),
        TreeClause::For {
            first,
            test,
            semicolon,
            next,
            close,
            body,
        } => place_for(
            alloc,
            source,
            builder,
            jobs,
            around,
            levels,
            from,
            stmt,
            first.get(),
            test,
            semicolon,
            next,
            close,
            body.get(),
            to,
        ),
        TreeClause::Break => place_break(alloc, builder, jobs, around, levels, from, stmt.place),
        TreeClause::Continue => place_continue(
            alloc, builder, jobs, around, levels, from, stmt.place,
        ),
        TreeClause::Return(expr) => place_return(
            alloc, source, builder, jobs, around, levels, from, stmt.place, expr,
        ),
    }
}

/// An `if` (C11 6.8.4.1).
fn place_if<'a>(
    alloc: Global,
    jobs: &mut Jobs<'a>,
    around: &Surroundings,
    levels: u64,
    from: u32,
    test: &'a Expr,
    close: Place,
    yes: &'a Stmt,
    no: Option<Tree<'a, Stmt>>,
    to: u32,
) -> Result<(), NoMemory>
    ensures { OnOk result ((p : Program) (made : Made) → LeadsTo p (around_of around.now) jobs.old
        (branch (text_of p) (go levels (text_of p)) (around_of around.now) (around_of around.now) made from test.now close (Does yes.now ∷ []) to
        (other_moves (text_of p) no.entry) to) jobs.new made) }
{
    let mut one = Stack::new(alloc);
    does(&mut one, yes)?;
    let mut other = Stack::new(alloc);
    does_other(&mut other, no)?;
    let turning = copied_loop(alloc, &around.current)?;
    jobs.push(Job::Branch {
        levels,
        from,
        test: Tree::of(test),
        close,
        one,
        one_to: to,
        other,
        other_to: to,
        turning,
    })
}

/// What follows `else`, if there is one, is to be placed next.
fn does_other<'a>(line: &mut TreeLine<'a>, stmt: Option<Tree<'a, Stmt>>) -> Result<(), NoMemory>
    ensures { OnOk result (line.new ≡ other_moves (trees Void) stmt.entry ++ line.old) }
{
    match stmt {
        None => Ok(()),
        Some(stmt) => does(line, stmt.get()),
    }
}
