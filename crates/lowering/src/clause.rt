//! What a statement is, one layer of it (C11 6.8).
ghost use Rattle.std.specs.Prelude.{◌≡◌};
ghost use Rattle.c_machine.specs.Program.{Program};
ghost use Rattle.c_machine.specs.Trees.{text_of};
ghost use Rattle.lowering.specs.Clauses.{clause_in};

use c_steps::Tree;
use cbase::{Boxed, Declared, Expr, List, Place, Stmt, StmtForm};

/// What a statement is, with the places where its conditions end.
#[derive(Drop)]
pub enum TreeClause<'a> {
    /// A declaration.
    Declare(Tree<'a, List<Declared>>),
    /// An expression statement, or `;` alone.
    Eval(Option<Tree<'a, Expr>>),
    /// A block.
    Block(Tree<'a, List<Stmt>>),
    /// An `if`.
    If {
        /// The condition.
        test: Tree<'a, Expr>,
        /// The place of the `)` behind it.
        close: Place,
        /// What is done where it holds.
        one: Tree<'a, Stmt>,
        /// What is done where it does not.
        other: Option<Tree<'a, Stmt>>,
    },
    /// A `while`.
    While {
        /// The condition.
        test: Tree<'a, Expr>,
        /// The place of the `)` behind it.
        close: Place,
        /// The body.
        body: Tree<'a, Stmt>,
    },
    /// A `do`.
    Do {
        /// The body.
        body: Tree<'a, Stmt>,
        /// The condition.
        test: Tree<'a, Expr>,
        /// The place of the `)` behind it.
        close: Place,
    },
    /// A `for`.
    For {
        /// What comes first.
        first: Tree<'a, Stmt>,
        /// The condition.
        test: Option<Tree<'a, Expr>>,
        /// The place of the `;` behind it.
        semicolon: Place,
        /// What is done behind a turn.
        next: Option<Tree<'a, Expr>>,
        /// The place of the `)` behind that.
        close: Place,
        /// The body.
        body: Tree<'a, Stmt>,
    },
    /// A `break`.
    Break,
    /// A `continue`.
    Continue,
    /// A `return`.
    Return(Option<Tree<'a, Expr>>),
}

/// What a statement is. It takes one step.
pub fn read_clause(stmt: &Stmt) -> TreeClause
    ensures { (p : Program) → clause_in result ≡ (text_of p).clause stmt.now }
{
    match &stmt.form {
        StmtForm::Declare(decl) => TreeClause::Declare(Tree::of(&decl.get().names)),
        StmtForm::Eval(expr) => TreeClause::Eval(evaluated(expr)),
        StmtForm::Block(body) => TreeClause::Block(Tree::of(body)),
        StmtForm::If {
            test,
            close,
            yes,
            no,
        } => TreeClause::If {
            test: Tree::of(test.get()),
            close: *close,
            one: Tree::of(yes.get()),
            other: statement_of(no),
        },
        StmtForm::While { test, close, body } => TreeClause::While {
            test: Tree::of(test.get()),
            close: *close,
            body: Tree::of(body.get()),
        },
        StmtForm::Do { body, test, close } => TreeClause::Do {
            body: Tree::of(body.get()),
            test: Tree::of(test.get()),
            close: *close,
        },
        StmtForm::For {
            first,
            test,
            semicolon,
            next,
            close,
            body,
        } => TreeClause::For {
            first: Tree::of(first.get()),
            test: expression_of(test),
            semicolon: *semicolon,
            next: expression_of(next),
            close: *close,
            body: Tree::of(body.get()),
        },
        StmtForm::Break => TreeClause::Break,
        StmtForm::Continue => TreeClause::Continue,
        StmtForm::Return(expr) => TreeClause::Return(expression_of(expr)),
    }
}

/// The expression of an expression statement, if it has one.
fn evaluated(expr: &Option<Expr>) -> Option<Tree<Expr>>
    ensures { result ≡ expr.now }
{
    match expr {
        None => None,
        Some(expr) => Some(Tree::of(expr)),
    }
}

/// The expression that is there, if one is.
fn expression_of(expr: &Option<Boxed<Expr>>) -> Option<Tree<Expr>>
    ensures { result ≡ expr.now }
{
    match expr {
        None => None,
        Some(expr) => Some(Tree::of(expr.get())),
    }
}

/// The statement that is there, if one is.
fn statement_of(stmt: &Option<Boxed<Stmt>>) -> Option<Tree<Stmt>>
    ensures { result ≡ stmt.now }
{
    match stmt {
        None => None,
        Some(stmt) => Some(Tree::of(stmt.get())),
    }
}
