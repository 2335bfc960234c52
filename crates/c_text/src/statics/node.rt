ghost use Rattle.std.specs.Prelude.{◌≡◌};
ghost use Rattle.c_machine.specs.Statics.{AnExpr, AnInit, AStmt, SomeWords};
ghost use Rattle.c_text.specs.statics.Nodes.{node_of};

use c_steps::Stack;
use cbase::{Expr, Init, Stmt, TypeSpec};
use std::marker::Model;

/// Parts that are still to be looked at, the first one first.
pub type Nodes<'a> = Stack<Node<'a>>;

/// A part of a tree in which initialisers may stand.
#[derive(Drop)]
pub struct Node<'a> {
    form: NodeForm<'a>,
}

/// What such a part is.
#[derive(Clone, Copy)]
pub enum NodeForm<'a> {
    /// An expression.
    Expr(&'a Expr),
    /// A statement.
    Stmt(&'a Stmt),
    /// The words of a type.
    Words(&'a TypeSpec),
    /// An initialiser.
    Init(&'a Init),
}

impl<'a> Model for Node<'a> {
    ghost use Rattle.cbase.specs.contracts.tree.expr.Expr as e;
    ghost use Rattle.cbase.specs.contracts.tree.init.Init as i;
    ghost use Rattle.cbase.specs.contracts.tree.spec.TypeSpec as w;
    ghost use Rattle.cbase.specs.contracts.tree.stmt.Stmt as s;
    ghost use Rattle.std.specs.Coded.{codes};
    ghost use Rattle.c_machine.specs.Statics.{Node};

    ghost Value = { Node };

    ghost coded = { Prim.hlevel (codes, e.the_row.coded, s.the_row.coded, w.the_row.coded, i.the_row.coded) };

    ghost use Rattle.c_text.specs.statics.Nodes.{node_of};

    ghost view = { λ n. node_of n.form };
}

impl<'a> Node<'a> {
    /// An expression.
    pub fn expr(expr: &'a Expr) -> Node<'a>
        ensures { result ≡ AnExpr expr.now }
    {
        Node {
            form: NodeForm::Expr(expr),
        }
    }

    /// A statement.
    pub fn stmt(stmt: &'a Stmt) -> Node<'a>
        ensures { result ≡ AStmt stmt.now }
    {
        Node {
            form: NodeForm::Stmt(stmt),
        }
    }

    /// The words of a type.
    pub fn words(spec: &'a TypeSpec) -> Node<'a>
        ensures { result ≡ SomeWords spec.now }
    {
        Node {
            form: NodeForm::Words(spec),
        }
    }

    /// An initialiser.
    pub fn init(init: &'a Init) -> Node<'a>
        ensures { result ≡ AnInit init.now }
    {
        Node {
            form: NodeForm::Init(init),
        }
    }

    /// What it is.
    pub fn form(&self) -> NodeForm<'a>
        ensures { self.now ≡ node_of result }
    {
        self.form
    }
}
