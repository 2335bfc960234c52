use c_machine::Task;
use c_steps::{State, Tree};
use cbase::{Expr, Init, Stmt};

/// A state of a program whose trees are these: contracts see it as a state of the trees themselves.
pub type TreeState<'a> = State<Tree<'a, Expr>, Tree<'a, Stmt>, Tree<'a, Init>>;

/// A thing to do in such a program.
pub(crate) type TreeTask<'a> = Task<Tree<'a, Expr>, Tree<'a, Stmt>, Tree<'a, Init>>;
