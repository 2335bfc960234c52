//! What stands directly in any part.
ghost use Rattle.std.specs.Prelude.{◌≡◌, ◌++◌, OnOk};
ghost use Rattle.c_machine.specs.Statics.{in_node};

use crate::statics::node::{Node, NodeForm, Nodes};
use crate::statics::parts::expr::push_in_expr;
use crate::statics::parts::init::push_in_init;
use crate::statics::parts::spec::push_in_words;
use crate::statics::parts::stmt::push_in_stmt;
use cbase::NoMemory;

/// Puts what stands directly in a part in front of the parts that are still to be looked at, in order.
pub fn push_in_node<'a>(nodes: &mut Nodes<'a>, node: &Node<'a>) -> Result<(), NoMemory>
    ensures { OnOk result (nodes.new ≡ in_node node.now ++ nodes.old) }
{
    match node.form() {
        NodeForm::Expr(expr) => push_in_expr(nodes, expr),
        NodeForm::Stmt(stmt) => push_in_stmt(nodes, stmt),
        NodeForm::Words(spec) => push_in_words(nodes, spec),
        NodeForm::Init(init) => push_in_init(nodes, init),
    }
}
