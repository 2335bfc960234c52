//! What stands directly in an initialiser (C11 6.7.9).
ghost use Rattle.std.specs.Prelude.{◌≡◌, ◌++◌, map, OnOk};
ghost use Rattle.cbase.specs.declared.tree.expr.ExprForm.TheViews.{out-Init, out-InitPart};
ghost use Rattle.c_machine.specs.Statics.{AnInit, in_initialiser};

use crate::statics::node::Nodes;
use crate::statics::parts::single::{push_expr, push_init};
use cbase::{Init, InitPart, NoMemory};

/// What stands in an initialiser.
pub fn push_in_init<'a>(nodes: &mut Nodes<'a>, init: &'a Init) -> Result<(), NoMemory>
    ensures { OnOk result (nodes.new ≡ in_initialiser (out-Init init.now) ++ nodes.old) }
{
    match init {
        Init::Value { value, .. } => push_expr(nodes, value),
        Init::Braces(parts) => push_parts(nodes, parts.as_slice()),
    }
}

/// The parts of an initialiser in braces.
fn push_parts<'a>(nodes: &mut Nodes<'a>, parts: &'a [InitPart]) -> Result<(), NoMemory>
    ensures { OnOk result (nodes.new ≡ map (λ part. AnInit (out-InitPart part).init) parts.now ++ nodes.old) }
{
    let mut left = parts.len();
    while left > 0 {
        left -= 1;
        push_init(nodes, &parts[left].init)?;
    }
    Ok(())
}
