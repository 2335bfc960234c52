//! All parts of trees, and the initialisers that stand in them.
ghost use Rattle.std.specs.Prelude.{◌≡◌, ◌+◌, ◌++◌, IfOk, OnOk};
ghost use Rattle.c_machine.specs.Statics.{in_node, sets_at, sets_within};
ghost use Rattle.c_text.specs.statics.Weights.{weights};

use crate::statics::node::{Node, Nodes};
use crate::statics::notes::note_node;
use crate::statics::parts::node::push_in_node;
use crate::statics::set::StaticSet;
use cbase::{List, NoMemory};

/// Looks at a part: it notes the initialisers of the names that it declares, and puts what stands directly in it in front of the other parts.
fn look_at<'a>(
    sets: &mut List<StaticSet<'a>>,
    nodes: &mut Nodes<'a>,
    node: &Node<'a>,
) -> Result<(), NoMemory>
    ensures inner { OnOk result (nodes.new ≡ in_node node.now ++ nodes.old) }
    ensures sets { OnOk result (sets.new ≡ sets.old ++ sets_at node.now) }
{
    note_node(sets, node)?;
    push_in_node(nodes, node)
}

/// One more than a number. Where that would not fit, memory is wanting.
fn one_more(count: u64) -> Result<u64, NoMemory>
    ensures { IfOk result (λ more. more ≡ count + 1) }
{
    match count.checked_add(1) {
        None => Err(NoMemory),
        Some(more) => Ok(more),
    }
}

/// Takes parts off until none is left, notes the initialisers in them, and counts the parts.
///
/// It takes as many turns as there are parts.
pub fn walk<'a>(sets: &mut List<StaticSet<'a>>, nodes: &mut Nodes<'a>) -> Result<u64, NoMemory>
    ensures sets { OnOk result (sets.new ≡ sets.old ++ sets_within (weights nodes.old) nodes.old) }
    ensures parts { IfOk result (λ count. count ≡ weights nodes.old) }
{
    let mut count = 0;
    while let Some(node) = nodes.pop() {
        look_at(sets, nodes, &node)?;
        count = one_more(count)?;
    }
    Ok(count)
}
