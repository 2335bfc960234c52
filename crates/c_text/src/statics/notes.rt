//! Initialisers of names that are declared (C11 6.7.9).
ghost use Rattle.std.specs.Prelude.{◌≡◌, ◌++◌, OnOk};
ghost use Rattle.std.specs.List.{flat_map};
ghost use Rattle.cbase.specs.declared.tree.expr.ExprForm.TheViews.{out-StmtForm};
ghost use Rattle.c_machine.specs.Statics.{set_by, sets_at, sets_in_clause, sets_in_item};

use crate::statics::node::{Node, NodeForm};
use crate::statics::set::StaticSet;
use cbase::{Declared, Item, List, NoMemory, Stmt, StmtForm};

/// Notes the initialiser of a name, where it has one.
fn note_name<'a>(sets: &mut List<StaticSet<'a>>, name: &'a Declared) -> Result<(), NoMemory>
    ensures { OnOk result (sets.new ≡ sets.old ++ set_by name.now) }
{
    match &name.init {
        None => Ok(()),
        Some(init) => sets.push(StaticSet::of(name.place, init)),
    }
}

/// Notes the initialisers of names.
fn note_names<'a>(sets: &mut List<StaticSet<'a>>, names: &'a [Declared]) -> Result<(), NoMemory>
    ensures { OnOk result (sets.new ≡ sets.old ++ flat_map set_by names.now) }
{
    for name in names {
        note_name(sets, name)?;
    }
    Ok(())
}

/// Notes the initialisers of the names that a part declares.
pub fn note_node<'a>(sets: &mut List<StaticSet<'a>>, node: &Node<'a>) -> Result<(), NoMemory>
    ensures { OnOk result (sets.new ≡ sets.old ++ sets_at node.now) }
{
    match node.form() {
        NodeForm::Stmt(stmt) => note_stmt(sets, stmt),
        NodeForm::Expr(_) | NodeForm::Words(_) | NodeForm::Init(_) => Ok(()),
    }
}

/// Notes the initialisers of the names that a statement declares.
fn note_stmt<'a>(sets: &mut List<StaticSet<'a>>, stmt: &'a Stmt) -> Result<(), NoMemory>
    ensures { OnOk result (sets.new ≡ sets.old ++ sets_in_clause (out-StmtForm stmt.now.form)) }
{
    match &stmt.form {
        StmtForm::Declare(decl) => note_names(sets, decl.get().names.as_slice()),
        _ => Ok(()),
    }
}

/// Notes the initialisers of the names that an item declares.
pub fn note_item<'a>(sets: &mut List<StaticSet<'a>>, item: &'a Item) -> Result<(), NoMemory>
    ensures { OnOk result (sets.new ≡ sets.old ++ sets_in_item item.now) }
{
    match item {
        Item::Declare(decl) => note_names(sets, decl.names.as_slice()),
        Item::Empty => Ok(()),
        Item::Function { .. } => Ok(()),
    }
}
