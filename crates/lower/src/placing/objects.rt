//! Objects of blocks: they get variables (C11 6.2.4, 6.8.2).
ghost use Rattle.c_machine.specs.Program.{Program};
ghost use Rattle.c_machine.specs.Text.{Block};
ghost use Rattle.c_machine.specs.Trees.{name_of, text_of};
ghost use Rattle.cbase.specs.declared.tree.decl.Declared.{Declared};
ghost use Rattle.lower.specs.Built.{made_of};
ghost use Rattle.lower.specs.Pieces.{PlacesAll, Stated};
ghost use Rattle.lowering.specs.Placing.{enters, leaves, named_from, objects_in, objects_of, objects_of_name, with_objects};
ghost use Rattle.lowering.specs.Source.{IsSource};
ghost use Rattle.std.specs.List.{flat_map};
ghost use Rattle.std.specs.Prelude.{false, ◌≡◌, ◌++◌, ◌∷◌, [], length, IfOk, OnOk};

use crate::builder::Builder;
use crate::jobs::Jobs;
use crate::placing::blocks::{enters, in_scope, leaves};
use c_machine::Object;
use c_steps::Stack;
use cbase::{Declared, List, NoMemory, Stmt, StmtForm};
use lowering::inner::does_all;
use lowering::names::Named;
use lowering::source::Source;
use std::alloc::Global;

/// Puts the automatic objects that the statements of a block declare behind others (C11 6.2.4p6).
fn push_objects(source: &Source, objects: &mut List<Object>, body: &[Stmt]) -> Result<(), NoMemory>
    ensures { OnOk result ((p : Program) → IsSource source.now p → objects.new ≡ objects.old ++ objects_in (text_of p) body.now) }
{
    for stmt in body {
        push_objects_of(source, objects, stmt)?;
    }
    Ok(())
}

/// Puts the automatic objects that a statement declares behind others.
fn push_objects_of(source: &Source, objects: &mut List<Object>, stmt: &Stmt) -> Result<(), NoMemory>
    ensures { OnOk result ((p : Program) → IsSource source.now p → objects.new ≡ objects.old ++ objects_of (text_of p) stmt.now) }
{
    match &stmt.form {
        StmtForm::Declare(decl) => push_declared(source, objects, decl.get().names.as_slice()),
        _ => Ok(()),
    }
}

/// Puts the automatic objects that the names of a declaration declare behind others.
fn push_declared(
    source: &Source,
    objects: &mut List<Object>,
    names: &[Declared],
) -> Result<(), NoMemory>
    ensures { OnOk result ((p : Program) → IsSource source.now p
        → objects.new ≡ objects.old ++ flat_map (λ (name : Declared). objects_of_name (text_of p) (name_of name)) names.now) }
{
    for name in names {
        push_object(source, objects, name)?;
    }
    Ok(())
}

/// Puts the automatic object that a name declares, if it declares one, behind others.
fn push_object(source: &Source, objects: &mut List<Object>, name: &Declared) -> Result<(), NoMemory>
    ensures { OnOk result ((p : Program) → IsSource source.now p → objects.new ≡ objects.old ++ objects_of_name (text_of p) (name_of name.now)) }
{
    match source.text().automatic(name.place.at) {
        None => Err(NoMemory),
        Some(None) => Ok(()),
        Some(Some(object)) => objects.push(object),
    }
}

/// The automatic objects that the statements of a block declare get variables.
pub(crate) fn named_in(
    alloc: Global,
    source: &Source,
    builder: &mut Builder,
    body: &[Stmt],
) -> Result<List<Named>, NoMemory>
    ensures { IfOk result (λ names. (p : Program) → IsSource source.now p
        → (names ≡ named_from (length (made_of builder.old).variables) (objects_in (text_of p) body.now))
        × (made_of builder.new ≡ with_objects false (objects_in (text_of p) body.now) (made_of builder.old))) }
{
    let mut objects = List::new(alloc);
    push_objects(source, &mut objects, body)?;
    builder.named(alloc, objects.as_slice())
}

/// The automatic objects that a statement declares get variables.
pub(crate) fn named_of(
    alloc: Global,
    source: &Source,
    builder: &mut Builder,
    stmt: &Stmt,
) -> Result<List<Named>, NoMemory>
    ensures { IfOk result (λ names. (p : Program) → IsSource source.now p
        → (names ≡ named_from (length (made_of builder.old).variables) (objects_of (text_of p) stmt.now))
        × (made_of builder.new ≡ with_objects false (objects_of (text_of p) stmt.now) (made_of builder.old))) }
{
    let mut objects = List::new(alloc);
    push_objects_of(source, &mut objects, stmt)?;
    builder.named(alloc, objects.as_slice())
}

/// A block (C11 6.8.2).
pub(crate) fn place_block<'a>(
    alloc: Global,
    source: &Source,
    builder: &mut Builder,
    jobs: &mut Jobs<'a>,
    levels: u64,
    from: u32,
    stmt: &'a Stmt,
    body: &'a [Stmt],
    to: u32,
) -> Result<(), NoMemory>
    ensures { OnOk result (PlacesAll source.now levels (Stated from stmt.now to (Block body.now)) jobs.old jobs.new (made_of builder.old) (made_of builder.new)) }
{
    let names = named_in(alloc, source, builder, body)?;
    let mut moves = Stack::new(alloc);
    leaves(alloc, &mut moves, names.as_slice(), stmt.after)?;
    does_all(&mut moves, body)?;
    enters(alloc, &mut moves, names.as_slice(), stmt.place)?;
    in_scope(jobs, levels, from, names, moves, to)
}
