ghost use Rattle.std.specs.Prelude.{◌≤◌, All, IfOk};
ghost use Rattle.cbase.specs.declared.place.Place.{Place as PlaceTree};
ghost use Rattle.cbase.specs.declared.tree.item.Item.TheVariants.{Declare, Function};
ghost use Rattle.ctrees.specs.Levels.{decl_levels, declared_levels, item_levels, spec_levels, stmt_levels};
ghost use Rattle.expressions.specs.Found.{nothing};
ghost use Rattle.expressions.specs.Nests.{Nests};
ghost use Rattle.expressions.specs.Walked.{Walked};
ghost use Rattle.typing.specs.Items.{ItemIs};
ghost use Rattle.items.specs.InFile.{SaysInFile};

use crate::declarations::declaration;
use crate::heads::definition;
use crate::names::names;
use cbase::{Decl, Declared, Item, List, NoMemory, Place, Stmt, Storage, TypeSpec};
use expressions::{Checker, Context, Found, Part, Told, Within};
use std::alloc::Global;

/// What is found of an item of a file that begins at a place (C11 6.9): of a declaration outside of functions, or of a function with its body; or the first
/// thing that is refused in it.
///
/// Want of memory is the only error, and nothing is said of the context then.
pub fn item<F: Fn(&mut Context, Within, Part<'_>) -> Result<Found<Told>, NoMemory>>(
    checker: &Checker<F>,
    alloc: Global,
    context: &mut Context,
    place: Place,
    item: &Item,
) -> Result<Found<()>, NoMemory>
    requires nests { Nests checker.now.abi checker.now.depth (F.pre checker.now.inner) (F.post checker.now.inner) }
    requires deep { item_levels item.now ≤ checker.now.depth }
    ensures { IfOk result (λ found. Walked (SaysInFile checker.now.abi (λ o. ItemIs place item.now o)) nothing context.old context.new found) }
{
    match item {
        Item::Empty => Ok(Found::Passes(())),
        Item::Declare(decl) => declared(checker, alloc, context, place, decl),
        Item::Function {
            spec,
            storage,
            head,
            body,
            ..
        } => function(checker, alloc, context, *storage, spec, head, body),
    }
}

/// A declaration outside of functions (C11 6.7): one without names is what it is in a block; of any other one its words, then its names.
fn declared<F: Fn(&mut Context, Within, Part<'_>) -> Result<Found<Told>, NoMemory>>(
    checker: &Checker<F>,
    alloc: Global,
    context: &mut Context,
    place: Place,
    decl: &Decl,
) -> Result<Found<()>, NoMemory>
    requires nests { Nests checker.now.abi checker.now.depth (F.pre checker.now.inner) (F.post checker.now.inner) }
    requires deep { decl_levels decl.now ≤ checker.now.depth }
    ensures { IfOk result (λ found. Walked (SaysInFile checker.now.abi (λ o. ItemIs place (Declare decl.now) o)) nothing context.old context.new found) }
{
    if decl.names.is_empty() {
        return declaration(checker, alloc, context, place, decl);
    }
    match checker.words(alloc, context, &decl.spec)? {
        Found::Passes(base) => {
            let storage = decl.storage;
            names(
                checker,
                alloc,
                context,
                storage,
                base,
                decl.names.as_slice(),
            )
        }
        Found::Refused(fault) => Ok(Found::Refused(fault)),
    }
}

/// A function with its body (C11 6.9.1): the words of its result, then its head and its body. Behind it the scope of its parameters is left, and the place
/// lies in no function.
fn function<F: Fn(&mut Context, Within, Part<'_>) -> Result<Found<Told>, NoMemory>>(
    checker: &Checker<F>,
    alloc: Global,
    context: &mut Context,
    storage: Storage,
    spec: &TypeSpec,
    head: &Declared,
    body: &List<Stmt>,
) -> Result<Found<()>, NoMemory>
    requires nests { Nests checker.now.abi checker.now.depth (F.pre checker.now.inner) (F.post checker.now.inner) }
    requires words { spec_levels spec.now ≤ checker.now.depth }
    requires head { declared_levels head.now ≤ checker.now.depth }
    requires body { All (λ stmt. stmt_levels stmt ≤ checker.now.depth) body.now }
    ensures { (place close : PlaceTree) → IfOk result (λ found. Walked (SaysInFile checker.now.abi (λ o. ItemIs place (Function spec.now storage head.now body.now close) o)) nothing context.old context.new found) }
{
    let base = match checker.words(alloc, context, spec)? {
        Found::Passes(base) => base,
        Found::Refused(fault) => return Ok(Found::Refused(fault)),
    };
    let found = definition(checker, alloc, context, storage, base, head, body)?;
    context.leave();
    context.set_function(None);
    Ok(found)
}
