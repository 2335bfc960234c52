ghost use Rattle.std.specs.Prelude.{◌≤◌, ◌<◌, All, IfOk, length};
ghost use Rattle.ctrees.specs.Levels.{decl_levels, declared_levels};
ghost use Rattle.expressions.specs.Found.{nothing};
ghost use Rattle.expressions.specs.Nests.{Nests};
ghost use Rattle.expressions.specs.Numbers.{named_at};
ghost use Rattle.expressions.specs.Walked.{Walked, Says, SaysBy};
ghost use Rattle.typing.specs.Typing.{DeclaredIs, DeclaredNameIs, DeclaredNamesAre};
ghost use Rattle.items.specs.declarations.Given.{IsNothingDeclared};

use crate::declarations::alone::{declare_alone, tag_alone};
use crate::declarations::objects::object_name;
use crate::parameters::function_name;
use cbase::{Decl, Declared, NoMemory, Place, Storage};
use expressions::{Checker, Context, Found, NamedType, Part, Told, Within};
use std::alloc::Global;
use typing::Fault;

/// What is found of a declaration in a block that begins at a place (C11 6.7): its words, then its names in the order of the text, each of which is
/// in scope behind what stands around it (6.2.1p7).
///
/// Want of memory is the only error, and nothing is said of the context then.
pub fn declaration<F: Fn(&mut Context, Within, Part<'_>) -> Result<Found<Told>, NoMemory>>(
    checker: &Checker<F>,
    alloc: Global,
    context: &mut Context,
    place: Place,
    decl: &Decl,
) -> Result<Found<()>, NoMemory>
    requires nests { Nests checker.now.abi checker.now.depth (F.pre checker.now.inner) (F.post checker.now.inner) }
    requires deep { decl_levels decl.now ≤ checker.now.depth }
    ensures { IfOk result (λ found. Walked (Says checker.now.abi (λ o. DeclaredIs place decl.now o)) nothing context.old context.new found) }
{
    if let Some(tag) = tag_alone(decl) {
        return declare_alone(alloc, context, tag);
    }
    let base = match checker.words(alloc, context, &decl.spec)? {
        Found::Passes(base) => base,
        Found::Refused(fault) => return Ok(Found::Refused(fault)),
    };
    if decl.names.is_empty() {
        return Ok(nothing_declared(place, base));
    }
    names(
        checker,
        alloc,
        context,
        decl.storage,
        base,
        decl.names.as_slice(),
    )
}

/// Where nothing is declared, what the words hold is found at the first token.
fn nothing_declared(place: Place, base: NamedType) -> Found<()>
    ensures { IsNothingDeclared place base.found result }
{
    match base.found {
        None => Found::Passes(()),
        Some(broken) => Found::Refused(Fault { place, broken }),
    }
}

/// The names that a declaration declares, in order.
fn names<F: Fn(&mut Context, Within, Part<'_>) -> Result<Found<Told>, NoMemory>>(
    checker: &Checker<F>,
    alloc: Global,
    context: &mut Context,
    storage: Storage,
    base: NamedType,
    names: &[Declared],
) -> Result<Found<()>, NoMemory>
    requires nests { Nests checker.now.abi checker.now.depth (F.pre checker.now.inner) (F.post checker.now.inner) }
    requires deep { All (λ name. declared_levels name ≤ checker.now.depth) names.now }
    requires base { base.ctype < length context.old.types }
    ensures { IfOk result (λ found. Walked (SaysBy checker.now.abi (λ n o. DeclaredNamesAre storage (named_at n base) names.now o)) nothing context.old context.new found) }
{
    for name in names {
        match declared_name(checker, alloc, context, storage, base, name)? {
            Found::Passes(()) => {}
            Found::Refused(fault) => return Ok(Found::Refused(fault)),
        }
    }
    Ok(Found::Passes(()))
}

/// A name that a declaration declares: that of a function (C11 6.7.6.3), or that of an object or of a typedef.
fn declared_name<F: Fn(&mut Context, Within, Part<'_>) -> Result<Found<Told>, NoMemory>>(
    checker: &Checker<F>,
    alloc: Global,
    context: &mut Context,
    storage: Storage,
    base: NamedType,
    name: &Declared,
) -> Result<Found<()>, NoMemory>
    requires nests { Nests checker.now.abi checker.now.depth (F.pre checker.now.inner) (F.post checker.now.inner) }
    requires deep { declared_levels name.now ≤ checker.now.depth }
    requires base { base.ctype < length context.old.types }
    ensures { IfOk result (λ found. Walked (SaysBy checker.now.abi (λ n o. DeclaredNameIs storage (named_at n base) name.now o)) nothing context.old context.new found) }
{
    match &name.params {
        Some(params) => function_name(checker, alloc, context, storage, base, name, params),
        None => object_name(checker, alloc, context, storage, base, name),
    }
}
