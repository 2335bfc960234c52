ghost use Rattle.std.specs.Prelude.{◌≡◌, ◌≤◌, ◌<◌, length, All, IfOk};
ghost use Rattle.ctrees.specs.Levels.{declared_levels};
ghost use Rattle.expressions.specs.Found.{nothing};
ghost use Rattle.expressions.specs.Nests.{Nests};
ghost use Rattle.expressions.specs.Numbers.{named_at};
ghost use Rattle.expressions.specs.Walked.{Walked};
ghost use Rattle.typing.specs.Items.{FileNameIs, FileNamesAre};
ghost use Rattle.items.specs.InFile.{SaysInFileBy};
ghost use Rattle.items.specs.Names.{found_alone};

use crate::declarations::object_name;
use crate::heads::head;
use crate::objects::object;
use cbase::{Declared, NoMemory, Storage};
use expressions::{Checker, Context, Found, NamedType, Part, Told, Within};
use std::alloc::Global;

/// The names that a declaration outside of functions declares, in order.
pub(crate) fn names<F: Fn(&mut Context, Within, Part<'_>) -> Result<Found<Told>, NoMemory>>(
    checker: &Checker<F>,
    alloc: Global,
    context: &mut Context,
    storage: Storage,
    base: NamedType,
    names: &[Declared],
) -> Result<Found<()>, NoMemory>
    requires nests { Nests checker.now.abi checker.now.depth (F.pre checker.now.inner) (F.post checker.now.inner) }
    requires deep { All (λ name. declared_levels name ≤ checker.now.depth) names.now }
    requires base { base.ctype < length context.old.types }
    ensures { IfOk result (λ found. Walked (SaysInFileBy checker.now.abi (λ n o. FileNamesAre storage (named_at n base) names.now o)) nothing context.old context.new found) }
{
    for name in names {
        match one_name(checker, alloc, context, storage, base, name)? {
            Found::Passes(()) => {}
            Found::Refused(fault) => return Ok(Found::Refused(fault)),
        }
    }
    Ok(Found::Passes(()))
}

/// A name that such a declaration declares: a function without a body, behind whose head the scope of its parameters is left (C11 6.7.6.3); a typedef, which
/// is what it is in a block (6.7.8); or an object.
fn one_name<F: Fn(&mut Context, Within, Part<'_>) -> Result<Found<Told>, NoMemory>>(
    checker: &Checker<F>,
    alloc: Global,
    context: &mut Context,
    storage: Storage,
    base: NamedType,
    name: &Declared,
) -> Result<Found<()>, NoMemory>
    requires nests { Nests checker.now.abi checker.now.depth (F.pre checker.now.inner) (F.post checker.now.inner) }
    requires deep { declared_levels name.now ≤ checker.now.depth }
    requires base { base.ctype < length context.old.types }
    ensures { IfOk result (λ found. Walked (SaysInFileBy checker.now.abi (λ n o. FileNameIs storage (named_at n base) name.now o)) nothing context.old context.new found) }
{
    if name.params.is_some() {
        let found = head(checker, alloc, context, false, storage, base, name)?;
        context.leave();
        return Ok(without_value(found));
    }
    match storage {
        Storage::Typedef => object_name(checker, alloc, context, storage, base, name),
        Storage::Plain | Storage::Extern | Storage::Static => {
            object(checker, alloc, context, storage, base, name)
        }
    }
}

/// What is found, without what is told of it.
fn without_value(found: Found<u32>) -> Found<()>
    ensures { result ≡ found_alone found }
{
    match found {
        Found::Passes(_) => Found::Passes(()),
        Found::Refused(fault) => Found::Refused(fault),
    }
}
