ghost use Rattle.std.specs.Prelude.{◌≡◌, ◌≤◌, ◌<◌, [], None, All, IfOk, length};
ghost use Rattle.cbase.specs.declared.tree.expr.ExprForm.TheViews.{out-Declared};
ghost use Rattle.ctrees.specs.Levels.{declared_levels, maybe_levels};
ghost use Rattle.typing.specs.environment.Bounds.{DeclaredBelow};
ghost use Rattle.expressions.specs.Found.{nothing, some_sizes};
ghost use Rattle.expressions.specs.Nests.{Nests};
ghost use Rattle.expressions.specs.Numbers.{declared_type_at, named_at};
ghost use Rattle.expressions.specs.Walked.{Walked, Says, SaysBy};
ghost use Rattle.typing.specs.Declarations.{given, is_fixed_size, name_of};
ghost use Rattle.typing.specs.Typing.{DeclaredNameIs, DeclaredSizesAre, InitialisedIs};
ghost use Rattle.items.specs.declarations.Given.{fixed_of};

use crate::declarations::giving::give;
use crate::declarations::handing::hand_declared;
use crate::declarations::initialising::{array_initialised, object_initialised};
use cbase::{Declared, Expr, NoMemory, Storage};
use expressions::{Checker, Context, Found, NamedType, Part, Subject, Told, Within};
use std::alloc::Global;
use typing::Size;
use typing::environment::DeclaredType;

/// The name of an object or of a typedef (C11 6.7): its sizes, then what is found at it, then its initialiser, in which it is in scope (6.2.1p7).
///
/// Want of memory is the only error, and nothing is said of the context then.
pub fn object_name<F: Fn(&mut Context, Within, Part<'_>) -> Result<Found<Told>, NoMemory>>(
    checker: &Checker<F>,
    alloc: Global,
    context: &mut Context,
    storage: Storage,
    base: NamedType,
    name: &Declared,
) -> Result<Found<()>, NoMemory>
    requires nests { Nests checker.now.abi checker.now.depth (F.pre checker.now.inner) (F.post checker.now.inner) }
    requires deep { declared_levels name.now ≤ checker.now.depth }
    requires base { base.ctype < length context.old.types }
    requires params { (out-Declared name.now).params ≡ None }
    ensures { IfOk result (λ found. Walked (SaysBy checker.now.abi (λ n o. DeclaredNameIs storage (named_at n base) name.now o)) nothing context.old context.new found) }
{
    let mut sizes = Vec::new(alloc);
    match declared_sizes(checker, context, storage, name.sizes.as_slice(), &mut sizes)? {
        Found::Passes(()) => {}
        Found::Refused(fault) => return Ok(Found::Refused(fault)),
    }
    match give(alloc, context, storage, base, name, &sizes)? {
        Found::Passes(ctype) => initialised(checker, alloc, context, storage, ctype, name),
        Found::Refused(fault) => Ok(Found::Refused(fault)),
    }
}

/// The sizes of a name, the outermost first: those of static objects and of what has linkage are integer constant expressions (C11 6.7.6.2p2).
fn declared_sizes<F: Fn(&mut Context, Within, Part<'_>) -> Result<Found<Told>, NoMemory>>(
    checker: &Checker<F>,
    context: &mut Context,
    storage: Storage,
    sizes: &[Option<Expr>],
    found: &mut Vec<Size>,
) -> Result<Found<()>, NoMemory>
    requires nests { Nests checker.now.abi checker.now.depth (F.pre checker.now.inner) (F.post checker.now.inner) }
    requires deep { All (λ size. maybe_levels size ≤ checker.now.depth) sizes.now }
    requires empty { found.old.items ≡ [] }
    ensures { IfOk result (λ told. Walked (Says checker.now.abi (λ o. DeclaredSizesAre (is_fixed_size storage) sizes.now o)) (some_sizes found.new.items) context.old context.new told) }
{
    match storage {
        Storage::Plain => checker.sizes(context, sizes, found),
        Storage::Typedef => checker.sizes(context, sizes, found),
        Storage::Extern => checker.member_sizes(context, sizes, found),
        Storage::Static => checker.member_sizes(context, sizes, found),
    }
}

/// What stands behind a name that is declared with that type: its initialiser, where there is one, behind which its object is handed on. In a block
/// neither what has linkage nor a typedef has one (C11 6.7.9p5, 6.7.8).
fn initialised<F: Fn(&mut Context, Within, Part<'_>) -> Result<Found<Told>, NoMemory>>(
    checker: &Checker<F>,
    alloc: Global,
    context: &mut Context,
    storage: Storage,
    ctype: DeclaredType,
    name: &Declared,
) -> Result<Found<()>, NoMemory>
    requires nests { Nests checker.now.abi checker.now.depth (F.pre checker.now.inner) (F.post checker.now.inner) }
    requires deep { declared_levels name.now ≤ checker.now.depth }
    requires below { DeclaredBelow (length context.old.types) ctype }
    ensures { IfOk result (λ found. Walked (SaysBy checker.now.abi (λ n o. InitialisedIs (name_of (out-Declared name.now)) (given storage (declared_type_at n ctype)) (out-Declared name.now).init o)) nothing context.old context.new found) }
{
    let Some(init) = &name.init else {
        hand_declared(context, name.place, storage, ctype)?;
        return Ok(Found::Passes(()));
    };
    let Some(fixed) = fixed_of(storage) else {
        let place = name.place;
        return checker.ask_surplus(context, Subject { place, fixed: true }, init);
    };
    match ctype {
        DeclaredType::Whole(number) => {
            object_initialised(checker, context, name, fixed, number, init)
        }
        DeclaredType::UnsizedArray(item) => {
            array_initialised(checker, alloc, context, name, fixed, item, init)
        }
    }
}

/// Whether an object of that storage word lives as long as the program runs (C11 6.2.4p3, p5); none for what has linkage and for a typedef.
fn fixed_of(storage: Storage) -> Option<bool>
    ensures { result ≡ fixed_of storage }
{
    match storage {
        Storage::Plain => Some(false),
        Storage::Static => Some(true),
        Storage::Typedef => None,
        Storage::Extern => None,
    }
}
