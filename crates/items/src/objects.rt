ghost use Rattle.std.specs.Prelude.{◌≡◌, ◌≤◌, ◌<◌, None, false, length, IfOk};
ghost use Rattle.cbase.specs.declared.tree.expr.ExprForm.TheViews.{out-Declared};
ghost use Rattle.ctrees.specs.Levels.{declared_levels};
ghost use Rattle.typing.specs.environment.Bounds.{DeclaredBelow};
ghost use Rattle.expressions.specs.Found.{nothing};
ghost use Rattle.expressions.specs.Nests.{Nests};
ghost use Rattle.expressions.specs.Numbers.{declared_type_at, named_at};
ghost use Rattle.expressions.specs.Walked.{Walked};
ghost use Rattle.typing.specs.Declarations.{is_typedef, name_of};
ghost use Rattle.typing.specs.Items.{FileInitialisedIs, FileNameIs};
ghost use Rattle.items.specs.InFile.{SaysInFileBy};

use crate::definitions::is_listed;
use crate::giving::give;
use crate::handing::hand_static;
use crate::initialising::{array_initialised, object_initialised};
use cbase::{Declared, NoMemory, Storage};
use expressions::{Checker, Context, Found, NamedType, Part, Told, Within};
use std::alloc::Global;
use typing::environment::DeclaredType;

/// The name of an object outside of functions (C11 6.9.2): its sizes, which are integer constant expressions (6.7.6.2p2), then what is found at it, then its
/// initialiser, in which it is in scope (6.2.1p7).
///
/// Want of memory is the only error, and nothing is said of the context then.
pub(crate) fn object<F: Fn(&mut Context, Within, Part<'_>) -> Result<Found<Told>, NoMemory>>(
    checker: &Checker<F>,
    alloc: Global,
    context: &mut Context,
    storage: Storage,
    base: NamedType,
    name: &Declared,
) -> Result<Found<()>, NoMemory>
    requires nests { Nests checker.now.abi checker.now.depth (F.pre checker.now.inner) (F.post checker.now.inner) }
    requires deep { declared_levels name.now ≤ checker.now.depth }
    requires base { base.ctype < length context.old.types }
    requires params { (out-Declared name.now).params ≡ None }
    requires object { is_typedef storage ≡ false }
    ensures { IfOk result (λ found. Walked (SaysInFileBy checker.now.abi (λ n o. FileNameIs storage (named_at n base) name.now o)) nothing context.old context.new found) }
{
    let mut sizes = Vec::new(alloc);
    match checker.member_sizes(context, name.sizes.as_slice(), &mut sizes)? {
        Found::Passes(()) => {}
        Found::Refused(fault) => return Ok(Found::Refused(fault)),
    }
    match give(alloc, context, storage, base, name, &sizes)? {
        Found::Passes(object) => {
            let listed = is_listed(object.before, object.adds);
            initialised(checker, alloc, context, name, listed, object.ctype)
        }
        Found::Refused(fault) => Ok(Found::Refused(fault)),
    }
}

/// What stands behind the name of an object of that type: its initialiser, where there is one. Behind it the object is handed on where its declaration is
/// the first that defines it, as `listed` says.
fn initialised<F: Fn(&mut Context, Within, Part<'_>) -> Result<Found<Told>, NoMemory>>(
    checker: &Checker<F>,
    alloc: Global,
    context: &mut Context,
    name: &Declared,
    listed: bool,
    ctype: DeclaredType,
) -> Result<Found<()>, NoMemory>
    requires nests { Nests checker.now.abi checker.now.depth (F.pre checker.now.inner) (F.post checker.now.inner) }
    requires deep { declared_levels name.now ≤ checker.now.depth }
    requires below { DeclaredBelow (length context.old.types) ctype }
    ensures { IfOk result (λ found. Walked (SaysInFileBy checker.now.abi (λ n o. FileInitialisedIs (name_of (out-Declared name.now)) listed (declared_type_at n ctype) (out-Declared name.now).init o)) nothing context.old context.new found) }
{
    let Some(init) = &name.init else {
        hand_static(context, listed, name.place, ctype, false)?;
        return Ok(Found::Passes(()));
    };
    match ctype {
        DeclaredType::Whole(number) => {
            object_initialised(checker, context, name, listed, number, init)
        }
        DeclaredType::UnsizedArray(item) => {
            array_initialised(checker, alloc, context, name, listed, item, init)
        }
    }
}
