ghost use Rattle.std.specs.Prelude.{◌≡◌, [], Some, None, IfOk, IfSome, IfNone};
ghost use Rattle.cbase.specs.declared.abi.Abi.{Abi};
ghost use Rattle.cbase.specs.declared.tree.expr.ExprForm.TheViews.{out-Decl, out-TypeSpec};
ghost use Rattle.cbase.specs.declared.tree.decl.Storage.TheVariants.{Plain};
ghost use Rattle.typing.specs.Declarations.{tag_alone};
ghost use Rattle.items.specs.declarations.Given.{IsAlone};

use cbase::{Decl, Identifier, NoMemory, Storage, TypeSpec};
use expressions::{Context, Found};
use std::alloc::Global;
use typing::Fault;
use typing::ctypes::Broken;
use typing::environment::Tag;

/// The tag that a declaration as `struct s;` declares in the innermost scope, also where an outer one has it (C11 6.7.2.3p7).
pub(crate) fn tag_alone(decl: &Decl) -> Option<&Identifier>
    ensures some { IfSome result (λ tag. tag_alone (out-Decl decl.now).storage (out-TypeSpec (out-Decl decl.now).spec) (out-Decl decl.now).names ≡ Some tag.now) }
    ensures none { IfNone result (tag_alone (out-Decl decl.now).storage (out-TypeSpec (out-Decl decl.now).spec) (out-Decl decl.now).names ≡ None) }
{
    if !decl.names.is_empty() {
        return None;
    }
    match decl.storage {
        Storage::Plain => tag_in(&decl.spec),
        Storage::Typedef => None,
        Storage::Extern => None,
        Storage::Static => None,
    }
}

/// The tag of a struct whose members do not stand there.
fn tag_in(spec: &TypeSpec) -> Option<&Identifier>
    ensures some { IfSome result (λ tag. tag_alone Plain (out-TypeSpec spec.now) [] ≡ Some tag.now) }
    ensures none { IfNone result (tag_alone Plain (out-TypeSpec spec.now) [] ≡ None) }
{
    match spec {
        TypeSpec::Struct { name, fields } => match fields {
            Some(_) => None,
            None => name.as_ref(),
        },
        _ => None,
    }
}

/// Declares such a tag. One that the innermost scope declares for an enum is rule 2 at it.
///
/// Want of memory is the only error, and nothing is said of the context then.
pub(crate) fn declare_alone(
    alloc: Global,
    context: &mut Context,
    tag: &Identifier,
) -> Result<Found<()>, NoMemory>
    ensures { (abi : Abi) → IfOk result (λ found. IsAlone abi tag.now context.old context.new found) }
{
    match context.tag_here(tag.name.as_slice()) {
        None => {
            context.declare_struct(alloc, tag.name.as_slice(), false)?;
            Ok(Found::Passes(()))
        }
        Some(Tag::Struct { .. }) => Ok(Found::Passes(())),
        Some(Tag::Enum { .. }) => Ok(Found::Refused(Fault {
            place: tag.place,
            broken: Broken::Rule(2),
        })),
    }
}
