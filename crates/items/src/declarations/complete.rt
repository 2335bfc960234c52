ghost use Rattle.std.specs.Prelude.{◌≡◌, ◌<◌, ℕ, length};
ghost use Rattle.cbase.specs.declared.tree.decl.Storage.TheVariants.{Plain, Static};
ghost use Rattle.typing.specs.environment.Bounds.{DeclaredBelow};
ghost use Rattle.expressions.specs.Context.{Agrees};
ghost use Rattle.expressions.specs.Numbers.{Numbering, declared_type_at};
ghost use Rattle.typing.specs.ctypes.Kinds.{kind_of};
ghost use Rattle.typing.specs.Declarations.{given, is_complete};
ghost use Rattle.typing.specs.Statements.{is_void};

use cbase::Storage;
use expressions::Context;
use typing::ctypes::Shape;
use typing::environment::DeclaredType;

/// Whether what a declaration gives that type is complete, once its initialiser stands (C11 6.7p7, 6.7.9p22). What has linkage may have an incomplete
/// type, but not `void`.
pub fn is_complete(
    context: &Context,
    initialised: bool,
    storage: Storage,
    ctype: DeclaredType,
) -> bool
    requires { DeclaredBelow (length context.now.types) ctype }
    ensures { (n : Numbering) → Agrees n context.now → result ≡ is_complete context.now.structs initialised (given storage (declared_type_at n ctype)) }
{
    match storage {
        Storage::Plain => is_complete_object(context, initialised, ctype),
        Storage::Static => is_complete_object(context, initialised, ctype),
        Storage::Typedef => true,
        Storage::Extern => match ctype {
            DeclaredType::Whole(number) => !is_void(context, number),
            DeclaredType::UnsizedArray(_) => true,
        },
    }
}

/// Whether an object without linkage is complete.
fn is_complete_object(context: &Context, initialised: bool, ctype: DeclaredType) -> bool
    requires { DeclaredBelow (length context.now.types) ctype }
    ensures plain { (n : Numbering) → Agrees n context.now → result ≡ is_complete context.now.structs initialised (given Plain (declared_type_at n ctype)) }
    ensures fixed { (n : Numbering) → Agrees n context.now → result ≡ is_complete context.now.structs initialised (given Static (declared_type_at n ctype)) }
{
    match ctype {
        DeclaredType::Whole(number) => context.has_size(number),
        DeclaredType::UnsizedArray(item) => initialised && context.has_size(item),
    }
}

/// Whether the type of a number is `void`.
fn is_void(context: &Context, number: u32) -> bool
    requires { number < length context.now.types }
    ensures { (n : Numbering) → Agrees n context.now → result ≡ is_void (kind_of context.now.structs (n.ctype number)) }
{
    match context.shape(number) {
        Shape::Void => true,
        Shape::Bool => false,
        Shape::Int { .. } => false,
        Shape::Pointer(_) => false,
        Shape::Struct(_) => false,
        Shape::Array(_, _) => false,
    }
}
