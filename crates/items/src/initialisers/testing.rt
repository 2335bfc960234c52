ghost use Rattle.std.specs.Prelude.{◌≡◌, ◌<◌, length};
ghost use Rattle.typing.specs.ctypes.Kinds.{kind_of, decayed};
ghost use Rattle.typing.specs.Statements.{is_truth, is_pointer, is_test_of_pointer};
ghost use Rattle.expressions.specs.Context.{Agrees};
ghost use Rattle.expressions.specs.Numbers.{Numbering};

use expressions::Context;
use typing::ctypes::Shape;

/// Whether a pointer of type `from` becomes a `_Bool`, where it is stored as type `to`, by whether it is null (C11 6.3.1.2); so does the name of an array.
pub(crate) fn is_test_of_pointer(context: &Context, to: u32, from: u32) -> bool
    requires to { to < length context.now.types }
    requires from { from < length context.now.types }
    ensures { (n : Numbering) → Agrees n context.now → result ≡ is_test_of_pointer (kind_of context.now.structs (n.ctype to)) (decayed (kind_of context.now.structs (n.ctype from))) }
{
    let truth = is_truth(context, to);
    let address = is_address(context, from);
    truth && address
}

/// Whether the type of a number is `_Bool`.
fn is_truth(context: &Context, number: u32) -> bool
    requires { number < length context.now.types }
    ensures { (n : Numbering) → Agrees n context.now → result ≡ is_truth (kind_of context.now.structs (n.ctype number)) }
{
    match context.shape(number) {
        Shape::Bool => true,
        Shape::Void => false,
        Shape::Int { .. } => false,
        Shape::Pointer(_) => false,
        Shape::Struct(_) => false,
        Shape::Array(_, _) => false,
    }
}

/// Whether the type of a number is that of a pointer, or of an array, which becomes one.
fn is_address(context: &Context, number: u32) -> bool
    requires { number < length context.now.types }
    ensures { (n : Numbering) → Agrees n context.now → result ≡ is_pointer (decayed (kind_of context.now.structs (n.ctype number))) }
{
    match context.shape(number) {
        Shape::Pointer(_) => true,
        Shape::Array(_, _) => true,
        Shape::Void => false,
        Shape::Bool => false,
        Shape::Int { .. } => false,
        Shape::Struct(_) => false,
    }
}
