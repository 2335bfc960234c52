ghost use Rattle.std.specs.Prelude.{◌≡◌, ◌<◌, length};
ghost use Rattle.cbase.specs.declared.ctype.CType.TheViews.{out-CType};
ghost use Rattle.typing.specs.Heads.{is_int, is_main, main_faults};
ghost use Rattle.expressions.specs.Context.{Agrees};
ghost use Rattle.expressions.specs.Numbers.{Numbering};
ghost use Rattle.expressions.specs.Settled.{IsFirstOf};

use cbase::Place;
use expressions::{Context, unless};
use typing::Fault;
use typing::ctypes::{Broken, Shape};

/// What is broken at the head of a function of that name and of that result: a `main` whose result is no int (C11 5.1.2.2.1p1).
pub(crate) fn main_fault(
    context: &Context,
    name: &[u8],
    place: Place,
    result_type: u32,
) -> Option<Fault>
    requires { result_type < length context.now.types }
    ensures { (n : Numbering) → Agrees n context.now → IsFirstOf (main_faults (is_main name.now) place (out-CType (n.ctype result_type))) result }
{
    if is_main(name) {
        unless(is_int(context, result_type), place, Broken::Rule(12))
    } else {
        None
    }
}

/// Whether it is the name of the function that a program begins with (C11 5.1.2.2.1p1).
pub(crate) fn is_main(name: &[u8]) -> bool
    ensures { result ≡ is_main name.now }
{
    name == b"main".as_slice()
}

/// Whether the type of that number is `int`.
fn is_int(context: &Context, number: u32) -> bool
    requires { number < length context.now.types }
    ensures { (n : Numbering) → Agrees n context.now → result ≡ is_int (out-CType (n.ctype number)) }
{
    match context.shape(number) {
        Shape::Int { bytes, signed } => bytes == 4 && signed,
        _ => false,
    }
}
