ghost use Rattle.std.specs.Prelude.{◌≡◌, ◌<◌, ℕ, length};
ghost use Rattle.typing.specs.ctypes.Kinds.{Kind, kind_of, integer_in};
ghost use Rattle.typing.specs.Idiom.{offset_in, null_cast};
ghost use Rattle.typing.specs.Known.{is_zero};
ghost use Rattle.typing.specs.Nodes.{value_of_cast, null_of_cast, cast_known};
ghost use Rattle.expressions.specs.Context.{Agrees};
ghost use Rattle.expressions.specs.Numbers.{Numbering, known_at};
ghost use Rattle.expressions.specs.Pointers.{is_pointer, is_void_pointer};

use crate::context::Context;
use crate::known::Known;
use typing::Idiom;
use typing::ctypes::{IntegerType, Shape};
use typing::values::{cast_value, offset_as};

impl Context {
    /// What is known of a cast to the type of number `to`, where it passes (C11 6.5.4): its value, whether it is a null pointer constant (6.3.2.3p3),
    /// and whether it begins the offsetof idiom.
    pub fn cast_known(&self, to: u32, arg: Known) -> Known
        requires to { to < length self.now.types }
        requires arg { arg.ctype < length self.now.types }
        ensures is { (n : Numbering) → Agrees n self.now → known_at n result ≡ cast_known (n.ctype to) (kind_of self.now.structs (n.ctype to)) (kind_of self.now.structs (n.ctype arg.ctype)) (known_at n arg) }
        ensures ctype { result.ctype ≡ to }
    {
        let target = self.integer_type(to);
        let from = self.integer_type(arg.ctype);
        let value = value_of_cast(target, from, arg.value, arg.idiom);
        Known {
            ctype: to,
            lvalue: false,
            null: null_of_cast(target, from, self.is_void_pointer(to), arg.value, value),
            value,
            idiom: idiom_of_cast(self.is_pointer(to), from, arg.value),
            stands: None,
        }
    }

    /// Whether the type of that number is a pointer.
    fn is_pointer(&self, number: u32) -> bool
        requires { number < length self.now.types }
        ensures { (n : Numbering) → Agrees n self.now → result ≡ is_pointer (kind_of self.now.structs (n.ctype number)) }
    {
        match self.types.shape(number) {
            Shape::Pointer(_) => true,
            _ => false,
        }
    }

    /// Whether the type of that number is a pointer to `void`.
    fn is_void_pointer(&self, number: u32) -> bool
        requires { number < length self.now.types }
        ensures { (n : Numbering) → Agrees n self.now → result ≡ is_void_pointer (kind_of self.now.structs (n.ctype number)) }
    {
        match self.types.shape(number) {
            Shape::Pointer(item) => match self.types.shape(item) {
                Shape::Void => true,
                _ => false,
            },
            _ => false,
        }
    }
}

/// The value of a cast, where its operand is a constant or the address of the offsetof idiom.
fn value_of_cast(
    to: Option<IntegerType>,
    from: Option<IntegerType>,
    value: Option<u64>,
    idiom: Idiom,
) -> Option<u64>
    ensures { (target source : Kind) → integer_in target ≡ to → integer_in source ≡ from → result ≡ value_of_cast target source value (offset_in idiom) }
{
    match idiom {
        Idiom::AddressAt(offset) => offset_as(to?, offset),
        Idiom::Outside | Idiom::NullPointer | Idiom::MemberAt(_) => cast_value(to, from, value),
    }
}

/// Whether a cast is a null pointer constant, given its value where it has one (C11 6.3.2.3p3).
fn null_of_cast(
    to: Option<IntegerType>,
    from: Option<IntegerType>,
    to_void: bool,
    value: Option<u64>,
    cast: Option<u64>,
) -> bool
    ensures { (target source : Kind) → integer_in target ≡ to → integer_in source ≡ from → is_void_pointer target ≡ to_void → result ≡ null_of_cast target source value cast }
{
    match (to, from) {
        (Some(_), _) => cast == Some(0),
        (None, Some(_)) => to_void && value == Some(0),
        (None, None) => false,
    }
}

/// Whether a cast begins the offsetof idiom.
fn idiom_of_cast(to_pointer: bool, from: Option<IntegerType>, value: Option<u64>) -> Idiom
    ensures { (target source : Kind) → is_pointer target ≡ to_pointer → integer_in source ≡ from → result ≡ null_cast (is_zero value) target source }
{
    if to_pointer && from.is_some() && value == Some(0) {
        Idiom::NullPointer
    } else {
        Idiom::Outside
    }
}
