ghost use Rattle.std.specs.Prelude.{◌≡◌, ◌<◌, [], All, IfOk, OnOk, length};
ghost use Rattle.expressions.specs.Operated.{Numbers};
ghost use Rattle.items.specs.Begun.{AreNumbers, IsNumberBehind, type_in, types_in};

use cbase::{Abi, List, NoMemory, Rank, bytes_of_rank};
use expressions::Context;

/// The type of a result or of a parameter of a function that is built in.
#[derive(Clone, Copy)]
pub(crate) enum BuiltInType {
    /// `void`.
    Void,
    /// `_Bool`.
    Bool,
    /// `void *`.
    Any,
    /// `size_t` (C11 7.19).
    Size,
    /// An integer type of that rank, with a sign or without.
    Integer(Rank, bool),
}

/// The types of the parameters of such a function, in order.
#[derive(Clone, Copy)]
pub(crate) enum Parameters {
    /// It has none.
    Nothing,
    /// It has one.
    One(BuiltInType),
    /// It has two.
    Two(BuiltInType, BuiltInType),
    /// It has three.
    Three(BuiltInType, BuiltInType, BuiltInType),
}

/// The number of such a type in a data layout. Only types get numbers.
///
/// Want of memory is the only error, and nothing is said of the context then.
pub(crate) fn number_of(
    context: &mut Context,
    abi: Abi,
    ctype: BuiltInType,
) -> Result<u32, NoMemory>
    ensures { IfOk result (λ number. Numbers (λ n. type_in abi ctype) context.old context.new number) }
{
    match ctype {
        BuiltInType::Void => context.void(),
        BuiltInType::Bool => context.boolean(),
        BuiltInType::Any => {
            let void = context.void()?;
            context.pointer_to(void)
        }
        BuiltInType::Size => context.integer(8, false),
        BuiltInType::Integer(rank, signed) => context.integer(bytes_of_rank(rank, abi), signed),
    }
}

/// Puts the numbers of the types of parameters into an empty list, in order. Only types get numbers.
///
/// Want of memory is the only error, and nothing is said of the context and of the list then.
pub(crate) fn put_numbers(
    context: &mut Context,
    abi: Abi,
    parameters: Parameters,
    numbers: &mut List<u32>,
) -> Result<(), NoMemory>
    requires { numbers.old ≡ [] }
    ensures { OnOk result (AreNumbers (types_in abi parameters) context.old context.new numbers.new) }
{
    match parameters {
        Parameters::Nothing => Ok(()),
        Parameters::One(first) => put_number(context, abi, first, numbers),
        Parameters::Two(first, second) => {
            put_number(context, abi, first, numbers)?;
            put_number(context, abi, second, numbers)
        }
        Parameters::Three(first, second, third) => {
            put_number(context, abi, first, numbers)?;
            put_number(context, abi, second, numbers)?;
            put_number(context, abi, third, numbers)
        }
    }
}

/// Puts the number of a type behind others.
fn put_number(
    context: &mut Context,
    abi: Abi,
    ctype: BuiltInType,
    numbers: &mut List<u32>,
) -> Result<(), NoMemory>
    ensures { OnOk result (IsNumberBehind (type_in abi ctype) context.old context.new numbers.old numbers.new) }
{
    let number = number_of(context, abi, ctype)?;
    numbers.push(number)
}
