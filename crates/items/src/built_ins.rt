ghost use Rattle.std.specs.Prelude.{◌≡◌, [], ◌∷◌, map, OnOk};
ghost use Rattle.typing.specs.environment.BuiltIns.{built_ins};
ghost use Rattle.items.specs.Begun.{HasMore, IsBuiltIn, function_in, is_among, type_in, types_in};

use crate::built_in_types::{BuiltInType, Parameters, number_of, put_numbers};
use cbase::{Abi, List, NoMemory, Rank, Text};
use expressions::Context;
use std::alloc::Global;
use typing::environment::{Definition, Entity, Linked, Signature};

/// A function that is built in.
struct BuiltIn {
    /// Its name.
    name: &'static str,
    /// The type of its result.
    result_type: BuiltInType,
    /// Those of its parameters, in order.
    parameters: Parameters,
}

/// The functions that are built in where a text gives them no body: those of C11 7.22.3, 7.22.4 and 7.24, one of gcc, and those by which verifiers take
/// inputs, assume and fail.
const FUNCTIONS: [BuiltIn; 21] = [
    BuiltIn {
        name: "malloc",
        result_type: BuiltInType::Any,
        parameters: Parameters::One(BuiltInType::Size),
    },
    BuiltIn {
        name: "calloc",
        result_type: BuiltInType::Any,
        parameters: Parameters::Two(BuiltInType::Size, BuiltInType::Size),
    },
    BuiltIn {
        name: "free",
        result_type: BuiltInType::Void,
        parameters: Parameters::One(BuiltInType::Any),
    },
    BuiltIn {
        name: "memset",
        result_type: BuiltInType::Any,
        parameters: Parameters::Three(
            BuiltInType::Any,
            BuiltInType::Integer(Rank::Int, true),
            BuiltInType::Size,
        ),
    },
    BuiltIn {
        name: "memcpy",
        result_type: BuiltInType::Any,
        parameters: Parameters::Three(BuiltInType::Any, BuiltInType::Any, BuiltInType::Size),
    },
    BuiltIn {
        name: "memmove",
        result_type: BuiltInType::Any,
        parameters: Parameters::Three(BuiltInType::Any, BuiltInType::Any, BuiltInType::Size),
    },
    BuiltIn {
        name: "abort",
        result_type: BuiltInType::Void,
        parameters: Parameters::Nothing,
    },
    BuiltIn {
        name: "exit",
        result_type: BuiltInType::Void,
        parameters: Parameters::One(BuiltInType::Integer(Rank::Int, true)),
    },
    BuiltIn {
        name: "__VERIFIER_error",
        result_type: BuiltInType::Void,
        parameters: Parameters::Nothing,
    },
    BuiltIn {
        name: "reach_error",
        result_type: BuiltInType::Void,
        parameters: Parameters::Nothing,
    },
    BuiltIn {
        name: "__VERIFIER_assume",
        result_type: BuiltInType::Void,
        parameters: Parameters::One(BuiltInType::Integer(Rank::Int, true)),
    },
    BuiltIn {
        name: "__builtin_expect",
        result_type: BuiltInType::Integer(Rank::Long, true),
        parameters: Parameters::Two(
            BuiltInType::Integer(Rank::Long, true),
            BuiltInType::Integer(Rank::Long, true),
        ),
    },
    BuiltIn {
        name: "__VERIFIER_nondet_int",
        result_type: BuiltInType::Integer(Rank::Int, true),
        parameters: Parameters::Nothing,
    },
    BuiltIn {
        name: "__VERIFIER_nondet_uint",
        result_type: BuiltInType::Integer(Rank::Int, false),
        parameters: Parameters::Nothing,
    },
    BuiltIn {
        name: "__VERIFIER_nondet_long",
        result_type: BuiltInType::Integer(Rank::Long, true),
        parameters: Parameters::Nothing,
    },
    BuiltIn {
        name: "__VERIFIER_nondet_ulong",
        result_type: BuiltInType::Integer(Rank::Long, false),
        parameters: Parameters::Nothing,
    },
    BuiltIn {
        name: "__VERIFIER_nondet_char",
        result_type: BuiltInType::Integer(Rank::Char, true),
        parameters: Parameters::Nothing,
    },
    BuiltIn {
        name: "__VERIFIER_nondet_uchar",
        result_type: BuiltInType::Integer(Rank::Char, false),
        parameters: Parameters::Nothing,
    },
    BuiltIn {
        name: "__VERIFIER_nondet_short",
        result_type: BuiltInType::Integer(Rank::Short, true),
        parameters: Parameters::Nothing,
    },
    BuiltIn {
        name: "__VERIFIER_nondet_ushort",
        result_type: BuiltInType::Integer(Rank::Short, false),
        parameters: Parameters::Nothing,
    },
    BuiltIn {
        name: "__VERIFIER_nondet_bool",
        result_type: BuiltInType::Bool,
        parameters: Parameters::Nothing,
    },
];

/// Declares the functions that are built in, but for those to which the text gives a body.
///
/// Want of memory is the only error, and nothing is said of the context then.
pub(crate) fn declare_built_ins(
    alloc: Global,
    context: &mut Context,
    abi: Abi,
    bodied: &[Text],
) -> Result<(), NoMemory>
    ensures { OnOk result (HasMore bodied.now (built_ins abi) context.old context.new) }
{
    declare_functions(alloc, context, abi, bodied, FUNCTIONS.as_slice())
}

/// Declares functions of a table, but for those to which the text gives a body.
fn declare_functions(
    alloc: Global,
    context: &mut Context,
    abi: Abi,
    bodied: &[Text],
    functions: &[BuiltIn],
) -> Result<(), NoMemory>
    ensures { OnOk result (HasMore bodied.now (map (function_in abi) functions.now) context.old context.new) }
{
    for function in functions {
        declare_unless(alloc, context, abi, bodied, function)?;
    }
    Ok(())
}

/// Declares a function, unless the text gives it a body.
fn declare_unless(
    alloc: Global,
    context: &mut Context,
    abi: Abi,
    bodied: &[Text],
    function: &BuiltIn,
) -> Result<(), NoMemory>
    ensures { OnOk result (HasMore bodied.now (function_in abi function.now ∷ []) context.old context.new) }
{
    let name = function.name.as_bytes();
    if is_among(name, bodied) {
        return Ok(());
    }
    declare_built_in(
        alloc,
        context,
        abi,
        name,
        function.result_type,
        function.parameters,
    )
}

/// Whether a name is one of some.
fn is_among(name: &[u8], names: &[Text]) -> bool
    ensures { result ≡ is_among name.now names.now }
{
    for one in names {
        if one.as_slice() == name {
            return true;
        }
    }
    false
}

/// Declares a function that is built in: its signature stands behind the others.
fn declare_built_in(
    alloc: Global,
    context: &mut Context,
    abi: Abi,
    name: &[u8],
    result_type: BuiltInType,
    parameters: Parameters,
) -> Result<(), NoMemory>
    ensures { OnOk result (IsBuiltIn name.now (record { result = type_in abi result_type; parameters = types_in abi parameters }) context.old context.new) }
{
    let number = number_of(context, abi, result_type)?;
    let mut numbers = List::new(alloc);
    put_numbers(context, abi, parameters, &mut numbers)?;
    let signature = context.add_signature(Signature {
        result: number,
        parameters: numbers,
    })?;
    let meaning = Linked {
        entity: Entity::Function {
            signature,
            defined: context.is_defined(name),
            built_in: true,
        },
        definition: Definition::NotDefined,
    };
    context.declare_linked(alloc, name, None, meaning)
}
