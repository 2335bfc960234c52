ghost use Rattle.std.specs.Prelude.{◌≡◌, ◌<◌, ℕ, map, length, All, option_map, option_and_then};
ghost use Rattle.typing.specs.environment.Names.{value_in};
ghost use Rattle.typing.specs.environment.Scopes.{found_here, left};
ghost use Rattle.typing.specs.Declarations.{IsAgain, LinkedGiven};
ghost use Rattle.typing.specs.Entities.{FunctionLinked};
ghost use Rattle.typing.specs.Heads.{body_faults, definition_of_head};
ghost use Rattle.expressions.specs.Context.{Agrees};
ghost use Rattle.expressions.specs.FileScope.{definition_at};
ghost use Rattle.expressions.specs.Numbers.{Numbering, linked_at, name_here_at};
ghost use Rattle.expressions.specs.Settled.{IsFirstOf};
ghost use Rattle.items.specs.Heads.{IsHeadJudged};

use crate::declarations::definition_by_now;
use crate::definitions::is_twice;
use crate::heads::main_function::main_fault;
use crate::heads::parts::Head;
use crate::heads::structs::has_struct;
use crate::parameters::{
    Parameter, first_of_parameters, found_of_parameters, function_fault, is_other,
};
use cbase::{Declared, Place};
use expressions::{Context, first_of, least, unless};
use typing::Fault;
use typing::ctypes::Broken;
use typing::environment::{Binding, Definition};

/// The first of what is broken at the head of a function, if anything is: what is broken at the name of every function and at those of its parameters; one
/// that is defined a second time is rule 2 (C11 6.9p5), one with a body that takes or gives a struct construct 13, a `main` whose result is no int rule 12.
///
/// `types` are the numbers of the types of its parameters.
pub(crate) fn head_fault(
    context: &Context,
    head: Head,
    name: &Declared,
    params: &[Parameter],
    types: &[u32],
) -> Option<Fault>
    requires of { head.result < length context.now.types }
    requires params { All (λ param. param.ctype < length context.now.types) params.now }
    requires types { All (λ number. number < length context.now.types) types.now }
    ensures { (n : Numbering) → Agrees n context.now → IsHeadJudged n context.now head name.now params.now types.now result }
{
    let text = name.name.as_slice();
    let before = definition_by_now(context.linked(text));
    let other = is_other_around(context, text, head.result, types);
    let again = other || is_twice(before, definition_of_head(head.bodied));
    let found = least(head.found, found_of_parameters(params));
    let array = context.item(head.result).is_some();
    let here = function_fault(name.place, found, head.storage, again, array);
    let struct_there = has_struct(context, head.result, params);
    let bodied = body_fault(head.bodied, name.place, struct_there);
    let of_main = main_fault(context, text, name.place, head.result);
    first_of(
        first_of(here, first_of_parameters(params)),
        first_of(bodied, of_main),
    )
}

/// Whether a name is declared another thing than a function of those types: by the scope around the innermost one, or by what has linkage under it (C11
/// 6.7p3, p4).
fn is_other_around(context: &Context, name: &[u8], result_type: u32, params: &[u32]) -> bool
    requires of { result_type < length context.now.types }
    requires params { All (λ number. number < length context.now.types) params.now }
    ensures { (n : Numbering) → Agrees n context.now → IsAgain (option_map (name_here_at n) (found_here name.now (left context.now.environment.names))) (option_and_then (linked_at n) (value_in name.now context.now.environment.linked)) (LinkedGiven (FunctionLinked (n.ctype result_type) (map n.ctype params.now))) result }
{
    match context.binding_around(name) {
        Some(Binding::Own(_)) => true,
        Some(Binding::WithLinkage(_)) | None => {
            is_other(context, context.linked(name), result_type, params)
        }
    }
}

/// What a head adds to what the text has for its function.
pub(crate) fn definition_of_head(bodied: bool) -> Definition
    ensures { definition_at result ≡ definition_of_head bodied }
{
    if bodied {
        Definition::Defined
    } else {
        Definition::NotDefined
    }
}

/// What is broken where a body stands behind a head that takes or gives a struct.
fn body_fault(bodied: bool, place: Place, struct_there: bool) -> Option<Fault>
    ensures { IsFirstOf (body_faults bodied place struct_there) result }
{
    if bodied {
        unless(!struct_there, place, Broken::Construct(13))
    } else {
        None
    }
}
