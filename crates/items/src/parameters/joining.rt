ghost use Rattle.std.specs.Prelude.{◌≡◌, [], map, IfOk, OnOk};
ghost use Rattle.typing.specs.Declarations.{found_of_all, faults_of_all};
ghost use Rattle.expressions.specs.Numbers.{Numbering};
ghost use Rattle.expressions.specs.Settled.{IsFirstOf};
ghost use Rattle.items.specs.parameters.Parameters.{faults_at, parameter_at, numbers_of};

use crate::parameters::parameter::Parameter;
use cbase::{List, NoMemory};
use expressions::{first_of, least, unless};
use std::alloc::Global;
use typing::Fault;
use typing::ctypes::Broken;

/// The numbers of the types of parameters, in order. Want of memory is the only error.
pub fn types_of(alloc: Global, params: &[Parameter]) -> Result<List<u32>, NoMemory>
    ensures { IfOk result (λ types. types ≡ numbers_of params.now) }
{
    let mut types = List::new(alloc);
    put_types(params, &mut types)?;
    Ok(types)
}

/// Puts the numbers of the types of parameters into an empty list.
fn put_types(params: &[Parameter], types: &mut List<u32>) -> Result<(), NoMemory>
    requires { types.old ≡ [] }
    ensures { OnOk result (types.new ≡ numbers_of params.now) }
{
    for param in params {
        types.push(param.ctype)?;
    }
    Ok(())
}

/// The least of what is found of parameters at the name of their function.
pub fn found_of_parameters(params: &[Parameter]) -> Option<Broken>
    ensures { (n : Numbering) → result ≡ found_of_all (map (parameter_at n) params.now) }
{
    let mut found = None;
    let mut left = params.len();
    while left > 0 {
        left -= 1;
        found = least(params[left].found, found);
    }
    found
}

/// The first of what is broken at the names of parameters, if anything is.
pub fn first_of_parameters(params: &[Parameter]) -> Option<Fault>
    ensures { (n : Numbering) → IsFirstOf (faults_of_all (map (parameter_at n) params.now)) result }
{
    let mut first = None;
    let mut left = params.len();
    while left > 0 {
        left -= 1;
        first = first_of(fault_of(params[left]), first);
    }
    first
}

/// The first of what is broken at the name of a parameter: a name that the list has before it is rule 2, a type that is `void` rule 3.
fn fault_of(param: Parameter) -> Option<Fault>
    ensures { IsFirstOf (faults_at param.place param.again param.incomplete) result }
{
    match param.place {
        None => None,
        Some(place) => first_of(
            unless(!param.again, place, Broken::Rule(2)),
            unless(!param.incomplete, place, Broken::Rule(3)),
        ),
    }
}
