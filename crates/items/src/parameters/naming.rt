ghost use Rattle.std.specs.Prelude.{◌≡◌, ◌<◌, ◌++◌, ℕ, map, length, All, IfOk};
ghost use Rattle.cbase.specs.declared.abi.Abi.{Abi};
ghost use Rattle.typing.specs.ctypes.Kinds.{kind_of};
ghost use Rattle.typing.specs.Declarations.{function_name_faults, found_of_all, faults_of_all, is_array, is_typedef};
ghost use Rattle.typing.specs.Faults.{least};
ghost use Rattle.expressions.specs.Context.{Agrees};
ghost use Rattle.expressions.specs.Numbers.{Numbering};
ghost use Rattle.expressions.specs.Settled.{IsFirstOf};
ghost use Rattle.items.specs.parameters.Named.{IsNamed};
ghost use Rattle.items.specs.parameters.Parameters.{parameter_at};

use crate::parameters::joining::{first_of_parameters, found_of_parameters, types_of};
use crate::parameters::linking::{declare_function, is_again};
use crate::parameters::parameter::Parameter;
use cbase::{Declared, NoMemory, Place, Storage};
use expressions::{Context, Found, NamedType, all_at, first_of, least, pointers_to, unless};
use std::alloc::Global;
use typing::Fault;
use typing::ctypes::Broken;

/// The name of a function behind its parameters: what is broken at it, or it is declared (C11 6.7.6.3).
///
/// Want of memory is the only error, and nothing is said of the context then.
pub(crate) fn take_function(
    alloc: Global,
    context: &mut Context,
    storage: Storage,
    base: NamedType,
    name: &Declared,
    params: &[Parameter],
) -> Result<Found<()>, NoMemory>
    requires base { base.ctype < length context.old.types }
    requires params { All (λ param. param.ctype < length context.old.types) params.now }
    ensures { (abi : Abi) → IfOk result (λ found. IsNamed abi storage base name.now params.now context.old context.new found) }
{
    let result_type = pointers_to(context, base.ctype, name.stars)?;
    let types = types_of(alloc, params)?;
    let again = is_again(context, name.name.as_slice(), result_type, types.as_slice());
    let found = least(base.found, found_of_parameters(params));
    let array = context.item(result_type).is_some();
    let here = function_fault(name.place, found, storage, again, array);
    match first_of(here, first_of_parameters(params)) {
        Some(fault) => Ok(Found::Refused(fault)),
        None => {
            declare_function(alloc, context, name.name.as_slice(), result_type, types)?;
            Ok(Found::Passes(()))
        }
    }
}

/// The first of what is broken at the name of a function, if anything is: what is found of its words and of its parameters; a typedef of a function is
/// construct 20, a name that is declared as another thing rule 2, a result that is an array rule 4 (C11 6.7.6.3p1).
pub fn function_fault(
    place: Place,
    found: Option<Broken>,
    storage: Storage,
    again: bool,
    array: bool,
) -> Option<Fault>
    ensures { IsFirstOf (function_name_faults place found (is_typedef storage) again array) result }
{
    let named = unless(!is_typedef(storage), place, Broken::Construct(20));
    let once = unless(!again, place, Broken::Rule(2));
    let returned = unless(!array, place, Broken::Rule(4));
    first_of(
        all_at(place, found),
        first_of(named, first_of(once, returned)),
    )
}

/// Whether a declaration is a typedef.
fn is_typedef(storage: Storage) -> bool
    ensures { result ≡ is_typedef storage }
{
    match storage {
        Storage::Typedef => true,
        Storage::Plain | Storage::Extern | Storage::Static => false,
    }
}
