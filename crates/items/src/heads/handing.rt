ghost use Rattle.std.specs.Prelude.{◌≡◌, ◌++◌, option_map, OnOk};
ghost use Rattle.typing.specs.Heads.{names_of};
ghost use Rattle.items.specs.Heads.{rows_of_head, rows_of_parameters};

use crate::heads::pairs::pairs;
use crate::heads::parts::Head;
use crate::heads::walking::params_of;
use crate::parameters::Parameter;
use cbase::{Declared, Identifier, NoMemory, Param};
use expressions::{Context, HandedRow};

/// Hands on a function that is defined, and behind it its parameters (C11 6.9.1); of a head without a body nothing.
pub(crate) fn hand_on_head(
    context: &mut Context,
    head: Head,
    name: &Declared,
    params: &[Parameter],
) -> Result<(), NoMemory>
    ensures { OnOk result (context.new ≡ record context.old { handed = context.old.handed ++ rows_of_head head name.now params.now }) }
{
    if !head.bodied {
        return Ok(());
    }
    context.hand_on(HandedRow::Function {
        token: name.place.at,
        result: head.result,
    })?;
    hand_on_each(context, params_of(name), params)
}

/// Hands on parameters, each by the name that it is declared with and the type that is kept of it, one behind the other.
fn hand_on_each(
    context: &mut Context,
    declared: &[Param],
    params: &[Parameter],
) -> Result<(), NoMemory>
    ensures { OnOk result (context.new ≡ record context.old { handed = context.old.handed ++ rows_of_parameters (names_of declared.now) params.now }) }
{
    for at in 0..pairs(declared.len(), params.len()) {
        context.hand_on(HandedRow::Parameter {
            token: token_of(&declared[at].name),
            ctype: params[at].ctype,
        })?;
    }
    Ok(())
}

/// How many tokens stand before the name of a parameter, where it has one.
fn token_of(name: &Option<Identifier>) -> Option<u32>
    ensures { result ≡ option_map (λ declared. declared.place.at) name.now }
{
    match name {
        None => None,
        Some(name) => Some(name.place.at),
    }
}
