ghost use Rattle.std.specs.Prelude.{◌≡◌, ◌++◌, OnOk};
ghost use Rattle.items.specs.Objects.{link_rows, static_rows};

use crate::declarations::{hand_object, token_by_now};
use cbase::{Declared, NoMemory, Place};
use expressions::{Context, HandedRow};
use typing::environment::DeclaredType;

/// Hands on the declaration of an object outside of functions, by the name that declared it first (C11 6.2.2p2).
pub(crate) fn hand_link(context: &mut Context, name: &Declared) -> Result<(), NoMemory>
    ensures { OnOk result (context.new ≡ record context.old { handed = context.old.handed ++ link_rows name.now context.old }) }
{
    let first = token_by_now(context.linked(name.name.as_slice()), 0);
    context.hand_on(HandedRow::Link {
        token: name.place.at,
        first,
    })
}

/// Hands on an object that a declaration is the first to define, where it has a type; it lives as long as the program runs (C11 6.2.4p3).
pub(crate) fn hand_static(
    context: &mut Context,
    listed: bool,
    place: Place,
    ctype: DeclaredType,
    zeroed: bool,
) -> Result<(), NoMemory>
    ensures { OnOk result (context.new ≡ record context.old { handed = context.old.handed ++ static_rows listed place ctype zeroed }) }
{
    if !listed {
        return Ok(());
    }
    match ctype {
        DeclaredType::Whole(number) => hand_object(context, place, true, number, zeroed),
        DeclaredType::UnsizedArray(_) => Ok(()),
    }
}
