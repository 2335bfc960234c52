ghost use Rattle.std.specs.Prelude.{◌≡◌, ◌++◌, ◌∷◌, [], OnOk};
ghost use Rattle.expressions.specs.declared.handed_row.HandedRow.TheVariants.{Object as ObjectRow};
ghost use Rattle.items.specs.declarations.Given.{object_rows};

use cbase::{NoMemory, Place, Storage};
use expressions::{Context, HandedRow};
use typing::environment::DeclaredType;

/// Hands on an object without an initialiser that a declaration of that storage word makes at a place, where it has a type; what has linkage and a
/// typedef are none.
pub(crate) fn hand_declared(
    context: &mut Context,
    place: Place,
    storage: Storage,
    ctype: DeclaredType,
) -> Result<(), NoMemory>
    ensures { OnOk result (context.new ≡ record context.old { handed = context.old.handed ++ object_rows place storage ctype }) }
{
    match ctype {
        DeclaredType::Whole(number) => match storage {
            Storage::Plain => hand_object(context, place, false, number, false),
            Storage::Static => hand_object(context, place, true, number, false),
            Storage::Typedef => Ok(()),
            Storage::Extern => Ok(()),
        },
        DeclaredType::UnsizedArray(_) => Ok(()),
    }
}

/// Hands on an object of the type of a number, and whether its initialiser stands in braces.
pub fn hand_object(
    context: &mut Context,
    place: Place,
    fixed: bool,
    ctype: u32,
    zeroed: bool,
) -> Result<(), NoMemory>
    ensures { OnOk result (context.new ≡ record context.old { handed = context.old.handed ++ ObjectRow place.at ctype fixed zeroed ∷ [] }) }
{
    context.hand_on(HandedRow::Object {
        token: place.at,
        ctype,
        fixed,
        zeroed,
    })
}
