//! Lists of objects whose sizes are kept.
ghost use Rattle.std.specs.Prelude.{[], ◌∷◌, map, reverse, IfOk};
ghost use Rattle.c_text.specs.Kept.{IsPushed};

use crate::fixed_object::FixedObject;
use c_machine::Object;
use cbase::NoMemory;

/// Pushes an object, where its size is kept, and says whether it is.
pub(crate) fn push_object(
    objects: &mut Vec<Object>,
    object: Option<Object>,
) -> Result<bool, NoMemory>
    ensures { IfOk result (λ whole. IsPushed objects.old.items (object ∷ []) whole objects.new.items) }
{
    match object {
        None => Ok(false),
        Some(object) => {
            objects.push(object)?;
            Ok(true)
        }
    }
}

/// Pushes objects, the last one first, where the size of each is kept, and says whether it is.
pub(crate) fn push_objects(
    objects: &mut Vec<Object>,
    rows: &mut Vec<FixedObject>,
) -> Result<bool, NoMemory>
    ensures { IfOk result (λ whole. IsPushed objects.old.items (map (λ row. row.object) (reverse rows.old.items)) whole objects.new.items) }
{
    while let Some(row) = rows.pop() {
        if !push_object(objects, row.object)? {
            return Ok(false);
        }
    }
    Ok(true)
}
