ghost use Rattle.std.specs.Prelude.{◌≡◌, ◌<◌, ℕ, length, map, option_map, IfOk};
ghost use Rattle.typing.specs.ctypes.Table.{type_at, type_of};
ghost use Rattle.typing.specs.Initialisers.{row_of, row_here, is_fixed, is_array_row, is_pointer_row, is_constant_row};
ghost use Rattle.expressions.specs.Context.{Agrees};
ghost use Rattle.expressions.specs.Numbers.{Numbering, handed_at};
ghost use Rattle.items.specs.initialisers.Constants.{row_at};

use cbase::NoMemory;
use expressions::{Context, HandedRow};
use typing::ctypes::Shape;
use typing::environment::{Entity, Lifetime};

/// What was handed on of an expression.
#[derive(Clone, Copy)]
pub(crate) struct Row {
    /// Its number.
    number: u32,
    /// The number of its own type, before an array becomes a pointer.
    ctype: u32,
    /// What it stands for, where it is a name.
    stands: Option<Entity>,
    /// Its value, where it is an integer constant expression.
    value: Option<u64>,
}

/// What was handed on of the expression of a number: the last row that there is, since an expression stands behind its parts. It is looked up from the back.
pub(crate) fn row_of(rows: &[HandedRow], number: u32) -> Option<Row>
    ensures { (n : Numbering) → row_of number (map (handed_at n) rows.now) ≡ option_map (row_at n) result }
{
    for at in 0..rows.len() {
        if let Some(row) = row_here(rows[rows.len() - 1 - at], number) {
            return Some(row);
        }
    }
    None
}

/// A row, where it is that of the expression of a number.
fn row_here(row: HandedRow, number: u32) -> Option<Row>
    ensures { (n : Numbering) → row_here number (handed_at n row) ≡ option_map (row_at n) result }
{
    match row {
        HandedRow::Expression {
            number: of,
            ctype,
            stands,
            value,
        } => {
            if of != number {
                return None;
            }
            Some(Row {
                number,
                ctype,
                stands,
                value,
            })
        }
        HandedRow::Store { .. } => None,
        HandedRow::Object { .. } => None,
        HandedRow::Link { .. } => None,
        HandedRow::Function { .. } => None,
        HandedRow::Parameter { .. } => None,
    }
}

/// Whether it stands for an object that lives as long as the program runs (C11 6.2.4p3).
pub(crate) fn is_fixed(row: Option<Row>) -> bool
    ensures { (n : Numbering) → is_fixed (option_map (row_at n) row) ≡ result }
{
    match row {
        None => false,
        Some(row) => match row.stands {
            Some(
                Entity::Object {
                    lifetime: Lifetime::Static,
                    ..
                },
            ) => true,
            _ => false,
        },
    }
}

/// Whether it is an integer constant expression (C11 6.6p6).
pub(crate) fn has_value(row: Option<Row>) -> bool
    ensures { (n : Numbering) → is_constant_row (option_map (row_at n) row) ≡ result }
{
    match row {
        None => false,
        Some(row) => row.value.is_some(),
    }
}

/// Whether its type is an array.
pub(crate) fn is_array(context: &Context, row: Option<Row>) -> Result<bool, NoMemory>
    ensures { IfOk result (λ is. (n : Numbering) → Agrees n context.now → is_array_row (option_map (row_at n) row) ≡ is) }
{
    let Some(row) = row else {
        return Ok(false);
    };
    match shape_of(context, row.ctype)? {
        Shape::Array(_, _) => Ok(true),
        _ => Ok(false),
    }
}

/// Whether its type is a pointer.
pub(crate) fn is_pointer(context: &Context, row: Option<Row>) -> Result<bool, NoMemory>
    ensures { IfOk result (λ is. (n : Numbering) → Agrees n context.now → is_pointer_row (option_map (row_at n) row) ≡ is) }
{
    let Some(row) = row else {
        return Ok(false);
    };
    match shape_of(context, row.ctype)? {
        Shape::Pointer(_) => Ok(true),
        _ => Ok(false),
    }
}

/// The type of a number, taken apart. A number that is of no type, which no row has, is answered as want of memory.
fn shape_of(context: &Context, number: u32) -> Result<Shape, NoMemory>
    ensures below { IfOk result (λ shape. number < length context.now.types) }
    ensures is { IfOk result (λ shape. type_at context.now.types number ≡ type_of context.now.types shape) }
{
    if !context.has_type(number) {
        return Err(NoMemory);
    }
    Ok(context.shape(number))
}
