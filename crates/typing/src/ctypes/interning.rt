ghost use Rattle.std.specs.Prelude.{◌≡◌, ◌<◌, ◌↔◌, List, length, IsTrue, IfOk, OnErr};
ghost use Rattle.cbase.specs.declared.ctype.CType.{CType};
ghost use Rattle.typing.specs.ctypes.Table.{types_of, type_of, type_at, NamesBelow, IsTable, Grows, Interns};
ghost use Rattle.typing.specs.ctypes.Structs.{read_off};
ghost use Rattle.typing.specs.ctypes.Kept.{IsRow, AreRows, AreTables};

use crate::ctypes::shape::Shape;
use crate::ctypes::structs::Entry;
use cbase::{Abi, NoMemory, Row, RowPart, integer_part, parts_of, pointer_bytes};
use indexmap::IndexSet;

/// The number of a shape's type, which is put behind the others where it is new, with its row.
pub(crate) fn intern(
    shapes: &mut IndexSet<Shape>,
    rows: &mut Vec<Row>,
    structs: &[Entry],
    shape: Shape,
) -> Result<u32, NoMemory>
    requires tables { AreTables shapes.old.keys rows.old.items structs.now }
    requires below { NamesBelow (length (types_of shapes.old.keys)) shape }
    ensures tables { AreTables shapes.new.keys rows.new.items structs.now }
    ensures ok { IfOk result (λ number. Interns (types_of shapes.old.keys) (type_of (types_of shapes.old.keys) shape) (types_of shapes.new.keys) number) }
    ensures structs { read_off (types_of shapes.new.keys) structs.now ≡ read_off (types_of shapes.old.keys) structs.now }
    ensures err { OnErr result (types_of shapes.new.keys ≡ types_of shapes.old.keys) }
{
    let row = row_of(rows, shape);
    rows.push(row)?;
    let number = put_shape(shapes, shape);
    rows.truncate(shapes.len());
    number
}

/// The row of a shape's type.
fn row_of(rows: &[Row], shape: Shape) -> Row
    requires below { NamesBelow (length rows.now) shape }
    ensures { (types : List CType) → AreRows types rows.now → IsRow (type_of types shape) result }
{
    match shape {
        Shape::Void => Row {
            count: 1,
            part: RowPart::Unsized,
        },
        Shape::Bool => Row {
            count: 1,
            part: RowPart::Scalar(1),
        },
        Shape::Int { bytes, .. } => Row {
            count: 1,
            part: integer_part(bytes),
        },
        Shape::Pointer(_) => Row {
            count: 1,
            part: RowPart::Scalar(pointer_bytes(Abi::Lp64)),
        },
        Shape::Struct(number) => Row {
            count: 1,
            part: RowPart::Struct(number),
        },
        Shape::Array(item, items) => {
            let row = rows[item as usize];
            Row {
                count: parts_of(row.count, items),
                part: row.part,
            }
        }
    }
}

/// The number of a shape's type, which is put behind the others where it is new.
fn put_shape(shapes: &mut IndexSet<Shape>, shape: Shape) -> Result<u32, NoMemory>
    requires table { IsTable shapes.old.keys }
    requires below { NamesBelow (length (types_of shapes.old.keys)) shape }
    ensures table { IsTable shapes.new.keys }
    ensures ok { IfOk result (λ number. Interns (types_of shapes.old.keys) (type_of (types_of shapes.old.keys) shape) (types_of shapes.new.keys) number) }
    ensures grows { Grows (types_of shapes.old.keys) (type_of (types_of shapes.old.keys) shape) (types_of shapes.new.keys) }
    ensures err { OnErr result (types_of shapes.new.keys ≡ types_of shapes.old.keys) }
{
    if shapes.len() >= u32::MAX as usize {
        return Err(NoMemory);
    }
    let (number, _) = shapes.insert_full(shape)?;
    Ok(number as u32)
}

/// The shape of a number.
#[tactic(auto, using(crate::proofs::ctypes::Tables::shape_found, crate::proofs::ctypes::Tables::shape_stands))]
pub(crate) fn shape_at(shapes: &IndexSet<Shape>, number: u32) -> Shape
    requires table { IsTable shapes.now.keys }
    requires inside { number < length (types_of shapes.now.keys) }
    ensures is { type_at (types_of shapes.now.keys) number ≡ type_of (types_of shapes.now.keys) result }
    ensures below { NamesBelow number result }
{
    *shapes.get_index(number as usize).unwrap()
}

/// Whether two numbers have one type.
pub(crate) fn same_number(shapes: &IndexSet<Shape>, first: u32, second: u32) -> bool
    requires table { IsTable shapes.now.keys }
    requires first { first < length (types_of shapes.now.keys) }
    requires second { second < length (types_of shapes.now.keys) }
    ensures { IsTrue result ↔ (type_at (types_of shapes.now.keys) first ≡ type_at (types_of shapes.now.keys) second) }
{
    first == second
}
