ghost use Rattle.std.specs.Prelude.{◌≡◌, ◌*◌, min};
ghost use Rattle.cbase.specs.Layout.{pointer_bytes};
ghost use Rattle.cbase.specs.KeptRows.{integer_part};

use crate::abi::Abi;

/// What a type is made of once its arrays are taken off.
#[derive(Clone, Copy, Debug, PartialEq, Eq)]
pub enum RowPart {
    /// `void`, or an integer of a size that there is none of.
    Unsized,
    /// A number or a pointer of so many bytes.
    Scalar(u8),
    /// The struct of that number.
    Struct(u32),
}

/// A type as a row of equal parts: an array of arrays is one row.
#[derive(Clone, Copy, Debug, PartialEq, Eq)]
pub struct Row {
    /// How many parts there are; 65,537 stands for every larger number as well.
    pub count: u32,
    /// What each of them is.
    pub part: RowPart,
}

/// What every number of parts above 65,536 is kept as.
const TOO_MANY: u64 = 65_537;

/// How many bytes a pointer has.
pub fn pointer_bytes(abi: Abi) -> u8
    ensures { result ≡ pointer_bytes abi }
{
    match abi {
        Abi::Lp64 | Abi::Llp64 => 8,
    }
}

/// One number of so many bytes, if there are integers of that size.
pub fn integer_part(bytes: u8) -> RowPart
    ensures { result ≡ integer_part bytes }
{
    match bytes {
        1 | 2 | 4 | 8 => RowPart::Scalar(bytes),
        _ => RowPart::Unsized,
    }
}

/// How many parts an array of so many `items` has, each of which has so many `parts`.
pub fn parts_of(parts: u32, items: u64) -> u32
    ensures { result ≡ min (parts * items) 65537 }
{
    items.saturating_mul(parts as u64).min(TOO_MANY) as u32
}
