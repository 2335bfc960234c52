ghost use Rattle.std.specs.Prelude.{◌≡◌};
ghost use Rattle.arithmetic_rows.specs.Answered.{answered};

use arithmetic::{Op, Size, complement, compute, convert, convert_to_truth, equal, negate};

/// What is asked of two integers, or of the left one alone.
#[derive(Clone, Copy, Debug, PartialEq, Eq)]
pub enum Ask {
    /// The result of an operator on both.
    Compute(Op),
    /// Whether both are equal.
    Equal,
    /// The opposite.
    Negate,
    /// All other bits.
    Complement,
    /// The integer at another size.
    Convert(Size),
    /// The integer as a `_Bool`.
    Truth,
}

/// A row: what is asked, of which type, and the two integers.
#[derive(Clone, Copy, Debug, PartialEq, Eq)]
pub struct Row {
    pub ask: Ask,
    pub size: Size,
    pub signed: bool,
    pub left: u64,
    pub right: u64,
}

/// The answer to a row.
pub fn answer(row: Row) -> Option<u64>
    ensures { result ≡ answered row.ask row.size row.signed row.left row.right }
{
    let Row {
        ask,
        size,
        signed,
        left,
        right,
    } = row;
    match ask {
        Ask::Compute(op) => compute(op, size, signed, left, right),
        Ask::Equal => Some(u64::from(equal(size, left, right))),
        Ask::Negate => Some(negate(size, left)),
        Ask::Complement => Some(complement(size, left)),
        Ask::Convert(to) => Some(convert(size, signed, to, left)),
        Ask::Truth => Some(convert_to_truth(size, left)),
    }
}
