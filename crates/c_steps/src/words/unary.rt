//! Unary operators.
ghost use Rattle.std.specs.Prelude.{◌≡◌};
ghost use Rattle.typing.specs.values.Values.{of_unary};
ghost use Rattle.c_machine.specs.Words.{applied};

use bytes_core::{Memory, Word};
use c_machine::{Kind, WholeType};
use cbase::UnaryOp;
use typing::values::unary_value;

/// What a unary operator makes of a value (C11 6.5.3.3). It is `None` where the operator makes nothing of values of the type.
pub fn applied(memory: &Memory, op: UnaryOp, kind: Kind, word: Word) -> Option<Word>
    ensures { result ≡ applied memory.now op kind word }
{
    match kind {
        Kind::Integer(of) => {
            let bits = of_integer(op, of, memory.address(word))?;
            Some(Word::Plain(bits))
        }
        Kind::Pointer(_) | Kind::Array(_) | Kind::Struct(_) | Kind::Void => None,
    }
}

/// What a unary operator makes of an integer.
fn of_integer(op: UnaryOp, of: WholeType, bits: u64) -> Option<u64>
    ensures { result ≡ of_unary op of bits }
{
    unary_value(op, Some(of.get()), Some(bits))
}
