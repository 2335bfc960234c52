ghost use Rattle.std.specs.Prelude.{◌≡◌, ◌<◌, length};
ghost use Rattle.typing.specs.ctypes.Operands.{operand_of, seen_at, SeenBelow};

use crate::ctypes::kind::Kind;
use crate::ctypes::types::Types;

/// What is known of an operand.
#[derive(Clone, Copy)]
pub struct Operand {
    /// The number of its own type, in which an array is no pointer yet.
    pub ctype: u32,
    /// Whether it is an lvalue (C11 6.3.2.1p1).
    pub lvalue: bool,
    /// Whether it is a null pointer constant: an integer constant expression 0, or such a one that is cast to
    /// `void *` (C11 6.3.2.3p3).
    pub null: bool,
}

/// An operand with the kind of its type.
#[derive(Clone, Copy)]
pub(crate) struct Seen {
    /// The number of its type.
    pub(crate) ctype: u32,
    /// What operators ask of it.
    pub(crate) kind: Kind,
    /// Whether it is an lvalue.
    pub(crate) lvalue: bool,
    /// Whether it is a null pointer constant.
    pub(crate) null: bool,
}

impl Operand {
    /// The operand with the kind of its type.
    pub(crate) fn seen(self, types: &Types) -> Seen
        requires { self.ctype < length types.now.types }
        ensures is { seen_at types.now.types result ≡ operand_of types.now self }
        ensures below { SeenBelow (length types.now.types) result }
    {
        Seen {
            ctype: self.ctype,
            kind: Kind::of(types, self.ctype),
            lvalue: self.lvalue,
            null: self.null,
        }
    }
}
